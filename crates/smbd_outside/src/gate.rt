//! The gate that parts pass before a shared step.

/// Told of each shared step before it is made, so that a test can hold one part back. It changes nothing.
pub trait Gate {
    /// The part stands before the step. Parts: 0 is the client end, 1 the server end, 2 to 1 + W are the client's W
    /// workers, 2 + W to 1 + 2W the server's. Steps: 1 post, 2 emit, 3 take, 4 load, 5 fetch, 6 place, 7 unload,
    /// 8 submit, 9 cut.
    fn pass(&self, part: u8, step: u32);
}

/// A gate that does nothing.
#[derive(Clone, Copy, Debug, Default, PartialEq, Eq)]
pub struct OpenGate;

impl Gate for OpenGate {
    fn pass(&self, _part: u8, _step: u32) {}
}
