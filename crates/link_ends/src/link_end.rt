//! One end of a connection on a link.

ghost use Rattle.sim_adapter.specs.Passes.{known_by};
ghost use Rattle.link_ends.specs.Beside.{IsOneWith};

use connection_core::End;
use sim_adapter::Pass;
use smbd_base::EndId;

/// One end of a connection beside its pass of a link (this project's own).
///
/// The calls, and their order: `open` first; then, while the end is not over, `submit` at any time, `drive` to do what comes next,
/// `take` where `is_ready`, `cut` where it is not cut; the readers at any time. `meet` sets both ends beside each other.
#[derive(Drop)]
pub struct LinkEnd {
    pub(crate) side: EndId,
    pub(crate) end: End,
    pub(crate) pass: Pass,
    /// Memory was wanting as a frame was taken: the pass has its Take, and the end has not.
    pub(crate) over: bool,
    ghost one: { IsOneWith side over end (known_by pass) },
}
