//! Worked examples of made inputs.

ghost use Rattle.made_input.specs.Worked.{WorkedBytes};

/// The first bytes of some inputs, and those about the ends of their blocks.
pub fn worked_inputs()
    ensures { WorkedBytes }
{}
