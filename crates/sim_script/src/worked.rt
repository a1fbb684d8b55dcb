//! Worked examples of scripts.

ghost use Rattle.sim_script.specs.Worked.{IsWorked, AreNoLines};

/// What some texts are as scripts, and bytes that are no line.
pub fn worked_scripts()
    ensures scripts { IsWorked }
    ensures faults { AreNoLines }
{}
