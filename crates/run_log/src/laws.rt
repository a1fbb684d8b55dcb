//! Laws of the lines of runs. Each is the contract of a function that does nothing.

ghost use Rattle.std.specs.Prelude.{◌≡◌, ◌+◌, ◌++◌, ◌<◌, ◌^◌, List, [], ◌∷◌, length};
ghost use Rattle.std.specs.List.{filter, count_by};
ghost use mathlib.Core.List.{IsPrefix};
ghost use Rattle.smbd_base.specs.declared.end_id.EndId.{EndId as Whose};
ghost use Rattle.smbd_base.specs.declared.end_id.EndId.TheVariants.{Client, Server};
ghost use Rattle.smbd_base.specs.declared.event.Event.{Event as Happening};
ghost use Rattle.smbd_base.specs.Joint.{AreJoint};
ghost use Rattle.smbd_base.specs.Limits.{Limits, IsLawful};
ghost use Rattle.event_log.specs.declared.side.Side.TheVariants.{C, S};
ghost use Rattle.event_log.specs.declared.log_line.LogLine.TheVariants.{Post};
ghost use Rattle.event_log.specs.Lines.{line_text};
ghost use Rattle.world_core.specs.declared.choice.Choice.{Choice as Turn};
ghost use Rattle.world_core.specs.Choices.{end_of};
ghost use Rattle.world_core.specs.Run.{State, past_of, event_chosen, step_of};
ghost use Rattle.run_log.specs.RunLines.{run_lines, line_added, history_lines, AreTellable, is_line_of, is_of};
ghost use Rattle.run_log.specs.Runs.{IsRun};

/// The order of a run names each end as often as that end has events.
pub fn events_in_order()
    ensures { (state : State) (end : Whose) → IsRun state → count_by (is_of end) state.order ≡ length (past_of end state) }
{}

/// No line is left out: each event has its line, those of one end stand in the order of its history, and the first two are
/// the opening posts, the client's and then the server's.
pub fn lines_of_runs()
    ensures all { (state : State) → IsRun state → length (run_lines state) ≡ length state.client + length state.server }
    ensures each { (state : State) (end : Whose) → IsRun state → filter (is_line_of end) (run_lines state) ≡ history_lines end (past_of end state) }
    ensures opening { (state : State) → IsRun state →
        IsPrefix (line_text C (Post state.client_limits.credits) ∷ line_text S (Post state.server_limits.credits) ∷ []) (run_lines state) }
{}

/// A choice that adds an event adds its line, after all others. A choice that adds none adds no line.
pub fn choices_add_lines()
    ensures { (state : State) (choice : Turn) →
        run_lines (step_of state choice) ≡ run_lines state ++ line_added (end_of choice) (past_of (end_of choice) state) (event_chosen state choice) }
{}

/// Each event of two joint histories has a line that can be written and read: what is posted, submitted, sent and taken lies
/// in the ranges of a log.
pub fn joint_histories_can_be_told()
    ensures client { (client_limits server_limits : Limits) (client server : List Happening) → IsLawful client_limits → IsLawful server_limits
        → AreJoint client_limits server_limits client server → length client < 2 ^ 62 → AreTellable Client client }
    ensures server { (client_limits server_limits : Limits) (client server : List Happening) → IsLawful client_limits → IsLawful server_limits
        → AreJoint client_limits server_limits client server → length server < 2 ^ 62 → AreTellable Server server }
{}
