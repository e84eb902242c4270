//! Laws of commands one after the other: functions that do nothing, and whose clauses say what the commands lead to.
ghost use Rattle.std.specs.Prelude.{◌≡◌, ◌+◌, List, ◌++◌};
ghost use Rattle.cept_codes.specs.declared.command.Command.{Command};
ghost use Rattle.cept_profile.specs.State.{State, state};
ghost use Rattle.cept_profile.specs.Valid.{AllValid, IsValidState};
ghost use Rattle.cept_repaint.specs.InTurn.{rows_in_reach_of_all, rows_renewed_by_all, state_after_all};

/// Of commands with others after them: the others lead on from the state after the first, and the rows in reach
/// and the renewed ones are those of both together.
pub fn commands_after_others()
    ensures after { (s : State) (first second : List Command)
        → state_after_all s (first ++ second) ≡ state_after_all (state_after_all s first) second }
    ensures in_reach { (s : State) (first second : List Command)
        → rows_in_reach_of_all s (first ++ second)
        ≡ rows_in_reach_of_all s first + rows_in_reach_of_all (state_after_all s first) second }
    ensures renewed { (s : State) (first second : List Command)
        → rows_renewed_by_all s (first ++ second)
        ≡ rows_renewed_by_all s first + rows_renewed_by_all (state_after_all s first) second }
{}

/// Valid commands lead from the state of a history to that of both together, and from a valid state to a valid one.
pub fn commands_after_a_history()
    ensures state { (history commands : List Command) → AllValid history → AllValid commands
        → state (history ++ commands) ≡ state_after_all (state history) commands }
    ensures valid { (s : State) (commands : List Command) → IsValidState s → AllValid commands
        → IsValidState (state_after_all s commands) }
{}
