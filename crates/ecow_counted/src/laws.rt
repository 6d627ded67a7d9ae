//! Laws about runs of commands on lists that share blocks: what sharing copies, and what growing
//! moves, in every run.
ghost use Rattle.std.specs.Prelude.{ℕ, ◌+◌, ◌*◌, ◌≤◌, List};
ghost use Rattle.std.specs.FinMap as finite;
ghost use Rattle.ecow_model.specs.CountedRun.{CountedRun, CopiesAtMostEagerly, MovesArePaid, copied_in_run, eager_in_run, input_in_run, moved_in_run};
ghost use Rattle.ecow_model.specs.Names.{IsSharing, Names};
ghost use Rattle.ecow_model.specs.declared.command.Outcome.{Outcome};
ghost use Rattle.ecow_model.specs.declared.vecs.VecCommand.{VecCommand};

/// In a run that starts without names, sharing copies at most as many elements as copying at each
/// clone would, and growing moves at most as many as are copied, plus twice as many as the commands
/// put in or reserve capacity for.
///
/// In a run that starts with names, the same bounds hold if what earlier commands left to be paid
/// is counted in. Every run keeps the sharing of blocks consistent.
pub fn runs_are_paid<T>()
    ensures sharing { (commands : List (VecCommand T)) (outcomes : List (Outcome T)) (old : Names T)
        (new : Names T) → IsSharing old → CountedRun old commands outcomes new → IsSharing new }
    ensures copies { (commands : List (VecCommand T)) (outcomes : List (Outcome T)) (old : Names T)
        (new : Names T) → CopiesAtMostEagerly old commands outcomes new }
    ensures moves { (commands : List (VecCommand T)) (outcomes : List (Outcome T)) (old : Names T)
        (new : Names T) → MovesArePaid old commands outcomes new }
    ensures copies_from_nothing { (commands : List (VecCommand T)) (outcomes : List (Outcome T))
        (new : Names T) → CountedRun finite.empty commands outcomes new
        → copied_in_run finite.empty commands outcomes
        ≤ eager_in_run finite.empty commands outcomes }
    ensures moves_from_nothing { (commands : List (VecCommand T)) (outcomes : List (Outcome T))
        (new : Names T) → CountedRun finite.empty commands outcomes new
        → moved_in_run finite.empty commands outcomes ≤ copied_in_run finite.empty commands outcomes
        + 2 * input_in_run finite.empty commands outcomes }
{}
