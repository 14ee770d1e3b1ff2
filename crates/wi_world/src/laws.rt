//! The moving world is defined by courses of events, and the laws say that none has to be looked for: a run moves where each
//! hop, and its end, is possible by itself. They also tie moving runs to failures that stay, so that a no on the first is a no on the others.
//! Each holds for every network and every bounds of it, and runs no code.
ghost use Rattle.std.specs.Prelude.{◌≡◌, ℕ, true, List, []};
ghost use Rattle.wi_net.specs.Net.{Net};
ghost use Rattle.wi_net.specs.declared.bounds.Bounds.{Bounds};
ghost use Rattle.wi_net.specs.declared.parts.LinkId.{LinkId};
ghost use Rattle.wi_world.specs.declared.run.Run.{Run};
ghost use Rattle.wi_world.specs.declared.answer.Verdict.{Verdict};
ghost use Rattle.wi_world.specs.Moves.{is_trace, is_possible_run, IsAllowed, IsBounded};
ghost use Rattle.wi_world.specs.Moving.{IsMovingRun};
ghost use Rattle.wi_world.specs.Runs.{verdict_of};

/// A run moves exactly where each of its steps is a possible hop and its end can be: whatever the course of failures, repairs and hops.
pub fn moving_runs_are_possible_runs()
    ensures forwards { (net : Net) (bounds : Bounds) (run : Run) → IsBounded net bounds → IsMovingRun net bounds run → is_possible_run net bounds run ≡ true }
    ensures backwards { (net : Net) (bounds : Bounds) (run : Run) → IsBounded net bounds → is_possible_run net bounds run ≡ true → IsMovingRun net bounds run }
{}

/// A trace under failures that the bounds allow is a run of the moving world: those fail first.
pub fn traces_are_moving_runs()
    ensures { (net : Net) (bounds : Bounds) (fails : List LinkId) (run : Run) → IsBounded net bounds → IsAllowed net bounds fails → is_trace net fails run ≡ true → IsMovingRun net bounds run }
{}

/// A moving run that fits is a trace under its own needs, and the bounds allow those. It is the same run, and so weighs
/// the same.
pub fn fitting_runs_are_traces()
    ensures trace { (net : Net) (bounds : Bounds) (fails : List LinkId) (run : Run) → IsBounded net bounds → IsMovingRun net bounds run → verdict_of net bounds run ≡ Verdict.Fits fails → is_trace net fails run ≡ true }
    ensures allowed { (net : Net) (bounds : Bounds) (fails : List LinkId) (run : Run) → IsBounded net bounds → IsMovingRun net bounds run → verdict_of net bounds run ≡ Verdict.Fits fails → IsAllowed net bounds fails }
{}

/// Where nothing may fail besides what is down, the moving runs are the traces under what is down, and each fits: with
/// nothing known to be down, the traces under the empty set.
pub fn without_failures()
    ensures trace { (net : Net) (bounds : Bounds) (run : Run) → IsBounded net bounds → bounds.k ≡ 0 → IsMovingRun net bounds run → is_trace net bounds.down run ≡ true }
    ensures moving { (net : Net) (bounds : Bounds) (run : Run) → IsBounded net bounds → is_trace net bounds.down run ≡ true → IsMovingRun net bounds run }
    ensures fits { (net : Net) (bounds : Bounds) (run : Run) → IsBounded net bounds → bounds.k ≡ 0 → IsMovingRun net bounds run → verdict_of net bounds run ≡ Verdict.Fits bounds.down }
{}
