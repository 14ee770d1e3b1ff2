//! A replay looks for the first fault, and what a trace is, is defined without any. These laws say that a run without a fault
//! is a trace, or possible in the moving world, and the other way round. Each holds for every network and every run, and runs
//! no code.
ghost use Rattle.std.specs.Prelude.{◌≡◌, true, List, None};
ghost use Rattle.wi_net.specs.Net.{Net};
ghost use Rattle.wi_net.specs.declared.bounds.Bounds.{Bounds};
ghost use Rattle.wi_net.specs.declared.parts.LinkId.{LinkId};
ghost use Rattle.wi_world.specs.declared.run.Run.{Run};
ghost use Rattle.wi_world.specs.Moves.{is_trace, is_possible_run};
ghost use Rattle.wi_trace.specs.Replays.{trace_fault, moving_fault};

/// A run has no fault under a set of failed links exactly where it is a trace under that set.
#[tactic(auto, using(crate::proofs::FaultLemmas::trace_fault_none, crate::proofs::FaultLemmas::none_trace_fault))]
pub fn a_run_without_a_fault_is_a_trace()
    ensures trace { (net : Net) (fails : List LinkId) (run : Run) → trace_fault net fails run ≡ None → is_trace net fails run ≡ true }
    ensures none { (net : Net) (fails : List LinkId) (run : Run) → is_trace net fails run ≡ true → trace_fault net fails run ≡ None }
{}

/// A run has no fault in the moving world exactly where each of its steps is possible and leads on, and its end can be.
#[tactic(auto, using(crate::proofs::FaultLemmas::moving_fault_none, crate::proofs::FaultLemmas::none_moving_fault))]
pub fn a_run_without_a_moving_fault_is_possible()
    ensures possible { (net : Net) (bounds : Bounds) (run : Run) → moving_fault net bounds run ≡ None → is_possible_run net bounds run ≡ true }
    ensures none { (net : Net) (bounds : Bounds) (run : Run) → is_possible_run net bounds run ≡ true → moving_fault net bounds run ≡ None }
{}
