//! What can come up at all is found first, so that least summaries are looked for there alone; the rules are made for both, and
//! so twice. A least run may be far longer than all that it was found by, so one of more than 4,096 rules is refused before it
//! is unfolded.
ghost use Rattle.std.specs.Prelude.{◌≡◌, ℕ, ◌^◌, ◌<◌, ◌≤◌, List, Option, IsSome, IfSome, IfOk, IfErr, OnOk, option_map};
ghost use Rattle.wi_weight.specs.Weights.{EachBelow};
ghost use Rattle.wi_weight.specs.declared.kinds.Pair.{Pair};
ghost use Rattle.wi_weight.specs.declared.kinds.Terms.{Terms};
ghost use Rattle.wi_weight.specs.declared.kinds.Effort.{Effort};
ghost use Rattle.wi_quantity.specs.Weighing.{components};
ghost use Rattle.wi_pds.specs.Closed.{AreClosed};
ghost use Rattle.wi_witness.specs.GoalRuns.{IsNamedRun};
ghost use Rattle.wi_build.specs.Problems.{Problem, IsAnswering};
ghost use Rattle.wi_build.specs.Encodings.{encoding_of};
ghost use Rattle.wi_build.specs.Systems.{scale, rules_by};
ghost use Rattle.wi_decide.specs.Searches.{AllFitBelow, IsFound, IsEvidence, IsSearchRefused, IsWrittenDown, bound_with};
ghost use Rattle.wi_decide.specs.private.Tables.{IsTable, HasTable, IsNoTable, IsNotShown};

use crate::certificate::closed_of;
use crate::refused::SearchRefused;
use crate::spelling::run_of;
use std::alloc::Global;
use wi_base::NoMemory;
use wi_build::{LazySystem, Problem};
use wi_cert::Closed;
use wi_pds::{Heads, RuleId};
use wi_quantity::Weight;
use wi_reduce::reach;
use wi_saturate::{LeastRefused, Table, least};
use wi_witness::{UnfoldRefused, unfold};
use wi_world::Run;

/// The most rules that a goal run may have whose run is shown.
pub const EFFORT_LIMIT: u64 = 4_096;

/// A least matching moving run: what it weighs, and the run.
#[derive(Drop)]
pub struct LeastRun {
    /// The values of five terms, those that the vector hasn't being 0, then the effort.
    pub weight: Weight,
    pub run: Run,
}

/// What a search found below a cut, and what shows that there is nothing lighter.
#[derive(Drop)]
pub struct Searched {
    /// Without one, no matching moving run is below the cut.
    pub found: Option<LeastRun>,
    pub evidence: Evidence,
}

/// The least closed heads and pairs of a problem, and the table of their least summaries, as they were found. It takes as much memory as
/// the search.
#[derive(Drop)]
pub struct Evidence {
    heads: Heads,
    table: Table<Weight>,
}

impl Evidence {
    /// Writes it down for a checker: the least closed heads and pairs, and the rows that weigh less than the run that was found; without
    /// one, less than the cut.
    pub fn write_down(self, alloc: Global, problem: &Problem<'_>) -> Result<Closed, NoMemory>
        requires { (bound : Option (List ℕ)) × IsEvidence problem.now bound self }
        ensures { IfOk result (λ closed. (bound : Option (List ℕ)) → IsEvidence problem.now bound self → IsWrittenDown problem.now bound closed) }
    {
        problem.keeps();
        let Evidence { heads, table } = self;
        let closed = closed_of(alloc, problem.terms() as u32, heads, &table);
        drop(table);
        closed
    }
}

/// A least run that answers a problem, if one weighs less than the cut; without a cut any may. One is shown where its effort is at
/// most 4,096, and each component of its weight is at most 2^64 - 1.
pub fn search(
    alloc: Global,
    problem: &Problem<'_>,
    cut: Option<Weight>,
) -> Result<Searched, SearchRefused>
    ensures found { IfOk result (λ s. IsFound problem.now (option_map components cut) s.found) }
    ensures evidence { IfOk result (λ s. IsEvidence problem.now (bound_with (option_map components cut) s.found) s.evidence) }
    ensures fits { OnOk result (AllFitBelow problem.now (option_map components cut)) }
    ensures small { IfOk result (λ s. IfSome s.found (λ found. EachBelow (2 ^ 64) (components found.weight))) }
    ensures refused { IfErr result (IsSearchRefused problem.now (option_map components cut)) }
{
    let system = LazySystem::of(alloc, problem)?;
    let searched = search_by(alloc, &system, cut);
    drop(system);
    searched
}

// What is found for the problem of a system.
fn search_by(
    alloc: Global,
    system: &LazySystem<'_>,
    cut: Option<Weight>,
) -> Result<Searched, SearchRefused>
    ensures found { IfOk result (λ s. IsFound system.now (option_map components cut) s.found) }
    ensures evidence { IfOk result (λ s. IsEvidence system.now (bound_with (option_map components cut) s.found) s.evidence) }
    ensures fits { OnOk result (AllFitBelow system.now (option_map components cut)) }
    ensures small { IfOk result (λ s. IfSome s.found (λ found. EachBelow (2 ^ 64) (components found.weight))) }
    ensures refused { IfErr result (IsSearchRefused system.now (option_map components cut)) }
{
    system.keeps();
    let heads = reach(alloc, system)?;
    let table = table_of(alloc, system, &heads, cut)?;
    let found = found_of(alloc, system, &table)?;
    Ok(Searched {
        found,
        evidence: Evidence { heads, table },
    })
}

// The least summaries of heads below a cut, up to the goal.
fn table_of(
    alloc: Global,
    system: &LazySystem<'_>,
    heads: &Heads,
    cut: Option<Weight>,
) -> Result<Table<Weight>, SearchRefused>
    requires { AreClosed (rules_by (encoding_of system.now)) (0, 0) heads.now.heads heads.now.pairs }
    ensures table { IfOk result (λ table. IsTable system.now heads.now.heads cut table) }
    ensures refused { IfErr result (λ refused. IsNoTable system.now heads.now.heads cut refused) }
{
    system.keeps();
    match least(alloc, system, heads, (0, 0, 1), cut) {
        Ok(table) => Ok(table),
        Err(LeastRefused::Overflow(overflow)) => Err(SearchRefused::Overflow(overflow)),
        Err(LeastRefused::Memory) => Err(SearchRefused::Memory),
    }
}

// The least run that a table tells: without a run to the goal there is none below its cut.
fn found_of(
    alloc: Global,
    system: &LazySystem<'_>,
    table: &Table<Weight>,
) -> Result<Option<LeastRun>, SearchRefused>
    requires { (cut : Option (Pair Terms Effort)) × HasTable system.now cut table.now }
    ensures weight { IfOk result (λ found. option_map (λ f. f.weight) found ≡ table.now.best) }
    ensures found { IfOk result (λ found. (cut : Option (Pair Terms Effort)) → HasTable system.now cut table.now → IsFound system.now (option_map components cut) found) }
    ensures refused { IfErr result (λ refused. (cut : Option (Pair Terms Effort)) → HasTable system.now cut table.now → IsSearchRefused system.now (option_map components cut) refused) }
{
    system.keeps();
    let Some(weight) = table.best() else {
        return Ok(None);
    };
    let run = least_run(alloc, system, table)?;
    Ok(Some(LeastRun { weight, run }))
}

// The run of the network that a table's goal run spells.
fn least_run(
    alloc: Global,
    system: &LazySystem<'_>,
    table: &Table<Weight>,
) -> Result<Run, SearchRefused>
    requires table { (cut : Option (Pair Terms Effort)) × HasTable system.now cut table.now }
    requires reached { IsSome table.now.best }
    ensures run { IfOk result (λ run. IfSome table.now.best (λ w. IsAnswering system.now (components w) run)) }
    ensures short { OnOk result (IfSome table.now.best (λ w. w.second.count ≤ EFFORT_LIMIT)) }
    ensures refused { IfErr result (λ refused. IfSome table.now.best (λ w. IsNotShown w.second.count refused)) }
{
    system.keeps();
    let ids = goal_run(alloc, table)?;
    Ok(run_of(
        alloc,
        system.network(),
        system.layout(),
        system,
        ids.as_slice(),
    )?)
}

// The rules of a goal run of the goal's weight, if they aren't too many.
fn goal_run(alloc: Global, table: &Table<Weight>) -> Result<Vec<RuleId>, SearchRefused>
    requires table { (problem : Problem) × (cut : Option (Pair Terms Effort)) × HasTable problem cut table.now }
    requires reached { IsSome table.now.best }
    ensures run { IfOk result (λ ids. (problem : Problem) (cut : Option (Pair Terms Effort)) → HasTable problem cut table.now → IfSome table.now.best (λ w. IsNamedRun scale components (rules_by (encoding_of problem)) 0 0 1 ids.items (components w))) }
    ensures short { OnOk result (IfSome table.now.best (λ w. w.second.count ≤ EFFORT_LIMIT)) }
    ensures refused { IfErr result (λ refused. IfSome table.now.best (λ w. IsNotShown w.second.count refused)) }
{
    match unfold(alloc, table, EFFORT_LIMIT) {
        Ok(ids) => Ok(ids),
        Err(UnfoldRefused::TooLong { effort }) => Err(SearchRefused::TooLong(effort as u64)),
        Err(UnfoldRefused::Memory) => Err(SearchRefused::Memory),
    }
}
