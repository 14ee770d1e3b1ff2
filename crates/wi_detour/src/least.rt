//! A least run enters no router twice, so that its length and its links stay far below 64 bits: nothing but want of memory refuses a
//! detour.
ghost use Rattle.std.specs.Prelude.{◌≡◌, ◌<◌, true, None, List, IfOk, IfSome, IsSome, length};
ghost use Rattle.wi_net.specs.declared.parts.LinkId.{LinkId};
ghost use Rattle.wi_pds.specs.Closed.{AreClosed};
ghost use Rattle.wi_witness.specs.GoalRuns.{IsNamedRun};
ghost use Rattle.wi_detour.specs.Detours.{is_detour, IsLeastDetour};
ghost use Rattle.wi_detour.specs.Graphs.{exits_of};
ghost use Rattle.wi_detour.specs.private.Around.{Around, rules_around};
ghost use Rattle.wi_detour.specs.private.Tables.{scale, components, HasTable};

use crate::around::{Length, Ways};
use crate::graph::Graph;
use std::alloc::Global;
use wi_base::{Listed, NoMemory};
use wi_net::{LinkId, Network};
use wi_pds::{Heads, RuleId};
use wi_reduce::reach;
use wi_saturate::{LeastRefused, Table, least};
use wi_witness::{UnfoldRefused, unfold};

/// A least detour of a link, if it has one: a bypass of it (RFC 4090) outside its risk group, of the least sum of distances, and of
/// these one with the fewest links. Which of several is not said. Nothing but want of memory refuses it.
///
/// What it costs: the links of each router that can be come to are gone over twice, and those of the routers on the detour once more.
/// The rest is what `reach` and `least` take for a rule for each of these links.
pub fn detour(
    alloc: Global,
    net: &Network,
    graph: &Graph,
    link: LinkId,
) -> Result<Option<Listed<LinkId>>, NoMemory>
    requires link { link.0 < length net.now.links }
    requires graph { graph.now ≡ exits_of net.now }
    ensures found { IfOk result (λ found. IfSome found (IsLeastDetour net.now link)) }
    ensures none { IfOk result (λ found. found ≡ None → (via : List LinkId) → is_detour net.now link via ≡ true → ⊥) }
{
    let ways = Ways::around(net, graph, link);
    let heads = reach(alloc, &ways)?;
    let table = table_of(alloc, &ways, &heads);
    drop(heads);
    let table = table?;
    let found = via_of(alloc, &ways, &table);
    drop(table);
    found
}

// The least summaries of heads, up to the end.
fn table_of(alloc: Global, ways: &Ways<'_>, heads: &Heads) -> Result<Table<Length>, NoMemory>
    requires { AreClosed (rules_around ways.now) (0, 0) heads.now.heads heads.now.pairs }
    ensures { IfOk result (HasTable ways.now) }
{
    ways.keeps();
    match least(alloc, ways, heads, (0, 0, 1), None) {
        Ok(table) => Ok(table),
        Err(LeastRefused::Memory) => Err(NoMemory::Memory),
        Err(LeastRefused::Overflow(_)) => unreachable!(),
    }
}

// The detour that a table tells, if there is one.
fn via_of(
    alloc: Global,
    ways: &Ways<'_>,
    table: &Table<Length>,
) -> Result<Option<Listed<LinkId>>, NoMemory>
    requires { HasTable ways.now table.now }
    ensures found { IfOk result (λ found. IfSome found (IsLeastDetour ways.now.net ways.now.link)) }
    ensures none { IfOk result (λ found. found ≡ None → (via : List LinkId) → is_detour ways.now.net ways.now.link via ≡ true → ⊥) }
{
    ways.keeps();
    if table.best().is_none() {
        return Ok(None);
    }
    let ids = goal_run(alloc, ways, table)?;
    let via = ways.spelled(alloc, ids.as_slice())?;
    Ok(Some(Listed::of(via)))
}

// The rules of a run from the start to the end, of the least weight.
fn goal_run(alloc: Global, ways: &Ways<'_>, table: &Table<Length>) -> Result<Vec<RuleId>, NoMemory>
    requires table { HasTable ways.now table.now }
    requires reached { IsSome table.now.best }
    ensures { IfOk result (λ ids. IfSome table.now.best (λ w. IsNamedRun scale components (rules_around ways.now) 0 0 1 ids.items (components w))) }
{
    ways.keeps();
    match unfold(alloc, table, u64::MAX) {
        Ok(ids) => Ok(ids),
        Err(UnfoldRefused::Memory) => Err(NoMemory::Memory),
        Err(UnfoldRefused::TooLong { .. }) => unreachable!(),
    }
}
