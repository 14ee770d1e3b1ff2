//! All rules are made head by head, by the calls that make them on demand, so that both are the same. It goes over each spot
//! with each symbol, and a query mostly reaches far fewer: the program doesn't call it.
ghost use Rattle.std.specs.Prelude.{◌≡◌, ◌++◌, IfOk, OnOk};
ghost use Rattle.wi_build.specs.Encodings.{encoding_of};
ghost use Rattle.wi_build.specs.Systems.{spot_rules, all_rules};

use crate::head::Head;
use crate::lazy::LazySystem;
use crate::problem::Problem;
use std::alloc::Global;
use wi_base::{Listed, NoMemory};
use wi_pds::{Rule, RuleList};
use wi_quantity::Weight;

// Puts the rules of a spot at the end of a list.
fn push_spot(
    alloc: Global,
    system: &LazySystem<'_>,
    rules: &mut Vec<Rule<Weight>>,
    spot: u64,
) -> Result<(), NoMemory>
    ensures { OnOk result (rules.new.items ≡ rules.old.items ++ spot_rules (encoding_of system.now) spot) }
{
    system.keeps();
    for symbol in 0..system.labels() + 1 {
        let head = Head { spot, symbol };
        system.push_head(alloc, rules, head)?;
    }
    Ok(())
}

// The rules of a system.
fn list_of(alloc: Global, system: &LazySystem<'_>) -> Result<RuleList<Weight>, NoMemory>
    ensures start { IfOk result (λ list. list.start ≡ (0, 0)) }
    ensures rules { IfOk result (λ list. list.rules ≡ all_rules (encoding_of system.now)) }
{
    let mut rules = Vec::new(alloc);
    for spot in 0..system.layout().spots() {
        push_spot(alloc, system, &mut rules, spot)?;
    }
    Ok(RuleList {
        start: (0, 0),
        rules: Listed::of(rules),
    })
}

/// The rules of a problem, those of all heads in a list: by rising spot, then by rising symbol.
pub fn build(alloc: Global, problem: &Problem<'_>) -> Result<RuleList<Weight>, NoMemory>
    ensures start { IfOk result (λ list. list.start ≡ (0, 0)) }
    ensures rules { IfOk result (λ list. list.rules ≡ all_rules (encoding_of problem.now)) }
{
    let system = LazySystem::of(alloc, problem)?;
    let list = list_of(alloc, &system);
    drop(system);
    list
}
