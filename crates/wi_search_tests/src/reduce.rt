//! What can be reached, by example.
ghost use Rattle.std.specs.Prelude.{ℕ};
ghost use Rattle.wi_pds.specs.LeastClosed.{IsReached};

use crate::systems::{efforts, rule};
use std::alloc::Global;
use std::process::Abort;
use std::test::Fail;
use wi_base::{Listed, NoMemory};
use wi_pds::{Heads, Rule, RuleList, System, Word2};
use wi_reduce::reach;
use wi_weight::Effort;

fn system(rules: Vec<Rule<Effort>>) -> RuleList<Effort> {
    RuleList {
        start: (0, 0),
        rules: Listed::of(rules),
    }
}

// The system of two ways alone.
fn ways(alloc: Global) -> Result<RuleList<Effort>, NoMemory> {
    let (list, heads) = efforts(alloc)?;
    drop(heads);
    Ok(list)
}

// A system that may be asked for the rules of reachable heads alone, and has no memory for those of some heads: of those that it
// lists, or of all others.
#[derive(Drop)]
struct Scarce<'a> {
    list: RuleList<Effort>,
    heads: &'a [(u64, u32)],
    lacks_listed: bool,
}

impl System<Effort> for Scarce<'_> {
    ghost use Rattle.std.specs.Prelude.{ℕ, List};
    ghost use Rattle.wi_pds.specs.Rules.{rules_at};
    ghost use Rattle.wi_pds.specs.lemmas.Rules.{listed_name_heads};
    ghost use Rattle.wi_pds.specs.LeastClosed.{IsReached};

    ghost start_head = { λ s. s.list.start };

    ghost rules = { λ s. rules_at s.list.rules };

    ghost may_ask = { λ s. IsReached (rules_at s.list.rules) s.list.start };

    ghost names_head = { λ s. listed_name_heads s.list.rules };

    fn start(&self) -> (u64, u32) {
        self.list.start()
    }

    fn rules_of(&self, alloc: Global, p: u64, g: u32) -> Result<Vec<Rule<Effort>>, NoMemory> {
        if self.heads.contains(&(p, g)) == self.lacks_listed {
            return Err(NoMemory::Memory);
        }
        self.list.rules_of(alloc, p, g)
    }
}

// The heads and the pairs are these.
fn are_these(rt: &impl Abort, found: &Heads, heads: &[(u64, u32)], pairs: &[(u32, u32)]) {
    assert_eq!(rt; found.heads.as_slice(), heads);
    assert_eq!(rt; found.pairs.as_slice(), pairs);
}

// What is reached is these heads and pairs.
fn reaches<S: System<Effort>>(
    rt: &impl Abort,
    alloc: Global,
    sys: &S,
    heads: &[(u64, u32)],
    pairs: &[(u32, u32)],
) -> Result<(), NoMemory>
    requires { (p g : ℕ) → IsReached (S.rules sys.now) (S.start_head sys.now) p g → S.may_ask sys.now p g }
{
    let found = reach(alloc, sys)?;
    are_these(rt, &found, heads, pairs);
    drop(found);
    Ok(())
}

// What is reached in the system of two ways.
const HEADS: [(u64, u32); 4] = [(0, 0), (2, 0), (2, 1), (3, 0)];

const PAIRS: [(u32, u32); 1] = [(1, 0)];

fn are_looked_up(rt: &impl Abort, found: &Heads) {
    assert!(rt; found.contains(2, 1));
    assert!(rt; !found.contains(1, 0));
    assert!(rt; found.has_pair(1, 0));
    assert!(rt; !found.has_pair(0, 1));
}

#[test]
fn both_ways_are_reached(rt: HostRuntime) -> Result<(), Fail> {
    let list = ways(rt.alloc())?;
    let found = reach(rt.alloc(), &list);
    drop(list);
    let found = found?;
    are_these(&rt, &found, &HEADS, &PAIRS);
    are_looked_up(&rt, &found);
    drop(found);
    Ok(())
}

#[test]
fn want_of_memory_at_a_head_that_is_reached_is_told(rt: HostRuntime) -> Result<(), Fail> {
    let scarce = Scarce {
        list: ways(rt.alloc())?,
        heads: &[(2, 1)],
        lacks_listed: true,
    };
    let found = reach(rt.alloc(), &scarce);
    drop(scarce);
    assert!(rt; matches!(&found, Err(NoMemory::Memory)));
    drop(found);
    Ok(())
}

#[test]
fn no_other_head_is_asked_for(rt: HostRuntime) -> Result<(), Fail> {
    let scarce = Scarce {
        list: ways(rt.alloc())?,
        heads: &HEADS,
        lacks_listed: false,
    };
    let reached = reaches(&rt, rt.alloc(), &scarce, &HEADS, &PAIRS);
    drop(scarce);
    Ok(reached?)
}

// The lowest symbol stays below what is written above it, and comes to light in the state of the last pop.
#[test]
fn pairs_are_handed_on(rt: HostRuntime) -> Result<(), Fail> {
    let one = Effort { count: 1 };
    let rules = [
        rule(0, 0, 1, Word2::Two(1, 0), one, 0),
        rule(1, 1, 2, Word2::One(2), one, 0),
        rule(2, 2, 3, Word2::Two(3, 4), one, 0),
        rule(3, 3, 4, Word2::Empty, one, 0),
        rule(4, 4, 5, Word2::Empty, one, 0),
        rule(5, 0, 0, Word2::One(5), one, 0),
        rule(6, 6, 7, Word2::One(7), one, 0),
    ];
    let list = system(Vec::from_array(rt.alloc(), rules)?);
    let heads = [(0, 0), (0, 5), (1, 1), (2, 2), (3, 3), (4, 4), (5, 0)];
    let pairs = [(1, 0), (2, 0), (3, 4), (4, 0)];
    let reached = reaches(&rt, rt.alloc(), &list, &heads, &pairs);
    drop(list);
    Ok(reached?)
}
