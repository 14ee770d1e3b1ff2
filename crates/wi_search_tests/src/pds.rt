//! Pushdown systems by example.
use crate::systems::efforts;
use std::alloc::Global;
use std::process::Abort;
use std::test::Fail;
use wi_base::NoMemory;
use wi_pds::{Heads, Rule, RuleList, System, rows_bound_runs};
use wi_weight::Effort;

// The tags of the rules of a head, in order.
const TAGS: [(u64, u32, &[u64]); 7] = [
    (0, 0, &[0]),
    (2, 1, &[1, 2]),
    (2, 0, &[3]),
    (3, 0, &[4]),
    (3, 1, &[]),
    (1, 0, &[]),
    (0, 2, &[]),
];

// Whether a head can be reached.
const REACHED: [(u64, u32, bool); 8] = [
    (0, 0, true),
    (2, 0, true),
    (2, 1, true),
    (3, 0, true),
    (0, 2, false),
    (1, 0, false),
    (3, 1, false),
    (4, 0, false),
];

fn are_tagged(rt: &impl Abort, rules: &[Rule<Effort>], tags: &[u64]) {
    assert_eq!(rt; rules.len(), tags.len());
    for (rule, tag) in rules.iter().zip(tags) {
        assert_eq!(rt; rule.tag, *tag);
    }
}

fn gives_rules(
    rt: &impl Abort,
    alloc: Global,
    list: &RuleList<Effort>,
    p: u64,
    g: u32,
    tags: &[u64],
) -> Result<(), NoMemory> {
    let rules = list.rules_of(alloc, p, g)?;
    are_tagged(rt, &rules, tags);
    drop(rules);
    Ok(())
}

fn gives_all_rules(
    rt: &impl Abort,
    alloc: Global,
    list: &RuleList<Effort>,
) -> Result<(), NoMemory> {
    assert_eq!(rt; list.start(), (0, 0));
    for (p, g, tags) in TAGS {
        gives_rules(rt, alloc, list, p, g, tags)?;
    }
    Ok(())
}

#[test]
fn a_list_gives_the_rules_of_each_head_in_order(rt: HostRuntime) -> Result<(), Fail> {
    let (list, heads) = efforts(rt.alloc())?;
    drop(heads);
    let given = gives_all_rules(&rt, rt.alloc(), &list);
    drop(list);
    Ok(given?)
}

fn are_found(rt: &impl Abort, heads: &Heads) {
    for (p, g, is_in) in REACHED {
        assert_eq!(rt; heads.contains(p, g), is_in);
    }
    for (upper, lower, is_in) in [(1, 0, true), (0, 1, false), (1, 1, false)] {
        assert_eq!(rt; heads.has_pair(upper, lower), is_in);
    }
}

#[test]
fn heads_and_pairs_are_found(rt: HostRuntime) -> Result<(), Fail> {
    let (list, heads) = efforts(rt.alloc())?;
    drop(list);
    are_found(&rt, &heads);
    drop(heads);
    Ok(())
}

#[test]
fn the_law_does_nothing(_rt: HostRuntime) -> Result<(), Fail> {
    rows_bound_runs::<Effort>();
    Ok(())
}
