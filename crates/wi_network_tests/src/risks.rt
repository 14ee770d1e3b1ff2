//! Groups under failed links, and risk groups, by example.
use crate::common::{IP1, S10, equal, groups, set, set_is};
use std::alloc::Global;
use std::process::Abort;
use std::test::Fail;
use wi_labels::Label;
use wi_net::{Group, LinkId, Network, first_active};
use wi_samples::{N1, N1_FIBER, N2, N2_FIBER, Sample, Way, network};

// Failed links, and the first group that is active then.
type Active<'a> = (&'a [u32], Option<usize>);

const WAY_ACTIVE: &[Active] = &[
    (&[], Some(0)),
    (&[0, 2, 4], Some(0)),
    (&[1], Some(1)),
    (&[1, 2], None),
];

const PAIR_ACTIVE: &[Active] = &[(&[1], Some(0)), (&[2], Some(0)), (&[1, 2], None)];

fn active_is(
    rt: &impl Abort,
    alloc: Global,
    groups: &[Group],
    fails: &[u32],
    active: Option<usize>,
) -> Result<(), Fail> {
    let fails = set(alloc, fails)?;
    equal(rt, first_active(groups, &fails), active);
    Ok(())
}

fn active_are(
    rt: &impl Abort,
    alloc: Global,
    groups: &[Group],
    cases: &[Active],
) -> Result<(), Fail> {
    for (fails, active) in cases {
        active_is(rt, alloc, groups, fails, *active)?;
    }
    Ok(())
}

#[test]
fn the_first_group_with_a_link_left_is_active(rt: HostRuntime) -> Result<(), Fail> {
    let network = network(rt.alloc(), &N1)?;
    let active = active_are(&rt, rt.alloc(), network.entry(LinkId(0), IP1), WAY_ACTIVE);
    drop(network);
    active
}

// Groups of members without operations.
const PAIR: &[&[Way]] = &[&[(1, &[]), (2, &[])]];

const PAIR_AND_OTHERS: &[&[Way]] = &[&[(1, &[]), (2, &[])], &[(4, &[]), (3, &[]), (1, &[])]];

#[test]
fn a_group_is_active_while_one_of_its_links_is_left(rt: HostRuntime) -> Result<(), Fail> {
    let groups = groups(rt.alloc(), PAIR)?;
    active_are(&rt, rt.alloc(), groups.as_slice(), PAIR_ACTIVE)
}

// Before which group, and the links that have to fail before it is used.
type Before<'a> = (usize, &'a [u32]);

fn before_is(
    rt: &impl Abort,
    alloc: Global,
    network: &Network,
    groups: &[Group],
    j: usize,
    links: &[u32],
) -> Result<(), Fail> {
    set_is(rt, &network.links_before(alloc, groups, j)?, links);
    Ok(())
}

fn before_are(
    rt: &impl Abort,
    alloc: Global,
    network: &Network,
    groups: &[Group],
    cases: &[Before],
) -> Result<(), Fail> {
    for (j, links) in cases {
        before_is(rt, alloc, network, groups, *j, links)?;
    }
    Ok(())
}

// The same of an entry of a sample.
fn before_in(
    rt: &impl Abort,
    alloc: Global,
    sample: &Sample,
    entry: (LinkId, Label),
    cases: &[Before],
) -> Result<(), Fail> {
    let network = network(alloc, sample)?;
    let before = before_are(rt, alloc, &network, network.entry(entry.0, entry.1), cases);
    drop(network);
    before
}

const AT_A: (LinkId, Label) = (LinkId(0), IP1);

const AT_B: (LinkId, Label) = (LinkId(3), S10);

// Before the way, before the detour, and past both.
const BEFORE_WAY: &[Before] = &[(0, &[]), (1, &[1]), (2, &[1, 2]), (3, &[1, 2])];

const BEFORE_WAY_FIBER: &[Before] = &[(0, &[]), (1, &[1, 4]), (2, &[1, 2, 4]), (3, &[1, 2, 4])];

// Before the turn to z.
const BEFORE_EXIT: &[Before] = &[(1, &[4])];

const BEFORE_EXIT_FIBER: &[Before] = &[(1, &[1, 4])];

#[test]
fn before_a_group_stand_the_links_of_the_earlier_ones(rt: HostRuntime) -> Result<(), Fail> {
    before_in(&rt, rt.alloc(), &N1, AT_A, BEFORE_WAY)?;
    before_in(&rt, rt.alloc(), &N2, AT_B, BEFORE_EXIT)
}

#[test]
fn before_a_group_stand_whole_risk_groups(rt: HostRuntime) -> Result<(), Fail> {
    before_in(&rt, rt.alloc(), &N1_FIBER, AT_A, BEFORE_WAY_FIBER)?;
    before_in(&rt, rt.alloc(), &N2_FIBER, AT_B, BEFORE_EXIT_FIBER)
}

// Before the second group and past both, where groups have several members: each member's link counts, not the first's alone.
const BEFORE_OTHERS: &[Before] = &[(0, &[]), (1, &[1, 2]), (2, &[1, 2, 3, 4])];

const BEFORE_OTHERS_FIBER: &[Before] = &[(0, &[]), (1, &[1, 2, 4]), (2, &[1, 2, 3, 4])];

fn before_groups(
    rt: &impl Abort,
    alloc: Global,
    sample: &Sample,
    groups: &[Group],
    cases: &[Before],
) -> Result<(), Fail> {
    let network = network(alloc, sample)?;
    let before = before_are(rt, alloc, &network, groups, cases);
    drop(network);
    before
}

#[test]
fn before_a_group_stand_the_links_of_all_members(rt: HostRuntime) -> Result<(), Fail> {
    let groups = groups(rt.alloc(), PAIR_AND_OTHERS)?;
    before_groups(&rt, rt.alloc(), &N1, groups.as_slice(), BEFORE_OTHERS)?;
    before_groups(
        &rt,
        rt.alloc(),
        &N1_FIBER,
        groups.as_slice(),
        BEFORE_OTHERS_FIBER,
    )
}

// The risk group of link 4 by its least link, how many those of links 1 and 4 are, and the links of that of link 4.
fn risks_are(
    rt: &impl Abort,
    alloc: Global,
    network: &Network,
    risk: u32,
    count: usize,
    widened: &[u32],
) -> Result<(), Fail> {
    equal(rt, network.risk(LinkId(4)), LinkId(risk));
    equal(rt, network.risk(LinkId(0)), LinkId(0));
    equal(rt, network.risk(LinkId(9)), LinkId(9));
    equal(rt, network.count(&set(alloc, &[1, 4])?), count);
    set_is(rt, &network.widen(alloc, &set(alloc, &[4])?)?, widened);
    Ok(())
}

fn risks_in(
    rt: &impl Abort,
    alloc: Global,
    sample: &Sample,
    risk: u32,
    count: usize,
    widened: &[u32],
) -> Result<(), Fail> {
    let network = network(alloc, sample)?;
    let risks = risks_are(rt, alloc, &network, risk, count, widened);
    drop(network);
    risks
}

#[test]
fn a_link_without_a_risk_group_fails_alone(rt: HostRuntime) -> Result<(), Fail> {
    risks_in(&rt, rt.alloc(), &N1, 4, 2, &[4])
}

#[test]
fn links_of_one_risk_group_fail_together(rt: HostRuntime) -> Result<(), Fail> {
    risks_in(&rt, rt.alloc(), &N1_FIBER, 1, 1, &[1, 4])
}
