//! Outages of risk groups and of routers, and which of them a run survives, by example.
use crate::common::{equal, set, set_is};
use std::alloc::Global;
use std::process::Abort;
use std::test::Fail;
use wi_base::{Listed, NoMemory};
use wi_net::{Bounds, LinkId, Network, RouterId};
use wi_outage::{Outage, group_outages, is_survived, router_outages};
use wi_samples::{BESIDE_Y, N1, N1_FIBER, Sample, TestCase, are_met, network};

// Links that are given as down, and as up.
type Given<'a> = (&'a [u32], &'a [u32]);

// The router of an outage, if it is one of a router, and its links.
type Wanted<'a> = (Option<RouterId>, &'a [u32]);

const NOTHING: Given = (&[], &[]);

fn bounds(alloc: Global, k: u32, given: Given) -> Result<Bounds, Fail> {
    Ok(Bounds {
        k,
        down: set(alloc, given.0)?,
        up: set(alloc, given.1)?,
    })
}

fn outages_are(rt: &impl Abort, outages: &[Outage], wanted: &[Wanted]) {
    equal(rt, outages.len(), wanted.len());
    for (outage, (router, links)) in outages.iter().zip(wanted) {
        equal(rt, outage.router, *router);
        set_is(rt, &outage.links, links);
    }
}

// What is taken out, what is given, and the outages that are left.
#[derive(Clone, Copy)]
struct Case<'a>(Taken, Given<'a>, &'a [Wanted<'a>]);

// Risk groups, or routers.
#[derive(Clone, Copy)]
enum Taken {
    Groups,
    Routers,
}

fn outages(
    alloc: Global,
    network: &Network,
    given: &Bounds,
    taken: Taken,
) -> Result<Listed<Outage>, NoMemory> {
    match taken {
        Taken::Groups => group_outages(alloc, network, given),
        Taken::Routers => router_outages(alloc, network, given),
    }
}

impl<R: Abort> TestCase<R> for Case<'_> {
    fn is_met(&self, rt: &R, alloc: Global, net: &Network) -> Result<(), Fail> {
        let given = bounds(alloc, 0, self.1)?;
        let found = outages(alloc, net, &given, self.0);
        drop(given);
        let outages = found?;
        outages_are(rt, outages.as_slice(), self.2);
        drop(outages);
        Ok(())
    }
}

// Each link is a risk group of its own; one of them is given as down, and one as up.
const SINGLE: &[Case] = &[
    Case(
        Taken::Groups,
        NOTHING,
        &[
            (None, &[0]),
            (None, &[1]),
            (None, &[2]),
            (None, &[3]),
            (None, &[4]),
        ],
    ),
    Case(
        Taken::Groups,
        (&[1], &[3]),
        &[(None, &[0]), (None, &[2]), (None, &[4])],
    ),
];

// The links from a to b and from b to y fail together, so either takes both out.
const PAIR: &[Case] = &[
    Case(
        Taken::Groups,
        NOTHING,
        &[(None, &[0]), (None, &[1, 4]), (None, &[2]), (None, &[3])],
    ),
    Case(
        Taken::Groups,
        (&[4], &[]),
        &[(None, &[0]), (None, &[2]), (None, &[3])],
    ),
    Case(
        Taken::Groups,
        (&[], &[1]),
        &[(None, &[0]), (None, &[2]), (None, &[3])],
    ),
];

#[test]
fn each_risk_group_is_an_outage_unless_a_link_of_it_is_given(rt: HostRuntime) -> Result<(), Fail> {
    are_met(&rt, rt.alloc(), &N1, SINGLE)?;
    are_met(&rt, rt.alloc(), &N1_FIBER, PAIR)
}

// All links in one duct.
const ONE_DUCT: Sample = Sample {
    links: &[
        ("x", "o", "a", "x", 1, Some("d")),
        ("a", "b", "b", "a", 1, Some("d")),
        ("a", "c", "c", "a", 2, Some("d")),
        ("c", "b", "b", "c", 2, Some("d")),
        ("b", "y", "y", "b", 1, Some("d")),
    ],
    ..N1
};

// Two ducts whose links stand by turns, and a link of its own between them.
const TWO_DUCTS: Sample = Sample {
    links: &[
        ("x", "o", "a", "x", 1, Some("e")),
        ("a", "b", "b", "a", 1, Some("d")),
        ("a", "c", "c", "a", 2, None),
        ("c", "b", "b", "c", 2, Some("e")),
        ("b", "y", "y", "b", 1, Some("d")),
    ],
    ..N1
};

const WHOLE: &[Case] = &[
    Case(Taken::Groups, NOTHING, &[(None, &[0, 1, 2, 3, 4])]),
    Case(Taken::Groups, (&[], &[2]), &[]),
];

const BY_TURNS: &[Case] = &[
    Case(
        Taken::Groups,
        NOTHING,
        &[(None, &[0, 3]), (None, &[1, 4]), (None, &[2])],
    ),
    Case(Taken::Groups, (&[3], &[]), &[(None, &[1, 4]), (None, &[2])]),
];

#[test]
fn risk_groups_come_whole_in_the_order_of_their_least_links(rt: HostRuntime) -> Result<(), Fail> {
    are_met(&rt, rt.alloc(), &ONE_DUCT, WHOLE)?;
    are_met(&rt, rt.alloc(), &TWO_DUCTS, BY_TURNS)
}

const X: Option<RouterId> = Some(RouterId(0));

const A: Option<RouterId> = Some(RouterId(1));

const B: Option<RouterId> = Some(RouterId(2));

const C: Option<RouterId> = Some(RouterId(3));

const Y: Option<RouterId> = Some(RouterId(4));

// The links that leave and reach each router; then with one given as down, and with the first and the last given as up.
const ROUTERS: &[Case] = &[
    Case(
        Taken::Routers,
        NOTHING,
        &[
            (X, &[0]),
            (A, &[0, 1, 2]),
            (B, &[1, 3, 4]),
            (C, &[2, 3]),
            (Y, &[4]),
        ],
    ),
    Case(
        Taken::Routers,
        (&[2], &[]),
        &[(X, &[0]), (B, &[1, 3, 4]), (Y, &[4])],
    ),
    Case(Taken::Routers, (&[], &[0, 4]), &[(C, &[2, 3])]),
];

// With a duct that x and c share: each of them takes the other's link out, and a and b take both.
const TURNED: &[Case] = &[
    Case(
        Taken::Routers,
        NOTHING,
        &[
            (X, &[0, 3]),
            (A, &[0, 1, 2, 3, 4]),
            (B, &[0, 1, 3, 4]),
            (C, &[0, 2, 3]),
            (Y, &[1, 4]),
        ],
    ),
    Case(
        Taken::Routers,
        (&[], &[2]),
        &[(X, &[0, 3]), (B, &[0, 1, 3, 4]), (Y, &[1, 4])],
    ),
    Case(Taken::Routers, (&[3], &[]), &[(Y, &[1, 4])]),
];

// The link 5 leaves y and reaches it.
const LOOPED: &[Case] = &[Case(
    Taken::Routers,
    NOTHING,
    &[
        (X, &[0]),
        (A, &[0, 1, 2, 4]),
        (B, &[1, 3, 4]),
        (C, &[2, 3]),
        (Y, &[1, 4, 5]),
    ],
)];

#[test]
fn a_router_takes_out_the_risk_groups_of_all_its_links(rt: HostRuntime) -> Result<(), Fail> {
    are_met(&rt, rt.alloc(), &N1, ROUTERS)?;
    are_met(&rt, rt.alloc(), &TWO_DUCTS, TURNED)?;
    are_met(&rt, rt.alloc(), &BESIDE_Y, LOOPED)
}

// Routers without links: the first of all, and one in the middle.
const LONELY: Sample = Sample {
    routers: &["first", "y", "x", "middle", "c", "b", "a"],
    ..N1
};

const LINKED: &[Case] = &[Case(
    Taken::Routers,
    NOTHING,
    &[
        (Some(RouterId(1)), &[4]),
        (Some(RouterId(2)), &[0]),
        (Some(RouterId(4)), &[2, 3]),
        (Some(RouterId(5)), &[1, 3, 4]),
        (Some(RouterId(6)), &[0, 1, 2]),
    ],
)];

#[test]
fn routers_with_links_come_in_the_order_of_their_numbers(rt: HostRuntime) -> Result<(), Fail> {
    are_met(&rt, rt.alloc(), &LONELY, LINKED)
}

// The way over b, and the one over c.
const WAY: &[LinkId] = &[LinkId(0), LinkId(1), LinkId(4)];

const DETOUR: &[LinkId] = &[LinkId(0), LinkId(2), LinkId(3), LinkId(4)];

// The number of risk groups that may fail and what is known, the failed links, those that are used, the outage, and whether the run
// survives it.
type Survival<'a> = (u32, Given<'a>, &'a [u32], &'a [LinkId], &'a [u32], bool);

// The run uses a link of the outage, or one of these is known to be up.
const SPARED: &[Survival] = &[
    (0, NOTHING, &[], WAY, &[2], true),
    (0, NOTHING, &[], WAY, &[1], false),
    (0, NOTHING, &[], WAY, &[2, 4], false),
    (0, NOTHING, &[], &[], &[1], true),
    (0, (&[], &[3]), &[], WAY, &[2], true),
    (0, (&[], &[2]), &[], WAY, &[2], false),
    (0, (&[], &[3]), &[], WAY, &[2, 3], false),
];

// What has failed besides counts, but for what is known to be down and the outage itself.
const COUNTED: &[Survival] = &[
    (0, NOTHING, &[1], DETOUR, &[1], true),
    (0, (&[1], &[]), &[1], DETOUR, &[1], true),
    (1, NOTHING, &[1, 2], &[LinkId(0)], &[3], false),
    (2, NOTHING, &[1, 2], &[LinkId(0)], &[3], true),
    (1, NOTHING, &[1, 2], &[LinkId(0)], &[2], true),
    (1, (&[1], &[]), &[1, 2], &[LinkId(0)], &[3], true),
    (0, (&[1], &[]), &[1, 2], &[LinkId(0)], &[3], false),
    (0, (&[1], &[]), &[1, 2], &[LinkId(0)], &[2, 3], true),
];

// The links 1 and 4 are one risk group, and count as one.
const GROUPED: &[Survival] = &[
    (1, NOTHING, &[1, 4], &[LinkId(0)], &[2], true),
    (0, NOTHING, &[1, 4], &[LinkId(0)], &[2], false),
    (0, NOTHING, &[1, 4], &[LinkId(0)], &[1, 4], true),
    (1, NOTHING, &[1, 3, 4], &[LinkId(0)], &[2], false),
];

fn survival_is(
    rt: &impl Abort,
    alloc: Global,
    network: &Network,
    case: Survival,
) -> Result<(), Fail> {
    let (k, given, fails, used, outage, survives) = case;
    let bounds = bounds(alloc, k, given)?;
    let (fails, outage) = (set(alloc, fails)?, set(alloc, outage)?);
    let found = is_survived(network, &bounds, &fails, used, &outage);
    drop((bounds, fails, outage));
    equal(rt, found, survives);
    Ok(())
}

fn survivals_are(
    rt: &impl Abort,
    alloc: Global,
    network: &Network,
    cases: &[Survival],
) -> Result<(), Fail> {
    for case in cases {
        survival_is(rt, alloc, network, *case)?;
    }
    Ok(())
}

fn survivals_in(
    rt: &impl Abort,
    alloc: Global,
    sample: &Sample,
    cases: &[Survival],
) -> Result<(), Fail> {
    let network = network(alloc, sample)?;
    let done = survivals_are(rt, alloc, &network, cases);
    drop(network);
    done
}

#[test]
fn a_run_survives_an_outage_off_its_way(rt: HostRuntime) -> Result<(), Fail> {
    survivals_in(&rt, rt.alloc(), &N1, SPARED)
}

#[test]
fn what_has_failed_besides_is_counted_by_risk_groups(rt: HostRuntime) -> Result<(), Fail> {
    survivals_in(&rt, rt.alloc(), &N1, COUNTED)?;
    survivals_in(&rt, rt.alloc(), &N1_FIBER, GROUPED)
}
