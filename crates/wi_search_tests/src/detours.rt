//! Detours by example. Links are numbered from 0 in the order in which they are listed.
use std::alloc::Global;
use std::process::Abort;
use std::test::Fail;
use wi_base::{Listed, NoMemory};
use wi_detour::{Graph, detour};
use wi_net::{LinkId, Network};
use wi_samples::{Line, Sample, network};

// Links, the number of one of them, and its only least detour.
struct Case<'a> {
    links: &'a [Line<'a>],
    link: u32,
    via: Option<&'a [LinkId]>,
}

// Routers without labels, links and tables.
const ROUTERS: Sample = Sample {
    mpls: &[],
    smpls: &[],
    ip: &[],
    routers: &["x", "a", "b", "c", "d", "e", "y"],
    links: &[],
    rows: &[],
};

const FARTHEST: u32 = 4_294_967_295;

// From x over a and b to y, and from a over c to b.
const N1: &[Line] = &[
    ("x", "o", "a", "x", 1, None),
    ("a", "b", "b", "a", 1, None),
    ("a", "c", "c", "a", 2, None),
    ("c", "b", "b", "c", 2, None),
    ("b", "y", "y", "b", 1, None),
];

// A path over x, a, b, c and y, and a way from a over d to c, in both directions where there are two.
const LADDER: &[Line] = &[
    ("x", "o", "a", "x", 1, None),
    ("a", "b", "b", "a", 1, None),
    ("b", "a", "a", "b", 1, None),
    ("b", "c", "c", "b", 1, None),
    ("c", "b", "b", "c", 1, None),
    ("a", "d", "d", "a", 1, None),
    ("d", "a", "a", "d", 1, None),
    ("d", "c", "c", "d", 1, None),
    ("c", "d", "d", "c", 1, None),
    ("c", "y", "y", "c", 1, None),
];

// The same where the links between a and b and those between b and c lie in one duct.
const DUCT: &[Line] = &[
    ("x", "o", "a", "x", 1, None),
    ("a", "b", "b", "a", 1, Some("duct")),
    ("b", "a", "a", "b", 1, Some("duct")),
    ("b", "c", "c", "b", 1, Some("duct")),
    ("c", "b", "b", "c", 1, Some("duct")),
    ("a", "d", "d", "a", 1, None),
    ("d", "a", "a", "d", 1, None),
    ("d", "c", "c", "d", 1, None),
    ("c", "d", "d", "c", 1, None),
    ("c", "y", "y", "c", 1, None),
];

// A link from a to itself, and one to y.
const ALONE: &[Line] = &[("a", "l", "a", "m", 1, None), ("a", "y", "y", "a", 1, None)];

// The same with a way from a to b and back.
const LOOP: &[Line] = &[
    ("a", "l", "a", "m", 1, None),
    ("a", "y", "y", "a", 1, None),
    ("a", "b", "b", "a", 1, None),
    ("b", "c", "a", "c", 1, None),
];

// Two links from a to b, and the same in one risk group.
const PARALLEL: &[Line] = &[("a", "b", "b", "a", 1, None), ("a", "c", "b", "d", 7, None)];

const TWINS: &[Line] = &[
    ("a", "b", "b", "a", 1, Some("g")),
    ("a", "c", "b", "d", 7, Some("g")),
];

// From a to b over d and e, of length 4, and over c, of the same length.
const EVEN: &[Line] = &[
    ("a", "b", "b", "a", 9, None),
    ("a", "d", "d", "a", 1, None),
    ("d", "e", "e", "d", 1, None),
    ("e", "b", "b", "e", 2, None),
    ("a", "c", "c", "a", 1, None),
    ("c", "b", "b", "c", 3, None),
];

// The same where the way over c has length 5.
const UNEVEN: &[Line] = &[
    ("a", "b", "b", "a", 9, None),
    ("a", "d", "d", "a", 1, None),
    ("d", "e", "e", "d", 1, None),
    ("e", "b", "b", "e", 2, None),
    ("a", "c", "c", "a", 1, None),
    ("c", "b", "b", "c", 4, None),
];

// From a over c to b, and from c back to a, all of distance 0.
const NEAREST: &[Line] = &[
    ("a", "b", "b", "a", 0, None),
    ("a", "c", "c", "a", 0, None),
    ("c", "a", "a", "e", 0, None),
    ("c", "b", "b", "c", 0, None),
];

// From a to b over c, and over d, which is shorter by 1.
const FAR: &[Line] = &[
    ("a", "b", "b", "a", FARTHEST, None),
    ("a", "c", "c", "a", FARTHEST, None),
    ("c", "b", "b", "c", FARTHEST, None),
    ("a", "d", "d", "a", FARTHEST, None),
    ("d", "b", "b", "d", 4_294_967_294, None),
];

const BY_LINKS: &[Case] = &[
    // Over c.
    Case {
        links: N1,
        link: 1,
        via: Some(&[LinkId(2), LinkId(3)]),
    },
    // Nothing else leaves x.
    Case {
        links: N1,
        link: 0,
        via: None,
    },
    // Nothing else reaches c.
    Case {
        links: N1,
        link: 2,
        via: None,
    },
    Case {
        links: LADDER,
        link: 1,
        via: Some(&[LinkId(5), LinkId(7), LinkId(4)]),
    },
    Case {
        links: LADDER,
        link: 3,
        via: Some(&[LinkId(2), LinkId(5), LinkId(7)]),
    },
    // All that reaches b, or leaves it, is in the duct.
    Case {
        links: DUCT,
        link: 1,
        via: None,
    },
    Case {
        links: DUCT,
        link: 3,
        via: None,
    },
    Case {
        links: LOOP,
        link: 0,
        via: Some(&[LinkId(2), LinkId(3)]),
    },
    // Not to go anywhere leads from a to a, but is no detour.
    Case {
        links: ALONE,
        link: 0,
        via: None,
    },
];

const BY_LENGTH: &[Case] = &[
    Case {
        links: PARALLEL,
        link: 0,
        via: Some(&[LinkId(1)]),
    },
    Case {
        links: PARALLEL,
        link: 1,
        via: Some(&[LinkId(0)]),
    },
    Case {
        links: TWINS,
        link: 0,
        via: None,
    },
    // Of equal lengths, fewer links.
    Case {
        links: EVEN,
        link: 0,
        via: Some(&[LinkId(4), LinkId(5)]),
    },
    // Less length, though more links.
    Case {
        links: UNEVEN,
        link: 0,
        via: Some(&[LinkId(1), LinkId(2), LinkId(3)]),
    },
    Case {
        links: NEAREST,
        link: 0,
        via: Some(&[LinkId(1), LinkId(3)]),
    },
    // A sum of 2^33 - 3, against one of 2^33 - 2.
    Case {
        links: FAR,
        link: 0,
        via: Some(&[LinkId(3), LinkId(4)]),
    },
];

// The detour that is found for the link of a number.
fn found(
    rt: &impl Abort,
    alloc: Global,
    net: &Network,
    link: u32,
) -> Result<Option<Listed<LinkId>>, NoMemory> {
    assert!(rt; link < net.counts().links);
    let graph = Graph::of(alloc, net)?;
    let found = detour(alloc, net, &graph, LinkId(link));
    drop(graph);
    found
}

fn is_found(rt: &impl Abort, found: &Option<Listed<LinkId>>, via: Option<&[LinkId]>) {
    assert_eq!(rt; found.as_ref().map(|found| found.as_slice()), via);
}

fn is_detour(rt: &impl Abort, alloc: Global, case: &Case) -> Result<(), Fail> {
    let sample = Sample {
        links: case.links,
        ..ROUTERS
    };
    let net = network(alloc, &sample)?;
    let found = found(rt, alloc, &net, case.link);
    drop(net);
    let found = found?;
    is_found(rt, &found, case.via);
    drop(found);
    Ok(())
}

fn are_detours(rt: &impl Abort, alloc: Global, cases: &[Case]) -> Result<(), Fail> {
    for case in cases {
        is_detour(rt, alloc, case)?;
    }
    Ok(())
}

#[test]
fn a_detour_leads_around_outside_the_risk_group(rt: HostRuntime) -> Result<(), Fail> {
    are_detours(&rt, rt.alloc(), BY_LINKS)
}

#[test]
fn of_detours_the_shortest_with_fewest_links_is_found(rt: HostRuntime) -> Result<(), Fail> {
    are_detours(&rt, rt.alloc(), BY_LENGTH)
}
