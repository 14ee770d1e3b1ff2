//! What is asked of a finished network, by example.
use crate::common::{IP1, L30, PUSH_30, PUSH_S10, S10, equal};
use std::process::Abort;
use std::test::Fail;
use wi_labels::{Class, Label, Op};
use wi_net::{Counts, Group, LinkId, Member, Network, RouterId};
use wi_samples::{N1, network};

const COUNTS: Counts = Counts {
    routers: 5,
    links: 5,
    labels: 3,
    rows: 4,
    members: 5,
};

const ROUTERS: &[(u32, &str)] = &[(0, "x"), (1, "a"), (2, "b"), (3, "c"), (4, "y")];

const LABELS: &[(Label, Class, &str)] = &[
    (L30, Class::Mpls, "30"),
    (S10, Class::Smpls, "s10"),
    (IP1, Class::Ip, "ip1"),
];

fn router_is(rt: &impl Abort, network: &Network, number: u32, name: &str) {
    equal(rt, network.find_router(name), Some(RouterId(number)));
    assert!(rt; number < network.counts().routers);
    equal(rt, network.router_name(RouterId(number)) == name, true);
}

fn label_is(rt: &impl Abort, network: &Network, label: Label, class: Class, name: &str) {
    equal(rt, network.find_label(name), Some(label));
    assert!(rt; label.0 < network.counts().labels);
    equal(rt, network.label_name(label) == name, true);
    equal(rt, network.class(label), class);
}

fn are_named(rt: &impl Abort, network: &Network) {
    for (number, name) in ROUTERS {
        router_is(rt, network, *number, name);
    }
    for (label, class, name) in LABELS {
        label_is(rt, network, *label, *class, name);
    }
}

fn counted_and_named(rt: &impl Abort, network: &Network) {
    equal(rt, network.counts(), COUNTS);
    network.keeps();
    are_named(rt, network);
    equal(rt, network.find_router("s10"), None);
    equal(rt, network.find_label("x"), None);
}

#[test]
fn routers_and_labels_are_found_by_name(rt: HostRuntime) -> Result<(), Fail> {
    let network = network(rt.alloc(), &N1)?;
    counted_and_named(&rt, &network);
    drop(network);
    Ok(())
}

// A link's number, its routers, the names of its interfaces, and its distance.
type LinkOf<'a> = (u32, (u32, u32), (&'a str, &'a str), u32);

const LINKS: &[LinkOf] = &[
    (0, (0, 1), ("o", "x"), 1),
    (1, (1, 2), ("b", "a"), 1),
    (2, (1, 3), ("c", "a"), 2),
    (3, (3, 2), ("b", "c"), 2),
    (4, (2, 4), ("y", "b"), 1),
];

// The names of a link's interfaces.
#[tactic(auto, using(wi_net::proofs::KeptLists::all_get))]
fn interfaces(network: &Network, link: LinkId) -> Option<(&str, &str)> {
    if link.0 >= network.counts().links {
        return None;
    }
    network.keeps();
    let found = network.link(link);
    Some((
        network.interface_name(found.out_if),
        network.interface_name(found.in_if),
    ))
}

// Its interfaces have these names.
fn has_interfaces(rt: &impl Abort, network: &Network, link: LinkId, names: (&str, &str)) {
    match interfaces(network, link) {
        Some((out, into)) => equal(rt, (out == names.0, into == names.1), (true, true)),
        None => equal(rt, false, true),
    }
}

// A link that is alone in its risk group.
fn link_is(rt: &impl Abort, network: &Network, case: &LinkOf) {
    let (number, routers, names, distance) = *case;
    let ends = (RouterId(routers.0), RouterId(routers.1));
    let link = LinkId(number);
    equal(rt, network.find_out(ends.0, names.0), Some(link));
    equal(rt, network.find_in(ends.1, names.1), Some(link));
    has_interfaces(rt, network, link, names);
    assert!(rt; number < network.counts().links);
    let found = network.link(link);
    equal(rt, (found.from, found.to), ends);
    equal(rt, (found.distance, found.risk), (distance, link));
}

// Ends that no link has, though a link has them the other way round, or another router has the interface.
const NO_OUT_ENDS: &[(u32, &str)] = &[(1, "x"), (0, "b"), (1, "none"), (9, "b")];

const NO_IN_ENDS: &[(u32, &str)] = &[(0, "o"), (1, "b"), (2, "none"), (9, "a")];

fn are_linked(rt: &impl Abort, network: &Network) {
    for case in LINKS {
        link_is(rt, network, case);
    }
    for (router, interface) in NO_OUT_ENDS {
        equal(rt, network.find_out(RouterId(*router), interface), None);
    }
    for (router, interface) in NO_IN_ENDS {
        equal(rt, network.find_in(RouterId(*router), interface), None);
    }
}

#[test]
fn links_are_found_by_their_ends(rt: HostRuntime) -> Result<(), Fail> {
    let network = network(rt.alloc(), &N1)?;
    are_linked(&rt, &network);
    drop(network);
    Ok(())
}

// A link and a label, the number of the first member, and how many groups there are.
const ROWS: &[((LinkId, Label), u32, usize)] = &[
    ((LinkId(0), IP1), 0, 2),
    ((LinkId(1), S10), 2, 1),
    ((LinkId(2), L30), 3, 1),
    ((LinkId(3), S10), 4, 1),
];

fn row_is(
    rt: &impl Abort,
    network: &Network,
    number: u32,
    row: (LinkId, Label),
    first: u32,
    groups: usize,
) {
    assert!(rt; number < network.counts().rows);
    equal(rt, network.row(number), row);
    equal(rt, network.first_member(row.0, row.1), first);
    equal(rt, network.entry(row.0, row.1).len(), groups);
}

fn has_rows(rt: &impl Abort, network: &Network) {
    for (number, (row, first, groups)) in (0..u32::MAX).zip(ROWS) {
        row_is(rt, network, number, *row, *first, *groups);
    }
    equal(rt, network.entry(LinkId(0), S10).len(), 0);
    equal(rt, network.entry(LinkId(9), IP1).len(), 0);
}

fn member_is(rt: &impl Abort, member: &Member, link: u32, ops: &[Op]) {
    equal(rt, member.link, LinkId(link));
    equal(rt, member.ops.as_slice() == ops, true);
}

// A group of one member, and the number of the member.
fn group_is(rt: &impl Abort, network: &Network, group: &Group, number: u32, link: u32, ops: &[Op]) {
    let members = group.as_slice();
    assert!(rt; members.len() == 1);
    member_is(rt, &members[0], link, ops);
    assert!(rt; number < network.counts().members);
    member_is(rt, network.member(number), link, ops);
}

fn has_groups(rt: &impl Abort, network: &Network) {
    let groups = network.entry(LinkId(0), IP1);
    assert!(rt; groups.len() == 2);
    group_is(rt, network, &groups[0], 0, 1, &[PUSH_S10]);
    group_is(rt, network, &groups[1], 1, 2, &[PUSH_S10, PUSH_30]);
    let groups = network.entry(LinkId(3), S10);
    assert!(rt; groups.len() == 1);
    group_is(rt, network, &groups[0], 4, 4, &[Op::Pop]);
}

#[test]
fn tables_are_as_they_were_added(rt: HostRuntime) -> Result<(), Fail> {
    let network = network(rt.alloc(), &N1)?;
    has_rows(&rt, &network);
    has_groups(&rt, &network);
    drop(network);
    Ok(())
}
