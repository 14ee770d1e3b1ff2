//! Rings by example.
ghost use Rattle.std.specs.Prelude.{◌≤◌};

use std::alloc::Global;
use std::process::Abort;
use std::test::Fail;
use wi_base::NoMemory;
use wi_gen::generate;
use wi_labels::{Class, Label, Op};
use wi_net::{Group, LinkId, Network};

// A seed and a size; how many routers, links, labels and rows there are.
const RINGS: &[(u64, u32, [u32; 4])] = &[
    (0, 4, [6, 10, 5, 9]),
    (5, 5, [7, 12, 9, 21]),
    (18446744073709551615, 5, [7, 12, 5, 11]),
    (7, 1000, [1002, 2002, 19, 9001]),
];

fn parts(net: &Network) -> [u32; 4] {
    let counts = net.counts();
    [counts.routers, counts.links, counts.labels, counts.rows]
}

fn parts_of(alloc: Global, seed: u64, size: u32) -> Result<[u32; 4], NoMemory>
    requires least { 4 ≤ size }
    requires most { size ≤ 2000 }
{
    let ring = generate(alloc, seed, size)?;
    let found = parts(&ring.network);
    drop(ring);
    Ok(found)
}

fn has_parts(
    rt: &impl Abort,
    alloc: Global,
    seed: u64,
    size: u32,
    wanted: [u32; 4],
) -> Result<(), Fail> {
    assert!(rt; 4 <= size && size <= 2000);
    assert_eq!(rt; parts_of(alloc, seed, size)?, wanted);
    Ok(())
}

#[test]
fn rings_have_so_many_parts(rt: HostRuntime) -> Result<(), Fail> {
    for (seed, size, wanted) in RINGS {
        has_parts(&rt, rt.alloc(), *seed, *size, *wanted)?;
    }
    Ok(())
}

// The least ring: its labels are b0, b1, s1, s2 and ip0, and its path is from r0 to r2.
const PUSH_B0: Op = Op::Push(Label(0), Class::Mpls);

const SWAP_B0: Op = Op::Swap(Label(0), Class::Mpls);

const PUSH_B1: Op = Op::Push(Label(1), Class::Mpls);

const SWAP_B1: Op = Op::Swap(Label(1), Class::Mpls);

const PUSH_S1: Op = Op::Push(Label(2), Class::Smpls);

const SWAP_S2: Op = Op::Swap(Label(3), Class::Smpls);

// A member: its link and its operations.
type Way<'a> = (u32, &'a [Op]);

// A link and a label, and groups of one member each.
const ROWS: &[(u32, u32, &[Way])] = &[
    (0, 4, &[(2, &[PUSH_S1]), (9, &[PUSH_S1, PUSH_B0])]),
    (2, 2, &[(3, &[SWAP_S2]), (6, &[SWAP_S2, PUSH_B1])]),
    (7, 2, &[(3, &[SWAP_S2]), (6, &[SWAP_S2, PUSH_B1])]),
    (3, 3, &[(1, &[Op::Pop])]),
    (8, 3, &[(1, &[Op::Pop])]),
    (9, 0, &[(8, &[SWAP_B0])]),
    (8, 0, &[(7, &[Op::Pop])]),
    (6, 1, &[(9, &[SWAP_B1])]),
    (9, 1, &[(8, &[Op::Pop])]),
];

fn is_way(group: &Group, link: u32, ops: &[Op]) -> bool {
    match group.as_slice() {
        [member] => member.link == LinkId(link) && member.ops.as_slice() == ops,
        _ => false,
    }
}

fn are_ways(groups: &[Group], ways: &[Way]) -> bool {
    groups.len() == ways.len()
        && groups
            .iter()
            .zip(ways)
            .all(|(group, (link, ops))| is_way(group, *link, ops))
}

fn has_rows(net: &Network) -> bool {
    ROWS.iter().all(|(link, label, ways)| are_ways(net.entry(LinkId(*link), Label(*label)), ways))
}

fn distance(net: &Network, link: u32) -> Option<u32> {
    if link < net.counts().links {
        Some(net.link(LinkId(link)).distance)
    } else {
        None
    }
}

fn has_distances(net: &Network) -> bool {
    [(0, 1), (1, 32), (2, 63), (3, 94), (4, 28)]
        .iter()
        .all(|(link, wanted)| distance(net, *link) == Some(*wanted))
}

#[test]
fn the_least_ring_is_as_drawn(rt: HostRuntime) -> Result<(), Fail> {
    let ring = generate(rt.alloc(), 0, 4)?;
    let drawn = has_rows(&ring.network);
    let near = has_distances(&ring.network);
    let asked = ring.query.as_str() == "<ip0> [s#r0] .* [r1#r0] .* [r2#t] <ip0> 2";
    let weighed = ring.weights.as_str() == "Failures, Hops";
    drop(ring);
    assert_eq!(rt; (drawn, near, asked, weighed), (true, true, true, true));
    Ok(())
}
