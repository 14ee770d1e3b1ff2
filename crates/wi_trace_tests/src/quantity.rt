//! Weights texts and weights by example.
ghost use Rattle.std.specs.Prelude.{◌≡◌, option_map};
ghost use Rattle.wi_quantity.specs.Weighing.{is_way_out as way_out, member_in as member_at};

use crate::common::equal;
use std::alloc::{AllocError, Global};
use std::process::Abort;
use std::test::Fail;
use wi_base::Listed;
use wi_labels::{Class, Label, Op, Ops};
use wi_net::{Group, LinkId, Member, Network};
use wi_quantity::{
    Part, Vector, Weight, WeightFault, first_weight, hop_weight, read_weights, step_weight,
};
use wi_samples::{BESIDE_Y, network};
use wi_weight::{Effort, Pair, Terms};
use wi_world::Quantity;

// Why a text is to be refused.
#[derive(Clone, Copy)]
enum Fault<'a> {
    Syntax(usize),
    UnknownQuantity(usize, &'a str),
    TooManyTerms(usize),
    Coefficient(usize),
}

fn is_fault(found: &WeightFault, wanted: Fault) -> bool {
    match (found, wanted) {
        (WeightFault::Syntax(found), Fault::Syntax(byte)) => *found == byte,
        (WeightFault::UnknownQuantity(found, word), Fault::UnknownQuantity(byte, wanted)) => {
            *found == byte && word.as_str() == wanted
        }
        (WeightFault::TooManyTerms(found), Fault::TooManyTerms(count)) => *found == count,
        (WeightFault::Coefficient(found), Fault::Coefficient(byte)) => *found == byte,
        _ => false,
    }
}

fn is_refused(alloc: Global, text: &str, wanted: Fault) -> bool {
    match read_weights(alloc, text) {
        Ok(vector) => {
            drop(vector);
            false
        }
        Err(found) => {
            let same = is_fault(&found, wanted);
            drop(found);
            same
        }
    }
}

fn refuses(rt: &impl Abort, alloc: Global, text: &str, wanted: Fault) {
    assert!(rt; is_refused(alloc, text, wanted), "{text}");
}

// Texts that are not of the form, and where they stop.
const STOPS: &[(&str, usize)] = &[
    ("", 0),
    ("1a", 1),
    ("01*Hops", 1),
    ("a b", 2),
    ("a1", 1),
    ("a\u{b}", 1),
    ("Hops+é", 5),
    ("Hops é", 5),
    ("Hopsé", 4),
    ("Hops,", 5),
    (",Hops", 0),
    ("+", 0),
    ("Hops++Hops", 5),
    ("Hops+Speed,1*", 13),
    ("2 Hops", 2),
    ("2 * * Hops", 4),
    ("*Hops", 0),
    ("Hops\r\n\t +\t2", 11),
    (
        "123456789012345678901234567890123456789012345678901234567890",
        60,
    ),
    (
        "1000000000000000000000000000000000000000000000000000000000000000000000x",
        70,
    ),
];

#[test]
fn texts_of_another_form_are_refused(rt: HostRuntime) {
    for (text, byte) in STOPS {
        refuses(&rt, rt.alloc(), text, Fault::Syntax(*byte));
    }
}

// Texts with a word that is no quantity, the byte where it starts, and the word.
const UNKNOWN: &[(&str, usize, &str)] = &[
    ("Speed", 0, "Speed"),
    ("Hops + 2*hops, Speed", 9, "hops"),
    ("Links,Links,Links,Links,Links,65536*Width", 36, "Width"),
    ("LinksHops", 0, "LinksHops"),
];

#[test]
fn words_that_are_no_quantities_are_refused(rt: HostRuntime) {
    for (text, byte, word) in UNKNOWN {
        let wanted = Fault::UnknownQuantity(*byte, word);
        refuses(&rt, rt.alloc(), text, wanted);
    }
}

// Texts with too many terms or parts, and how many there are.
const TOO_MANY: &[(&str, usize)] = &[
    ("Links,Links,Links,Links,Links,Links", 6),
    ("Hops,Links+Links+Links+Links+Links+Links,1*Hops", 6),
    ("65536*Links+Links+Links+Links+Links+Links+Links", 7),
    (
        "Links+Links+Links+Links+Links+Links,Hops,Hops,Hops,Hops,Hops,Hops",
        7,
    ),
];

#[test]
fn more_than_five_terms_or_parts_are_refused(rt: HostRuntime) {
    for (text, count) in TOO_MANY {
        refuses(&rt, rt.alloc(), text, Fault::TooManyTerms(*count));
    }
}

// Texts with a number that is too large, and the byte where it starts.
const TOO_LARGE: &[(&str, usize)] = &[
    ("65536*Hops", 0),
    ("0*Hops, 65535 * Links+99999 * Hops,70000*Links", 22),
    (
        "Links+123456789012345678901234567890123456789012345678901234567890*Hops",
        6,
    ),
    (
        "1000000000000000000000000000000000000000000000000000000000000000000000*Hops",
        0,
    ),
];

#[test]
fn numbers_over_65535_are_refused(rt: HostRuntime) {
    for (text, byte) in TOO_LARGE {
        refuses(&rt, rt.alloc(), text, Fault::Coefficient(*byte));
    }
}

fn part(coefficient: u32, quantity: Quantity) -> Part {
    Part {
        coefficient,
        quantity,
    }
}

fn has_term(vector: &Vector, number: usize, parts: &[Part]) -> bool {
    match vector.as_slice().get(number) {
        Some(term) => term.as_slice() == parts,
        None => false,
    }
}

fn term_is(rt: &impl Abort, vector: &Vector, number: usize, parts: &[Part]) {
    assert!(rt; has_term(vector, number, parts), "term {number}");
}

fn has_three_terms(rt: &impl Abort, vector: &Vector) {
    equal(rt, vector.len(), 3);
    term_is(rt, vector, 0, &[part(1, Quantity::Hops)]);
    term_is(
        rt,
        vector,
        1,
        &[part(1, Quantity::Distance), part(3, Quantity::Tunnels)],
    );
    term_is(
        rt,
        vector,
        2,
        &[part(65535, Quantity::Failures), part(0, Quantity::Links)],
    );
}

#[test]
fn a_text_means_a_vector(rt: HostRuntime) -> Result<(), Fail> {
    let text = " Hops ,\tDistance+3*Tunnels,\r\n65535 *Failures + 0*Links";
    let vector = read_weights(rt.alloc(), text)?;
    has_three_terms(&rt, &vector);
    drop(vector);
    let none = Vector::new(rt.alloc());
    equal(&rt, none.len(), 0);
    drop(none);
    Ok(())
}

fn has_five_terms(rt: &impl Abort, vector: &Vector) {
    equal(rt, vector.len(), 5);
    term_is(
        rt,
        vector,
        0,
        &[part(2, Quantity::Hops), part(1, Quantity::Links)],
    );
    let five = [part(1, Quantity::Links); 5];
    term_is(rt, vector, 4, &five);
}

#[test]
fn there_may_be_five_terms_of_five_parts(rt: HostRuntime) -> Result<(), Fail> {
    let text = "2 * Hops + Links,Hops,Hops,Hops,Links+Links+Links+Links+Links";
    let vector = read_weights(rt.alloc(), text)?;
    has_five_terms(&rt, &vector);
    drop(vector);
    Ok(())
}

const S10: Label = Label(1);

const IP1: Label = Label(2);

const PUSH_30: Op = Op::Push(Label(0), Class::Mpls);

const PUSH_S10: Op = Op::Push(Label(1), Class::Smpls);

// A member of a group.
fn member(alloc: Global, link: u32, ops: &[Op]) -> Result<Member, Fail> {
    Ok(Member {
        link: LinkId(link),
        ops: Ops::from_slice(alloc, ops)?,
    })
}

// A group of one member.
fn one(alloc: Global, link: u32, ops: &[Op]) -> Result<Group, Fail> {
    Ok(Listed::of(vec![in alloc; member(alloc, link, ops)?]?))
}

// The weight of these terms.
fn weight(parts: [u128; 5]) -> Weight {
    Pair {
        first: Terms::of(parts),
        second: Effort { count: 0 },
    }
}

fn begins_with(rt: &impl Abort, vector: &Vector, net: &Network, link: u32, parts: [u128; 5]) {
    assert!(rt; link < net.counts().links);
    equal(rt, first_weight(vector, net, LinkId(link)), weight(parts));
}

// A member goes out over a link of the network, with few operations.
fn is_way_out(net: &Network, member: &Member) -> bool
    ensures { result ≡ way_out net.now member.now }
{
    member.link.0 < net.counts().links && member.ops.as_slice().len() <= 8
}

fn hop_is(
    rt: &impl Abort,
    vector: &Vector,
    net: &Network,
    member: &Member,
    failures: usize,
    parts: [u128; 5],
) {
    assert!(rt; is_way_out(net, member) && failures < 1 << 32);
    equal(rt, hop_weight(vector, net, member, failures), weight(parts));
}

// The member of a number in a group of a number.
fn member_in(groups: &[Group], j: usize, m: usize) -> Option<&Member>
    ensures { option_map (λ member. member.now) result ≡ member_at groups.now j m }
{
    groups.get(j)?.as_slice().get(m)
}

// The weight of a step from the first link by a member that is there and is a way out.
fn step_of(vector: &Vector, net: &Network, groups: &[Group], j: usize, m: usize) -> Option<Weight> {
    match member_in(groups, j, m) {
        Some(member) if is_way_out(net, member) => {
            Some(step_weight(vector, net, LinkId(0), groups, j, m))
        }
        _ => None,
    }
}

fn step_is(
    rt: &impl Abort,
    vector: &Vector,
    net: &Network,
    groups: &[Group],
    (j, m): (usize, usize),
    parts: [u128; 5],
) {
    let found = step_of(vector, net, groups, j, m);
    equal(rt, found, Some(weight(parts)));
}

// Groups of one member each.
fn singles(alloc: Global, members: &[(u32, &[Op])]) -> Result<Vec<Group>, Fail> {
    let mut groups = Vec::new(alloc);
    for (link, ops) in members {
        groups
            .push(one(alloc, *link, ops)?)
            .map_err(AllocError::from)?;
    }
    Ok(groups)
}

fn single_is(
    rt: &impl Abort,
    alloc: Global,
    vector: &Vector,
    net: &Network,
    members: &[(u32, &[Op])],
    parts: [u128; 5],
) -> Result<(), Fail> {
    let groups = singles(alloc, members)?;
    let last = groups.len().saturating_sub(1);
    step_is(rt, vector, net, groups.as_slice(), (last, 0), parts);
    drop(groups);
    Ok(())
}

// The two ways out of a.
const AT_A: &[(u32, &[Op])] = &[(1, &[PUSH_S10]), (2, &[PUSH_S10, PUSH_30])];

fn detour_weighs(
    rt: &impl Abort,
    alloc: Global,
    vector: &Vector,
    net: &Network,
) -> Result<(), Fail> {
    begins_with(rt, vector, net, 0, [1, 1, 0, 0, 0]);
    single_is(rt, alloc, vector, net, AT_A, [1, 8, 0, 0, 0])?;
    single_is(rt, alloc, vector, net, &[(3, &[Op::Pop])], [1, 2, 0, 0, 0])?;
    single_is(rt, alloc, vector, net, &[(4, &[Op::Pop])], [1, 1, 0, 0, 0])
}

// Hops that stand alone: the link, the operations, how many risk groups fail, and what is added to each quantity.
const HOPS: &[(u32, &[Op], usize, [u128; 5])] = &[
    (2, &[Op::Pop, PUSH_30], 0, [1, 1, 2, 0, 0]),
    (2, &[PUSH_S10, PUSH_30], 3, [1, 1, 2, 3, 2]),
    (5, &[Op::Swap(IP1, Class::Ip)], 1, [1, 0, 7, 1, 0]),
    (5, &[Op::Pop], 0, [1, 0, 7, 0, 0]),
];

fn hops_add(rt: &impl Abort, alloc: Global, vector: &Vector, net: &Network) -> Result<(), Fail> {
    for (link, ops, failures, parts) in HOPS {
        let member = member(alloc, *link, ops)?;
        hop_is(rt, vector, net, &member, *failures, *parts);
        drop(member);
    }
    begins_with(rt, vector, net, 5, [1, 0, 7, 0, 0]);
    Ok(())
}

// Groups of members with these links and no operations.
fn groups_of(alloc: Global, links: &[[u32; 2]]) -> Result<Vec<Group>, Fail> {
    let mut groups = Vec::new(alloc);
    for [first, second] in links {
        groups
            .push(pair(alloc, *first, *second)?)
            .map_err(AllocError::from)?;
    }
    Ok(groups)
}

fn pair(alloc: Global, first: u32, second: u32) -> Result<Group, Fail> {
    let first = member(alloc, first, &[])?;
    let second = member(alloc, second, &[])?;
    Ok(Listed::of(vec![in alloc; first, second]?))
}

// Numbers of a group and a member of five groups, and what the step adds to each quantity.
const STEPS: &[(usize, usize, [u128; 5])] = &[
    (0, 1, [1, 1, 1, 0, 0]),
    (1, 0, [1, 1, 1, 1, 0]),
    (2, 0, [1, 1, 2, 1, 0]),
    (3, 0, [1, 1, 2, 2, 0]),
    (4, 0, [1, 1, 1, 3, 0]),
];

// The second link and the last but one are in one risk group, and the tenth isn't the network's.
fn risk_groups_fail(
    rt: &impl Abort,
    alloc: Global,
    vector: &Vector,
    net: &Network,
) -> Result<(), Fail> {
    let groups = groups_of(alloc, &[[1, 4], [4, 1], [3, 9], [2, 3], [0, 2]])?;
    for (j, m, parts) in STEPS {
        step_is(rt, vector, net, groups.as_slice(), (*j, *m), *parts);
    }
    drop(groups);
    Ok(())
}

// A detour, hops that stand alone, and steps past groups that fail together.
fn all_weigh(rt: &impl Abort, alloc: Global, net: &Network) -> Result<(), Fail> {
    let vector = read_weights(alloc, "Hops, Distance+3*Tunnels")?;
    let said = detour_weighs(rt, alloc, &vector, net);
    drop(vector);
    said?;
    let vector = read_weights(alloc, "Links,Hops,Distance,Failures,Tunnels")?;
    let said = each_weighs(rt, alloc, &vector, net);
    drop(vector);
    said
}

fn each_weighs(rt: &impl Abort, alloc: Global, vector: &Vector, net: &Network) -> Result<(), Fail> {
    hops_add(rt, alloc, vector, net)?;
    risk_groups_fail(rt, alloc, vector, net)
}

#[test]
fn detours_hops_and_risk_groups_are_weighed(rt: HostRuntime) -> Result<(), Fail> {
    let net = network(rt.alloc(), &BESIDE_Y)?;
    let said = all_weigh(&rt, rt.alloc(), &net);
    drop(net);
    said
}
