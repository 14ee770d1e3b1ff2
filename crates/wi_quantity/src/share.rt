//! What a run weighs is the sum of what its first link, its hops and its end add, each known by itself, so that a rule can carry
//! its share. Nothing here takes memory: where the count of risk groups before a group isn't given, each member before is compared
//! with those before it.
ghost use Rattle.std.specs.Prelude.{◌≡◌, ◌<◌, ◌≤◌, ◌+◌, ◌^◌, ◌++◌, ◌∷◌, [], true, length, option_map, slice_get};
ghost use Rattle.std.specs.Option.{option_map_or};
ghost use Rattle.std.specs.List.{filter, list_all, list_any};
ghost use Rattle.wi_weight.specs.Weights.{EachBelow};
ghost use Rattle.wi_net.specs.declared.limits.TheConstants.{LINK_LIMIT};
ghost use Rattle.wi_net.specs.Net.{risk_count, before};
ghost use Rattle.wi_world.specs.declared.run.Quantity.{Quantity};
ghost use Rattle.wi_world.specs.Runs.{link_share};
ghost use Rattle.wi_quantity.specs.Vectors.{is_term};
ghost use Rattle.wi_quantity.specs.Weighing.{components, term_value, term_values, growth, is_push, is_pop, member_in, first_weight, hop_weight, end_weight, entry_weight, is_way_out, has_way_out};
ghost use Rattle.wi_quantity.specs.private.Shares.{share_of, has_risk, is_new, risks_of};

use crate::vector::{Part, Vector};
use wi_base::Listed;
use wi_labels::Op;
use wi_net::{Group, LinkId, Member, Network};
use wi_weight::{Effort, Pair, Terms};
use wi_world::Quantity;

/// The values of five terms, those that a vector hasn't being 0, and then the effort.
pub type Weight = Pair<Terms, Effort>;

// What is added to each quantity.
#[derive(Clone, Copy)]
struct Shares {
    links: u32,
    hops: u32,
    distance: u32,
    failures: u32,
    tunnels: u32,
}

impl Shares {
    // What a link adds.
    fn of(net: &Network, link: LinkId) -> Shares
        requires { link.0 < length net.now.links }
        ensures { (q : Quantity) → share_of result q ≡ link_share q net.now link }
    {
        let found = *net.link(link);
        Shares {
            links: 1,
            hops: if found.from.0 == found.to.0 { 0 } else { 1 },
            distance: found.distance,
            failures: 0,
            tunnels: 0,
        }
    }

    fn of_quantity(self, quantity: Quantity) -> u32
        ensures { result ≡ share_of self quantity }
    {
        match quantity {
            Quantity::Links => self.links,
            Quantity::Hops => self.hops,
            Quantity::Distance => self.distance,
            Quantity::Failures => self.failures,
            Quantity::Tunnels => self.tunnels,
        }
    }
}

// The value of a term.
fn term_value(term: &[Part], shares: Shares) -> u128
    requires { is_term term.now ≡ true }
    ensures value { result ≡ term_value (share_of shares) term.now }
    ensures small { result < 2 ^ 64 }
{
    let mut value = 0;
    for part in term {
        value += u128::from(part.coefficient) * u128::from(shares.of_quantity(part.quantity));
    }
    value
}

// The value of the term of a number, if there is one.
fn value_at(terms: &[Listed<Part>], number: usize, shares: Shares) -> u128
    requires { list_all is_term terms.now ≡ true }
    ensures value { result ≡ option_map_or (term_value (share_of shares)) (slice_get terms.now number) 0 }
    ensures small { result < 2 ^ 64 }
{
    match terms.get(number) {
        Some(term) => term_value(term.as_slice(), shares),
        None => 0,
    }
}

// What is added to the terms of a vector.
fn weighed(vector: &Vector, shares: Shares) -> Weight
    ensures value { components result ≡ term_values (share_of shares) vector.now ++ 0 ∷ [] }
    ensures fits { EachBelow (2 ^ 64) (components result) }
{
    let terms = vector.terms.as_slice();
    Pair {
        first: Terms {
            first: value_at(terms, 0, shares),
            second: value_at(terms, 1, shares),
            third: value_at(terms, 2, shares),
            fourth: value_at(terms, 3, shares),
            fifth: value_at(terms, 4, shares),
        },
        second: Effort { count: 0 },
    }
}

/// The weight of beginning on a link. It has no effort, and takes no memory.
pub fn first_weight(vector: &Vector, net: &Network, link: LinkId) -> Weight
    requires { link.0 < length net.now.links }
    ensures value { components result ≡ first_weight net.now vector.now link.0 }
    ensures fits { EachBelow (2 ^ 64) (components result) }
{
    weighed(vector, Shares::of(net, link))
}

/// The weight of a hop through a member, where so many risk groups must have failed before its group is used. It has no
/// effort, and takes no memory.
pub fn hop_weight(vector: &Vector, net: &Network, member: &Member, failures: usize) -> Weight
    requires member { is_way_out net.now member.now ≡ true }
    requires failures { failures < 2 ^ 32 }
    ensures value { components result ≡ hop_weight net.now vector.now member.now failures }
    ensures fits { EachBelow (2 ^ 64) (components result) }
{
    let link = Shares::of(net, member.link);
    let shares = Shares {
        links: link.links,
        hops: link.hops,
        distance: link.distance,
        failures: failures as u32,
        tunnels: growth(member.ops.as_slice()) as u32,
    };
    weighed(vector, shares)
}

/// The weight of an end for which so many risk groups must have failed. It has no effort, and takes no memory.
pub fn end_weight(vector: &Vector, failures: usize) -> Weight
    requires { failures < 2 ^ 32 }
    ensures value { components result ≡ end_weight vector.now failures }
    ensures fits { EachBelow (2 ^ 64) (components result) }
{
    let count = failures as u32;
    let shares = Shares {
        links: 0,
        hops: 0,
        distance: 0,
        failures: count,
        tunnels: 0,
    };
    weighed(vector, shares)
}

// By how many labels operations make a header grow, where they are defined.
fn growth(ops: &[Op]) -> usize
    ensures { result ≡ growth ops.now }
{
    pushes(ops).saturating_sub(pops(ops))
}

fn pushes(ops: &[Op]) -> usize
    ensures { result ≡ length (filter is_push ops.now) }
{
    ops.iter().filter(|op| is_push(**op)).count()
}

fn pops(ops: &[Op]) -> usize
    ensures { result ≡ length (filter is_pop ops.now) }
{
    ops.iter().filter(|op| is_pop(**op)).count()
}

fn is_push(op: Op) -> bool
    ensures { result ≡ is_push op }
{
    matches!(op, Op::Push(_, _))
}

fn is_pop(op: Op) -> bool
    ensures { result ≡ is_pop op }
{
    matches!(op, Op::Pop)
}

/// The weight of a hop from a link through a member of a group of an entry. It has no effort, and takes no memory. What
/// stands before the group is counted anew: whoever goes over a whole entry keeps count and calls `hop_weight`.
pub fn step_weight(
    vector: &Vector,
    net: &Network,
    _from: LinkId,
    groups: &[Group],
    j: usize,
    m: usize,
) -> Weight
    requires { has_way_out net.now groups.now j m ≡ true }
    ensures value { components result ≡ entry_weight net.now vector.now groups.now j m }
    ensures fits { EachBelow (2 ^ 64) (components result) }
{
    let Some(member) = member_in(groups, j, m) else {
        unreachable!()
    };
    hop_weight(vector, net, member, failures_before(net, groups, j))
}

// The member of a number in a group of a number.
pub(crate) fn member_in(groups: &[Group], j: usize, m: usize) -> Option<&Member>
    ensures { option_map (λ member. member.now) result ≡ member_in groups.now j m }
{
    groups.get(j)?.as_slice().get(m)
}

// How many risk groups have links of the groups before one.
fn failures_before(net: &Network, groups: &[Group], j: usize) -> usize
    requires { j ≤ length groups.now }
    ensures value { result ≡ risk_count net.now (before net.now groups.now j) }
    ensures few { result ≤ LINK_LIMIT }
{
    net.keeps();
    let mut count = 0;
    for i in 0..j {
        count += new_risks(net, &groups[..i], groups[i].as_slice());
    }
    count
}

// How many risk groups have links of a group's members, and none of the earlier groups.
fn new_risks(net: &Network, earlier: &[Group], members: &[Member]) -> usize
    ensures value { risks_of net.now earlier.now [] + result ≡ risks_of net.now earlier.now members.now }
    ensures few { risks_of net.now earlier.now members.now ≤ LINK_LIMIT }
{
    net.keeps();
    let mut count = 0;
    for (i, member) in members.iter().enumerate() {
        if is_new(net, earlier, &members[..i], member.link) {
            count += 1;
        }
    }
    count
}

// Whether a link is the network's, and no earlier one is of its risk group.
fn is_new(net: &Network, groups: &[Group], members: &[Member], link: LinkId) -> bool
    ensures { result ≡ is_new net.now groups.now members.now link }
{
    let risk = net.risk(link);
    link.0 < net.counts().links && !has_risk(net, members, risk) && !any_has_risk(net, groups, risk)
}

// Whether a member of the groups has a link of a risk group.
fn any_has_risk(net: &Network, groups: &[Group], risk: LinkId) -> bool
    ensures { result ≡ list_any (λ g. has_risk net.now g risk) groups.now }
{
    groups
        .iter()
        .any(|group| has_risk(net, group.as_slice(), risk))
}

// Whether a member's link is of a risk group.
fn has_risk(net: &Network, members: &[Member], risk: LinkId) -> bool
    ensures { result ≡ has_risk net.now members.now risk }
{
    members
        .iter()
        .any(|member| net.risk(member.link).0 == risk.0)
}
