//! How many failures it takes, by example.

use crate::exact::set_is;
use std::alloc::Global;
use std::process::Abort;
use std::test::Fail;
use wi_branch::{ExactRefused, Tolerance, TolerateRefused, tolerate};
use wi_build::Problem;
use wi_cert::{Claim, NODE_LIMIT, TreeCertificate};
use wi_net::Network;
use wi_quantity::Vector;
use wi_query::Query;
use wi_questions::query_of;
use wi_samples::{N1, N1_FIBER, N2, N3, N6, TestCase, are_met};
use wi_trace::Answer;
use wi_world::Verdict;

// What the outcome is to be: the least number, with the links that have failed then; that there is none; or that at this number there
// would be more nodes than the limit.
#[derive(Clone, Copy)]
enum Outcome<'a> {
    Takes(u32, &'a [u32]),
    TakesMore,
    OverLimit(u32),
}

// A query, the most failures, the most nodes, and the outcome.
#[derive(Clone, Copy)]
struct Case<'a>(&'a str, u32, u32, Outcome<'a>);

fn failed_are(rt: &impl Abort, answer: &Answer, links: &[u32]) {
    match &answer.verdict {
        Some(Verdict::Fits(set)) => set_is(rt, set, links),
        _ => assert!(rt; false),
    }
}

// A tree shows this.
fn shows(tree: &TreeCertificate, claim: Claim) -> bool {
    tree.shown.claim == claim
}

// Below the least number a tree shows a no, but for a number of 0.
fn below_is(rt: &impl Abort, below: &Option<TreeCertificate>, k: u32) {
    match below {
        Some(tree) => assert!(rt; k > 0 && shows(tree, Claim::No)),
        None => assert!(rt; k == 0),
    }
}

fn found_is(rt: &impl Abort, found: &Tolerance, outcome: Outcome) {
    match (found, outcome) {
        (
            Tolerance::At {
                k,
                answer,
                yes,
                below,
            },
            Outcome::Takes(number, links),
        ) => {
            assert_eq!(rt; *k, number);
            failed_are(rt, answer, links);
            assert!(rt; shows(yes, Claim::Yes));
            below_is(rt, below, *k);
        }
        (Tolerance::NoneUpTo { no }, Outcome::TakesMore) => {
            assert!(rt; shows(no, Claim::No));
        }
        _ => assert!(rt; false),
    }
}

fn refused_is(rt: &impl Abort, refused: &TolerateRefused, outcome: Outcome) {
    match (refused, outcome) {
        (TolerateRefused::Exact(k, ExactRefused::NodeLimit { .. }), Outcome::OverLimit(number)) => {
            assert_eq!(rt; *k, number);
        }
        _ => assert!(rt; false),
    }
}

fn tells(rt: &impl Abort, alloc: Global, problem: &Problem<'_>, case: &Case) {
    match tolerate(alloc, problem, case.1, case.2.min(NODE_LIMIT)) {
        Ok(found) => {
            found_is(rt, &found, case.3);
            drop(found);
        }
        Err(refused) => {
            refused_is(rt, &refused, case.3);
            drop(refused);
        }
    }
}

impl<R: Abort> TestCase<R> for Case<'_> {
    fn is_met(&self, rt: &R, alloc: Global, net: &Network) -> Result<(), Fail> {
        let query = query_of(alloc, net, self.0)?;
        let vector = Vector::new(alloc);
        tells(rt, alloc, &Problem::of(net, &query, &vector), self);
        drop(vector);
        drop(query);
        Ok(())
    }
}

// Two links have to fail on the way to z; the query's own number isn't used.
const TO_Z: &[Case] = &[
    Case(
        "<ip1> [x#a] [a#c] .* [b#z] <ip1> 0",
        3,
        NODE_LIMIT,
        Outcome::Takes(2, &[1, 4]),
    ),
    Case(
        "<ip1> [x#a] [a#c] .* [b#z] <ip1> 65535",
        2,
        NODE_LIMIT,
        Outcome::Takes(2, &[1, 4]),
    ),
    Case(
        "<ip1> [x#a] [a#c] .* [b#z] <ip1> 0",
        1,
        NODE_LIMIT,
        Outcome::TakesMore,
    ),
    Case(
        "<ip1> [x#a] [a#c] .* [b#z] <ip1> 2",
        0,
        NODE_LIMIT,
        Outcome::TakesMore,
    ),
    // One that is known to be down isn't counted, and one that stays up doesn't fail.
    Case(
        "<ip1> [x#a] [a#c] .* [b#z] <ip1> 0 down [a#b]",
        65535,
        NODE_LIMIT,
        Outcome::Takes(1, &[1, 4]),
    ),
    Case(
        "<ip1> [x#a] [a#c] .* [b#z] <ip1> 0 up [a#b]",
        65535,
        NODE_LIMIT,
        Outcome::TakesMore,
    ),
];

// What comes back takes the link that it needed to have failed, however many fail.
const RETURNING: &[Case] = &[
    Case(
        "<ip1> [x#a] [a#c] [c#a] [a#b] .* <ip1> 5",
        5,
        NODE_LIMIT,
        Outcome::TakesMore,
    ),
    // With none that may fail there is one node, and with one there are three.
    Case(
        "<ip1> [x#a] [a#c] [c#a] [a#b] .* <ip1> 5",
        5,
        2,
        Outcome::OverLimit(1),
    ),
    Case(
        "<ip1> [x#a] [a#c] [c#a] [a#b] .* <ip1> 5",
        5,
        0,
        Outcome::OverLimit(0),
    ),
];

// Without a failure the packet goes straight on, and with one around.
const STRAIGHT: &[Case] = &[
    Case(
        "<ip1> [x#a] [a#b] [b#y] <ip1> 5",
        5,
        NODE_LIMIT,
        Outcome::Takes(0, &[]),
    ),
    Case(
        "<ip1> [x#a] [a#c] .* [b#y] <ip1> 0",
        65535,
        NODE_LIMIT,
        Outcome::Takes(1, &[1]),
    ),
];

// The link to y fails with the one to b.
const FIBER: &[Case] = &[Case(
    "<ip1> [x#a] [a#c] .* [b#y] <ip1> 0",
    65535,
    NODE_LIMIT,
    Outcome::TakesMore,
)];

// The last way out of a is taken once the three before it are down.
const LAST_WAY: &[Case] = &[
    Case(
        "<ip1> [x#a] [a#c] <ip1> 0",
        65535,
        NODE_LIMIT,
        Outcome::Takes(3, &[1, 2, 3]),
    ),
    Case(
        "<ip1> [x#a] [a#c] <ip1> 0",
        3,
        NODE_LIMIT,
        Outcome::Takes(3, &[1, 2, 3]),
    ),
    Case(
        "<ip1> [x#a] [a#c] <ip1> 0",
        2,
        NODE_LIMIT,
        Outcome::TakesMore,
    ),
];

#[test]
fn two_failures_lead_to_z(rt: HostRuntime) -> Result<(), Fail> {
    are_met(&rt, rt.alloc(), &N2, TO_Z)
}

#[test]
fn no_number_of_failures_lets_it_return(rt: HostRuntime) -> Result<(), Fail> {
    are_met(&rt, rt.alloc(), &N3, RETURNING)
}

#[test]
fn none_or_one_failure_is_enough(rt: HostRuntime) -> Result<(), Fail> {
    are_met(&rt, rt.alloc(), &N1, STRAIGHT)
}

#[test]
fn three_failures_lead_to_the_last_way(rt: HostRuntime) -> Result<(), Fail> {
    are_met(&rt, rt.alloc(), &N6, LAST_WAY)
}

#[test]
fn a_risk_group_is_one_failure(rt: HostRuntime) -> Result<(), Fail> {
    are_met(&rt, rt.alloc(), &N1_FIBER, FIBER)
}
