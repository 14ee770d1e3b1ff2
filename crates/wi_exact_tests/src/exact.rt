//! Exact answers by example.
use std::alloc::Global;
use std::process::Abort;
use std::test::Fail;
use wi_branch::{AnswerRefused, ExactRefused, Opened, exact, exact_answer};
use wi_build::Problem;
use wi_cert::{NODE_LIMIT, Node as TreeNode};
use wi_net::{FailSet, LinkId, Network};
use wi_quantity::Vector;
use wi_query::Query;
use wi_questions::query_of;
use wi_samples::{N1, N1_FIBER, N2, N3, TestCase, are_met};
use wi_trace::Answer;
use wi_world::{Verdict, Word};

// What a node is to be: a leaf, or a branch that is split by this link.
#[derive(Clone, Copy)]
enum Node {
    Leaf,
    Split(u32),
}

// What the outcome is to be: a yes under these failures, with this effort; a no; or that there would be more nodes than the limit.
#[derive(Clone, Copy)]
enum Outcome<'a> {
    Yes(&'a [u32], u128),
    No,
    OverLimit,
}

// A query, how many risk groups may fail, the most nodes, the outcome, and the nodes that are opened.
#[derive(Clone, Copy)]
struct Case<'a> {
    text: &'a str,
    k: u32,
    limit: u32,
    outcome: Outcome<'a>,
    nodes: &'a [Node],
}

/// A set has these links, in rising order.
pub fn set_is(rt: &impl Abort, set: &FailSet, links: &[u32]) {
    assert_eq!(rt; set.len(), links.len());
    for (i, link) in links.iter().enumerate() {
        assert_eq!(rt; set.at(i), Some(LinkId(*link)));
    }
}

fn opened_is(node: &Opened, expected: Node) -> bool {
    match (node, expected) {
        (Opened::Closed(_) | Opened::Fits(_, _), Node::Leaf) => true,
        (Opened::Split(link), Node::Split(number)) => *link == LinkId(number),
        _ => false,
    }
}

fn opened_are(rt: &impl Abort, opened: &[Opened], expected: &[Node]) {
    assert_eq!(rt; opened.len(), expected.len());
    for (node, wanted) in opened.iter().zip(expected) {
        assert!(rt; opened_is(node, *wanted));
    }
}

fn node_is(node: &TreeNode, expected: Node) -> bool {
    match (node, expected) {
        (TreeNode::Closed(_), Node::Leaf) => true,
        (TreeNode::Split(link), Node::Split(number)) => *link == number,
        _ => false,
    }
}

fn nodes_are(rt: &impl Abort, nodes: &[TreeNode], expected: &[Node]) {
    assert_eq!(rt; nodes.len(), expected.len());
    for (node, wanted) in nodes.iter().zip(expected) {
        assert!(rt; node_is(node, *wanted));
    }
}

fn effort_is(answer: &Answer, effort: u128) -> bool {
    match &answer.weight {
        Some(weight) => weight.second.count == effort,
        None => false,
    }
}

fn answer_is(rt: &impl Abort, answer: &Answer, outcome: Outcome) {
    match (&answer.verdict, outcome) {
        (Some(Verdict::Fits(set)), Outcome::Yes(links, effort)) => {
            assert!(rt; answer.word == Word::Yes);
            assert!(rt; effort_is(answer, effort));
            set_is(rt, set, links);
        }
        (None, Outcome::No) => assert!(rt; answer.word == Word::No),
        _ => assert!(rt; false),
    }
}

fn refused_is(rt: &impl Abort, refused: &ExactRefused, case: &Case) {
    match (refused, case.outcome) {
        (ExactRefused::NodeLimit { opened }, Outcome::OverLimit) => {
            assert_eq!(rt; opened.as_slice().len(), case.limit as usize);
            opened_are(rt, opened.as_slice(), case.nodes);
        }
        _ => assert!(rt; false),
    }
}

fn is_shown(rt: &impl Abort, alloc: Global, problem: &Problem<'_>, case: &Case) {
    match exact(alloc, problem, case.k, case.limit.min(NODE_LIMIT)) {
        Ok((answer, tree)) => {
            answer_is(rt, &answer, case.outcome);
            nodes_are(rt, tree.nodes.as_slice(), case.nodes);
            drop(answer);
            drop(tree);
        }
        Err(refused) => {
            refused_is(rt, &refused, case);
            drop(refused);
        }
    }
}

fn is_answered(rt: &impl Abort, alloc: Global, problem: &Problem<'_>, case: &Case) {
    match exact_answer(alloc, problem, case.k, case.limit.min(NODE_LIMIT)) {
        Ok((answer, count)) => {
            answer_is(rt, &answer, case.outcome);
            assert_eq!(rt; count as usize, case.nodes.len());
            drop(answer);
        }
        Err(AnswerRefused::NodeLimit) => assert!(rt; matches!(case.outcome, Outcome::OverLimit)),
        Err(_refused) => assert!(rt; false),
    }
}

impl<R: Abort> TestCase<R> for Case<'_> {
    fn is_met(&self, rt: &R, alloc: Global, net: &Network) -> Result<(), Fail> {
        let query = query_of(alloc, net, self.text)?;
        let vector = Vector::new(alloc);
        let problem = Problem::of(net, &query, &vector);
        is_shown(rt, alloc, &problem, self);
        is_answered(rt, alloc, &problem, self);
        drop(vector);
        drop(query);
        Ok(())
    }
}

const SPLIT: &[Node] = &[Node::Split(1), Node::Leaf, Node::Leaf];

const RETURNS: &str = "<ip1> [x#a] [a#c] [c#a] [a#b] .* <ip1> 5";

const TO_Z: &str = "<ip1> [x#a] [a#c] .* [b#z] <ip1> 1";

const AROUND: &str = "<ip1> [x#a] [a#c] .* [b#y] <ip1> 1";

// What comes back to a takes the link that it needed to have failed: under no set of failures is there such a run.
const RETURNING: &[Case] = &[
    Case {
        text: RETURNS,
        k: 5,
        limit: NODE_LIMIT,
        outcome: Outcome::No,
        nodes: SPLIT,
    },
    Case {
        text: RETURNS,
        k: 5,
        limit: 3,
        outcome: Outcome::No,
        nodes: SPLIT,
    },
    Case {
        text: RETURNS,
        k: 5,
        limit: 2,
        outcome: Outcome::OverLimit,
        nodes: &[Node::Split(1), Node::Leaf],
    },
];

// Two links have to fail on the way to z: with one failure it is a no, and with two a yes.
const TO_Z_CASES: &[Case] = &[
    Case {
        text: TO_Z,
        k: 1,
        limit: NODE_LIMIT,
        outcome: Outcome::No,
        nodes: SPLIT,
    },
    Case {
        text: TO_Z,
        k: 2,
        limit: NODE_LIMIT,
        outcome: Outcome::Yes(&[1, 4], 10),
        nodes: &[Node::Leaf],
    },
];

// The link to y fails with the one to b.
const FIBER: &[Case] = &[Case {
    text: AROUND,
    k: 1,
    limit: NODE_LIMIT,
    outcome: Outcome::No,
    nodes: SPLIT,
}];

// Without a run there is one node; with none that may fail, a run that needs a failure leaves nothing to split.
const PLAIN: &[Case] = &[
    Case {
        text: AROUND,
        k: 1,
        limit: NODE_LIMIT,
        outcome: Outcome::Yes(&[1], 10),
        nodes: &[Node::Leaf],
    },
    Case {
        text: AROUND,
        k: 0,
        limit: NODE_LIMIT,
        outcome: Outcome::No,
        nodes: &[Node::Leaf],
    },
    Case {
        text: AROUND,
        k: 1,
        limit: 0,
        outcome: Outcome::OverLimit,
        nodes: &[],
    },
];

#[test]
fn a_run_that_returns_is_a_no(rt: HostRuntime) -> Result<(), Fail> {
    are_met(&rt, rt.alloc(), &N3, RETURNING)
}

#[test]
fn two_failures_are_a_yes_where_one_is_a_no(rt: HostRuntime) -> Result<(), Fail> {
    are_met(&rt, rt.alloc(), &N2, TO_Z_CASES)
}

#[test]
fn a_risk_group_fails_as_one(rt: HostRuntime) -> Result<(), Fail> {
    are_met(&rt, rt.alloc(), &N1_FIBER, FIBER)
}

#[test]
fn one_node_where_nothing_is_split(rt: HostRuntime) -> Result<(), Fail> {
    are_met(&rt, rt.alloc(), &N1, PLAIN)
}
