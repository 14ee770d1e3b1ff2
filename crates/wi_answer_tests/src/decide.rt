//! Answers by example.
ghost use Rattle.wi_query.specs.Meaning.{IsQueryOf};

use crate::common::steps_are;
use std::alloc::Global;
use std::process::Abort;
use std::test::Fail;
use wi_build::Problem;
use wi_decide::{SearchRefused, decide};
use wi_labels::{Class, Header, Label};
use wi_net::{FailSet, LinkId, Network};
use wi_quantity::{Vector, Weight};
use wi_query::Query;
use wi_questions::{query_of, vector_of};
use wi_samples::{N1, N1_FIBER, N1_NEAR, N2, N2_FIBER, N3, N4, N5, TestCase, are_met, doubling};
use wi_trace::Answer;
use wi_weight::{Effort, Pair, Terms};
use wi_world::{Run, Verdict, Word};

const NO_TERM: [u128; 5] = [0; 5];

// What a verdict is to be.
#[derive(Clone, Copy)]
enum Judged<'a> {
    Fits(&'a [u32]),
    Exceeds(usize),
    UsesFailed(u32),
}

// What an answer is to show: the terms and the effort, the first link and header, the steps, the verdict.
#[derive(Clone, Copy)]
struct Shown<'a> {
    word: Word,
    terms: [u128; 5],
    effort: u128,
    first: u32,
    header: &'a [(Label, Class)],
    steps: &'a [(u32, u32)],
    verdict: Judged<'a>,
}

// A query, what runs are weighed by, and what the answer shows, unless it is a no.
#[derive(Clone, Copy)]
struct Case<'a>(&'a str, Option<&'a str>, Option<Shown<'a>>);

fn header_is(rt: &impl Abort, header: &Header, labels: &[(Label, Class)]) {
    assert_eq!(rt; header.len(), labels.len());
    for (i, label) in labels.iter().enumerate() {
        assert_eq!(rt; header.at(i), Some(*label));
    }
}

fn run_is(rt: &impl Abort, run: &Run, shown: &Shown) {
    assert_eq!(rt; run.first, LinkId(shown.first));
    header_is(rt, &run.header, shown.header);
    steps_are(rt, run.steps.as_slice(), shown.steps);
}

fn set_is(rt: &impl Abort, set: &FailSet, links: &[u32]) {
    assert_eq!(rt; set.len(), links.len());
    for (i, link) in links.iter().enumerate() {
        assert_eq!(rt; set.at(i), Some(LinkId(*link)));
    }
}

fn verdict_is(rt: &impl Abort, verdict: &Verdict, expected: Judged) {
    match (verdict, expected) {
        (Verdict::Fits(fails), Judged::Fits(links)) => set_is(rt, fails, links),
        (Verdict::Exceeds(count), Judged::Exceeds(most)) => assert_eq!(rt; *count, most),
        (Verdict::UsesFailed(link), Judged::UsesFailed(used)) => {
            assert_eq!(rt; *link, LinkId(used))
        }
        _ => assert!(rt; false),
    }
}

fn weight_is(rt: &impl Abort, weight: Option<Weight>, shown: &Shown) {
    let expected = Pair {
        first: Terms::of(shown.terms),
        second: Effort {
            count: shown.effort,
        },
    };
    assert!(rt; weight == Some(expected));
}

// The answer shows this.
fn shows(rt: &impl Abort, answer: &Answer, shown: &Shown) {
    assert_eq!(rt; answer.word, shown.word);
    weight_is(rt, answer.weight, shown);
    match (&answer.run, &answer.verdict) {
        (Some(run), Some(verdict)) => {
            run_is(rt, run, shown);
            verdict_is(rt, verdict, shown.verdict);
        }
        _ => assert!(rt; false),
    }
}

// The answer is a no, and shows nothing.
fn is_no(rt: &impl Abort, answer: &Answer) {
    assert_eq!(rt; answer.word, Word::No);
    assert!(rt; answer.weight.is_none());
    assert!(rt; answer.run.is_none());
    assert!(rt; answer.verdict.is_none());
}

fn answer_is(rt: &impl Abort, answer: &Answer, shown: &Option<Shown>) {
    match shown {
        Some(shown) => shows(rt, answer, shown),
        None => is_no(rt, answer),
    }
}

fn decides(rt: &impl Abort, alloc: Global, problem: &Problem<'_>, shown: &Option<Shown>) {
    match decide(alloc, problem) {
        Ok((answer, certificate)) => {
            drop(certificate);
            answer_is(rt, &answer, shown);
            drop(answer);
        }
        Err(_) => assert!(rt; false),
    }
}

fn weighed_is(
    rt: &impl Abort,
    alloc: Global,
    net: &Network,
    query: &Query,
    case: &Case,
) -> Result<(), Fail>
    requires { IsQueryOf net.now query.now }
{
    let vector = vector_of(alloc, case.1)?;
    decides(rt, alloc, &Problem::of(net, query, &vector), &case.2);
    drop(vector);
    Ok(())
}

impl<R: Abort> TestCase<R> for Case<'_> {
    fn is_met(&self, rt: &R, alloc: Global, net: &Network) -> Result<(), Fail> {
        let query = query_of(alloc, net, self.0)?;
        let outcome = weighed_is(rt, alloc, net, &query, self);
        drop(query);
        outcome
    }
}

const IP1: &[(Label, Class)] = &[(Label(2), Class::Ip)];

const S10_IP1: &[(Label, Class)] = &[(Label(1), Class::Smpls), (Label(2), Class::Ip)];

const HIGHER_IP1: &[(Label, Class)] = &[(Label(3), Class::Ip)];

// By c and b to y, or to z.
const AROUND: &[(u32, u32)] = &[(1, 0), (0, 0), (0, 0)];

const AROUND_TO_Z: &[(u32, u32)] = &[(1, 0), (0, 0), (1, 0)];

const SMALL_CASES: &[Case] = &[
    Case(
        "<ip1> [x#a] .* [b#y] <ip1> 0",
        Some("Hops"),
        Some(Shown {
            word: Word::Yes,
            terms: [3, 0, 0, 0, 0],
            effort: 8,
            first: 0,
            header: IP1,
            steps: &[(0, 0), (0, 0)],
            verdict: Judged::Fits(&[]),
        }),
    ),
    // The backup needs a failure.
    Case("<ip1> [x#a] [a#c] .* [b#y] <ip1> 0", None, None),
    Case(
        "<ip1> [x#a] [a#c] .* [b#y] <ip1> 1",
        Some("Hops, Distance+3*Tunnels"),
        Some(Shown {
            word: Word::Yes,
            terms: [4, 12, 0, 0, 0],
            effort: 10,
            first: 0,
            header: IP1,
            steps: AROUND,
            verdict: Judged::Fits(&[1]),
        }),
    ),
    Case(
        "<s10 ip1> [a#b]+ <smpls ip> 0",
        None,
        Some(Shown {
            word: Word::Yes,
            terms: NO_TERM,
            effort: 8,
            first: 1,
            header: S10_IP1,
            steps: &[],
            verdict: Judged::Fits(&[]),
        }),
    ),
    // The word is in the expression, but it is no valid header.
    Case("<30 ip1> .* <.*> 0", None, None),
    // Known to be down, the link to b isn't counted; known to be up, it can't have failed.
    Case(
        "<ip1> [x#a] .* [b#y] <ip1> 0 down [a#b]",
        None,
        Some(Shown {
            word: Word::Yes,
            terms: NO_TERM,
            effort: 10,
            first: 0,
            header: IP1,
            steps: AROUND,
            verdict: Judged::Fits(&[1]),
        }),
    ),
    Case("<ip1> [x#a] [a#c] .* [b#y] <ip1> 5 up [a#b]", None, None),
    Case("<ip1> [x#a] .* [b#y] <ip1> 0 down [x#a]", None, None),
];

#[test]
fn a_least_run_that_fits_is_a_yes(rt: HostRuntime) -> Result<(), Fail> {
    are_met(&rt, rt.alloc(), &N1, SMALL_CASES)
}

const TO_Z_AT_2: Shown = Shown {
    word: Word::Yes,
    terms: NO_TERM,
    effort: 10,
    first: 0,
    header: IP1,
    steps: AROUND_TO_Z,
    verdict: Judged::Fits(&[1, 4]),
};

const LARGE_CASES: &[Case] = &[
    Case(
        "<ip1> [x#a] [a#c] .* [b#z] <ip1> 1",
        None,
        Some(Shown {
            word: Word::Inconclusive,
            terms: NO_TERM,
            effort: 10,
            first: 0,
            header: IP1,
            steps: AROUND_TO_Z,
            verdict: Judged::Exceeds(2),
        }),
    ),
    Case("<ip1> [x#a] [a#c] .* [b#z] <ip1> 2", None, Some(TO_Z_AT_2)),
    Case("<ip1> [x#a] [a#c] .* [b#z] <ip1> 0", None, None),
    Case(
        "<ip1> [x#a] [a#c] .* [b#z] <ip1> 1 down [a#b]",
        None,
        Some(TO_Z_AT_2),
    ),
];

const RETURNING_CASES: &[Case] = &[
    Case(
        "<ip1> [x#a] [a#c] [c#a] [a#b] .* <ip1> 5",
        None,
        Some(Shown {
            word: Word::Inconclusive,
            terms: NO_TERM,
            effort: 11,
            first: 0,
            header: HIGHER_IP1,
            steps: &[(1, 0), (0, 0), (0, 0), (0, 0)],
            verdict: Judged::UsesFailed(1),
        }),
    ),
    Case(
        "<ip1> [x#a] [a#c] [c#a] [a#b] .* <ip1> 5 down [a#b]",
        None,
        None,
    ),
];

#[test]
fn a_least_run_that_does_not_fit_is_inconclusive(rt: HostRuntime) -> Result<(), Fail> {
    are_met(&rt, rt.alloc(), &N2, LARGE_CASES)?;
    are_met(&rt, rt.alloc(), &N3, RETURNING_CASES)
}

const SAME_LINK_CASES: &[Case] = &[Case("<ip1> [x#a] [a#b] <s10 ip1> 5", None, None)];

const UNDEFINED_CASES: &[Case] = &[
    Case("<ip1> [x#a] [a#c] .* [b#y] <ip1> 0", None, None),
    Case(
        "<ip1> [x#a] [a#c] .* [b#y] <ip1> 1",
        None,
        Some(Shown {
            word: Word::Yes,
            terms: NO_TERM,
            effort: 10,
            first: 0,
            header: IP1,
            steps: AROUND,
            verdict: Judged::Fits(&[1]),
        }),
    ),
];

#[test]
fn a_member_that_can_never_be_used_is_not(rt: HostRuntime) -> Result<(), Fail> {
    are_met(&rt, rt.alloc(), &N4, SAME_LINK_CASES)?;
    are_met(&rt, rt.alloc(), &N5, UNDEFINED_CASES)
}

const FIBER_CASES: &[Case] = &[Case(
    "<ip1> [x#a] [a#c] .* [b#y] <ip1> 1",
    None,
    Some(Shown {
        word: Word::Inconclusive,
        terms: NO_TERM,
        effort: 10,
        first: 0,
        header: IP1,
        steps: AROUND,
        verdict: Judged::UsesFailed(4),
    }),
)];

const LARGE_FIBER_CASES: &[Case] = &[Case(
    "<ip1> [x#a] [a#c] .* [b#z] <ip1> 1",
    Some("Failures"),
    Some(Shown {
        word: Word::Yes,
        terms: [2, 0, 0, 0, 0],
        effort: 10,
        first: 0,
        header: IP1,
        steps: AROUND_TO_Z,
        verdict: Judged::Fits(&[1, 4]),
    }),
)];

const NEAR_CASES: &[Case] = &[Case("<ip1> [x#a] [a#c] .* [b#y] <ip1> 5", None, None)];

#[test]
fn a_risk_group_fails_once_and_as_a_whole(rt: HostRuntime) -> Result<(), Fail> {
    are_met(&rt, rt.alloc(), &N1_FIBER, FIBER_CASES)?;
    are_met(&rt, rt.alloc(), &N2_FIBER, LARGE_FIBER_CASES)?;
    are_met(&rt, rt.alloc(), &N1_NEAR, NEAR_CASES)
}

// Why a problem isn't decided: a weight that doesn't fit, or the effort of a run that is too long.
#[derive(Clone, Copy)]
enum Undecided {
    Overflow(Weight),
    TooLong(u64),
}

fn refused_is(rt: &impl Abort, refused: SearchRefused, expected: Undecided) {
    match (refused, expected) {
        (SearchRefused::Overflow(overflow), Undecided::Overflow(weight)) => {
            assert!(rt; overflow.weight == weight);
        }
        (SearchRefused::TooLong(effort), Undecided::TooLong(wanted)) => {
            assert_eq!(rt; effort, wanted);
        }
        _ => assert!(rt; false),
    }
}

fn refuses(rt: &impl Abort, alloc: Global, problem: &Problem<'_>, expected: Undecided) {
    match decide(alloc, problem) {
        Ok(found) => {
            drop(found);
            assert!(rt; false);
        }
        Err(refused) => refused_is(rt, refused, expected),
    }
}

fn doubling_refuses(
    rt: &impl Abort,
    alloc: Global,
    net: &Network,
    text: &str,
    expected: Undecided,
) -> Result<(), Fail> {
    let query = query_of(alloc, net, text)?;
    let vector = Vector::new(alloc);
    refuses(rt, alloc, &Problem::of(net, &query, &vector), expected);
    drop(query);
    drop(vector);
    Ok(())
}

const OVERFLOW: Weight = Pair {
    first: Terms {
        first: 0,
        second: 0,
        third: 0,
        fourth: 0,
        fifth: 0,
    },
    second: Effort {
        count: 27_670_116_110_564_327_421,
    },
};

// Queries whose least run is too long, and its effort: the first by far, the second by one.
const TOO_LONG: &[(&str, u64)] = &[
    ("<d11 s1 ip1> .* <s1 ip1> 0", 6151),
    ("<d10 d8 d6 d4 d2 d0 s1 ip1> .* <s1 ip1> 0", 4097),
];

fn too_long(rt: &impl Abort, alloc: Global, net: &Network) -> Result<(), Fail> {
    for (text, effort) in TOO_LONG {
        doubling_refuses(rt, alloc, net, text, Undecided::TooLong(*effort))?;
    }
    Ok(())
}

#[test]
fn a_run_that_is_too_long_is_not_shown(rt: HostRuntime) -> Result<(), Fail> {
    let net = doubling(rt.alloc(), 12)?;
    let outcome = too_long(&rt, rt.alloc(), &net);
    drop(net);
    outcome
}

fn large_refuses(rt: &impl Abort, alloc: Global, net: &Network) -> Result<(), Fail> {
    let longest = Undecided::TooLong(13_835_058_055_282_163_719);
    doubling_refuses(rt, alloc, net, "<d62 s1 ip1> .* <s1 ip1> 0", longest)?;
    let expected = Undecided::Overflow(OVERFLOW);
    doubling_refuses(rt, alloc, net, "<d63 s1 ip1> .* <s1 ip1> 0", expected)
}

#[test]
fn a_weight_that_does_not_fit_is_told(rt: HostRuntime) -> Result<(), Fail> {
    let net = doubling(rt.alloc(), 64)?;
    let outcome = large_refuses(&rt, rt.alloc(), &net);
    drop(net);
    outcome
}
