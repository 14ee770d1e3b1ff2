//! Certificates that the search writes, and changed ones of larger networks.
ghost use Rattle.std.specs.Prelude.{IfOk};
ghost use Rattle.wi_query.specs.Meaning.{IsQueryOf};
ghost use Rattle.wi_cert.specs.Text.{IsWritable};

use crate::asked::text_of;
use crate::changed::{QUERY, YES};
use std::alloc::Global;
use std::process::Abort;
use std::test::Fail;
use wi_build::Problem;
use wi_cert::{Certificate, encode};
use wi_check::check;
use wi_decide::decide;
use wi_net::Network;
use wi_quantity::Vector;
use wi_query::Query;
use wi_questions::{query_of, vector_of};
use wi_samples::{N1, N2, N3, N4, N5, Sample, doubling, network};
use wi_world::Word;

// A query, what runs are weighed by, and the word of the answer.
type Case<'a> = (&'a str, Option<&'a str>, Word);

const SMALL_CASES: &[Case] = &[
    ("<ip1> [x#a] .* [b#y] <ip1> 0", Some("Hops"), Word::Yes),
    ("<ip1> [x#a] [a#c] .* [b#y] <ip1> 0", None, Word::No),
    (
        "<ip1> [x#a] [a#c] .* [b#y] <ip1> 1",
        Some("Hops, Distance+3*Tunnels"),
        Word::Yes,
    ),
    (QUERY, None, Word::Yes),
    ("<30 ip1> .* <.*> 0", None, Word::No),
];

const LARGE_CASES: &[Case] = &[
    (
        "<ip1> [x#a] [a#c] .* [b#z] <ip1> 1",
        None,
        Word::Inconclusive,
    ),
    ("<ip1> [x#a] [a#c] .* [b#z] <ip1> 2", None, Word::Yes),
    ("<ip1> [x#a] [a#c] .* [b#z] <ip1> 0", None, Word::No),
];

const RETURNING: &str = "<ip1> [x#a] [a#c] [c#a] [a#b] .* <ip1> 5";

const RETURNING_CASES: &[Case] = &[(RETURNING, None, Word::Inconclusive)];

const OWN_LINK_CASES: &[Case] = &[("<ip1> [x#a] [a#b] <s10 ip1> 5", None, Word::No)];

const UNDEFINED_CASES: &[Case] = &[
    ("<ip1> [x#a] [a#c] .* [b#y] <ip1> 0", None, Word::No),
    ("<ip1> [x#a] [a#c] .* [b#y] <ip1> 1", None, Word::Yes),
];

// The longest run that is shown.
const LONGEST: &[Case] = &[(
    "<d10 d8 d6 d4 d1 d1 d0 s1 ip1> .* <s1 ip1> 0",
    None,
    Word::Yes,
)];

// The answer's word, and its certificate.
fn made(alloc: Global, problem: &Problem<'_>) -> Result<(Word, Certificate), Fail>
    ensures { IfOk result (λ found. IsWritable found.1) }
{
    match decide(alloc, problem) {
        Ok((answer, certificate)) => {
            let word = answer.word;
            drop(answer);
            Ok((word, certificate))
        }
        Err(_) => Err(Fail::new("no answer")),
    }
}

fn accepts(
    rt: &impl Abort,
    alloc: Global,
    problem: &Problem<'_>,
    expected: Word,
) -> Result<(), Fail> {
    let (word, certificate) = made(alloc, problem)?;
    let found = check(alloc, problem, &certificate);
    drop(certificate);
    assert_eq!(rt; word, expected);
    match found {
        Ok(accepted) => assert_eq!(rt; accepted.word, expected),
        Err(_) => assert!(rt; false),
    }
    Ok(())
}

fn accepts_weighed(
    rt: &impl Abort,
    alloc: Global,
    net: &Network,
    query: &Query,
    case: &Case,
) -> Result<(), Fail>
    requires { IsQueryOf net.now query.now }
{
    let vector = vector_of(alloc, case.1)?;
    let outcome = accepts(rt, alloc, &Problem::of(net, query, &vector), case.2);
    drop(vector);
    outcome
}

fn accepts_each(rt: &impl Abort, alloc: Global, net: &Network, cases: &[Case]) -> Result<(), Fail> {
    for case in cases {
        let query = query_of(alloc, net, case.0)?;
        let outcome = accepts_weighed(rt, alloc, net, &query, case);
        drop(query);
        outcome?;
    }
    Ok(())
}

fn accepts_all(
    rt: &impl Abort,
    alloc: Global,
    sample: &Sample,
    cases: &[Case],
) -> Result<(), Fail> {
    let net = network(alloc, sample)?;
    let outcome = accepts_each(rt, alloc, &net, cases);
    drop(net);
    outcome
}

#[test]
fn certificates_of_the_search_are_accepted(rt: HostRuntime) -> Result<(), Fail> {
    accepts_all(&rt, rt.alloc(), &N1, SMALL_CASES)?;
    accepts_all(&rt, rt.alloc(), &N2, LARGE_CASES)?;
    accepts_all(&rt, rt.alloc(), &N3, RETURNING_CASES)?;
    accepts_all(&rt, rt.alloc(), &N4, OWN_LINK_CASES)?;
    accepts_all(&rt, rt.alloc(), &N5, UNDEFINED_CASES)?;
    let net = doubling(rt.alloc(), 11)?;
    let outcome = accepts_each(&rt, rt.alloc(), &net, LONGEST);
    drop(net);
    outcome
}

const NO: &[&str] = &[
    "mpls-whatif-certificate 1",
    "terms 0",
    "answer no",
    "weight none",
    "first none",
    "steps 0",
    "heads 3",
    "0 0",
    "3 3",
    "4 0",
    "pairs 1",
    "3 0",
    "rows 0",
    "end",
];

const TEXTS: &[(&str, &[&str])] = &[(QUERY, YES), ("<30 ip1> .* <.*> 0", NO)];

fn text_is(
    rt: &impl Abort,
    alloc: Global,
    net: &Network,
    query: &Query,
    lines: &[&str],
) -> Result<(), Fail>
    requires { IsQueryOf net.now query.now }
{
    let vector = Vector::new(alloc);
    let found = made(alloc, &Problem::of(net, query, &vector));
    drop(vector);
    let (_, certificate) = found?;
    let text = encode(alloc, &certificate);
    drop(certificate);
    let expected = text_of(alloc, lines, &[])?;
    assert!(rt; text?.as_slice() == expected.as_slice());
    Ok(())
}

fn texts_are(rt: &impl Abort, alloc: Global, net: &Network) -> Result<(), Fail> {
    for (text, lines) in TEXTS {
        let query = query_of(alloc, net, text)?;
        let outcome = text_is(rt, alloc, net, &query, lines);
        drop(query);
        outcome?;
    }
    Ok(())
}

#[test]
fn certificates_have_the_least_heads_and_rows(rt: HostRuntime) -> Result<(), Fail> {
    let net = network(rt.alloc(), &N1)?;
    let outcome = texts_are(&rt, rt.alloc(), &net);
    drop(net);
    outcome
}
