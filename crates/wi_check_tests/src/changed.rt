//! Certificates for queries of small networks, changed here and there, and why each is refused.
ghost use Rattle.wi_query.specs.Meaning.{IsQueryOf};
ghost use Rattle.wi_cert.specs.Text.{IsWritable};

use crate::asked::{Change, certificate_of, text_of};
use std::alloc::Global;
use std::process::Abort;
use std::test::Fail;
use wi_build::Problem;
use wi_cert::{Certificate, CheckRefused, ClosedRefused, RunPart, Weight};
use wi_check::{Accepted, check};
use wi_net::Network;
use wi_query::Query;
use wi_questions::{query_of, vector_of};
use wi_samples::{N1, N3, Sample, network};
use wi_weight::{Effort, Pair, Terms};
use wi_world::Word;

/// The certificate of the query below: spots 2 to 4 build the first header, 5 to 7 read the last one, 11 is on the link from a to b.
pub const YES: &[&str] = &[
    "mpls-whatif-certificate 1",
    "terms 0",
    "answer yes",
    "weight 8",
    "first 1 1 2",
    "steps 0",
    "heads 8",
    "0 0",
    "2 2",
    "3 3",
    "4 0",
    "5 2",
    "6 3",
    "7 0",
    "11 2",
    "pairs 2",
    "2 3",
    "3 0",
    "rows 7",
    "2 2 6 3",
    "3 3 7 5",
    "4 0 1 7",
    "5 2 6 1",
    "6 3 7 1",
    "7 0 1 1",
    "11 2 6 2",
    "end",
];

/// The query that it answers.
pub const QUERY: &str = "<s10 ip1> [a#b]+ <smpls ip> 0";

// What is to be said of a certificate. Weights are without terms.
#[derive(Clone, Copy)]
enum Expected {
    Accepted(Word),
    TermsDiffer(u32, u32),
    StepNotInTable(u64),
    NoMatch(RunPart),
    WeightDiffers(u128, u128),
    WrongAnswer,
    HeadMissing(u64, u32),
    PairMissing(u32, u32),
    GoalBelow(u128),
    // A head, a target and a sum.
    NotClosed((u64, u32), u64, u128),
}

fn effort(count: u128) -> Weight {
    Pair {
        first: Terms::of([0, 0, 0, 0, 0]),
        second: Effort { count },
    }
}

fn answer_to(expected: Expected) -> Result<Word, CheckRefused> {
    Err(match expected {
        Expected::Accepted(word) => return Ok(word),
        Expected::TermsDiffer(shown, asked) => CheckRefused::TermsDiffer { shown, asked },
        Expected::StepNotInTable(step) => CheckRefused::StepNotInTable(step),
        Expected::NoMatch(part) => CheckRefused::NoMatch(part),
        Expected::WeightDiffers(shown, counted) => CheckRefused::WeightDiffers {
            shown: effort(shown),
            counted: effort(counted),
        },
        Expected::WrongAnswer => CheckRefused::WrongAnswer,
        Expected::HeadMissing(p, g) => CheckRefused::Unbounded(ClosedRefused::HeadMissing(p, g)),
        Expected::PairMissing(u, v) => CheckRefused::Unbounded(ClosedRefused::PairMissing(u, v)),
        Expected::GoalBelow(weight) => {
            CheckRefused::Unbounded(ClosedRefused::GoalBelow(effort(weight)))
        }
        Expected::NotClosed(head, target, sum) => {
            CheckRefused::Unbounded(ClosedRefused::NotClosed {
                head,
                target,
                sum: effort(sum),
            })
        }
    })
}

// Changes, and why the changed certificate is refused, unless it isn't.
type Case<'a> = (&'a [Change<'a>], Expected);

const NO_TO_GOAL: &[Change] = &[
    (3, &["answer no"]),
    (4, &["weight none"]),
    (5, &["first none"]),
];

const CASES: &[Case] = &[
    (&[], Expected::Accepted(Word::Yes)),
    // A row is lacking.
    (
        &[(19, &["rows 6"]), (26, &[])],
        Expected::NotClosed((11, 2), 6, 2),
    ),
    (&[(4, &["weight 9"])], Expected::WeightDiffers(9, 8)),
    // A lower weight, with rows below it.
    (
        &[(4, &["weight 7"]), (19, &["rows 6"]), (22, &[])],
        Expected::WeightDiffers(7, 8),
    ),
    (&[(3, &["answer inconclusive"])], Expected::WrongAnswer),
    // The pair that a rule of two symbols makes of what may stand below.
    (
        &[(16, &["pairs 1"]), (18, &[])],
        Expected::PairMissing(3, 0),
    ),
    // The pair that it writes itself.
    (
        &[(16, &["pairs 1"]), (17, &[])],
        Expected::PairMissing(2, 3),
    ),
    // The head that a pop leads to.
    (&[(7, &["heads 7"]), (13, &[])], Expected::HeadMissing(6, 3)),
    (&[(7, &["heads 7"]), (8, &[])], Expected::HeadMissing(0, 0)),
    // Heads come before rows.
    (
        &[(7, &["heads 7"]), (13, &[]), (19, &["rows 6"]), (26, &[])],
        Expected::HeadMissing(6, 3),
    ),
    // A row that is lighter than it may be does no harm there, but to those that stand on it.
    (&[(22, &["4 0 1 6"])], Expected::NotClosed((0, 0), 1, 7)),
    (&[(26, &["11 2 6 1"])], Expected::NotClosed((2, 2), 6, 2)),
    // A row that is heavier than its head's rule demands.
    (&[(26, &["11 2 6 3"])], Expected::NotClosed((11, 2), 6, 2)),
    // Rows and heads that mean nothing.
    (
        &[(19, &["rows 8"]), (26, &["9 1 0 1", "11 2 6 2"])],
        Expected::Accepted(Word::Yes),
    ),
    (
        &[(7, &["heads 9"]), (14, &["7 0", "9 2"])],
        Expected::NotClosed((9, 2), 6, 2),
    ),
    (
        &[
            (7, &["heads 9"]),
            (14, &["7 0", "9 2"]),
            (19, &["rows 8"]),
            (26, &["9 2 6 2", "11 2 6 2"]),
        ],
        Expected::Accepted(Word::Yes),
    ),
    (
        &[
            (7, &["heads 9"]),
            (15, &["11 2", "18446744073709551615 4294967295"]),
        ],
        Expected::Accepted(Word::Yes),
    ),
    // The goal comes before rows.
    (
        &[(19, &["rows 8"]), (20, &["0 0 1 7", "2 2 6 3"])],
        Expected::GoalBelow(7),
    ),
    (&[(6, &["steps 1", "2 1"])], Expected::StepNotInTable(1)),
    (
        &[(5, &["first 4294967295 1 2"])],
        Expected::StepNotInTable(0),
    ),
    (
        &[(5, &["first 1 1 4294967295"])],
        Expected::StepNotInTable(0),
    ),
    (&[(5, &["first 1 2"])], Expected::NoMatch(RunPart::First)),
    (&[(5, &["first 0 1 2"])], Expected::NoMatch(RunPart::Path)),
    (NO_TO_GOAL, Expected::NotClosed((0, 0), 1, 8)),
    // The heaviest row that there can be: a sum with it is exact.
    (
        &[
            (3, &["answer no"]),
            (4, &["weight none"]),
            (5, &["first none"]),
            (22, &["4 0 1 18446744073709551615"]),
        ],
        Expected::NotClosed((0, 0), 1, 18_446_744_073_709_551_616),
    ),
];

// The lines for `<30 s10 ip1> [a#c] [c#a] <31 s10 ip1> 0`: spots 2 to 5 build the first header, 6 to 9 read the last one, 17 is on
// the link from a to c and 27 on the one back. The symbols are 30, 31, s10, ip1, from 1.
const SWAPPED: &[&str] = &[
    "mpls-whatif-certificate 1",
    "terms 0",
    "answer yes",
    "weight 11",
    "first 2 0 2 3",
    "steps 1",
    "1 1",
    "heads 11",
    "0 0",
    "2 1",
    "3 3",
    "4 4",
    "5 0",
    "6 2",
    "7 3",
    "8 4",
    "9 0",
    "17 1",
    "27 2",
    "pairs 4",
    "1 3",
    "2 3",
    "3 4",
    "4 0",
    "rows 10",
    "2 1 7 4",
    "3 3 8 6",
    "4 4 9 8",
    "5 0 1 10",
    "6 2 7 1",
    "7 3 8 1",
    "8 4 9 1",
    "9 0 1 1",
    "17 1 7 3",
    "27 2 7 2",
    "end",
];

const SWAPPED_CASES: &[Case] = &[
    (&[], Expected::Accepted(Word::Yes)),
    // What the swap hands on: what may stand below 30 may stand below 31.
    (
        &[(20, &["pairs 3"]), (22, &[])],
        Expected::PairMissing(2, 3),
    ),
    (
        &[(20, &["pairs 3"]), (21, &[])],
        Expected::PairMissing(1, 3),
    ),
    (
        &[(25, &["rows 9"]), (29, &[])],
        Expected::NotClosed((5, 0), 1, 10),
    ),
];

// The lines for `<30 30? s10 ip1> ([a#c] [c#a]|[a#c] [c#a]) <31 30? s10 ip1> 0`: spots 2 to 6 build the first header, 7 to 11 read
// the last one, 23 and 25 are on the link from a to c, 39 and 41 on the one back. So 30 is swapped at two spots, and 30 or s10 is
// below it.
const SWAPPED_TWICE: &[&str] = &[
    "mpls-whatif-certificate 1",
    "terms 0",
    "answer yes",
    "weight 11",
    "first 2 0 2 3",
    "steps 1",
    "1 1",
    "heads 18",
    "0 0",
    "2 1",
    "3 1",
    "3 3",
    "4 3",
    "5 4",
    "6 0",
    "7 2",
    "8 1",
    "8 3",
    "9 1",
    "9 3",
    "10 4",
    "11 0",
    "23 1",
    "25 1",
    "39 2",
    "41 2",
    "pairs 6",
    "1 1",
    "1 3",
    "2 1",
    "2 3",
    "3 4",
    "4 0",
    "rows 16",
    "2 1 8 4",
    "3 1 9 6",
    "3 3 10 6",
    "4 3 10 8",
    "5 4 11 8",
    "6 0 1 10",
    "7 2 8 1",
    "8 1 9 1",
    "8 3 10 1",
    "9 3 10 1",
    "10 4 11 1",
    "11 0 1 1",
    "23 1 8 3",
    "25 1 8 3",
    "39 2 8 2",
    "41 2 8 2",
    "end",
];

const SWAPPED_TWICE_CASES: &[Case] = &[
    (&[], Expected::Accepted(Word::Yes)),
    // What may stand below 30, which the step onto the link keeps.
    (
        &[(27, &["pairs 5"]), (28, &[])],
        Expected::PairMissing(1, 1),
    ),
    (
        &[(27, &["pairs 5"]), (29, &[])],
        Expected::PairMissing(1, 3),
    ),
    // The first of two that both swaps hand on, and the last one.
    (
        &[(27, &["pairs 5"]), (30, &[])],
        Expected::PairMissing(2, 1),
    ),
    (
        &[(27, &["pairs 5"]), (31, &[])],
        Expected::PairMissing(2, 3),
    ),
];

// The run of `<ip1> [x#a] [a#c] [c#a] [a#b] .* <ip1> 5` that uses a link which must have failed, and nothing that bounds other runs.
const BACK: &[&str] = &[
    "mpls-whatif-certificate 1",
    "terms 0",
    "answer inconclusive",
    "weight 11",
    "first 0 3",
    "steps 4",
    "2 1",
    "1 1",
    "1 1",
    "1 1",
    "heads 0",
    "pairs 0",
    "rows 0",
    "end",
];

const BACK_CASES: &[Case] = &[
    (&[], Expected::HeadMissing(0, 0)),
    (&[(3, &["answer yes"])], Expected::WrongAnswer),
    (&[(7, &["3 1"])], Expected::StepNotInTable(1)),
    (&[(8, &["1 2"])], Expected::StepNotInTable(2)),
];

// A network, a query, its certificate, and changed ones.
type Sheet<'a> = (&'a Sample<'a>, &'a str, &'a [&'a str], &'a [Case<'a>]);

const SHEETS: &[Sheet] = &[
    (&N1, QUERY, YES, CASES),
    (
        &N3,
        "<30 s10 ip1> [a#c] [c#a] <31 s10 ip1> 0",
        SWAPPED,
        SWAPPED_CASES,
    ),
    (
        &N3,
        "<ip1> [x#a] [a#c] [c#a] [a#b] .* <ip1> 5",
        BACK,
        BACK_CASES,
    ),
];

fn checks(
    alloc: Global,
    net: &Network,
    query: &Query,
    weights: Option<&str>,
    certificate: &Certificate,
) -> Result<Result<Word, CheckRefused>, Fail>
    requires bounds { IsQueryOf net.now query.now }
    requires text { IsWritable certificate.now }
{
    let vector = vector_of(alloc, weights)?;
    let found = check(alloc, &Problem::of(net, query, &vector), certificate);
    drop(vector);
    Ok(match found {
        Ok(Accepted { word }) => Ok(word),
        Err(refused) => Err(refused),
    })
}

// What is said of a changed certificate.
fn said(
    alloc: Global,
    net: &Network,
    query: &Query,
    weights: Option<&str>,
    lines: &[&str],
    changes: &[Change],
) -> Result<Result<Word, CheckRefused>, Fail>
    requires { IsQueryOf net.now query.now }
{
    let text = text_of(alloc, lines, changes)?;
    let certificate = certificate_of(alloc, text.as_slice())?;
    let found = checks(alloc, net, query, weights, &certificate);
    drop(certificate);
    drop(text);
    found
}

fn all_said(
    rt: &impl Abort,
    alloc: Global,
    net: &Network,
    query: &Query,
    sheet: &Sheet,
) -> Result<(), Fail>
    requires { IsQueryOf net.now query.now }
{
    for (changes, expected) in sheet.3 {
        let found = said(alloc, net, query, None, sheet.2, changes)?;
        assert!(rt; found == answer_to(*expected));
    }
    Ok(())
}

fn asked(rt: &impl Abort, alloc: Global, net: &Network, sheet: &Sheet) -> Result<(), Fail> {
    let query = query_of(alloc, net, sheet.1)?;
    let outcome = all_said(rt, alloc, net, &query, sheet);
    drop(query);
    outcome
}

fn sheet_holds(rt: &impl Abort, alloc: Global, sheet: &Sheet) -> Result<(), Fail> {
    let net = network(alloc, sheet.0)?;
    let outcome = asked(rt, alloc, &net, sheet);
    drop(net);
    outcome
}

#[test]
fn a_changed_certificate_is_refused_for_its_first_cause(rt: HostRuntime) -> Result<(), Fail> {
    for sheet in SHEETS {
        sheet_holds(&rt, rt.alloc(), sheet)?;
    }
    Ok(())
}

const TWICE: &Sheet = &(
    &N3,
    "<30 30? s10 ip1> ([a#c] [c#a]|[a#c] [c#a]) <31 30? s10 ip1> 0",
    SWAPPED_TWICE,
    SWAPPED_TWICE_CASES,
);

#[test]
fn a_pair_is_missing_by_whichever_rule(rt: HostRuntime) -> Result<(), Fail> {
    sheet_holds(&rt, rt.alloc(), TWICE)
}

// The certificate as it is, for other weights, and for queries that differ in the last header and in what is known to be down.
const OTHERS: &[(&str, Option<&str>, Expected)] = &[
    (QUERY, Some("Hops"), Expected::TermsDiffer(0, 1)),
    (
        "<s10 ip1> [a#b]+ <ip> 0",
        None,
        Expected::NoMatch(RunPart::Last),
    ),
    (
        "<s10 ip1> [a#b]+ <smpls ip> 0 down [a#b]",
        None,
        Expected::StepNotInTable(0),
    ),
];

fn others(rt: &impl Abort, alloc: Global, net: &Network) -> Result<(), Fail> {
    for (text, weights, expected) in OTHERS {
        let query = query_of(alloc, net, text)?;
        let found = said(alloc, net, &query, *weights, YES, &[]);
        drop(query);
        assert!(rt; found? == answer_to(*expected));
    }
    Ok(())
}

#[test]
fn a_certificate_answers_its_own_query_alone(rt: HostRuntime) -> Result<(), Fail> {
    let net = network(rt.alloc(), &N1)?;
    let outcome = others(&rt, rt.alloc(), &net);
    drop(net);
    outcome
}
