//! Texts by example.
ghost use Rattle.std.specs.Prelude.{IfOk, IfSome};
ghost use Rattle.wi_query.specs.Meaning.{IsQueryOf};
ghost use Rattle.wi_report.specs.Reports.{IsKnownRun};

use std::alloc::Global;
use std::process::Abort;
use std::test::Fail;
use wi_base::{Listed, NoMemory};
use wi_build::Problem;
use wi_faults::{
    network_fault_text, overflow_text, query_fault_text, script_fault_text, too_long_text,
    weight_fault_text,
};
use wi_labels::Class;
use wi_net::{FailSet, LinkId, Network};
use wi_netjson::{LinkPart, NetFault, Place};
use wi_quantity::{Vector, Weight, WeightFault};
use wi_query::{Query, QueryFault};
use wi_questions::{query_of, vector_of};
use wi_report::{report, states};
use wi_samples::{N1_WITH_31, N2_WITH_31, N3, QUOTED, TestCase, are_met, network};
use wi_script::{ScriptCause, ScriptRefused, play, read_script};
use wi_text::Text;
use wi_trace::Answer;
use wi_weight::{Effort, Pair, Terms};
use wi_world::{End, Run, Step, Verdict, Word};

fn says(rt: &impl Abort, text: Result<Text, NoMemory>, said: &str) -> Result<(), Fail> {
    assert!(rt; text?.as_bytes() == said.as_bytes());
    Ok(())
}

fn states_say(
    rt: &impl Abort,
    alloc: Global,
    net: &Network,
    script: &str,
    said: &str,
) -> Result<(), Fail> {
    let script = read_script(alloc, net, script.as_bytes())?;
    let played = play(alloc, net, 2, &script);
    drop(script);
    let moments = played?;
    let text = states(alloc, net, moments.as_slice());
    drop(moments);
    says(rt, text, said)
}

#[test]
fn names_are_plain_or_quoted(rt: HostRuntime) -> Result<(), Fail> {
    let net = network(rt.alloc(), &QUOTED)?;
    let said = states_say(
        &rt,
        rt.alloc(),
        &net,
        "at a.b#\"b 1\".\"a.0\" 30 \"s-10\" \"ip\"\n",
        "a.b#\"b 1\".\"a.0\" | 30 \"s-10\" \"ip\" | failed none\n",
    );
    drop(net);
    said
}

#[test]
fn each_state_has_a_line(rt: HostRuntime) -> Result<(), Fail> {
    let net = network(rt.alloc(), &QUOTED)?;
    let said = states_say(
        &rt,
        rt.alloc(),
        &net,
        "at a.b#\"b 1\".\"a.0\" ip\nfail a.\"é\"#a.e\nfail \"b 1\".c#a.d\nrepair a.\"é\"#a.e\n",
        "a.b#\"b 1\".\"a.0\" | \"ip\" | failed none\na.b#\"b 1\".\"a.0\" | \"ip\" | failed a.\"é\"#a.e\na.b#\"b 1\".\"a.0\" | \"ip\" | failed \"b 1\".c#a.d a.\"é\"#a.e\na.b#\"b 1\".\"a.0\" | \"ip\" | failed \"b 1\".c#a.d\n",
    );
    drop(net);
    said
}

// The line and the cause of a fault, and its text.
const SCRIPT_FAULTS: &[(usize, ScriptCause, &str)] = &[
    (1, ScriptCause::NotAnEvent, "script: line 1: not an event\n"),
    (
        2,
        ScriptCause::UnknownName,
        "script: line 2: unknown name\n",
    ),
    (1, ScriptCause::BadHeader, "script: line 1: bad header\n"),
    (
        10,
        ScriptCause::AlreadyFailed,
        "script: line 10: already failed\n",
    ),
    (3, ScriptCause::NotFailed, "script: line 3: not failed\n"),
    (
        2,
        ScriptCause::TooManyFailed,
        "script: line 2: too many failed\n",
    ),
    (
        4,
        ScriptCause::NoSuchGroup,
        "script: line 4: no such group\n",
    ),
    (
        5,
        ScriptCause::NoSuchMember,
        "script: line 5: no such member\n",
    ),
    (
        6,
        ScriptCause::NotFirstActive,
        "script: line 6: not the first active group\n",
    ),
    (7, ScriptCause::LinkFailed, "script: line 7: link failed\n"),
    (
        8,
        ScriptCause::Undefined(1),
        "script: line 8: operation 2 undefined\n",
    ),
];

#[test]
fn faults_of_scripts_have_texts(rt: HostRuntime) -> Result<(), Fail> {
    let alloc = rt.alloc();
    for (line, cause, said) in SCRIPT_FAULTS {
        let refused = ScriptRefused::BadLine(*line, *cause);
        says(&rt, script_fault_text(alloc, &refused), said)?;
    }
    says(
        &rt,
        script_fault_text(alloc, &ScriptRefused::Memory),
        "whatif: out of memory\n",
    )
}

fn query_says(
    rt: &impl Abort,
    alloc: Global,
    net: &Network,
    fault: QueryFault,
    said: &str,
) -> Result<(), Fail> {
    let text = query_fault_text(alloc, net, &fault);
    drop(fault);
    says(rt, text, said)
}

fn unknown_labels(rt: &impl Abort, alloc: Global, net: &Network) -> Result<(), Fail> {
    let plain = QueryFault::UnknownLabel(1, String::from_str(alloc, "nope")?);
    let said = "query: byte 1: unknown label nope\n";
    query_says(rt, alloc, net, plain, said)?;
    let word = QueryFault::UnknownLabel(1, String::from_str(alloc, "ip")?);
    let said = "query: byte 1: unknown label \"ip\"\n";
    query_says(rt, alloc, net, word, said)
}

fn unknown_ends(rt: &impl Abort, alloc: Global, net: &Network) -> Result<(), Fail> {
    let router = QueryFault::UnknownRouter(7, String::from_str(alloc, "ip")?);
    let said = "query: byte 7: unknown router ip\n";
    query_says(rt, alloc, net, router, said)?;
    let interface = QueryFault::UnknownInterface(9, String::from_str(alloc, "a b")?);
    let said = "query: byte 9: unknown interface \"a b\"\n";
    query_says(rt, alloc, net, interface, said)
}

// A fault is handed on where it is made: each exit that one is live at takes its own proof.
fn limits(rt: &impl Abort, alloc: Global, net: &Network) -> Result<(), Fail> {
    let said = "query: 4097 bytes, limit 4096\n";
    query_says(rt, alloc, net, QueryFault::TooLong(4097), said)?;
    let said = "query: expression 2 has 513 positions, limit 512\n";
    query_says(rt, alloc, net, QueryFault::TooManyPositions(2, 513), said)?;
    let said = "query: byte 15: over the limit 65535\n";
    query_says(rt, alloc, net, QueryFault::TooManyFailures(15), said)
}

fn other_faults(rt: &impl Abort, alloc: Global, net: &Network) -> Result<(), Fail> {
    let said = "query: byte 14: syntax\n";
    query_says(rt, alloc, net, QueryFault::Syntax(14), said)?;
    let said = "query: link a.b#\"b 1\".\"a.0\" both down and up\n";
    query_says(rt, alloc, net, QueryFault::DownAndUp(LinkId(0)), said)?;
    let said = "whatif: out of memory\n";
    query_says(rt, alloc, net, QueryFault::Memory, said)
}

fn query_texts(rt: &impl Abort, alloc: Global, net: &Network) -> Result<(), Fail> {
    unknown_labels(rt, alloc, net)?;
    unknown_ends(rt, alloc, net)?;
    limits(rt, alloc, net)?;
    other_faults(rt, alloc, net)
}

#[test]
fn faults_of_queries_have_texts(rt: HostRuntime) -> Result<(), Fail> {
    let net = network(rt.alloc(), &QUOTED)?;
    let said = query_texts(&rt, rt.alloc(), &net);
    drop(net);
    said
}

// A fault, and its text.
const NETWORK_FAULTS: &[(NetFault, &str)] = &[
    (NetFault::NotJson(Place::File), "network: file: not JSON\n"),
    (
        NetFault::WrongShape(Place::Format),
        "network: format: wrong shape\n",
    ),
    (
        NetFault::OverLimit(Place::File, 67_108_864),
        "network: file: over the limit 67108864\n",
    ),
    (
        NetFault::InterfaceTaken(Place::LinkPart(3, LinkPart::In)),
        "network: links[3].in: interface taken\n",
    ),
    (
        NetFault::BadOperation(Place::Operation(1, 2, 3, 4)),
        "network: tables[1].groups[2][3].ops[4]: bad operation\n",
    ),
    (
        NetFault::RepeatedLabel(Place::LabelName(Class::Smpls, 5)),
        "network: labels.smpls[5]: repeated label\n",
    ),
];

#[test]
fn faults_of_networks_have_texts(rt: HostRuntime) -> Result<(), Fail> {
    let alloc = rt.alloc();
    for (fault, said) in NETWORK_FAULTS {
        says(&rt, network_fault_text(alloc, *fault), said)?;
    }
    Ok(())
}

fn weights_say(rt: &impl Abort, alloc: Global, fault: WeightFault, said: &str) -> Result<(), Fail> {
    let text = weight_fault_text(alloc, &fault);
    drop(fault);
    says(rt, text, said)
}

fn large_weights(rt: &impl Abort, alloc: Global) -> Result<(), Fail> {
    let said = "weights: 6 terms or parts, limit 5\n";
    weights_say(rt, alloc, WeightFault::TooManyTerms(6), said)?;
    let said = "weights: byte 0: over the limit 65535\n";
    weights_say(rt, alloc, WeightFault::Coefficient(0), said)?;
    weights_say(rt, alloc, WeightFault::Memory, "whatif: out of memory\n")
}

#[test]
fn faults_of_weights_have_texts(rt: HostRuntime) -> Result<(), Fail> {
    let alloc = rt.alloc();
    let said = "weights: byte 5: syntax\n";
    weights_say(&rt, alloc, WeightFault::Syntax(5), said)?;
    let unknown = WeightFault::UnknownQuantity(0, String::from_str(alloc, "Speed")?);
    let said = "weights: byte 0: unknown quantity Speed\n";
    weights_say(&rt, alloc, unknown, said)?;
    large_weights(&rt, alloc)
}

// What a verdict is.
#[derive(Clone, Copy)]
enum Judged<'a> {
    Fits(&'a [u32]),
    Exceeds(usize),
    UsesFailed(u32),
}

// What an answer shows: the terms and the effort, where the run begins, as a line of a script, its steps, and the verdict.
#[derive(Clone, Copy)]
struct Shown<'a> {
    word: Word,
    terms: [u128; 5],
    effort: u128,
    begins: &'a str,
    steps: &'a [(u32, u32)],
    verdict: Judged<'a>,
}

// A query, what runs are weighed by, what the answer shows, unless it is a no, and the report.
#[derive(Clone, Copy)]
struct Case<'a>(&'a str, Option<&'a str>, Option<Shown<'a>>, &'a str);

fn steps_of(alloc: Global, steps: &[(u32, u32)]) -> Result<Listed<Step>, Fail> {
    let mut all = Vec::new(alloc);
    for (group, member) in steps {
        all.push(Step {
            group: *group,
            member: *member,
        })?;
    }
    Ok(Listed::of(all))
}

fn run_of(alloc: Global, net: &Network, shown: &Shown) -> Result<Run, Fail>
    ensures { IfOk result (IsKnownRun net.now) }
{
    let steps = steps_of(alloc, shown.steps)?;
    match read_script(alloc, net, shown.begins.as_bytes()) {
        Ok(script) => Ok(Run {
            first: script.first,
            header: script.header,
            steps,
            end: End::Arrives,
        }),
        Err(_) => {
            drop(steps);
            Err(Fail::new("no start"))
        }
    }
}

fn set_of(alloc: Global, links: &[u32]) -> Result<FailSet, Fail> {
    let mut set = FailSet::new(alloc);
    for link in links {
        let _new = set.insert(LinkId(*link))?;
    }
    Ok(set)
}

fn verdict_of(alloc: Global, judged: Judged) -> Result<Verdict, Fail> {
    match judged {
        Judged::Fits(links) => Ok(Verdict::Fits(set_of(alloc, links)?)),
        Judged::Exceeds(count) => Ok(Verdict::Exceeds(count)),
        Judged::UsesFailed(link) => Ok(Verdict::UsesFailed(LinkId(link))),
    }
}

fn weight_of(parts: [u128; 5], count: u128) -> Weight {
    Pair {
        first: Terms::of(parts),
        second: Effort { count },
    }
}

fn shown_answer(alloc: Global, net: &Network, shown: &Shown) -> Result<Answer, Fail>
    ensures { IfOk result (λ answer. IfSome answer.run (IsKnownRun net.now)) }
{
    let run = run_of(alloc, net, shown)?;
    match verdict_of(alloc, shown.verdict) {
        Ok(verdict) => Ok(Answer {
            word: shown.word,
            weight: Some(weight_of(shown.terms, shown.effort)),
            run: Some(run),
            verdict: Some(verdict),
        }),
        Err(fail) => {
            drop(run);
            Err(fail)
        }
    }
}

fn answer_of(alloc: Global, net: &Network, shown: &Option<Shown>) -> Result<Answer, Fail>
    ensures { IfOk result (λ answer. IfSome answer.run (IsKnownRun net.now)) }
{
    match shown {
        Some(shown) => shown_answer(alloc, net, shown),
        None => Ok(Answer {
            word: Word::No,
            weight: None,
            run: None,
            verdict: None,
        }),
    }
}

fn answered_is(
    rt: &impl Abort,
    alloc: Global,
    problem: &Problem<'_>,
    case: &Case,
) -> Result<(), Fail> {
    let answer = answer_of(alloc, problem.net(), &case.2)?;
    let outcome = says(rt, report(alloc, problem, &answer), case.3);
    drop(answer);
    outcome
}

fn weighed_is(
    rt: &impl Abort,
    alloc: Global,
    net: &Network,
    query: &Query,
    case: &Case,
) -> Result<(), Fail>
    requires { IsQueryOf net.now query.now }
{
    let vector = vector_of(alloc, case.1)?;
    let outcome = answered_is(rt, alloc, &Problem::of(net, query, &vector), case);
    drop(vector);
    outcome
}

impl<R: Abort> TestCase<R> for Case<'_> {
    fn is_met(&self, rt: &R, alloc: Global, net: &Network) -> Result<(), Fail> {
        let query = query_of(alloc, net, self.0)?;
        let outcome = weighed_is(rt, alloc, net, &query, self);
        drop(query);
        outcome
    }
}

const NO_TERM: [u128; 5] = [0; 5];

const AT_X: &str = "at x.o#a.x ip1\n";

// By c and b to y, or to z.
const AROUND: &[(u32, u32)] = &[(1, 0), (0, 0), (0, 0)];

const AROUND_TO_Z: &[(u32, u32)] = &[(1, 0), (0, 0), (1, 0)];

const SMALL_CASES: &[Case] = &[
    Case(
        "<ip1> [x#a] .* [b#y] <ip1> 0",
        Some("Hops"),
        Some(Shown {
            word: Word::Yes,
            terms: [3, 0, 0, 0, 0],
            effort: 8,
            begins: AT_X,
            steps: &[(0, 0), (0, 0)],
            verdict: Judged::Fits(&[]),
        }),
        "answer: yes\nweight: 3\neffort: 8\nfailed: none\nmoving: yes\nlinks: 3\nx.o#a.x | ip1\na.b#b.a | s10 ip1 | group 1 member 1\nb.y#y.b | ip1 | group 1 member 1\n",
    ),
    Case(
        "<ip1> [x#a] [a#c] .* [b#y] <ip1> 0",
        None,
        None,
        "answer: no\nmoving: no\n",
    ),
    Case(
        "<ip1> [x#a] [a#c] .* [b#y] <ip1> 1",
        Some("Hops, Distance+3*Tunnels"),
        Some(Shown {
            word: Word::Yes,
            terms: [4, 12, 0, 0, 0],
            effort: 10,
            begins: AT_X,
            steps: AROUND,
            verdict: Judged::Fits(&[1]),
        }),
        "answer: yes\nweight: 4 12\neffort: 10\nfailed: a.b#b.a\nmoving: yes\nlinks: 4\nx.o#a.x | ip1\na.c#c.a | 30 s10 ip1 | group 2 member 1\nc.b#b.c | s10 ip1 | group 1 member 1\nb.y#y.b | ip1 | group 1 member 1\n",
    ),
    Case(
        "<s10 ip1> [a#b]+ <smpls ip> 0",
        None,
        Some(Shown {
            word: Word::Yes,
            terms: NO_TERM,
            effort: 8,
            begins: "at a.b#b.a s10 ip1\n",
            steps: &[],
            verdict: Judged::Fits(&[]),
        }),
        "answer: yes\nweight: none\neffort: 8\nfailed: none\nmoving: yes\nlinks: 1\na.b#b.a | s10 ip1\n",
    ),
    // The link to b is known to be down.
    Case(
        "<ip1> [x#a] .* [b#y] <ip1> 0 down [a#b]",
        None,
        Some(Shown {
            word: Word::Yes,
            terms: NO_TERM,
            effort: 10,
            begins: AT_X,
            steps: AROUND,
            verdict: Judged::Fits(&[1]),
        }),
        "answer: yes\nweight: none\neffort: 10\nfailed: a.b#b.a\nmoving: yes\nlinks: 4\nx.o#a.x | ip1\na.c#c.a | 30 s10 ip1 | group 2 member 1\nc.b#b.c | s10 ip1 | group 1 member 1\nb.y#y.b | ip1 | group 1 member 1\n",
    ),
];

#[test]
fn a_yes_shows_what_must_fail_and_a_no_shows_nothing(rt: HostRuntime) -> Result<(), Fail> {
    are_met(&rt, rt.alloc(), &N1_WITH_31, SMALL_CASES)
}

const LARGE_CASES: &[Case] = &[
    Case(
        "<ip1> [x#a] [a#c] .* [b#z] <ip1> 1",
        None,
        Some(Shown {
            word: Word::Inconclusive,
            terms: NO_TERM,
            effort: 10,
            begins: AT_X,
            steps: AROUND_TO_Z,
            verdict: Judged::Exceeds(2),
        }),
        "answer: inconclusive\nweight: none\neffort: 10\nneeds: a.b#b.a b.y#y.b\ncause: needs 2, allowed 1\nmoving: yes\nlinks: 4\nx.o#a.x | ip1\na.c#c.a | 30 s10 ip1 | group 2 member 1\nc.b#b.c | s10 ip1 | group 1 member 1\nb.z#z.b | ip1 | group 2 member 1\n",
    ),
    Case(
        "<ip1> [x#a] [a#c] .* [b#z] <ip1> 2",
        None,
        Some(Shown {
            word: Word::Yes,
            terms: NO_TERM,
            effort: 10,
            begins: AT_X,
            steps: AROUND_TO_Z,
            verdict: Judged::Fits(&[1, 4]),
        }),
        "answer: yes\nweight: none\neffort: 10\nfailed: a.b#b.a b.y#y.b\nmoving: yes\nlinks: 4\nx.o#a.x | ip1\na.c#c.a | 30 s10 ip1 | group 2 member 1\nc.b#b.c | s10 ip1 | group 1 member 1\nb.z#z.b | ip1 | group 2 member 1\n",
    ),
];

const RETURNING_CASES: &[Case] = &[Case(
    "<ip1> [x#a] [a#c] [c#a] [a#b] .* <ip1> 5",
    None,
    Some(Shown {
        word: Word::Inconclusive,
        terms: NO_TERM,
        effort: 11,
        begins: AT_X,
        steps: &[(1, 0), (0, 0), (0, 0), (0, 0)],
        verdict: Judged::UsesFailed(1),
    }),
    "answer: inconclusive\nweight: none\neffort: 11\nneeds: a.b#b.a\ncause: uses a.b#b.a\nmoving: yes\nlinks: 5\nx.o#a.x | ip1\na.c#c.a | 30 s10 ip1 | group 2 member 1\nc.a2#a.c2 | 31 s10 ip1 | group 1 member 1\na.b#b.a | s10 ip1 | group 1 member 1\nb.y#y.b | ip1 | group 1 member 1\n",
)];

#[test]
fn an_inconclusive_shows_why(rt: HostRuntime) -> Result<(), Fail> {
    are_met(&rt, rt.alloc(), &N2_WITH_31, LARGE_CASES)?;
    are_met(&rt, rt.alloc(), &N3, RETURNING_CASES)
}

// 2^64
const TOO_LARGE: u128 = 18_446_744_073_709_551_616;

// The terms and the effort of a weight that does not fit, how many terms are shown, and the text.
const OVERFLOWS: &[([u128; 5], u128, usize, &str)] = &[
    (
        NO_TERM,
        27_670_116_110_564_327_421,
        0,
        "overflow: component 1 is 27670116110564327421\n",
    ),
    (
        [1, TOO_LARGE, 0, 0, 0],
        TOO_LARGE + 1,
        2,
        "overflow: component 2 is 18446744073709551616\n",
    ),
    (
        [1, 0, 0, 0, 0],
        TOO_LARGE,
        1,
        "overflow: component 2 is 18446744073709551616\n",
    ),
];

#[test]
fn refused_decisions_have_texts(rt: HostRuntime) -> Result<(), Fail> {
    let alloc = rt.alloc();
    for (parts, effort, terms, said) in OVERFLOWS {
        let weight = weight_of(*parts, *effort);
        says(&rt, overflow_text(alloc, &weight, *terms), said)?;
    }
    says(
        &rt,
        too_long_text(alloc, 6151),
        "too long: effort 6151, limit 4096\n",
    )
}
