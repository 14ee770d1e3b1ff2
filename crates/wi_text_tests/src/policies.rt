//! Files of policies by example.
ghost use Rattle.std.specs.Prelude.{List, ℕ};
ghost use Rattle.wi_policy.specs.Policies.{HasPolicies};
ghost use Rattle.wi_world.specs.Moves.{AreBounds};

use std::alloc::{AllocError, Global};
use std::process::Abort;
use std::test::Fail;
use wi_net::{Bounds, FailSet, Network};
use wi_policy::{LineFault, PoliciesRefused, Policy, asked_by, read_policies};
use wi_query::{StrictFault, read_given};
use wi_samples::{N1, network};
use wi_world::Word;

// What is wrong with a line.
fn line_fault(alloc: Global, line: usize, fault: &LineFault) -> Result<String, AllocError> {
    match fault {
        LineFault::NotAPolicy => format!(in alloc; "line {line}: not a policy"),
        LineFault::InQuery(fault) => query_fault(alloc, line, fault),
        LineFault::DownAndUp(link) => {
            format!(in alloc; "line {line}: link number {n} both down and up", n = link.0)
        }
    }
}

fn query_fault(alloc: Global, line: usize, fault: &StrictFault) -> Result<String, AllocError> {
    format!(in alloc; "line {line}: {fault}")
}

fn refused(alloc: Global, refused: PoliciesRefused) -> Result<String, AllocError> {
    let told = match &refused {
        PoliciesRefused::AtLine(line, fault) => line_fault(alloc, *line, fault),
        PoliciesRefused::NoPolicy => format!(in alloc; "none"),
        PoliciesRefused::Memory => format!(in alloc; "out of memory"),
    };
    drop(refused);
    told
}

fn word(word: Word) -> &'static str {
    match word {
        Word::Yes => "yes",
        Word::No => "no",
        Word::Inconclusive => "inconclusive",
    }
}

// A line for each policy: its line, its word, its name, and the text of its query.
fn listed(alloc: Global, policies: &[Policy]) -> Result<String, AllocError> {
    let mut lines = String::new(alloc);
    for policy in policies {
        let line = format!(in alloc;
            "{n} {word} ({name}) {query}\n",
            n = policy.line,
            word = word(policy.word),
            name = policy.name.as_str(),
            query = policy.query.as_str()
        )?;
        lines.push_str(line.as_str())?;
    }
    Ok(lines)
}

// The policies of a file, or why it has none.
fn read(alloc: Global, net: &Network, given: &Bounds, file: &[u8]) -> Result<String, AllocError> {
    match read_policies(alloc, net, given, file) {
        Ok(policies) => {
            let lines = listed(alloc, policies.as_slice());
            drop(policies);
            lines
        }
        Err(error) => refused(alloc, error),
    }
}

// A text that gives links as down and up, a file, and its policies, or why it has none.
type Case<'a> = (&'a str, &'a [u8], &'a str);

fn file_is(rt: &impl Abort, alloc: Global, net: &Network, case: &Case) -> Result<(), Fail> {
    let (text, file, expected) = *case;
    let Ok(given) = read_given(alloc, net, text) else {
        assert!(rt; false, "{text}");
        return Ok(());
    };
    let said = read(alloc, net, &given, file);
    drop(given);
    let said = said?;
    assert_eq!(rt; said.as_str(), expected);
    Ok(())
}

fn files_are(rt: &impl Abort, alloc: Global, net: &Network, cases: &[Case]) -> Result<(), Fail> {
    for case in cases {
        file_is(rt, alloc, net, case)?;
    }
    Ok(())
}

fn are_read(rt: &impl Abort, alloc: Global, cases: &[Case]) -> Result<(), Fail> {
    let net = network(alloc, &N1)?;
    let outcome = files_are(rt, alloc, &net, cases);
    drop(net);
    outcome
}

const FILES: &[Case] = &[
    (
        "",
        b"# customer A\r\n\nyes A arrives \t <ip> [x#a] .* <ip> 0\r\n \t\r\n  no<ip> . <ip> 1 up [b#y]",
        "3 yes (A arrives)                 <ip> [x#a] .* <ip> 0\r\n5 no ()     <ip> . <ip> 1 up [b#y]\n",
    ),
    // A name may be one space of another kind, and begin or end with none that is blank.
    (
        "",
        b"no \xc2\xa0<ip> . <ip> 0\nyes a#\\ <ip> . <ip> 0\nno \tb\t<ip> . <ip> 0",
        "1 no (\u{a0})      <ip> . <ip> 0\n2 yes (a#\\)         <ip> . <ip> 0\n3 no (b)       <ip> . <ip> 0\n",
    ),
    // The query's bytes are the line's, whatever stands before it.
    ("", b"yes <ip> .* <ip>", "line 1: byte 16: syntax"),
    ("", b"no <ip> [x#c] .* <ip> 0", "line 1: byte 9: no link"),
    ("", b"no <ip> [^ x#c] .* <ip> 0", "line 1: byte 11: no link"),
    (
        "",
        b"no <ip> . <ip> 0 down [y#.]",
        "line 1: byte 23: no link",
    ),
    (
        "",
        b"no <ip> [x#c] <ip> 0 down [a#b] up [.#b]",
        "line 1: link number 1 both down and up",
    ),
    (
        "down [a#b]",
        b"no <ip> . <ip> 0 up [b#y]\nno <ip> . <ip> 0 up [.#b]",
        "line 2: link number 1 both down and up",
    ),
    (
        "up [c#b]",
        b"no <ip> . <ip> 0 down [.#b]",
        "line 1: link number 3 both down and up",
    ),
    (
        "",
        b"no \xc3\xa9 <nope> . <ip> 0",
        "line 1: byte 7: unknown label nope",
    ),
];

#[test]
fn policies_of_files(rt: HostRuntime) -> Result<(), Fail> {
    are_read(&rt, rt.alloc(), FILES)
}

const NO_POLICIES: &[Case] = &[
    ("", b"", "none"),
    ("", b"# c\n \t\r\n#", "none"),
    ("", b"# \xff\nyes <ip> . <ip> 0", "line 1: not a policy"),
    ("", b"\xef\xbb\xbf# c\n", "line 1: not a policy"),
    ("", b"\n\x0c\n", "line 2: not a policy"),
    ("", b"yes a\tb <ip> . <ip> 0", "line 1: not a policy"),
    ("", b"yes a\x7f <ip> . <ip> 0", "line 1: not a policy"),
    ("", b"yesterday <ip> . <ip> 0", "line 1: not a policy"),
    ("", b"no_ <ip> . <ip> 0", "line 1: not a policy"),
    ("", b"Yes <ip> . <ip> 0", "line 1: not a policy"),
    ("", b"<ip> . <ip> 0", "line 1: not a policy"),
    ("", b"no", "line 1: not a policy"),
    (
        "",
        b"# c\n\nyes <ip> . <ip> 0\nmaybe\nno <ip> . <ip>",
        "line 4: not a policy",
    ),
];

#[test]
fn files_without_policies(rt: HostRuntime) -> Result<(), Fail> {
    are_read(&rt, rt.alloc(), NO_POLICIES)
}

// A line of a query whose text has so many bytes.
fn long_line(alloc: Global, bytes: usize) -> Result<String, AllocError> {
    let mut line = String::from_str(alloc, "no <ip> . <ip> 0")?;
    for _ in line.len()..bytes {
        line.push_str(" ")?;
    }
    Ok(line)
}

fn long_lines_are_read(rt: &impl Abort, alloc: Global, net: &Network) -> Result<(), Fail> {
    let line = long_line(alloc, 4097)?;
    let said = file_is(
        rt,
        alloc,
        net,
        &("", line.as_bytes(), "line 1: 4097 bytes, limit 4096"),
    );
    drop(line);
    said
}

#[test]
fn the_whole_line_counts(rt: HostRuntime) -> Result<(), Fail> {
    let net = network(rt.alloc(), &N1)?;
    let outcome = long_lines_are_read(&rt, rt.alloc(), &net);
    drop(net);
    outcome
}

fn links_are(rt: &impl Abort, links: &FailSet, expected: &[u32]) {
    assert_eq!(rt; links.len(), expected.len());
    for (i, number) in expected.iter().enumerate() {
        assert!(rt; links.at(i).is_some_and(|link| link.0 == *number));
    }
}

// The first policy is asked within its bounds and the given ones.
fn is_asked(
    rt: &impl Abort,
    alloc: Global,
    net: &Network,
    given: &Bounds,
    policies: &[Policy],
) -> Result<(), Fail>
    requires bounds { AreBounds net.now given.now }
    requires policies { (bytes : List ℕ) × HasPolicies net.now given.now bytes policies.now }
{
    let Some(policy) = policies.first() else {
        assert!(rt; false);
        return Ok(());
    };
    let query = asked_by(alloc, net, given, policy)?;
    let Bounds { k, down, up } = &query.bounds;
    assert_eq!(rt; *k, 2);
    links_are(rt, down, &[1, 2]);
    links_are(rt, up, &[3, 4]);
    drop(query);
    Ok(())
}

// The first policy of a file that has some.
fn first_is_asked(
    rt: &impl Abort,
    alloc: Global,
    net: &Network,
    given: &Bounds,
    file: &[u8],
) -> Result<(), Fail>
    requires { AreBounds net.now given.now }
{
    let Ok(policies) = read_policies(alloc, net, given, file) else {
        assert!(rt; false);
        return Ok(());
    };
    let outcome = is_asked(rt, alloc, net, given, policies.as_slice());
    drop(policies);
    outcome
}

fn given_is_joined(rt: &impl Abort, alloc: Global, net: &Network) -> Result<(), Fail> {
    let Ok(given) = read_given(alloc, net, "down [a#c] up [c#b]") else {
        assert!(rt; false);
        return Ok(());
    };
    let outcome = first_is_asked(
        rt,
        alloc,
        net,
        &given,
        b"no a <ip> . <ip> 2 down [a#b] up [b#y]",
    );
    drop(given);
    outcome
}

#[test]
fn a_policy_is_asked_within_the_given_bounds(rt: HostRuntime) -> Result<(), Fail> {
    let net = network(rt.alloc(), &N1)?;
    let outcome = given_is_joined(&rt, rt.alloc(), &net);
    drop(net);
    outcome
}
