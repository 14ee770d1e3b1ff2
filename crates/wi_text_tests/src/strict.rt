//! Queries whose pairs have to mean links, and links that are given as down and up, by example.
use std::alloc::{AllocError, Global};
use std::process::Abort;
use std::test::Fail;
use wi_net::{Bounds, FailSet, Network};
use wi_query::{StrictFault, read_given, read_strictly};
use wi_samples::{N1, network};

// What is wrong with a query, if its pairs have to mean links.
fn strict_fault(alloc: Global, net: &Network, text: &str) -> Result<String, AllocError> {
    match read_strictly(alloc, net, text) {
        Ok(query) => {
            drop(query);
            format!(in alloc; "no fault")
        }
        Err(fault) => told(alloc, fault),
    }
}

fn told(alloc: Global, fault: StrictFault) -> Result<String, AllocError> {
    let told = format!(in alloc; "{fault}");
    drop(fault);
    told
}

// The numbers of links, each behind a space.
fn numbers(alloc: Global, links: &FailSet) -> Result<String, AllocError> {
    let mut numbers = String::new(alloc);
    for i in 0..links.len() {
        if let Some(link) = links.at(i) {
            numbers.push_str(format!(in alloc; " {n}", n = link.0)?.as_str())?;
        }
    }
    Ok(numbers)
}

fn shown(alloc: Global, bounds: &Bounds) -> Result<String, AllocError> {
    let down = numbers(alloc, &bounds.down)?;
    let up = numbers(alloc, &bounds.up)?;
    format!(in alloc; "{k} down{down} up{up}", k = bounds.k)
}

// What a text gives, or what is wrong with it.
fn given(alloc: Global, net: &Network, text: &str) -> Result<String, AllocError> {
    match read_given(alloc, net, text) {
        Ok(bounds) => {
            let shown = shown(alloc, &bounds);
            drop(bounds);
            shown
        }
        Err(fault) => told(alloc, fault),
    }
}

fn is_read(
    rt: &impl Abort,
    said: Result<String, AllocError>,
    text: &str,
    expected: &str,
) -> Result<(), Fail> {
    let said = said?;
    assert_eq!(rt; said.as_str(), expected, "{text}");
    Ok(())
}

// Queries, and what is wrong with each.
const STRICT: &[(&str, &str)] = &[
    (
        "<ip> [x#a] [^ a#b] [.#.]* <ip> 0 down [a.c#.] up [.#y.b]",
        "no fault",
    ),
    ("<ip> [x#c] .* <ip> 0", "byte 6: no link"),
    ("<ip> [^ x#c] .* <ip> 0", "byte 8: no link"),
    ("<ip> [^  .#x] .* <ip> 0", "byte 9: no link"),
    ("<ip> [x#a, c#x] [y#.] <ip> 0", "byte 11: no link"),
    ("<ip> . [a.b#b.c] <ip> 0", "byte 8: no link"),
    ("<ip> . [a.b#c] <ip> 0", "byte 8: no link"),
    ("<ip> . <ip> 0 down [y#.]", "byte 20: no link"),
    ("<ip> . <ip> 0 down [a#b, x#c] up [y#b]", "byte 25: no link"),
    ("<ip> . <ip> 0 down [a#b] up [\"y\"#b]", "byte 29: no link"),
    // Behind all other faults.
    ("<ip> [x#c] . <ip> 0 up [q#a]", "byte 24: unknown router q"),
    ("<ip> [x#c] . <ip> 65536", "byte 18: over the limit 65535"),
    (
        "<ip> [x#c] <ip> 0 down [a#b] up [.#b]",
        "link number 1 both down and up",
    ),
    ("<ip> [x#c] <ip> 0 do", "byte 20: syntax"),
    ("<nope> [x#c] <ip> 0", "byte 1: unknown label nope"),
];

fn strict_faults_are(rt: &impl Abort, alloc: Global, net: &Network) -> Result<(), Fail> {
    for (text, expected) in STRICT {
        is_read(rt, strict_fault(alloc, net, text), text, expected)?;
    }
    Ok(())
}

#[test]
fn a_pair_that_means_no_link_is_a_fault(rt: HostRuntime) -> Result<(), Fail> {
    let net = network(rt.alloc(), &N1)?;
    let outcome = strict_faults_are(&rt, rt.alloc(), &net);
    drop(net);
    outcome
}

// Texts, and the bounds that each gives, or what is wrong with it.
const GIVEN: &[(&str, &str)] = &[
    ("", "0 down up"),
    (" \t\r\n", "0 down up"),
    ("down [a#b]", "0 down 1 up"),
    ("up [b#y, .#b]", "0 down up 1 3 4"),
    ("down[a#b]up[b.y#y]", "0 down 1 up 4"),
    ("down [a#b, x#c] up [.#b]", "link number 1 both down and up"),
    ("down [x#c] up [q#.]", "byte 15: unknown router q"),
    ("down [a.q#b]", "byte 8: unknown interface q"),
    ("down [x#c]", "byte 6: no link"),
    ("down [a#b] up [b#y, .#x]", "byte 20: no link"),
    ("up [a#b] down [b#y]", "byte 9: syntax"),
    ("1 down [a#b]", "byte 0: syntax"),
    ("down []", "byte 6: syntax"),
    ("do", "byte 2: syntax"),
    ("DOWN [a#b]", "byte 0: syntax"),
    ("down [a#b] x", "byte 11: syntax"),
];

fn givens_are(rt: &impl Abort, alloc: Global, net: &Network) -> Result<(), Fail> {
    for (text, expected) in GIVEN {
        is_read(rt, given(alloc, net, text), text, expected)?;
    }
    Ok(())
}

#[test]
fn links_are_given(rt: HostRuntime) -> Result<(), Fail> {
    let net = network(rt.alloc(), &N1)?;
    let outcome = givens_are(&rt, rt.alloc(), &net);
    drop(net);
    outcome
}

// So many spaces are within the limit, or one more isn't.
const SPACES: &[(u32, &str)] = &[(4096, "0 down up"), (4097, "4097 bytes, limit 4096")];

fn spaces_are(rt: &impl Abort, alloc: Global, net: &Network) -> Result<(), Fail> {
    for (count, expected) in SPACES {
        let mut text = String::new(alloc);
        for _ in 0..*count {
            text.push_str(" ")?;
        }
        is_read(rt, given(alloc, net, text.as_str()), "spaces", expected)?;
    }
    Ok(())
}

#[test]
fn a_given_text_has_its_own_limit(rt: HostRuntime) -> Result<(), Fail> {
    let net = network(rt.alloc(), &N1)?;
    let outcome = spaces_are(&rt, rt.alloc(), &net);
    drop(net);
    outcome
}
