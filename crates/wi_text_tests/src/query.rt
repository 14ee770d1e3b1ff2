//! Queries by example.
use std::alloc::{AllocError, Global};
use std::process::Abort;
use std::test::Fail;
use wi_net::{Bounds, FailSet, LinkId, Network};
use wi_query::{Expression, Query, SymbolSet, read_query};
use wi_regex::{Atom, Regex, Symbol};
use wi_samples::{N1, N1_FIBER, network};

// The text of parts, each so many times.
fn text(alloc: Global, parts: &[(&str, u32)]) -> Result<String, AllocError> {
    let mut text = String::new(alloc);
    for (part, times) in parts {
        for _ in 0..*times {
            text.push_str(part)?;
        }
    }
    Ok(text)
}

// What is wrong with a text.
fn fault(alloc: Global, net: &Network, text: &str) -> Result<String, AllocError> {
    match read_query(alloc, net, text) {
        Ok(query) => {
            drop(query);
            format!(in alloc; "no fault")
        }
        Err(fault) => format!(in alloc; "{fault}"),
    }
}

fn fault_is(
    rt: &impl Abort,
    alloc: Global,
    net: &Network,
    text: &str,
    expected: &str,
) -> Result<(), Fail> {
    assert_eq!(rt; fault(alloc, net, text)?.as_str(), expected);
    Ok(())
}

fn faults_are(
    rt: &impl Abort,
    alloc: Global,
    net: &Network,
    cases: &[(&str, &str)],
) -> Result<(), Fail> {
    for (text, expected) in cases {
        fault_is(rt, alloc, net, text, expected)?;
    }
    Ok(())
}

// Texts, and what is wrong with each.
const FAULTS: &[(&str, &str)] = &[
    ("", "byte 0: syntax"),
    ("<ip> . <ip> 00", "byte 13: syntax"),
    ("<nope> . <ip> 00", "byte 15: syntax"),
    ("<nope> . <ip> 0", "byte 1: unknown label nope"),
    ("<\"ip\"> . <ip> 0", "byte 1: unknown label ip"),
    ("<[30, nope]> . <ip> 0", "byte 6: unknown label nope"),
    ("<ip> [q#a] <nope> 0", "byte 6: unknown router q"),
    ("<ip> [.#q] <ip> 0", "byte 8: unknown router q"),
    ("<ip> [r.q#a] <ip> 0", "byte 6: unknown router r"),
    ("<ip> [x.q#a] <ip> 0", "byte 8: unknown interface q"),
    ("<ip> [x.q#r] <ip> 0", "byte 8: unknown interface q"),
    ("<ip> [r#a, x.q#a] <ip> 0", "byte 6: unknown router r"),
    ("<ip> [a.x#.] <ip> 0", "byte 8: unknown interface x"),
    ("<ip> [.#a.b] <ip> 0", "byte 10: unknown interface b"),
    ("<ip> . <nope> 0 down [q#a]", "byte 8: unknown label nope"),
    ("<ip> . <ip> 65536 down [q#a]", "byte 24: unknown router q"),
    ("<ip> . <ip> 0 up [q#a]", "byte 18: unknown router q"),
    (
        "<ip> . <ip> 0 down [q#a] up [r#a]",
        "byte 20: unknown router q",
    ),
    ("<ip> . <ip> 65536", "byte 12: over the limit 65535"),
    (
        "<ip> . <ip> 100000000000000000000000000000 down [a#b] up [.#b]",
        "byte 12: over the limit 65535",
    ),
    (
        "<ip> . <ip> 1000000000000000000000000000000000000000000000000000000000000000000000",
        "byte 12: over the limit 65535",
    ),
    (
        "<ip> . <ip> 0 down [a#b] up [.#b]",
        "link number 1 both down and up",
    ),
    (
        "<ip> . <ip> 65535 down [.#.] up [b#y, c#b]",
        "link number 3 both down and up",
    ),
];

#[test]
fn the_first_fault_is_told(rt: HostRuntime) -> Result<(), Fail> {
    let net = network(rt.alloc(), &N1)?;
    let outcome = faults_are(&rt, rt.alloc(), &net, FAULTS);
    drop(net);
    outcome
}

// The parts of a text, each so many times, and what is wrong with the text.
type LongText<'a> = (&'a [(&'a str, u32)], &'a str);

const LONG_TEXTS: &[LongText] = &[
    (&[("<ip> . <ip> 0", 1), (" ", 4083)], "no fault"),
    (
        &[("<ip> . <ip> 0", 1), (" ", 4084)],
        "4097 bytes, limit 4096",
    ),
    (&[("?", 4097)], "4097 bytes, limit 4096"),
    (&[("<ip>", 1), (".", 512), ("<ip> 0", 1)], "no fault"),
    (
        &[("<ip>", 1), (".", 513), ("<ip> 65536", 1)],
        "expression 2 has 513 positions, limit 512",
    ),
    (
        &[("<", 1), (".", 513), (">", 1), (".", 514), ("<ip> 0", 1)],
        "expression 1 has 513 positions, limit 512",
    ),
    (
        &[("<ip>.<", 1), (".", 1000), ("> 0", 1)],
        "expression 3 has 1000 positions, limit 512",
    ),
    (
        &[("<", 1), (".", 513), ("> . <ip> 0 up [q#a]", 1)],
        "byte 529: unknown router q",
    ),
    (
        &[
            ("<ip>", 1),
            ("(", 2000),
            (".", 1),
            (")", 2000),
            ("<ip> 0", 1),
        ],
        "no fault",
    ),
    (&[("<ip> .", 1), ("*", 4000), ("<ip> 0", 1)], "no fault"),
];

fn long_faults_are(
    rt: &impl Abort,
    alloc: Global,
    net: &Network,
    cases: &[LongText],
) -> Result<(), Fail> {
    for (parts, expected) in cases {
        let text = text(alloc, parts)?;
        fault_is(rt, alloc, net, text.as_str(), expected)?;
    }
    Ok(())
}

#[test]
fn long_texts_are_read(rt: HostRuntime) -> Result<(), Fail> {
    let net = network(rt.alloc(), &N1)?;
    let outcome = long_faults_are(&rt, rt.alloc(), &net, LONG_TEXTS);
    drop(net);
    outcome
}

fn holds_each(rt: &impl Abort, set: &SymbolSet, symbols: &[bool]) {
    for (x, there) in (0..u32::MAX).zip(symbols) {
        assert_eq!(rt; set.holds(Symbol(x)), *there);
    }
}

// Whether an expression is one atom, whose set has just these of the first symbols.
fn is_set(
    rt: &impl Abort,
    alloc: Global,
    expression: &Expression,
    symbols: &[bool],
) -> Result<(), Fail> {
    match expression.regex() {
        Regex::Atom(set) => {
            holds_each(rt, set, symbols);
            holds_each(rt, &set.twin(alloc)?, symbols);
        }
        _ => assert!(rt; false),
    }
    Ok(())
}

// The query with this first header and this path.
fn query(alloc: Global, net: &Network, first: &str, path: &str) -> Result<Query, Fail> {
    let text = format!(in alloc; "<{first}> {path} <ip> 0")?;
    Ok(read_query(alloc, net, text.as_str())?)
}

fn links_are(
    rt: &impl Abort,
    alloc: Global,
    net: &Network,
    path: &str,
    links: &[bool],
) -> Result<(), Fail> {
    let query = query(alloc, net, "ip", path)?;
    let outcome = is_set(rt, alloc, &query.path, links);
    drop(query);
    outcome
}

fn labels_are(
    rt: &impl Abort,
    alloc: Global,
    net: &Network,
    first: &str,
    labels: &[bool],
) -> Result<(), Fail> {
    let query = query(alloc, net, first, ".")?;
    let outcome = is_set(rt, alloc, &query.first, labels);
    drop(query);
    outcome
}

// A path, and which of the first links its atom has.
const PATHS: &[(&str, &[bool])] = &[
    (".", &[true, true, true, true, true, false]),
    ("[^ a#b]", &[true, false, true, true, true, false]),
    ("[.#b]", &[false, true, false, true, false, false]),
    ("[a#.]", &[false, true, true, false, false, false]),
    ("[a.b#b.a]", &[false, true, false, false, false, false]),
    ("[a.b#b.c]", &[false, false, false, false, false, false]),
    ("[.#b.c]", &[false, false, false, true, false, false]),
    ("[a#b, b#y]", &[false, true, false, false, true, false]),
    ("[^ a#b, .#\"a\"]", &[false, false, true, true, true, false]),
    ("[.#.]", &[true, true, true, true, true, false]),
    ("[^ .#.]", &[false, false, false, false, false, false]),
];

fn pairs_mean_links(rt: &impl Abort, alloc: Global, net: &Network) -> Result<(), Fail> {
    for (path, links) in PATHS {
        links_are(rt, alloc, net, path, links)?;
    }
    Ok(())
}

// A first header, and which of the first labels its atom has.
const FIRSTS: &[(&str, &[bool])] = &[
    (".", &[true, true, true, false]),
    ("30", &[true, false, false, false]),
    ("\"s10\"", &[false, true, false, false]),
    ("mpls", &[true, false, false, false]),
    ("smpls", &[false, true, false, false]),
    ("ip", &[false, false, true, false]),
    ("[ip, 30]", &[true, false, true, false]),
    ("[^ mpls]", &[false, true, true, false]),
    ("[^ ip, mpls, smpls]", &[false, false, false, false]),
];

fn names_mean_labels(rt: &impl Abort, alloc: Global, net: &Network) -> Result<(), Fail> {
    for (first, labels) in FIRSTS {
        labels_are(rt, alloc, net, first, labels)?;
    }
    Ok(())
}

fn ends_and_names_mean_sets(rt: &impl Abort, alloc: Global, net: &Network) -> Result<(), Fail> {
    pairs_mean_links(rt, alloc, net)?;
    names_mean_labels(rt, alloc, net)
}

#[test]
fn atoms_mean_sets(rt: HostRuntime) -> Result<(), Fail> {
    let net = network(rt.alloc(), &N1)?;
    let outcome = ends_and_names_mean_sets(&rt, rt.alloc(), &net);
    drop(net);
    outcome
}

// A word, and whether it is accepted.
type Judged<'a> = (&'a [u32], bool);

// Whether the automaton of an expression accepts a word.
fn accepts(alloc: Global, expression: &Expression, symbols: &[u32]) -> Result<bool, Fail> {
    let mut word = Vec::new(alloc);
    for symbol in symbols {
        word.push(Symbol(*symbol))?;
    }
    Ok(expression.nfa().accepts_word(alloc, word.as_slice())?)
}

// Whether an expression has so many positions, and accepts just these of some words.
fn accepts_each(
    rt: &impl Abort,
    alloc: Global,
    expression: &Expression,
    positions: usize,
    words: &[Judged],
) -> Result<(), Fail> {
    assert_eq!(rt; expression.regex().positions(), positions);
    for (word, accepted) in words {
        assert_eq!(rt; accepts(alloc, expression, word)?, *accepted);
    }
    Ok(())
}

const PATH_WORDS: &[Judged] = &[
    (&[0, 4], true),
    (&[0, 2, 3, 4], true),
    (&[1], true),
    (&[1, 1], true),
    (&[0], false),
    (&[4], false),
    (&[0, 4, 1], false),
    (&[], false),
];

fn path_accepts(rt: &impl Abort, alloc: Global, net: &Network) -> Result<(), Fail> {
    let query = query(alloc, net, "ip", "[x#a] .* [b#y] | [a#b]+")?;
    let outcome = accepts_each(rt, alloc, &query.path, 4, PATH_WORDS);
    drop(query);
    outcome
}

// An expression over labels, how many positions it has, and words.
type Case<'a> = (&'a str, usize, &'a [Judged<'a>]);

const CASES: &[Case] = &[
    (
        "30 s10 | ip1",
        3,
        &[
            (&[0, 1], true),
            (&[2], true),
            (&[0, 2], false),
            (&[0, 1, 2], false),
        ],
    ),
    (
        "30 (s10 | ip1)",
        3,
        &[(&[0, 1], true), (&[0, 2], true), (&[2], false)],
    ),
    (
        "30 s10*",
        2,
        &[
            (&[0], true),
            (&[0, 1, 1], true),
            (&[0, 1, 0, 1], false),
            (&[], false),
        ],
    ),
    (
        "(30 s10)+",
        2,
        &[
            (&[0, 1], true),
            (&[0, 1, 0, 1], true),
            (&[0, 1, 1], false),
            (&[], false),
        ],
    ),
    ("30?", 1, &[(&[], true), (&[0], true), (&[0, 0], false)]),
    (
        "30 | s10 | ip1 30",
        4,
        &[
            (&[0], true),
            (&[1], true),
            (&[2, 0], true),
            (&[2], false),
            (&[1, 0], false),
        ],
    ),
];

fn first_accepts(rt: &impl Abort, alloc: Global, net: &Network, case: &Case) -> Result<(), Fail> {
    let (first, positions, words) = case;
    let query = query(alloc, net, first, ".")?;
    let outcome = accepts_each(rt, alloc, &query.first, *positions, words);
    drop(query);
    outcome
}

fn firsts_accept(rt: &impl Abort, alloc: Global, net: &Network) -> Result<(), Fail> {
    for case in CASES {
        first_accepts(rt, alloc, net, case)?;
    }
    Ok(())
}

fn all_accept(rt: &impl Abort, alloc: Global, net: &Network) -> Result<(), Fail> {
    path_accepts(rt, alloc, net)?;
    firsts_accept(rt, alloc, net)
}

#[test]
fn expressions_accept_their_words(rt: HostRuntime) -> Result<(), Fail> {
    let net = network(rt.alloc(), &N1)?;
    let outcome = all_accept(&rt, rt.alloc(), &net);
    drop(net);
    outcome
}

fn set_is(rt: &impl Abort, set: &FailSet, links: &[u32]) {
    assert_eq!(rt; set.len(), links.len());
    for (i, link) in links.iter().enumerate() {
        assert_eq!(rt; set.at(i), Some(LinkId(*link)));
    }
}

fn has_bounds(rt: &impl Abort, bounds: &Bounds, (k, down, up): (u32, &[u32], &[u32])) {
    assert_eq!(rt; bounds.k, k);
    set_is(rt, &bounds.down, down);
    set_is(rt, &bounds.up, up);
}

// A text, and the bounds that it has.
type Bounded<'a> = (&'a str, u32, &'a [u32], &'a [u32]);

fn bounds_are(rt: &impl Abort, alloc: Global, net: &Network, case: &Bounded) -> Result<(), Fail> {
    let (text, k, down, up) = case;
    let query = read_query(alloc, net, text)?;
    has_bounds(rt, &query.bounds, (*k, down, up));
    drop(query);
    Ok(())
}

const BOUNDS: &[Bounded] = &[
    ("<ip>.<ip>65535", 65535, &[], &[]),
    ("<ip> . <ip> 0 down [a#b]", 0, &[1], &[]),
    ("<ip> . <ip> 2 up[.#b, x#a]", 2, &[], &[0, 1, 3]),
    ("<ip> . <ip> 3 down[b#y]up[a.c#.]", 3, &[4], &[2]),
];

fn all_bounds_are(rt: &impl Abort, alloc: Global, net: &Network) -> Result<(), Fail> {
    for case in BOUNDS {
        bounds_are(rt, alloc, net, case)?;
    }
    Ok(())
}

#[test]
fn lists_of_links_are_bounds(rt: HostRuntime) -> Result<(), Fail> {
    let net = network(rt.alloc(), &N1)?;
    let outcome = all_bounds_are(&rt, rt.alloc(), &net);
    drop(net);
    outcome
}

fn risk_groups_are_known(rt: &impl Abort, alloc: Global, net: &Network) -> Result<(), Fail> {
    bounds_are(
        rt,
        alloc,
        net,
        &("<ip> . <ip> 0 down [a#b]", 0, &[1, 4], &[]),
    )?;
    let both = "<ip> . <ip> 0 down [b#y] up [a#b]";
    fault_is(rt, alloc, net, both, "link number 1 both down and up")
}

#[test]
fn links_are_known_with_their_risk_groups(rt: HostRuntime) -> Result<(), Fail> {
    let net = network(rt.alloc(), &N1_FIBER)?;
    let outcome = risk_groups_are_known(&rt, rt.alloc(), &net);
    drop(net);
    outcome
}
