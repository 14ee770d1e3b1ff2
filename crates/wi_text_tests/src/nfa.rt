//! Automata by example.
use crate::tree::{Span, digit, tree};
use std::alloc::Global;
use std::process::Abort;
use std::test::Fail;
use wi_nfa::{Nfa, NfaRefused, POSITION_LIMIT, States};
use wi_regex::Symbol;

fn automaton(alloc: Global, parts: &[(&[u8], u32)]) -> Result<Nfa<Span>, Fail> {
    let regex = tree(alloc, parts)?;
    let built = Nfa::build(alloc, &regex);
    drop(regex);
    Ok(built?)
}

fn gives(rt: &impl Abort, mut states: States<'_, Span>, expected: &[u32]) {
    for state in expected {
        assert_eq!(rt; states.next(), Some(*state));
    }
    assert_eq!(rt; states.next(), None);
}

// Whether it accepts the word whose symbols the digits show.
fn accepts(alloc: Global, nfa: &Nfa<Span>, digits: &[u8]) -> Result<bool, Fail> {
    let mut word = Vec::new(alloc);
    for sign in digits {
        word.push(Symbol(digit(*sign)))?;
    }
    Ok(nfa.accepts_word(alloc, word.as_slice())?)
}

fn accepts_each(
    rt: &impl Abort,
    alloc: Global,
    nfa: &Nfa<Span>,
    words: &[&[u8]],
    accepted: bool,
) -> Result<(), Fail> {
    for word in words {
        assert_eq!(rt; accepts(alloc, nfa, word)?, accepted);
    }
    Ok(())
}

// `[x#a] .* [b#y] | [a#b]+`, where x#a is link 0, a#b is 1 and b#y is 4, of 5.
const PATH: &[(&[u8], u32)] = &[(b"0.*&4&1+|", 1)];

// A state and a symbol, and the states that the symbol leads to.
const NEXT: &[(u32, u32, &[u32])] = &[
    (0, 0, &[1]),
    (0, 1, &[4]),
    (0, 4, &[]),
    (1, 4, &[2, 3]),
    (3, 4, &[]),
];

// A state and a symbol, and the states from which the symbol leads there.
const BEFORE: &[(u32, u32, &[u32])] = &[(3, 4, &[1, 2]), (3, 0, &[]), (4, 1, &[0, 4]), (0, 0, &[])];

// States, and whether each accepts.
const ACCEPTING: &[(u32, bool)] = &[
    (0, false),
    (1, false),
    (2, false),
    (3, true),
    (4, true),
    (5, false),
];

const ON_THE_PATH: &[&[u8]] = &[b"04", b"0124", b"0444", b"1", b"11"];

const OFF_THE_PATH: &[&[u8]] = &[b"", b"0", b"01", b"041", b"14", b"10", b"5"];

fn leads_to(rt: &impl Abort, nfa: &Nfa<Span>, (state, symbol): (u32, Symbol), expected: &[u32]) {
    assert!(rt; (state as usize) < nfa.states());
    gives(rt, nfa.next(state, symbol), expected);
}

fn comes_from(rt: &impl Abort, nfa: &Nfa<Span>, (state, symbol): (u32, Symbol), expected: &[u32]) {
    assert!(rt; (state as usize) < nfa.states());
    gives(rt, nfa.before(state, symbol), expected);
}

fn moves_as_the_path(rt: &impl Abort, nfa: &Nfa<Span>) {
    for (state, symbol, expected) in NEXT {
        leads_to(rt, nfa, (*state, Symbol(*symbol)), expected);
    }
    for (state, symbol, expected) in BEFORE {
        comes_from(rt, nfa, (*state, Symbol(*symbol)), expected);
    }
    for (state, accepting) in ACCEPTING {
        assert_eq!(rt; nfa.accepts(*state), *accepting);
    }
}

fn is_the_path(rt: &impl Abort, alloc: Global, nfa: &Nfa<Span>) -> Result<(), Fail> {
    assert_eq!(rt; nfa.states(), 5);
    moves_as_the_path(rt, nfa);
    accepts_each(rt, alloc, nfa, ON_THE_PATH, true)?;
    accepts_each(rt, alloc, nfa, OFF_THE_PATH, false)
}

#[test]
fn a_path_has_four_positions(rt: HostRuntime) -> Result<(), Fail> {
    let regex = tree(rt.alloc(), PATH)?;
    assert_eq!(rt; regex.positions(), 4);
    drop(regex);
    let nfa = automaton(rt.alloc(), PATH)?;
    let found = is_the_path(&rt, rt.alloc(), &nfa);
    drop(nfa);
    found
}

// An expression, words that it accepts, and words that it doesn't.
type Case<'a> = (&'a [u8], &'a [&'a [u8]], &'a [&'a [u8]]);

const CASES: &[Case] = &[
    // (0?)*, (0?)+ and (0*)+ are 0*: where the body matches the empty word, so does its `+`.
    (b"0?*", &[b"", b"0", b"000"], &[b"1", b"01"]),
    (b"0?+", &[b"", b"0", b"000"], &[b"1", b"01"]),
    (b"0*+", &[b"", b"0", b"000"], &[b"1", b"010"]),
    (b"0+", &[b"0", b"000"], &[b"", b"01"]),
    // (0|1?)+ 2?
    (
        b"01?|+2?&",
        &[b"", b"0", b"0110", b"2", b"102"],
        &[b"22", b"20"],
    ),
    // ((0|1)* 2)+: not empty, and ends in 2.
    (
        b"01|*2&+",
        &[b"2", b"02", b"0112", b"22", b"012012"],
        &[b"", b"0", b"01", b"021", b"20"],
    ),
    // (0* 1)+: not empty, and ends in 1.
    (
        b"0*1&+",
        &[b"1", b"001", b"0011", b"1001"],
        &[b"", b"0", b"10", b"010"],
    ),
    // (1 0*)+: begins with 1.
    (
        b"10*&+",
        &[b"1", b"100", b"1001", b"11"],
        &[b"", b"0", b"01"],
    ),
    // ((0* 1*)* 2)*: empty, or ends in 2.
    (
        b"0*1*&*2&*",
        &[b"", b"2", b"102", b"22", b"012102"],
        &[b"0", b"20", b"021"],
    ),
    // (0? 1?)*: any word of 0 and 1.
    (
        b"0?1?&*",
        &[b"", b"0", b"1", b"10", b"0011", b"1100"],
        &[b"2", b"02"],
    ),
    // (0? 1)+: each 0 stands before a 1, which is the last.
    (
        b"0?1&+",
        &[b"1", b"01", b"101", b"0111"],
        &[b"", b"0", b"00", b"10", b"001"],
    ),
    // ((0 1)* (2|0)*)*: each 1 stands behind a 0.
    (
        b"01&*20|*&*",
        &[b"", b"01", b"2", b"00", b"0101", b"201", b"001"],
        &[b"1", b"011", b"21"],
    ),
    // 0? 1* (2|0)+
    (
        b"0?1*&20|+&",
        &[b"2", b"0", b"00", b"012", b"11020"],
        &[b"", b"1", b"01", b"021", b"101"],
    ),
];

fn judges(rt: &impl Abort, alloc: Global, nfa: &Nfa<Span>, case: &Case) -> Result<(), Fail> {
    let (_, within, without) = case;
    accepts_each(rt, alloc, nfa, within, true)?;
    accepts_each(rt, alloc, nfa, without, false)
}

fn judges_words(rt: &impl Abort, alloc: Global, case: &Case) -> Result<(), Fail> {
    let nfa = automaton(alloc, &[(case.0, 1)])?;
    let judged = judges(rt, alloc, &nfa, case);
    drop(nfa);
    judged
}

#[test]
fn words_in_and_out(rt: HostRuntime) -> Result<(), Fail> {
    for case in CASES {
        judges_words(&rt, rt.alloc(), case)?;
    }
    Ok(())
}

// As many positions as there may be, and one more.
const LONG: &[(&[u8], u32)] = &[(b"0", 1), (b"1&", 511)];

const TOO_LONG: &[(&[u8], u32)] = &[(b"0", 1), (b"1&", 512)];

fn has_512_positions(rt: &impl Abort, nfa: &Nfa<Span>) {
    assert_eq!(rt; nfa.states(), 513);
    assert!(rt; nfa.accepts(512));
    assert!(rt; !nfa.accepts(511) && !nfa.accepts(513));
    gives(rt, nfa.next(511, Symbol(1)), &[512]);
}

// Why the automaton of an expression isn't built, if so.
fn refusal(alloc: Global, parts: &[(&[u8], u32)]) -> Result<Option<NfaRefused>, Fail> {
    let regex = tree(alloc, parts)?;
    let refused = Nfa::build(alloc, &regex).err();
    drop(regex);
    Ok(refused)
}

// Of so many atoms one after the other the last state alone accepts.
#[test]
fn only_512_positions_are_built(rt: HostRuntime) -> Result<(), Fail> {
    let nfa = automaton(rt.alloc(), LONG)?;
    has_512_positions(&rt, &nfa);
    drop(nfa);
    assert_eq!(rt; POSITION_LIMIT, 512);
    let refused = Some(NfaRefused::TooManyPositions(513));
    assert_eq!(rt; refusal(rt.alloc(), TOO_LONG)?, refused);
    Ok(())
}

// The parts of an expression, and how many states its automaton has.
type Deep<'a> = (&'a [(&'a [u8], u32)], usize);

const DEEP: &[Deep] = &[
    // (0|1|1..)*+?*+?.., with many atoms and with many signs
    (&[(b"0", 1), (b"1|", 499), (b"*+?", 1000)], 501),
    (&[(b"0", 1), (b"1|", 45), (b"*+?", 1333)], 47),
    // (..((0|1)*|1)*..)*
    (&[(b"0", 1), (b"1|*", 511)], 513),
    // (..((0 1)?+ 1)?+..)?+, and 0 (1 (1..))
    (&[(b"0", 1), (b"1&?+", 511)], 513),
    (&[(b"0", 1), (b"1", 511), (b"&", 511)], 513),
];

fn has_states(rt: &impl Abort, alloc: Global, deep: &Deep) -> Result<(), Fail> {
    let (parts, states) = deep;
    let nfa = automaton(alloc, parts)?;
    let found = nfa.states();
    drop(nfa);
    assert_eq!(rt; found, *states);
    Ok(())
}

// Each is the tree of a text of up to 4,096 bytes.
#[test]
fn deep_expressions_are_built(rt: HostRuntime) -> Result<(), Fail> {
    for deep in DEEP {
        has_states(&rt, rt.alloc(), deep)?;
    }
    Ok(())
}
