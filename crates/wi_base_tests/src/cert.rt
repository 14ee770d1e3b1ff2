//! Texts of certificates and of tree certificates by example, and texts that give none.
use crate::common::equal;
use std::alloc::Global;
use std::process::Abort;
use wi_base::NoMemory;
use wi_cert::{
    Claim, Closed, DecodeRefused, EncodeRefused, Feeder, Node, Row, Shown, TreeCertificate,
    TreeFeeder, decode, decode_tree, encode, encode_tree, encode_tree_within, encode_within,
};

// The lines of a yes, without their ends: spot 0 is the start and spot 1 the goal.
const YES: &[&str] = &[
    "mpls-whatif-certificate 1",
    "terms 0",
    "answer yes",
    "weight 8",
    "first 1 1 2",
    "steps 0",
    "heads 8",
    "0 0",
    "2 2",
    "3 3",
    "4 0",
    "5 2",
    "6 3",
    "7 0",
    "11 2",
    "pairs 2",
    "2 3",
    "3 0",
    "rows 7",
    "2 2 6 3",
    "3 3 7 5",
    "4 0 1 7",
    "5 2 6 1",
    "6 3 7 1",
    "7 0 1 1",
    "11 2 6 2",
    "end",
];

const HEADS: &[(u64, u32)] = &[
    (0, 0),
    (2, 2),
    (3, 3),
    (4, 0),
    (5, 2),
    (6, 3),
    (7, 0),
    (11, 2),
];

const ROWS: &[(u64, u32, u64, u64)] = &[
    (2, 2, 6, 3),
    (3, 3, 7, 5),
    (4, 0, 1, 7),
    (5, 2, 6, 1),
    (6, 3, 7, 1),
    (7, 0, 1, 1),
    (11, 2, 6, 2),
];

// The lines of a no.
const NO: &[&str] = &[
    "mpls-whatif-certificate 1",
    "terms 0",
    "answer no",
    "weight none",
    "first none",
    "steps 0",
    "heads 3",
    "0 0",
    "3 3",
    "4 0",
    "pairs 1",
    "3 0",
    "rows 0",
    "end",
];

// Lines, by their numbers from 1, and what stands in their place.
type Edits<'a> = &'a [(usize, &'a str)];

// The text of the lines, but for some.
fn edited(alloc: Global, lines: &[&str], edits: Edits) -> Result<Vec<u8>, NoMemory> {
    let mut text = Vec::new(alloc);
    match put_lines(&mut text, lines, edits) {
        Ok(()) => Ok(text),
        Err(refused) => {
            drop(text);
            Err(refused)
        }
    }
}

fn put_lines(text: &mut Vec<u8>, lines: &[&str], edits: Edits) -> Result<(), NoMemory> {
    for (i, line) in lines.iter().enumerate() {
        let number = i + 1;
        match edits.iter().find(|edit| edit.0 == number) {
            Some(edit) => text.extend_from_slice(edit.1.as_bytes())?,
            None => {
                text.extend_from_slice(line.as_bytes())?;
                text.push(b'\n')?;
            }
        }
    }
    Ok(())
}

// Whether what was written is that text.
fn is_text(written: Result<Vec<u8>, NoMemory>, text: &[u8]) -> Result<bool, DecodeRefused> {
    match written {
        Ok(written) => {
            let same = written.as_slice() == text;
            drop(written);
            Ok(same)
        }
        Err(NoMemory::Memory) => Err(DecodeRefused::Memory),
    }
}

// Whether the text of the certificate that the text gives is the same.
fn certificate_again(alloc: Global, text: &[u8]) -> Result<bool, DecodeRefused> {
    let certificate = decode(alloc, text)?;
    let written = encode(alloc, &certificate);
    drop(certificate);
    is_text(written, text)
}

// The same of a tree certificate.
fn tree_again(alloc: Global, text: &[u8]) -> Result<bool, DecodeRefused> {
    let tree = decode_tree(alloc, text)?;
    let written = encode_tree(alloc, &tree);
    drop(tree);
    is_text(written, text)
}

// What a text is read as.
#[derive(Clone, Copy)]
enum Form {
    Certificate,
    Tree,
}

// Whether the edited lines come back byte for byte.
fn come_back(
    alloc: Global,
    form: Form,
    lines: &[&str],
    edits: Edits,
) -> Result<bool, DecodeRefused> {
    let text = edited(alloc, lines, edits)?;
    let same = match form {
        Form::Certificate => certificate_again(alloc, &text),
        Form::Tree => tree_again(alloc, &text),
    };
    drop(text);
    same
}

// How long a text is, if it was written.
fn length_of(written: Result<Vec<u8>, EncodeRefused>) -> Result<usize, EncodeRefused> {
    match written {
        Ok(text) => {
            let length = text.len();
            drop(text);
            Ok(length)
        }
        Err(refused) => Err(refused),
    }
}

fn certificate_within(
    alloc: Global,
    text: &[u8],
    limit: usize,
) -> Result<Result<usize, EncodeRefused>, DecodeRefused> {
    let certificate = decode(alloc, text)?;
    let written = encode_within(alloc, &certificate, limit);
    drop(certificate);
    Ok(length_of(written))
}

fn tree_within(
    alloc: Global,
    text: &[u8],
    limit: usize,
) -> Result<Result<usize, EncodeRefused>, DecodeRefused> {
    let tree = decode_tree(alloc, text)?;
    let written = encode_tree_within(alloc, &tree, limit);
    drop(tree);
    Ok(length_of(written))
}

// Whether what the lines give may be written within a limit: of a certificate's lines from `heads` on, of all of a tree's.
fn within(
    alloc: Global,
    form: Form,
    lines: &[&str],
    limit: usize,
) -> Result<Result<usize, EncodeRefused>, DecodeRefused> {
    let text = edited(alloc, lines, &[])?;
    let length = match form {
        Form::Certificate => certificate_within(alloc, &text, limit),
        Form::Tree => tree_within(alloc, &text, limit),
    };
    drop(text);
    length
}

const TOO_LONG: Result<usize, EncodeRefused> = Err(EncodeRefused::TooLong);

#[test]
fn certificates_are_written_within_a_limit(rt: HostRuntime) {
    // From `heads` on there are 41 bytes of heads, 16 of pairs, 64 of rows and 4 of the end.
    let at_limit = within(rt.alloc(), Form::Certificate, YES, 125);
    let over = within(rt.alloc(), Form::Certificate, YES, 124);
    equal(&rt, at_limit, Ok(Ok(199)));
    equal(&rt, over, Ok(TOO_LONG));
}

// The first line of what is about packets that are dropped.
const V2: (usize, &str) = (1, "mpls-whatif-certificate 2\n");

const TREE_V2: (usize, &str) = (1, "mpls-whatif-tree 2\n");

// Texts that give a certificate.
const GOOD: &[(&[&str], Edits)] = &[
    (YES, &[]),
    (NO, &[]),
    (YES, &[(3, "answer inconclusive\n")]),
    (YES, &[(5, "first 0 4294967295 2 7\n")]),
    (YES, &[(6, "steps 2\n2 1\n4294967295 1\n")]),
    (YES, &[(7, "heads 9\n"), (14, "7 0\n9 2\n")]),
    (YES, &[(15, "18446744073709551615 4294967295\n")]),
    (YES, &[(19, "rows 8\n0 0 1 7\n")]),
    (YES, &[(19, "rows 8\n"), (25, "7 0 1 1\n9 1 0 1\n")]),
    (
        YES,
        &[
            (3, "answer no\n"),
            (4, "weight none\n"),
            (5, "first none\n"),
            (22, "4 0 1 18446744073709551615\n"),
        ],
    ),
    (NO, &[(7, "heads 0\n"), (8, ""), (9, ""), (10, "")]),
    (YES, &[V2, (6, "steps 0\ndrop inactive\n")]),
    (YES, &[V2, (6, "steps 1\n2 1\ndrop 1 4294967295\n")]),
    (
        YES,
        &[V2, (3, "answer inconclusive\n"), (6, "steps 0\ndrop 2 1\n")],
    ),
    (NO, &[V2, (6, "steps 0\ndrop none\n")]),
    (NO, &[(13, "rows 1\n4 0 1 18446744073709551615\n")]),
    (
        NO,
        &[
            (2, "terms 5\n"),
            (13, "rows 1\n0 0 1 0 1 2 3 4 18446744073709551615\n"),
        ],
    ),
    (
        NO,
        &[
            (2, "terms 1\n"),
            (3, "answer yes\n"),
            (4, "weight 3 5\n"),
            (5, "first 1 1\n"),
            (13, "rows 3\n2 2 6 0 9\n2 2 7 3 4\n2 3 0 3 4\n"),
        ],
    ),
];

#[test]
fn texts_come_back_byte_for_byte(rt: HostRuntime) {
    for (lines, edits) in GOOD {
        let same = come_back(rt.alloc(), Form::Certificate, lines, edits);
        equal(&rt, same, Ok(true));
    }
}

// Texts that give none, and their first bad lines.
const BAD: &[(&[&str], Edits, u128)] = &[
    (&[], &[], 1),
    (YES, &[(1, "mpls-whatif-certificate 3\n")], 1),
    (YES, &[(1, "mpls-whatif-certificate 02\n")], 1),
    (YES, &[(1, "mpls-whatif-tree 1\n")], 1),
    (YES, &[(1, "mpls-whatif-certificate 1\r\n")], 1),
    (YES, &[(2, "terms 6\n")], 2),
    (YES, &[(2, "terms 00\n")], 2),
    (YES, &[(2, "terms +0\n")], 2),
    (YES, &[(2, "terms  0\n")], 2),
    (YES, &[(2, "terms 0 \n")], 2),
    (YES, &[(2, "terms \n")], 2),
    (YES, &[(2, "terms 1\n")], 4),
    (YES, &[(3, "answer maybe\n")], 3),
    (YES, &[(3, "answer yes\r\n")], 3),
    (YES, &[(3, "answer no\n")], 4),
    (YES, &[(4, "weight 08\n")], 4),
    (YES, &[(4, "weight -8\n")], 4),
    (YES, &[(4, "weight none\n")], 4),
    (YES, &[(4, "weight 8 8\n")], 4),
    (YES, &[(4, "weight 18446744073709551616\n")], 4),
    (YES, &[(5, "first none\n")], 5),
    (YES, &[(5, "first 1\n")], 5),
    (YES, &[(5, "first 1  1\n")], 5),
    (YES, &[(5, "first 1 4294967296\n")], 5),
    (YES, &[(6, "steps 1\n")], 7),
    (YES, &[(6, "steps 1\n0 1\n")], 7),
    (YES, &[(6, "steps 1\n1 0\n")], 7),
    (YES, &[(6, "steps 1\n1 4294967296\n")], 7),
    (YES, &[(6, "steps 1\n1\n")], 7),
    (YES, &[(7, "heads 7\n")], 15),
    (YES, &[(7, "heads 9\n")], 16),
    (YES, &[(8, "00 0\n")], 8),
    (YES, &[(9, "0 0\n")], 9),
    (YES, &[(10, "2 1\n")], 10),
    (YES, &[(15, "11 4294967296\n")], 15),
    (YES, &[(15, "18446744073709551616 2\n")], 15),
    (YES, &[(16, "pairs 1\n")], 18),
    (YES, &[(16, "pairs 3\n")], 19),
    (YES, &[(18, "2 3\n")], 18),
    (YES, &[(18, "1 9\n")], 18),
    (YES, &[(18, "4294967296 0\n")], 18),
    (YES, &[(19, "rows 6\n")], 26),
    (YES, &[(19, "rows 8\n")], 27),
    (YES, &[(19, "rows 8\n2 2 6 3\n")], 21),
    (YES, &[(20, "2 2 6 8\n")], 20),
    (YES, &[(20, "2 2 6 9\n")], 20),
    (YES, &[(20, "2 2 6\n")], 20),
    (YES, &[(20, "2 2 6 3 0\n")], 20),
    (YES, &[(20, "2 4294967296 6 3\n")], 20),
    (YES, &[(22, "3 3 6 7\n")], 22),
    (
        YES,
        &[
            (3, "answer no\n"),
            (4, "weight none\n"),
            (5, "first none\n"),
            (22, "4 0 1 18446744073709551616\n"),
        ],
        22,
    ),
    (YES, &[(27, "end")], 27),
    (YES, &[(27, "END\n")], 27),
    (YES, &[(27, "")], 27),
    (YES, &[(27, "end\nx")], 28),
    (YES, &[(27, "end\n\n")], 28),
    (NO, &[(4, "weight 0\n")], 4),
    (NO, &[(5, "first 1 1\n")], 5),
    (NO, &[(6, "steps 1\n")], 6),
    (NO, &[(13, "rows 1\n4 0 1 18446744073709551616\n")], 14),
];

// The same of the line that says how the packet is dropped.
const BAD_DROPS: &[(&[&str], Edits, u128)] = &[
    (YES, &[V2], 7),
    (NO, &[V2], 7),
    (YES, &[(6, "steps 0\ndrop 2 1\n")], 7),
    (NO, &[(6, "steps 0\ndrop none\n")], 7),
    (YES, &[V2, (6, "steps 0\ndrop none\n")], 7),
    (NO, &[V2, (6, "steps 0\ndrop inactive\n")], 7),
    (NO, &[V2, (6, "steps 0\ndrop 2 1\n")], 7),
    (YES, &[V2, (6, "steps 0\ndrop 0 1\n")], 7),
    (YES, &[V2, (6, "steps 0\ndrop 2 0\n")], 7),
    (YES, &[V2, (6, "steps 0\ndrop 2\n")], 7),
    (YES, &[V2, (6, "steps 0\ndrop 2 1 1\n")], 7),
    (YES, &[V2, (6, "steps 0\ndrop 4294967296 1\n")], 7),
    (YES, &[V2, (6, "drop 2 1\nsteps 0\n")], 6),
    (YES, &[V2, (6, "steps 0\ndrop 2 1\ndrop 2 1\n")], 8),
];

#[test]
fn other_texts_have_a_first_bad_line(rt: HostRuntime) {
    for (lines, edits, line) in BAD.iter().chain(BAD_DROPS) {
        let found = come_back(rt.alloc(), Form::Certificate, lines, edits);
        equal(&rt, found, Err(DecodeRefused::BadLine(*line)));
    }
}

fn row_is(row: &Row, wanted: &(u64, u32, u64, u64)) -> bool {
    row.p == wanted.0
        && row.g == wanted.1
        && row.q == wanted.2
        && row.weight.as_slice() == [wanted.3].as_slice()
}

fn rows_are(rows: &[Row], wanted: &[(u64, u32, u64, u64)]) -> bool {
    rows.len() == wanted.len()
        && rows
            .iter()
            .zip(wanted)
            .all(|(row, wanted)| row_is(row, wanted))
}

fn shows_the_yes(shown: &Shown) -> bool {
    shown.terms == 0
        && shown.claim == Claim::Yes
        && shown.weight.as_slice() == [8].as_slice()
        && shown.first.as_slice() == [1, 1, 2].as_slice()
        && shown.steps.as_slice().is_empty()
}

fn bounds_the_yes(closed: &Closed) -> bool {
    closed.heads.as_slice() == HEADS
        && closed.pairs.as_slice() == [(2, 3), (3, 0)].as_slice()
        && rows_are(closed.rows.as_slice(), ROWS)
}

fn feed_in(feeder: &mut Feeder, text: &[u8], size: usize) -> Result<(), DecodeRefused> {
    for piece in text.chunks(size.max(1)) {
        feeder.feed(piece)?;
    }
    Ok(())
}

// Read in pieces of that size, the text gives the yes.
fn gives_the_yes(alloc: Global, text: &[u8], size: usize) -> bool {
    let mut feeder = Feeder::new(alloc);
    if feed_in(&mut feeder, text, size).is_err() {
        drop(feeder);
        return false;
    }
    match feeder.finish() {
        Ok(certificate) => {
            let shown = shows_the_yes(&certificate.shown);
            let closed = bounds_the_yes(&certificate.closed);
            drop(certificate);
            shown && closed
        }
        Err(_) => false,
    }
}

fn yes_in_pieces(alloc: Global, size: usize) -> Result<bool, NoMemory> {
    let text = edited(alloc, YES, &[])?;
    let given = gives_the_yes(alloc, &text, size);
    drop(text);
    Ok(given)
}

// The last is the length of the text.
const SIZES: &[usize] = &[1, 7, 100, 199];

#[test]
fn pieces_give_what_the_whole_gives(rt: HostRuntime) {
    for size in SIZES {
        equal(&rt, yes_in_pieces(rt.alloc(), *size), Ok(true));
    }
}

fn line_of(refused: Option<DecodeRefused>) -> Option<u128> {
    match refused {
        Some(DecodeRefused::BadLine(line)) => Some(line),
        _ => None,
    }
}

// The line that is told at the end, where none is told before.
fn line_at_the_end(alloc: Global, text: &[u8]) -> Option<u128> {
    let mut feeder = Feeder::new(alloc);
    if feed_in(&mut feeder, text, 5).is_err() {
        drop(feeder);
        return None;
    }
    line_of(feeder.finish().err())
}

fn bad_at_the_end(alloc: Global, lines: &[&str], edits: Edits) -> Result<Option<u128>, NoMemory> {
    let text = edited(alloc, lines, edits)?;
    let line = line_at_the_end(alloc, &text);
    drop(text);
    Ok(line)
}

fn is_bad_at_the_end(rt: &impl Abort, alloc: Global, lines: &[&str], edits: Edits, line: u128) {
    equal(rt, bad_at_the_end(alloc, lines, edits), Ok(Some(line)));
}

#[test]
fn a_line_that_is_missing_is_told_at_the_end(rt: HostRuntime) {
    let (begun, _) = YES.split_at(15);
    is_bad_at_the_end(&rt, rt.alloc(), begun, &[], 16);
    is_bad_at_the_end(&rt, rt.alloc(), YES, &[(27, "end")], 27);
    is_bad_at_the_end(&rt, rt.alloc(), YES, &[(27, "end\nx")], 28);
}

const BAD_FOURTH: Result<(), DecodeRefused> = Err(DecodeRefused::BadLine(4));

// How many of the pieces are answered by the fourth line.
fn count_bad(feeder: &mut Feeder, pieces: &[&[u8]]) -> usize {
    pieces
        .iter()
        .filter(|piece| feeder.feed(piece) == BAD_FOURTH)
        .count()
}

// Whether all was well up to the end of the fourth line, how many pieces were answered by it from there on, and the line told at
// the end.
fn after_a_bad_line(alloc: Global) -> (bool, usize, Option<u128>) {
    let mut feeder = Feeder::new(alloc);
    let begun = b"mpls-whatif-certificate 1\nterms 0\nanswer yes\nweight 08";
    let fed = feed_in(&mut feeder, begun, 1).is_ok();
    let bad = count_bad(&mut feeder, &[b"\n", b"first 1 1 2\n", b""]);
    (fed, bad, line_of(feeder.finish().err()))
}

#[test]
fn a_bad_line_is_told_from_its_end_on(rt: HostRuntime) {
    equal(&rt, after_a_bad_line(rt.alloc()), (true, 3, Some(4)));
}

// The lines of a tree that is one leaf.
const LEAF: &[&str] = &[
    "mpls-whatif-tree 1",
    "terms 0",
    "answer no",
    "weight none",
    "first none",
    "steps 0",
    "nodes 1",
    "closed",
    "heads 3",
    "0 0",
    "3 3",
    "4 0",
    "pairs 1",
    "3 0",
    "rows 0",
    "end",
];

// The lines of a tree that is split once.
const SPLIT: &[&str] = &[
    "mpls-whatif-tree 1",
    "terms 0",
    "answer no",
    "weight none",
    "first none",
    "steps 0",
    "nodes 3",
    "split 1",
    "closed",
    "heads 3",
    "0 0",
    "3 3",
    "4 0",
    "pairs 1",
    "3 0",
    "rows 0",
    "closed",
    "heads 3",
    "0 0",
    "3 3",
    "4 0",
    "pairs 1",
    "3 0",
    "rows 0",
    "end",
];

// Texts that give a tree certificate.
const GOOD_TREES: &[(&[&str], Edits)] = &[
    (LEAF, &[]),
    (LEAF, &[TREE_V2, (6, "steps 0\ndrop none\n")]),
    (SPLIT, &[]),
    (SPLIT, &[(8, "split 4294967295\n")]),
    (
        SPLIT,
        &[
            (7, "nodes 5\n"),
            (8, "split 2\nsplit 1\nclosed\nheads 0\npairs 0\nrows 0\n"),
        ],
    ),
    (
        SPLIT,
        &[
            (16, "rows 1\n4 0 1 18446744073709551615\n"),
            (24, "rows 1\n2 2 6 3\n"),
        ],
    ),
    (
        SPLIT,
        &[
            (3, "answer yes\n"),
            (4, "weight 8\n"),
            (5, "first 1 1 2\n"),
            (24, "rows 1\n2 2 6 7\n"),
        ],
    ),
];

#[test]
fn trees_come_back_byte_for_byte(rt: HostRuntime) {
    for (lines, edits) in GOOD_TREES {
        equal(
            &rt,
            come_back(rt.alloc(), Form::Tree, lines, edits),
            Ok(true),
        );
    }
}

// Texts that give none, and their first bad lines.
const BAD_TREES: &[(&[&str], Edits, u128)] = &[
    (&[], &[], 1),
    (LEAF, &[(1, "mpls-whatif-certificate 1\n")], 1),
    (LEAF, &[(1, "mpls-whatif-tree 3\n")], 1),
    (LEAF, &[TREE_V2], 7),
    (LEAF, &[(6, "steps 0\ndrop none\n")], 7),
    (LEAF, &[TREE_V2, (6, "steps 0\ndrop inactive\n")], 7),
    (LEAF, &[(3, "answer inconclusive\n")], 3),
    (LEAF, &[(7, "nodes 2\n")], 7),
    (LEAF, &[(7, "nodes 0\n")], 7),
    (LEAF, &[(7, "nodes 10001\n")], 7),
    (LEAF, &[(7, "nodes 01\n")], 7),
    (LEAF, &[(7, "heads 3\n")], 7),
    (LEAF, &[(7, "nodes 9999\n")], 8),
    (LEAF, &[(8, "closed \n")], 8),
    (LEAF, &[(8, "split 1\n")], 8),
    (LEAF, &[(8, "heads 3\n")], 8),
    (LEAF, &[(16, "closed\n")], 16),
    (LEAF, &[(16, "split 1\n")], 16),
    (LEAF, &[(16, "end")], 16),
    (LEAF, &[(16, "")], 16),
    (LEAF, &[(16, "end\n\n")], 17),
    (LEAF, &[(15, "rows 1\n4 0 1 7\n4 0 1 8\n")], 17),
    (
        LEAF,
        &[
            (3, "answer yes\n"),
            (4, "weight 8\n"),
            (5, "first 1 1 2\n"),
            (15, "rows 1\n2 2 6 8\n"),
        ],
        16,
    ),
    (SPLIT, &[(8, "closed\n")], 8),
    (SPLIT, &[(8, "split 4294967296\n")], 8),
    (SPLIT, &[(8, "split 01\n")], 8),
    (SPLIT, &[(8, "split\n")], 8),
    (SPLIT, &[(9, "split 2\n")], 9),
    (SPLIT, &[(17, "end\n")], 17),
    (SPLIT, &[(17, "split 2\n")], 17),
    (SPLIT, &[(17, "")], 17),
    (SPLIT, &[(21, "3 3\n")], 21),
    (SPLIT, &[(25, "closed\n")], 25),
];

#[test]
fn other_texts_of_trees_have_a_first_bad_line(rt: HostRuntime) {
    for (lines, edits, line) in BAD_TREES {
        let found = come_back(rt.alloc(), Form::Tree, lines, edits);
        equal(&rt, found, Err(DecodeRefused::BadLine(*line)));
    }
}

fn bounds_the_no(leaf: &Closed) -> bool {
    leaf.heads.as_slice() == [(0, 0), (3, 3), (4, 0)].as_slice()
        && leaf.pairs.as_slice() == [(3, 0)].as_slice()
        && leaf.rows.as_slice().is_empty()
}

fn is_the_split(tree: &TreeCertificate) -> bool {
    match tree.nodes.as_slice() {
        [Node::Split(link), Node::Closed(first), Node::Closed(second)] => {
            *link == 1 && bounds_the_no(first) && bounds_the_no(second)
        }
        _ => false,
    }
}

fn feed_tree(alloc: Global, text: &[u8], size: usize) -> Result<TreeFeeder, NoMemory> {
    let mut feeder = TreeFeeder::new(alloc);
    for piece in text.chunks(size.max(1)) {
        feeder = feeder.feed(piece)?;
    }
    Ok(feeder)
}

// Read in pieces of that size, the text gives the tree that is split once, or a first bad line.
fn gives_the_split(alloc: Global, text: &[u8], size: usize) -> Result<bool, DecodeRefused> {
    let feeder = feed_tree(alloc, text, size)?;
    match feeder.finish() {
        Ok(tree) => {
            let is = is_the_split(&tree);
            drop(tree);
            Ok(is)
        }
        Err(refused) => Err(refused),
    }
}

fn split_in_pieces(alloc: Global, edits: Edits, size: usize) -> Result<bool, DecodeRefused> {
    let text = edited(alloc, SPLIT, edits)?;
    let given = gives_the_split(alloc, &text, size);
    drop(text);
    given
}

// How large the pieces are, what stands in the place of a line, and what is given.
const SPLIT_IN_PIECES: &[(usize, Edits, Result<bool, DecodeRefused>)] = &[
    (1, &[], Ok(true)),
    (1, &[(21, "3 3\n")], Err(DecodeRefused::BadLine(21))),
    (7, &[], Ok(true)),
    (7, &[(21, "3 3\n")], Err(DecodeRefused::BadLine(21))),
    (1000, &[], Ok(true)),
    (1000, &[(21, "3 3\n")], Err(DecodeRefused::BadLine(21))),
];

#[test]
fn pieces_of_a_tree_give_what_the_whole_gives(rt: HostRuntime) {
    for (size, edits, wanted) in SPLIT_IN_PIECES {
        equal(&rt, split_in_pieces(rt.alloc(), edits, *size), *wanted);
    }
}

#[test]
fn trees_are_written_within_a_limit(rt: HostRuntime) {
    // The text has 180 bytes, of which the last line has 4 and each leaf 46.
    let at_limit = within(rt.alloc(), Form::Tree, SPLIT, 180);
    let over = within(rt.alloc(), Form::Tree, SPLIT, 179);
    let far_over = within(rt.alloc(), Form::Tree, SPLIT, 0);
    equal(&rt, at_limit, Ok(Ok(180)));
    equal(&rt, (over, far_over), (Ok(TOO_LONG), Ok(TOO_LONG)));
}
