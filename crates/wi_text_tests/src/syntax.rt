//! Texts of queries by example.
use std::alloc::Global;
use std::process::Abort;
use std::test::Fail;
use wi_syntax::{End, LabelAtom, Last, LinkAtom, Sign, SyntaxRefused, Written, read_written};

// Where a text stops being a query's, if it does.
fn stop(alloc: Global, text: &str) -> Result<Option<usize>, Fail> {
    match read_written(alloc, text) {
        Ok(written) => {
            drop(written);
            Ok(None)
        }
        Err(SyntaxRefused::Stops(byte)) => Ok(Some(byte)),
        Err(SyntaxRefused::Memory) => Err("no memory")?,
    }
}

fn stops_at(rt: &impl Abort, alloc: Global, text: &str, byte: Option<usize>) -> Result<(), Fail> {
    assert_eq!(rt; stop(alloc, text)?, byte);
    Ok(())
}

// A text, and where it stops being a query's.
type Stop<'a> = (&'a str, Option<usize>);

fn stop_each(rt: &impl Abort, alloc: Global, table: &[Stop]) -> Result<(), Fail> {
    for (text, byte) in table {
        stops_at(rt, alloc, text, *byte)?;
    }
    Ok(())
}

const QUERIES: &[Stop] = &[
    ("<ip1> [x#a] .* [b#y] <ip1> 0", None),
    ("<.>.<.>0", None),
    (" \t\r\n< \t. \r\n>\t. <\n.>\r0\n ", None),
    ("<30 s10 ip1|smpls?ip> .+ <.*> 65536", None),
    (
        "<[^mpls,\"mpls\"]+> ([a.b#.]|[^.#b,c#d.e])* <[ip]> 10",
        None,
    ),
    (
        "<((.))|(a|b c)*+?> (.) <.> 123456789012345678901234567890",
        None,
    ),
    ("<30> . <7> 30", None),
    (
        "<down up> [down#up] <.> 0 down [a#b] up [.#c.i, \"a b\".\"[\"#.]",
        None,
    ),
    ("<.> . <.> 0 up [.#.]", None),
    ("<.> . <.> 0 down[.#.]up[.#.]", None),
    ("<\"Zürich →\"> [\"ü\".\"#\"#\"]\"] <.> 0", None),
    ("<ip1> [x#a] drop 0", None),
    ("<drop> [drop#drop]*drop 1 down [drop#a] up [.#b]", None),
];

#[test]
fn queries_are_read(rt: HostRuntime) -> Result<(), Fail> {
    stop_each(&rt, rt.alloc(), QUERIES)
}

const STOPS: &[Stop] = &[
    ("", Some(0)),
    ("ip1", Some(0)),
    ("< > . <ip> 0", Some(2)),
    ("<ip1> .* <ip1>", Some(14)),
    ("<ip1> .* <ip1> 007", Some(16)),
    ("<.> . <.> 0x", Some(11)),
    ("<.> . <.> x", Some(10)),
    ("<.> . <.> \"0\"", Some(10)),
    ("<.> . <.> 0 1", Some(12)),
    ("<<.> . <.> 0", Some(1)),
    ("<.>> . <.> 0", Some(3)),
    ("<.> a <.> 0", Some(4)),
    ("<.|> . <.> 0", Some(3)),
    ("<|.> . <.> 0", Some(1)),
    ("<*> . <.> 0", Some(1)),
    ("<.||.> . <.> 0", Some(3)),
    ("<()> . <.> 0", Some(2)),
    ("<(.> . <.> 0", Some(3)),
    ("<.)> . <.> 0", Some(2)),
    ("<[]> . <.> 0", Some(2)),
    ("<[^]> . <.> 0", Some(3)),
    ("<[^^a]> . <.> 0", Some(3)),
    ("<[a,]> . <.> 0", Some(4)),
    ("<[a b]> . <.> 0", Some(4)),
    ("<[a^]> . <.> 0", Some(3)),
    ("<[.]> . <.> 0", Some(2)),
    ("<.> [a] <.> 0", Some(6)),
    ("<.> [#b] <.> 0", Some(5)),
    ("<.> [a##b] <.> 0", Some(7)),
    ("<.> [a.#b] <.> 0", Some(7)),
    ("<.> [..i#b] <.> 0", Some(6)),
    ("<.> [a.i.j#b] <.> 0", Some(8)),
    ("<.> [a#b.] <.> 0", Some(9)),
    ("<.> [a#b,] <.> 0", Some(9)),
    ("<.> [a#b,^c#d] <.> 0", Some(9)),
    ("<é> . <.> 0", Some(1)),
    ("<a-b> . <.> 0", Some(2)),
    ("<\"\"> . <.> 0", Some(2)),
    ("<\"a\tb\"> . <.> 0", Some(3)),
    ("<\"é\u{7f}\"> . <.> 0", Some(4)),
    ("<\"é", Some(4)),
    ("<.> \"a\" <.> 0", Some(4)),
    // `drop` stands in the place of the last header, behind a whole path, and nothing but the number comes next.
    ("<ip1> [x#a] drop", Some(16)),
    ("<ip1> [x#a] drop0", Some(16)),
    ("<ip1> [x#a] drop <ip1> 0", Some(17)),
    ("<ip1> [x#a] drop down [a#b] 0", Some(17)),
    ("<ip1> [x#a] <ip1> drop 0", Some(18)),
    ("<ip1> [x#a] \"drop\" 0", Some(12)),
    ("<ip1> drop 0", Some(6)),
    ("<ip1> ([x#a] drop 0", Some(13)),
    ("<ip1> [x#a]| drop 0", Some(13)),
    ("<ip1> [x#a] down 0", Some(13)),
    // Words behind the number: `0 dx` stops at the x, and `up` doesn't stand before `down`.
    ("<.> . <.> 0 do", Some(14)),
    ("<.> . <.> 0 dx", Some(13)),
    ("<.> . <.> 0down", Some(11)),
    ("<.> . <.> 0 downs [a#b]", Some(16)),
    ("<.> . <.> 0 \"down\" [a#b]", Some(12)),
    ("<.> . <.> 0 down", Some(16)),
    ("<.> . <.> 0 down [^a#b]", Some(18)),
    ("<.> . <.> 0 down []", Some(18)),
    ("<.> . <.> 0 down .", Some(17)),
    ("<.> . <.> 0 down [a#b] down [a#b]", Some(23)),
    ("<.> . <.> 0 up [a#b] down [a#b]", Some(21)),
    ("<.> . <.> 0 up [a#b] up [a#b]", Some(21)),
];

#[test]
fn each_stop_has_its_byte(rt: HostRuntime) -> Result<(), Fail> {
    stop_each(&rt, rt.alloc(), STOPS)
}

const CUT: &str =
    "<\"ü 1\"|(30 [^mpls, s10])+ .?> ([x.o#a.x] (.|[^a#b]))* <smpls ip> 7 down [a#b] up [.#c.i]";

// Where the beginning of that text is a query.
const WHOLE: &[usize] = &[67, 68, 78, 79];

fn is_cut_at(rt: &impl Abort, alloc: Global, at: usize) -> Result<(), Fail> {
    let start = CUT.get(..at).ok_or("whole characters")?;
    let expected = if WHOLE.contains(&at) { None } else { Some(at) };
    stops_at(rt, alloc, start, expected)
}

// Each beginning of a query that is no query itself stops at its end.
#[test]
fn a_query_is_cut_at_every_character(rt: HostRuntime) -> Result<(), Fail> {
    for (at, _) in CUT.char_indices() {
        is_cut_at(&rt, rt.alloc(), at)?;
    }
    stops_at(&rt, rt.alloc(), CUT, None)
}

fn are_names(rt: &impl Abort, first: &[Sign<LabelAtom>]) -> Result<(), Fail> {
    match first {
        [
            Sign::Atom(LabelAtom::Name(quoted)),
            Sign::Atom(LabelAtom::Name(plain)),
        ] => {
            assert!(rt; quoted.is_quoted() && quoted.as_str() == "ip" && quoted.at() == 1);
            assert!(rt; !plain.is_quoted() && plain.as_str() == "ip" && plain.at() == 6);
        }
        _ => Err("two names")?,
    }
    Ok(())
}

fn is_interface(rt: &impl Abort, end: &End) -> Result<(), Fail> {
    match end {
        End::Interface(router, interface) => {
            assert!(rt; router.as_str() == "x" && interface.as_str() == "o");
            assert_eq!(rt; interface.at(), 13);
        }
        _ => Err("an interface")?,
    }
    Ok(())
}

fn is_pair(rt: &impl Abort, path: &[Sign<LinkAtom>]) -> Result<(), Fail> {
    match path {
        [Sign::Atom(LinkAtom::List(except, pairs)), Sign::Maybe] => {
            assert!(rt; !except);
            is_interface(rt, &only(pairs.as_slice())?.from)
        }
        _ => Err("a list and a sign")?,
    }
}

fn is_exception(rt: &impl Abort, last: &Last) -> Result<(), Fail> {
    let Last::Header(signs) = last else {
        return Err("a header")?;
    };
    match signs.as_slice() {
        [Sign::Atom(LabelAtom::List(except, names))] => {
            assert!(rt; *except && only(names.as_slice())?.as_str() == "30");
        }
        _ => Err("a list")?,
    }
    Ok(())
}

fn is_kept(rt: &impl Abort, written: &Written) -> Result<(), Fail> {
    are_names(rt, written.first.as_slice())?;
    is_pair(rt, written.path.as_slice())?;
    is_exception(rt, &written.last)?;
    assert!(rt; written.number.as_str() == "12" && written.number.at() == 27);
    assert!(rt; written.down.is_none());
    match &written.up {
        Some(known) => assert!(rt; known.at == 30 && known.pairs.as_slice().len() == 1),
        None => Err("links known up")?,
    }
    Ok(())
}

#[test]
fn what_is_written_is_kept(rt: HostRuntime) -> Result<(), Fail> {
    let text = "<\"ip\" ip> [x.o#a]? <[^30]> 12 up [.#b]";
    let written = read_written(rt.alloc(), text).map_err(|_| "a query")?;
    let kept = is_kept(&rt, &written);
    drop(written);
    kept
}

fn only<T>(items: &[T]) -> Result<&T, Fail> {
    match items {
        [item] => Ok(item),
        _ => Err("one item")?,
    }
}

// How many brackets are opened and closed, and how many signs follow.
const DEEP: &[(u32, u32, u32)] = &[(2000, 2000, 0), (1300, 1300, 1300), (0, 0, 4000)];

fn deep_text(alloc: Global, open: u32, close: u32, sign: u32) -> Result<String, Fail> {
    let mut text = String::new(alloc);
    text.push('<')?;
    repeat(&mut text, '(', open)?;
    text.push('.')?;
    repeat(&mut text, ')', close)?;
    repeat(&mut text, '*', sign)?;
    text.push_str("> . <.> 0")?;
    Ok(text)
}

// Brackets and signs may be as many as a text has room for.
#[test]
fn deep_texts_are_read(rt: HostRuntime) -> Result<(), Fail> {
    for (open, close, sign) in DEEP {
        let text = deep_text(rt.alloc(), *open, *close, *sign)?;
        stops_at(&rt, rt.alloc(), text.as_str(), None)?;
    }
    Ok(())
}

fn repeat(text: &mut String, character: char, times: u32) -> Result<(), Fail> {
    for _ in 0..times {
        text.push(character)?;
    }
    Ok(())
}
