//! Each public function where memory is ample, against values written by hand.
use crate::common::equal;
use std::alloc::Global;
use std::process::Abort;
use std::test::Fail;
use wi_base::{
    CallKind, FailedCall, FailingPut, FetchRefused, Listed, MemoryShelf, MemorySink, PutRefused,
    Shelf, Sink, StoreRefused, read_decimal, write_decimal,
};

const DECIMALS: &[(u128, &str)] = &[
    (0, "0"),
    (7, "7"),
    (10, "10"),
    (u128::MAX, "340282366920938463463374607431768211455"),
];

// The text of a number behind `n=`.
fn written(alloc: Global, number: u128) -> Result<Vec<u8>, Fail> {
    let mut text = Vec::from_slice(alloc, b"n=")?;
    write_decimal(number, &mut text)?;
    Ok(text)
}

fn comes_back(rt: &impl Abort, alloc: Global, number: u128, text: &str) -> Result<(), Fail> {
    let written = written(alloc, number)?;
    equal(rt, written.strip_prefix(b"n="), Some(text.as_bytes()));
    drop(written);
    equal(rt, read_decimal(text.as_bytes()), Some(number));
    Ok(())
}

#[test]
fn decimals_are_read_as_they_are_written(rt: HostRuntime) -> Result<(), Fail> {
    for (number, text) in DECIMALS {
        comes_back(&rt, rt.alloc(), *number, text)?;
    }
    Ok(())
}

const NO_DECIMALS: &[&str] = &[
    "",
    "00",
    "01",
    "+1",
    "1 ",
    "340282366920938463463374607431768211456",
];

#[test]
fn other_texts_are_no_decimals(rt: HostRuntime) {
    for text in NO_DECIMALS {
        let found = read_decimal(text.as_bytes());
        equal(&rt, (*text, found), (*text, None));
    }
}

// A failed call: what it was to do, and on which file.
type Noted<'a> = (CallKind, &'a str);

fn are_noted(rt: &impl Abort, failed: &[FailedCall], noted: &[Noted]) {
    equal(rt, failed.len(), noted.len());
    for (call, noted) in failed.iter().zip(noted) {
        equal(rt, (call.kind, call.name.as_str()), *noted);
    }
}

fn is_fetched(
    rt: &impl Abort,
    fetched: Result<Vec<u8>, FetchRefused>,
    wanted: Result<&[u8], FetchRefused>,
) {
    match fetched {
        Ok(bytes) => {
            equal(rt, Ok(bytes.as_slice()), wanted);
            drop(bytes);
        }
        Err(refused) => equal(rt, Err(refused), wanted),
    }
}

fn gives_what_was_put(rt: &impl Abort, shelf: &mut MemoryShelf) -> Result<(), Fail> {
    shelf.insert("network", b"abc")?;
    shelf.store("answer", b"yes")?;
    shelf.store("network", b"abcd")?;
    equal(rt, shelf.get("network"), Some(b"abcd".as_slice()));
    equal(rt, shelf.get("answer"), Some(b"yes".as_slice()));
    equal(rt, shelf.get("other"), None);
    Ok(())
}

fn fetches_what_was_put(rt: &impl Abort, shelf: &mut MemoryShelf) {
    is_fetched(rt, shelf.fetch("network", 3), Err(FetchRefused::TooBig));
    is_fetched(rt, shelf.fetch("network", 4), Ok(b"abcd"));
    are_noted(rt, shelf.failed(), &[]);
    is_fetched(rt, shelf.fetch("other", 4), Err(FetchRefused::Failed));
    are_noted(rt, shelf.failed(), &[(CallKind::Fetch, "other")]);
}

#[test]
fn a_shelf_gives_what_was_put_there(rt: HostRuntime) -> Result<(), Fail> {
    let mut shelf = MemoryShelf::new(rt.alloc());
    let given = gives_what_was_put(&rt, &mut shelf);
    fetches_what_was_put(&rt, &mut shelf);
    drop(shelf);
    given
}

const TWO_FAILED: &[Noted] = &[(CallKind::Store, "answer"), (CallKind::Fetch, "answer")];

// The first call and the third.
fn fails_twice(rt: &impl Abort, shelf: &mut MemoryShelf) {
    let store = shelf.store("answer", b"yes");
    equal(rt, store, Err(StoreRefused::Failed));
    equal(rt, shelf.get("answer"), None);
    equal(rt, shelf.store("answer", b"no"), Ok(()));
    is_fetched(rt, shelf.fetch("answer", 9), Err(FetchRefused::Failed));
    is_fetched(rt, shelf.fetch("answer", 9), Ok(b"no"));
    are_noted(rt, shelf.failed(), TWO_FAILED);
}

#[test]
fn a_call_that_is_to_fail_fails(rt: HostRuntime) -> Result<(), Fail> {
    let calls = vec![in rt.alloc(); 0, 2]?;
    let mut shelf = MemoryShelf::failing(rt.alloc(), calls);
    fails_twice(&rt, &mut shelf);
    drop(shelf);
    Ok(())
}

// A place in `abcde`, the most bytes that are wanted, and those that are given.
type Part<'a> = (u64, u32, &'a [u8]);

const PARTS: &[Part] = &[
    (0, 2, b"ab"),
    (2, 2, b"cd"),
    (4, 2, b"e"),
    (5, 2, b""),
    (6, 2, b""),
    (u64::MAX, u32::MAX, b""),
    (1, u32::MAX, b"bcde"),
    (1, 0, b""),
];

fn gives_parts(rt: &impl Abort, shelf: &mut MemoryShelf) -> Result<(), Fail> {
    shelf.insert("network", b"abcde")?;
    for (at, most, wanted) in PARTS {
        let fetched = shelf.fetch_part("network", *at, *most);
        is_fetched(rt, fetched, Ok(*wanted));
    }
    Ok(())
}

const FAILED_PARTS: &[Noted] = &[(CallKind::Fetch, "other"), (CallKind::Fetch, "network")];

// The tenth call is to fail.
fn refuses_parts(rt: &impl Abort, shelf: &mut MemoryShelf) {
    let other = shelf.fetch_part("other", 0, 2);
    is_fetched(rt, other, Err(FetchRefused::Failed));
    let tenth = shelf.fetch_part("network", 0, 2);
    is_fetched(rt, tenth, Err(FetchRefused::Failed));
    is_fetched(rt, shelf.fetch_part("network", 0, 2), Ok(b"ab"));
    are_noted(rt, shelf.failed(), FAILED_PARTS);
}

#[test]
fn a_file_is_fetched_in_parts(rt: HostRuntime) -> Result<(), Fail> {
    let calls = vec![in rt.alloc(); 9]?;
    let mut shelf = MemoryShelf::failing(rt.alloc(), calls);
    let given = gives_parts(&rt, &mut shelf);
    refuses_parts(&rt, &mut shelf);
    drop(shelf);
    given
}

fn writes_the_front(rt: &impl Abort, sink: &mut MemorySink) {
    equal(rt, sink.put(b"one "), Ok(()));
    equal(rt, sink.put(b"two three"), Err(PutRefused::Failed));
    equal(rt, sink.put(b"!"), Ok(()));
    equal(rt, sink.written(), b"one two t!".as_slice());
    equal(rt, sink.faults(), 1);
}

#[test]
fn a_put_that_fails_writes_the_front(rt: HostRuntime) -> Result<(), Fail> {
    let puts = vec![in rt.alloc(); FailingPut { call: 1, taken: 5 }]?;
    let mut sink = MemorySink::failing(rt.alloc(), puts);
    writes_the_front(&rt, &mut sink);
    drop(sink);
    let unused = MemorySink::new(rt.alloc());
    equal(&rt, unused.written(), b"".as_slice());
    drop(unused);
    Ok(())
}

#[test]
fn a_listed_vec_comes_back(rt: HostRuntime) -> Result<(), Fail> {
    let listed = Listed::of(vec![in rt.alloc(); 3u8, 5]?);
    equal(&rt, listed.as_slice(), [3, 5].as_slice());
    let items = listed.into_vec();
    equal(&rt, items.as_slice(), [3, 5].as_slice());
    drop(items);
    Ok(())
}
