//! The program over files and streams in memory: what it ends with, as a text `STATUS<OUT><ERR>`.
ghost use Rattle.std.specs.Prelude.{◌≡◌, IfOk};

use crate::samples::n1;
use std::alloc::{AllocError, Global};
use std::process::Abort;
use std::str::from_utf8;
use std::test::Fail;
use wi_app::run;
use wi_base::{FailingPut, MemoryShelf, MemorySink, Shelf};

/// What `run` ends with for a no.
pub const ENDED_WITH_NO: &str = "1<answer: no\nmoving: no\n><>";

/// What `run` ends with for these words.
pub fn ran(alloc: Global, words: &[&str], shelf: &mut MemoryShelf) -> Result<String, Fail> {
    ran_over(alloc, words, shelf, &[], &[])
}

/// The same over streams the calls on which fail as the lists say.
pub fn ran_over<S: Shelf>(
    alloc: Global,
    words: &[&str],
    shelf: &mut S,
    out_fails: &[FailingPut],
    err_fails: &[FailingPut],
) -> Result<String, Fail> {
    let words = owned(alloc, words)?;
    let said = ran_words(alloc, words.as_slice(), shelf, out_fails, err_fails);
    drop(words);
    said
}

fn ran_words<S: Shelf>(
    alloc: Global,
    words: &[String],
    shelf: &mut S,
    out_fails: &[FailingPut],
    err_fails: &[FailingPut],
) -> Result<String, Fail> {
    let mut out = sink(alloc, out_fails)?;
    match sink(alloc, err_fails) {
        Ok(mut err) => {
            let status = run(alloc, words, shelf, &mut out, &mut err);
            let said = ended(alloc, status, &out, &err);
            drop(out);
            drop(err);
            Ok(said?)
        }
        Err(fail) => {
            drop(out);
            Err(fail)
        }
    }
}

fn sink(alloc: Global, fails: &[FailingPut]) -> Result<MemorySink, Fail>
    ensures { IfOk result (λ sink. sink.faults ≡ 0) }
{
    Ok(MemorySink::failing(alloc, Vec::from_slice(alloc, fails)?))
}

fn owned(alloc: Global, words: &[&str]) -> Result<Vec<String>, AllocError> {
    let mut owned = Vec::new(alloc);
    for word in words {
        owned.push(String::from_str(alloc, word)?)?;
    }
    Ok(owned)
}

fn ended(
    alloc: Global,
    status: u8,
    out: &MemorySink,
    err: &MemorySink,
) -> Result<String, AllocError> {
    let printed = from_utf8(out.written()).unwrap_or("not UTF-8");
    let said = from_utf8(err.written()).unwrap_or("not UTF-8");
    format!(in alloc; "{status}<{printed}><{said}>")
}

/// A shelf with these bytes under `n`.
pub fn shelf_with(alloc: Global, network: &[u8]) -> Result<MemoryShelf, Fail> {
    let mut shelf = MemoryShelf::new(alloc);
    match shelf.insert("n", network) {
        Ok(()) => Ok(shelf),
        Err(fail) => {
            drop(shelf);
            Err(fail.into())
        }
    }
}

/// What `verify` ends with for a query, and weights where there are some, over the bytes of a network file.
pub fn weighed(
    alloc: Global,
    network: &[u8],
    query: &str,
    weights: Option<&str>,
) -> Result<String, Fail> {
    let mut shelf = shelf_with(alloc, network)?;
    let said = match weights {
        Some(text) => ran(
            alloc,
            &["whatif", "verify", "n", query, "--weights", text],
            &mut shelf,
        ),
        None => ran(alloc, &["whatif", "verify", "n", query], &mut shelf),
    };
    drop(shelf);
    said
}

/// The same without weights.
pub fn verified(alloc: Global, network: &[u8], query: &str) -> Result<String, Fail> {
    weighed(alloc, network, query, None)
}

/// The same over the first network, one part of which was replaced.
pub fn verified_with(alloc: Global, old: &str, new: &str, query: &str) -> Result<String, Fail> {
    let text = n1().replace(alloc, old, new)?;
    let said = verified(alloc, text.as_bytes(), query);
    drop(text);
    said
}

/// A query, and weights where there are some, with what `verify` is to end with.
pub type Case<'a> = (&'a str, Option<&'a str>, &'a str);

/// Each case ends as it is to.
pub fn cases_are(
    rt: &impl Abort,
    alloc: Global,
    network: &str,
    cases: &[Case],
) -> Result<(), Fail> {
    for (query, weights, wanted) in cases {
        let said = weighed(alloc, network.as_bytes(), query, *weights);
        is_said(rt, said, wanted)?;
    }
    Ok(())
}

/// This was said, and nothing else.
pub fn is_said(rt: &impl Abort, said: Result<String, Fail>, wanted: &str) -> Result<(), Fail> {
    is_said_between(rt, said, "", wanted, "")
}

/// This was said between a front and an end.
pub fn is_said_between(
    rt: &impl Abort,
    said: Result<String, Fail>,
    front: &str,
    wanted: &str,
    end: &str,
) -> Result<(), Fail> {
    let said = said?;
    assert_eq!(rt; between(said.as_str(), front, end), Some(wanted));
    Ok(())
}

/// What stands in a text between a front and an end.
pub fn between<'a>(text: &'a str, front: &str, end: &str) -> Option<&'a str> {
    text.strip_prefix(front)?.strip_suffix(end)
}

/// What was said begins so.
pub fn begins(rt: &impl Abort, said: Result<String, Fail>, front: &str) -> Result<(), Fail> {
    let said = said?;
    assert!(rt; said.starts_with(front));
    Ok(())
}
