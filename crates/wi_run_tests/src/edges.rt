//! Calls that fail, and what then stands.
use crate::called::{ENDED_WITH_NO, is_said, ran, ran_over, shelf_with};
use crate::samples::n1;
use std::alloc::Global;
use std::process::Abort;
use std::test::Fail;
use wi_base::{FailingPut, MemoryShelf};

// The words of a query that is answered with yes.
const ASKED: &[&str] = &["whatif", "verify", "n", "<ip1> [x#a] [a#b] [b#y] <ip1> 0"];

#[test]
fn a_file_that_is_not_there(rt: HostRuntime) -> Result<(), Fail> {
    let mut absent = MemoryShelf::new(rt.alloc());
    let said = ran(rt.alloc(), ASKED, &mut absent);
    let failed = absent.failed().len();
    drop(absent);
    is_said(&rt, said, "10<><whatif: cannot read n\n>")?;
    assert_eq!(rt; failed, 1);
    Ok(())
}

// A shelf with the first network, the calls on which fail that have these numbers.
fn failing(alloc: Global, calls: &[u64]) -> Result<MemoryShelf, Fail> {
    let calls = Vec::from_slice(alloc, calls)?;
    let mut shelf = MemoryShelf::failing(alloc, calls);
    match shelf.insert("n", n1().as_bytes()) {
        Ok(()) => Ok(shelf),
        Err(fail) => {
            drop(shelf);
            Err(fail.into())
        }
    }
}

#[test]
fn a_fetch_that_fails(rt: HostRuntime) -> Result<(), Fail> {
    let mut shelf = failing(rt.alloc(), &[0])?;
    let said = ran(rt.alloc(), ASKED, &mut shelf);
    let stands = shelf.get("n") == Some(n1().as_bytes());
    drop(shelf);
    is_said(&rt, said, "10<><whatif: cannot read n\n>")?;
    assert!(rt; stands);
    Ok(())
}

// The first call fails after so many bytes.
fn after(taken: usize) -> FailingPut {
    FailingPut { call: 0, taken }
}

// What these words end with where the streams fail so.
fn over_failing(
    alloc: Global,
    words: &[&str],
    out_fails: &[FailingPut],
    err_fails: &[FailingPut],
) -> Result<String, Fail> {
    let mut shelf = shelf_with(alloc, n1().as_bytes())?;
    let said = ran_over(alloc, words, &mut shelf, out_fails, err_fails);
    drop(shelf);
    said
}

#[test]
fn streams_that_fail(rt: HostRuntime) -> Result<(), Fail> {
    let alloc = rt.alloc();
    let said = over_failing(alloc, ASKED, &[after(5)], &[]);
    is_said(&rt, said, "10<answe><whatif: cannot print\n>")?;
    let said = over_failing(alloc, ASKED, &[after(0)], &[after(6)]);
    is_said(&rt, said, "10<><whatif>")?;
    let said = over_failing(alloc, &["whatif"], &[], &[after(5)]);
    is_said(&rt, said, "10<><usage>")?;
    let said = over_failing(alloc, &["whatif"], &[], &[after(0)]);
    is_said(&rt, said, "10<><>")
}

// The words of a query that asks for a certificate: no run matches it, since the header that is asked for is no valid one.
const ASKED_FOR_PROOF: &[&str] = &[
    "whatif",
    "verify",
    "n",
    "<30 ip1> .* <.*> 0",
    "--certificate",
    "c",
];

// That certificate.
const OF_A_NO: &str =
    "mpls-whatif-certificate 1\nterms 0\nanswer no\nweight none\nfirst none\nsteps 0\nheads 3\n0 0\n3 3\n4 0\npairs 1\n3 0\nrows 0\nend\n";

// What stands under `c`.
#[derive(Clone, Copy, PartialEq, Eq, Debug)]
enum Found {
    Nothing,
    Certificate,
    Other,
}

fn what_stands(shelf: &MemoryShelf) -> Found {
    match shelf.get("c") {
        None => Found::Nothing,
        Some(bytes) if bytes == OF_A_NO.as_bytes() => Found::Certificate,
        Some(_) => Found::Other,
    }
}

// Which calls on the shelf and on standard output fail, what `verify` ends with then, and what it stored.
type Storing<'a> = (&'a [u64], &'a [FailingPut], &'a str, Found);

const STORING: &[Storing] = &[
    (&[], &[], ENDED_WITH_NO, Found::Certificate),
    (&[1], &[], "10<><whatif: cannot write c\n>", Found::Nothing),
    (&[0], &[], "10<><whatif: cannot read n\n>", Found::Nothing),
    // The certificate stands where printing fails.
    (
        &[],
        &[FailingPut { call: 0, taken: 5 }],
        "10<answe><whatif: cannot print\n>",
        Found::Certificate,
    ),
];

fn stores(rt: &impl Abort, alloc: Global, case: &Storing) -> Result<(), Fail> {
    let (calls, out_fails, wanted, stored) = *case;
    let mut shelf = failing(alloc, calls)?;
    let said = ran_over(alloc, ASKED_FOR_PROOF, &mut shelf, out_fails, &[]);
    let stands = what_stands(&shelf);
    drop(shelf);
    is_said(rt, said, wanted)?;
    assert_eq!(rt; stands, stored);
    Ok(())
}

#[test]
fn certificates_are_stored_before_anything_is_printed(rt: HostRuntime) -> Result<(), Fail> {
    for case in STORING {
        stores(&rt, rt.alloc(), case)?;
    }
    Ok(())
}

// Which calls fail, the bytes under `c`, what `check` ends with, and how many calls have failed. A line that is bad is no cause to
// stop before the end.
type Checking<'a> = (&'a [u64], &'a str, &'a str, usize);

const CHECKING: &[Checking] = &[
    (&[], OF_A_NO, "0<accepted: no\n><>", 0),
    (&[1], OF_A_NO, "10<><whatif: cannot read c\n>", 1),
    (&[2], OF_A_NO, "10<><whatif: cannot read c\n>", 1),
    (&[2], "no certificate\n", "10<><whatif: cannot read c\n>", 1),
    (&[], "no certificate\n", "8<><certificate: line 1\n>", 0),
];

fn checks(rt: &impl Abort, alloc: Global, case: &Checking) -> Result<(), Fail> {
    let (calls, bytes, wanted, count) = *case;
    let mut shelf = failing(alloc, calls)?;
    if let Err(fail) = shelf.insert("c", bytes.as_bytes()) {
        drop(shelf);
        return Err(fail.into());
    }
    let words = ["whatif", "check", "n", "<30 ip1> .* <.*> 0", "c"];
    let said = ran(alloc, &words, &mut shelf);
    let failed = shelf.failed().len();
    drop(shelf);
    is_said(rt, said, wanted)?;
    assert_eq!(rt; failed, count);
    Ok(())
}

#[test]
fn certificates_that_cannot_be_read(rt: HostRuntime) -> Result<(), Fail> {
    for case in CHECKING {
        checks(&rt, rt.alloc(), case)?;
    }
    Ok(())
}
