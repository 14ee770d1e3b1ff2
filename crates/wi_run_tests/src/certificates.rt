//! Certificates that `verify` stores and `check` judges.
ghost use Rattle.std.specs.Prelude.{None, false};

use crate::called::{Case, begins, is_said, is_said_between, ran, ran_over, shelf_with};
use crate::samples::{n1, n2, n3};
use std::alloc::Global;
use std::marker::Model;
use std::process::Abort;
use std::test::Fail;
use wi_base::{FetchRefused, MemoryShelf, Shelf, StoreRefused};

// What `check` of `c` ends with, for a query and weights where there are some.
fn checked(
    alloc: Global,
    query: &str,
    weights: Option<&str>,
    shelf: &mut MemoryShelf,
) -> Result<String, Fail> {
    match weights {
        Some(text) => ran(
            alloc,
            &["whatif", "check", "n", query, "c", "--weights", text],
            shelf,
        ),
        None => ran(alloc, &["whatif", "check", "n", query, "c"], shelf),
    }
}

// What `verify` ends with that stores its certificate under a name.
fn stored(
    alloc: Global,
    query: &str,
    weights: Option<&str>,
    file: &str,
    shelf: &mut MemoryShelf,
) -> Result<String, Fail> {
    match weights {
        Some(text) => ran(
            alloc,
            &[
                "whatif",
                "verify",
                "n",
                query,
                "--weights",
                text,
                "--certificate",
                file,
            ],
            shelf,
        ),
        None => ran(
            alloc,
            &["whatif", "verify", "n", query, "--certificate", file],
            shelf,
        ),
    }
}

// What `check` ends with after `verify` on one shelf.
fn stored_and_checked(
    alloc: Global,
    network: &str,
    query: &str,
    weights: Option<&str>,
) -> Result<String, Fail> {
    let mut shelf = shelf_with(alloc, network.as_bytes())?;
    if let Err(fail) = stored(alloc, query, weights, "c", &mut shelf) {
        drop(shelf);
        return Err(fail);
    }
    let said = checked(alloc, query, weights, &mut shelf);
    drop(shelf);
    said
}

// A query, weights where there are some, and the word of the answer that is accepted.
const ON_N1: &[Case] = &[
    ("<ip1> [x#a] .* [b#y] <ip1> 0", Some("Hops"), "yes"),
    ("<ip1> [x#a] [a#c] .* [b#y] <ip1> 0", None, "no"),
    (
        "<ip1> [x#a] [a#c] .* [b#y] <ip1> 1",
        Some("Hops, Distance+3*Tunnels"),
        "yes",
    ),
    ("<s10 ip1> [a#b]+ <smpls ip> 0", None, "yes"),
    ("<30 ip1> .* <.*> 0", None, "no"),
];

const ON_N2: &[Case] = &[
    ("<ip1> [x#a] [a#c] .* [b#z] <ip1> 1", None, "inconclusive"),
    ("<ip1> [x#a] [a#c] .* [b#z] <ip1> 2", None, "yes"),
    ("<ip1> [x#a] [a#c] .* [b#z] <ip1> 0", None, "no"),
];

const ON_N3: &[Case] = &[(
    "<ip1> [x#a] [a#c] [c#a] [a#b] .* <ip1> 5",
    None,
    "inconclusive",
)];

fn are_accepted(rt: &impl Abort, alloc: Global, network: &str, cases: &[Case]) -> Result<(), Fail> {
    for (query, weights, word) in cases {
        let said = stored_and_checked(alloc, network, query, *weights);
        is_said_between(rt, said, "0<accepted: ", word, "\n><>")?;
    }
    Ok(())
}

#[test]
fn what_is_stored_is_accepted(rt: HostRuntime) -> Result<(), Fail> {
    are_accepted(&rt, rt.alloc(), n1(), ON_N1)?;
    are_accepted(&rt, rt.alloc(), n2(), ON_N2)?;
    are_accepted(&rt, rt.alloc(), n3(), ON_N3)
}

// The certificate of a yes: a packet with a label more that goes along one link.
const YES: &str =
    "mpls-whatif-certificate 1\nterms 0\nanswer yes\nweight 8\nfirst 1 1 2\nsteps 0\nheads 8\n0 0\n2 2\n3 3\n4 0\n5 2\n6 3\n7 0\n11 2\npairs 2\n2 3\n3 0\nrows 7\n2 2 6 3\n3 3 7 5\n4 0 1 7\n5 2 6 1\n6 3 7 1\n7 0 1 1\n11 2 6 2\nend\n";

// Its query.
const ONE_LINK: &str = "<s10 ip1> [a#b]+ <smpls ip> 0";

// What `check` says of bytes, for the query of one link.
fn judged(alloc: Global, weights: Option<&str>, bytes: &str) -> Result<String, Fail> {
    let mut shelf = shelf_with(alloc, n1().as_bytes())?;
    if let Err(fail) = shelf.insert("c", bytes.as_bytes()) {
        drop(shelf);
        return Err(fail.into());
    }
    let said = checked(alloc, ONE_LINK, weights, &mut shelf);
    drop(shelf);
    said
}

#[test]
fn the_certificate_of_one_link(rt: HostRuntime) -> Result<(), Fail> {
    let mut shelf = shelf_with(rt.alloc(), n1().as_bytes())?;
    let said = stored(rt.alloc(), ONE_LINK, None, "c", &mut shelf);
    let is_stored = shelf.get("c") == Some(YES.as_bytes());
    drop(shelf);
    is_said(
        &rt,
        said,
        "0<answer: yes\nweight: none\neffort: 8\nfailed: none\nmoving: yes\nlinks: 1\na.b#b.a | s10 ip1\n><>",
    )?;
    assert!(rt; is_stored);
    Ok(())
}

#[test]
fn the_weights_are_a_part_of_what_is_asked(rt: HostRuntime) -> Result<(), Fail> {
    let said = judged(rt.alloc(), None, YES);
    is_said(&rt, said, "0<accepted: yes\n><>")?;
    let said = judged(rt.alloc(), Some("Hops"), YES);
    is_said(&rt, said, "8<><certificate: terms shown 0, asked 1\n>")
}

// What stands there, what stands in its place, and what is said.
const CHANGED: &[(&str, &str, &str)] = &[
    (
        "rows 7\n2 2 6 3\n3 3 7 5\n4 0 1 7\n5 2 6 1\n6 3 7 1\n7 0 1 1\n11 2 6 2\n",
        "rows 6\n2 2 6 3\n3 3 7 5\n4 0 1 7\n5 2 6 1\n6 3 7 1\n7 0 1 1\n",
        "not closed at 11 2 to 6, sum 2",
    ),
    ("weight 8\n", "weight 9\n", "weight shown 9, counted 8"),
    ("weight 8\n", "weight 08\n", "line 4"),
    ("answer yes\n", "answer inconclusive\n", "wrong answer"),
    ("pairs 2\n2 3\n3 0\n", "pairs 1\n2 3\n", "pair 3 0 missing"),
    (
        "heads 8\n0 0\n2 2\n3 3\n4 0\n5 2\n6 3\n7 0\n11 2\n",
        "heads 7\n0 0\n2 2\n3 3\n4 0\n5 2\n6 3\n7 0\n",
        "head 11 2 missing",
    ),
    ("first 1 1 2\n", "first 0 1 2\n", "part 2 does not match"),
    ("steps 0\n", "steps 1\n2 1\n", "step 1 not in table"),
    ("rows 7\n", "rows 8\n0 0 1 7\n", "goal at 7"),
];

fn is_told(rt: &impl Abort, alloc: Global, old: &str, new: &str, words: &str) -> Result<(), Fail> {
    let text = YES.replace(alloc, old, new)?;
    let said = judged(alloc, None, text.as_str());
    drop(text);
    is_said_between(rt, said, "8<><certificate: ", words, "\n>")
}

#[test]
fn changed_certificates(rt: HostRuntime) -> Result<(), Fail> {
    for (old, new, words) in CHANGED {
        is_told(&rt, rt.alloc(), old, new, words)?;
    }
    // Cut after its fifteenth line.
    let said = judged(rt.alloc(), None, YES.split_at(115).0);
    is_said(&rt, said, "8<><certificate: line 16\n>")?;
    let said = judged(rt.alloc(), None, "");
    is_said(&rt, said, "8<><certificate: line 1\n>")
}

#[test]
fn a_certificate_in_the_place_of_the_network(rt: HostRuntime) -> Result<(), Fail> {
    let mut shelf = shelf_with(rt.alloc(), n1().as_bytes())?;
    let said = stored(rt.alloc(), ONE_LINK, None, "n", &mut shelf);
    let is_stored = shelf.get("n") == Some(YES.as_bytes());
    drop(shelf);
    begins(&rt, said, "0<answer: yes\n")?;
    assert!(rt; is_stored);
    let mut shelf = shelf_with(rt.alloc(), YES.as_bytes())?;
    let said = ran(
        rt.alloc(),
        &["whatif", "check", "n", ONE_LINK, "n"],
        &mut shelf,
    );
    drop(shelf);
    is_said(&rt, said, "3<><network: file: not JSON\n>")
}

// A shelf each file of which, asked for in parts, has a byte more than the limit of certificates.
#[derive(Drop)]
struct Long {
    alloc: Global,
    whole: MemoryShelf,
}

impl Model for Long {
    ghost use Rattle.wi_base.specs.MemoryShelf.{Contents};

    ghost Value = { Contents };

    ghost view = { λ s. s.whole };
}

impl Shelf for Long {
    ghost seen = { λ s. record { told = false; file = λ _. None; failed = s.failed } };

    fn fetch(&mut self, name: &str, limit: u64) -> Result<Vec<u8>, FetchRefused> {
        self.whole.fetch(name, limit)
    }

    fn fetch_part(&mut self, _name: &str, at: u64, most: u32) -> Result<Vec<u8>, FetchRefused> {
        let left = 268_435_457u64.saturating_sub(at).min(u64::from(most));
        match vec![in self.alloc; b'x'; left as usize] {
            Ok(part) => Ok(part),
            Err(_) => Err(FetchRefused::Memory),
        }
    }

    fn store(&mut self, name: &str, bytes: &[u8]) -> Result<(), StoreRefused> {
        self.whole.store(name, bytes)
    }
}

#[test]
fn a_certificate_of_268435457_bytes_is_too_long(rt: HostRuntime) -> Result<(), Fail> {
    let alloc = rt.alloc();
    let whole = shelf_with(alloc, n1().as_bytes())?;
    let mut shelf = Long { alloc, whole };
    let words = ["whatif", "check", "n", ONE_LINK, "c"];
    let said = ran_over(alloc, &words, &mut shelf, &[], &[]);
    drop(shelf);
    is_said(&rt, said, "8<><certificate: over the limit 268435456\n>")
}
