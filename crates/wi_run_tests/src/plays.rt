//! Scripts that are played.
use crate::called::{is_said, ran, shelf_with};
use crate::samples::{n1, n3, n6};
use std::alloc::{AllocError, Global};
use std::test::Fail;

// The status and what was written, for a script that is played on the bytes of a network file.
fn played(alloc: Global, network: &str, script: &[u8], most: &str) -> Result<String, Fail> {
    let mut shelf = shelf_with(alloc, network.as_bytes())?;
    if let Err(fail) = shelf.insert("s", script) {
        drop(shelf);
        return Err(fail.into());
    }
    let words = ["whatif", "play", "n", "s", most];
    let said = ran(alloc, &words, &mut shelf);
    drop(shelf);
    said
}

#[test]
fn a_packet_goes_back_while_a_link_is_down(rt: HostRuntime) -> Result<(), Fail> {
    let said = played(
        rt.alloc(),
        n3(),
        b"at x.o#a.x ip1\nfail a.b#b.a\nhop 2 1\nhop 1 1\nrepair a.b#b.a\nhop 1 1\nhop 1 1\n",
        "1",
    );
    is_said(
        &rt,
        said,
        "0<x.o#a.x | ip1 | failed none\nx.o#a.x | ip1 | failed a.b#b.a\na.c#c.a | 30 s10 ip1 | failed a.b#b.a\nc.a2#a.c2 | 31 s10 ip1 | failed a.b#b.a\nc.a2#a.c2 | 31 s10 ip1 | failed none\na.b#b.a | s10 ip1 | failed none\nb.y#y.b | ip1 | failed none\n><>",
    )
}

// A script, the most risk groups that may be failed, and what `play` is to end with.
const SCRIPTS: &[(&[u8], &str, &str)] = &[
    (b"", "0", "12<><script: line 1: not an event\n>"),
    (
        b"at x.o#a.x ip1\nfail a.b#b.a\n",
        "0",
        "12<><script: line 2: too many failed\n>",
    ),
    (
        b"at x.o#a.x ip1\nfail a.b#b.a\njump\n",
        "0",
        "12<><script: line 3: not an event\n>",
    ),
    (
        b"at x.o#a.x 30 ip1\n",
        "0",
        "12<><script: line 1: bad header\n>",
    ),
    (
        b"at x.o#a.x ip1\r\n",
        "0",
        "12<><script: line 1: not an event\n>",
    ),
    (
        b"at x.o#a.x ip1",
        "0",
        "12<><script: line 1: not an event\n>",
    ),
    (
        b"at x.o#a.x ip1\nhop 2 1\n",
        "65535",
        "12<><script: line 2: not the first active group\n>",
    ),
    (
        b"at x.o#a.x ip1\nfail a.b#b.a\nhop 1 1\n",
        "65535",
        "12<><script: line 3: not the first active group\n>",
    ),
    (
        b"at x.o#a.x ip1\nhop 3 1\n",
        "0",
        "12<><script: line 2: no such group\n>",
    ),
    // The link that the packet is on may fail under it.
    (
        b"at x.o#a.x ip1\nfail x.o#a.x\nhop 1 1\n",
        "1",
        "0<x.o#a.x | ip1 | failed none\nx.o#a.x | ip1 | failed x.o#a.x\na.b#b.a | s10 ip1 | failed x.o#a.x\n><>",
    ),
    (
        b"at \"x\".o#a.\"x\" \"ip1\"\n",
        "0",
        "0<x.o#a.x | ip1 | failed none\n><>",
    ),
    (
        b"at x.o#a.x ip1\nfail b.y#y.b\nfail a.b#b.a\n",
        "2",
        "0<x.o#a.x | ip1 | failed none\nx.o#a.x | ip1 | failed b.y#y.b\nx.o#a.x | ip1 | failed a.b#b.a b.y#y.b\n><>",
    ),
];

#[test]
fn scripts_on_the_first_network(rt: HostRuntime) -> Result<(), Fail> {
    for (script, most, wanted) in SCRIPTS {
        let said = played(rt.alloc(), n1(), script, most);
        is_said(&rt, said, wanted)?;
    }
    Ok(())
}

#[test]
fn a_hop_is_judged_when_it_happens(rt: HostRuntime) -> Result<(), Fail> {
    // The same without the repair.
    let said = played(
        rt.alloc(),
        n3(),
        b"at x.o#a.x ip1\nfail a.b#b.a\nhop 2 1\nhop 1 1\nhop 1 1\nhop 1 1\n",
        "1",
    );
    is_said(
        &rt,
        said,
        "12<><script: line 5: not the first active group\n>",
    )
}

#[test]
fn a_risk_group_fails_together(rt: HostRuntime) -> Result<(), Fail> {
    let said = played(rt.alloc(), n6(), b"at x.o#a.x ip1\nfail a.b#b.a\n", "1");
    is_said(
        &rt,
        said,
        "0<x.o#a.x | ip1 | failed none\nx.o#a.x | ip1 | failed a.b#b.a b.y#y.b\n><>",
    )?;
    let script = b"at x.o#a.x ip1\nfail a.b#b.a\nfail b.y#y.b\n";
    let said = played(rt.alloc(), n6(), script, "1");
    is_said(&rt, said, "12<><script: line 3: already failed\n>")
}

// A script of one line, whose header has so many labels that it is of 1,048,576 bytes.
fn longest_script(alloc: Global) -> Result<String, AllocError> {
    let mut script = String::from_str(alloc, "at x.o#a.x")?;
    for _ in 0..349_519 {
        script.push_str(" 30")?;
    }
    script.push_str(" s10 ip1\n")?;
    Ok(script)
}

// Whether these are the states for the longest script: `x.o#a.x |`, the labels, ` | failed none` and a line feed, and five more
// of the status and the marks.
fn is_longest(said: &str) -> bool {
    said.starts_with("0<x.o#a.x | 30 30 ")
        && said.ends_with(" 30 30 s10 ip1 | failed none\n><>")
        && said.len() == 9 + 3 * 349_519 + 8 + 15 + 5
}

#[test]
fn a_script_of_1048576_bytes_is_played(rt: HostRuntime) -> Result<(), Fail> {
    let script = longest_script(rt.alloc())?;
    let said = played(rt.alloc(), n1(), script.as_bytes(), "0");
    drop(script);
    let said = said?;
    assert!(rt; is_longest(said.as_str()));
    Ok(())
}

#[test]
fn a_script_of_1048577_bytes_is_too_long(rt: HostRuntime) -> Result<(), Fail> {
    let script = vec![in rt.alloc(); b'a'; 1_048_577]?;
    let said = played(rt.alloc(), n1(), script.as_slice(), "0");
    drop(script);
    is_said(&rt, said, "12<><script: over the limit 1048576\n>")
}

#[test]
fn a_script_that_cannot_be_read(rt: HostRuntime) -> Result<(), Fail> {
    let mut shelf = shelf_with(rt.alloc(), n1().as_bytes())?;
    let said = ran(rt.alloc(), &["whatif", "play", "n", "s", "1"], &mut shelf);
    let failed = shelf.failed().len();
    drop(shelf);
    is_said(&rt, said, "10<><whatif: cannot read s\n>")?;
    assert_eq!(rt; failed, 1);
    Ok(())
}
