//! Label stacks on the wire: the packets of a run, and stacks that are read off bytes.
use crate::called::{is_said, ran, shelf_with};
use crate::samples::n1;
use std::alloc::Global;
use std::test::Fail;
use wi_base::MemoryShelf;

// The backup of the first network is asked for.
const BY_THE_BACKUP: &str = "<ip1> [x#a] [a#c] .* [b#y] <ip1> 1";

// The smpls label of the first network under another name, words, and what these are to end with.
const PACKETS: &[(&str, &[&str], &str)] = &[
    (
        "s100",
        &["whatif", "packets", "n", BY_THE_BACKUP],
        "0<answer: yes\nweight: none\neffort: 10\nfailed: a.b#b.a\nmoving: yes\nlinks: 4\nx.o#a.x | ip1\na.c#c.a | 30 s100 ip1 | group 2 member 1\nc.b#b.c | s100 ip1 | group 1 member 1\nb.y#y.b | ip1 | group 1 member 1\npacket 1: ip1\npacket 2: 0001e040 00064140 ip1\npacket 3: 00064140 ip1\npacket 4: ip1\n><>",
    ),
    // Labels below 16 are reserved.
    (
        "s10",
        &["whatif", "packets", "n", BY_THE_BACKUP],
        "0<answer: yes\nweight: none\neffort: 10\nfailed: a.b#b.a\nmoving: yes\nlinks: 4\nx.o#a.x | ip1\na.c#c.a | 30 s10 ip1 | group 2 member 1\nc.b#b.c | s10 ip1 | group 1 member 1\nb.y#y.b | ip1 | group 1 member 1\npacket 1: ip1\npacket 2: label s10 has no value\npacket 3: label s10 has no value\npacket 4: ip1\n><>",
    ),
    (
        "s16",
        &[
            "whatif",
            "packets",
            "n",
            "<s16 ip1> [a#b] <s16 ip1> 0",
            "--weights",
            "Hops",
        ],
        "0<answer: yes\nweight: 1\neffort: 8\nfailed: none\nmoving: yes\nlinks: 1\na.b#b.a | s16 ip1\npacket 1: 00010140 ip1\n><>",
    ),
    (
        "s1048575",
        &["whatif", "packets", "n", "<s1048575 ip1> [a#b] <.*> 0"],
        "0<answer: yes\nweight: none\neffort: 8\nfailed: none\nmoving: yes\nlinks: 1\na.b#b.a | s1048575 ip1\npacket 1: fffff140 ip1\n><>",
    ),
    (
        "s1048576",
        &["whatif", "packets", "n", "<s1048576 ip1> [a#b] <.*> 0"],
        "0<answer: yes\nweight: none\neffort: 8\nfailed: none\nmoving: yes\nlinks: 1\na.b#b.a | s1048576 ip1\npacket 1: label s1048576 has no value\n><>",
    ),
    // Over 2^32 by 16.
    (
        "s4294967312",
        &["whatif", "packets", "n", "<s4294967312 ip1> [a#b] <.*> 0"],
        "0<answer: yes\nweight: none\neffort: 8\nfailed: none\nmoving: yes\nlinks: 1\na.b#b.a | s4294967312 ip1\npacket 1: label s4294967312 has no value\n><>",
    ),
    (
        "s0100",
        &["whatif", "packets", "n", "<s0100 ip1> [a#b] <.*> 0"],
        "0<answer: yes\nweight: none\neffort: 8\nfailed: none\nmoving: yes\nlinks: 1\na.b#b.a | s0100 ip1\npacket 1: label s0100 has no value\n><>",
    ),
    (
        "s",
        &["whatif", "packets", "n", "<s ip1> [a#b] <.*> 0"],
        "0<answer: yes\nweight: none\neffort: 8\nfailed: none\nmoving: yes\nlinks: 1\na.b#b.a | s ip1\npacket 1: label s has no value\n><>",
    ),
    // A no shows no run, so there is no packet; and a fault of the query is one here, too.
    (
        "s100",
        &[
            "whatif",
            "packets",
            "n",
            "<ip1> [x#a] [a#c] .* [b#y] <ip1> 0",
        ],
        "1<answer: no\nmoving: no\n><>",
    ),
    (
        "s100",
        &["whatif", "packets", "n", "<s10 ip1> [a#b] <.*> 0"],
        "4<><query: byte 1: unknown label s10\n>",
    ),
];

// What words end with over the first network, whose smpls label has this name.
fn packets(alloc: Global, label: &str, words: &[&str]) -> Result<String, Fail> {
    let text = n1().replace(alloc, "s10", label)?;
    let shelf = shelf_with(alloc, text.as_bytes());
    drop(text);
    let mut shelf = shelf?;
    let said = ran(alloc, words, &mut shelf);
    drop(shelf);
    said
}

#[test]
fn packets_of_a_run_are_printed_behind_its_report(rt: HostRuntime) -> Result<(), Fail> {
    for (label, words, wanted) in PACKETS {
        is_said(&rt, packets(rt.alloc(), label, words), wanted)?;
    }
    Ok(())
}

// A word for HEX, and what `stack` is to end with.
const STACKS: &[(&str, &str)] = &[
    (
        "0001e04000064140ab",
        "0<label 30 exp 0 s 0 ttl 64\nlabel 100 exp 0 s 1 ttl 64\nrest: 1 bytes\n><>",
    ),
    (
        "0001e04000064140",
        "0<label 30 exp 0 s 0 ttl 64\nlabel 100 exp 0 s 1 ttl 64\nrest: 0 bytes\n><>",
    ),
    // Two stacks in a row; the second isn't read, nor need it be one.
    (
        "000641400001e140",
        "0<label 100 exp 0 s 1 ttl 64\nrest: 4 bytes\n><>",
    ),
    (
        "0006414000003140ff",
        "0<label 100 exp 0 s 1 ttl 64\nrest: 5 bytes\n><>",
    ),
    // The least label, the greatest, and each part as large as it may be.
    (
        "00010140",
        "0<label 16 exp 0 s 1 ttl 64\nrest: 0 bytes\n><>",
    ),
    (
        "fffff140",
        "0<label 1048575 exp 0 s 1 ttl 64\nrest: 0 bytes\n><>",
    ),
    (
        "ffffffff",
        "0<label 1048575 exp 7 s 1 ttl 255\nrest: 0 bytes\n><>",
    ),
    // Exp 5 and TTL 2.
    (
        "00064b02",
        "0<label 100 exp 5 s 1 ttl 2\nrest: 0 bytes\n><>",
    ),
    ("0001e040", "16<><wire: entry 2 cut\n>"),
    ("0001e04000064", "16<><wire: not hex\n>"),
    ("0001e040000641", "16<><wire: entry 2 cut\n>"),
    ("", "16<><wire: entry 1 cut\n>"),
    ("000641", "16<><wire: entry 1 cut\n>"),
    ("00003140", "16<><wire: entry 1 reserved label 3\n>"),
    ("0000f140", "16<><wire: entry 1 reserved label 15\n>"),
    ("0001e04000000040", "16<><wire: entry 2 reserved label 0\n>"),
    // An entry is refused before what is missing behind it.
    ("0000e040", "16<><wire: entry 1 reserved label 14\n>"),
    ("0g", "16<><wire: not hex\n>"),
    ("0", "16<><wire: not hex\n>"),
    ("0001E140", "16<><wire: not hex\n>"),
    ("0001e140 ", "16<><wire: not hex\n>"),
    ("0x01e140", "16<><wire: not hex\n>"),
    ("é", "16<><wire: not hex\n>"),
];

// What `stack` ends with, on a shelf with nothing on it.
fn stack(alloc: Global, hex: &str) -> Result<String, Fail> {
    let mut shelf = MemoryShelf::new(alloc);
    let said = ran(alloc, &["whatif", "stack", hex], &mut shelf);
    drop(shelf);
    said
}

#[test]
fn stacks_are_read_off_bytes(rt: HostRuntime) -> Result<(), Fail> {
    for (hex, wanted) in STACKS {
        is_said(&rt, stack(rt.alloc(), hex), wanted)?;
    }
    Ok(())
}
