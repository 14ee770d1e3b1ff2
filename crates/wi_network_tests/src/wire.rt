//! Stacks and headers by example, against values written by hand.
ghost use Rattle.std.specs.Prelude.{◌≡◌, ◌<◌, true, length};
ghost use Rattle.std.specs.List.{list_all};
ghost use Rattle.wi_net.specs.Net.{label_known};
ghost use Rattle.wi_wire.specs.Stacks.{is_entry};

use std::alloc::Global;
use std::process::Abort;
use std::test::Fail;
use wi_labels::{Class, Header, Label};
use wi_net::Network;
use wi_samples::{Sample, network};
use wi_wire::{Entry, NoValue, StackRefused, entries_of, header_of, read_stack, write_stack};

const E16: Entry = Entry {
    label: 16,
    exp: 0,
    ttl: 64,
};

const E30: Entry = Entry { label: 30, ..E16 };

const E100: Entry = Entry { label: 100, ..E16 };

const MOST: Entry = Entry {
    label: 1_048_575,
    ..E16
};

// Each part as large as it may be.
const ONES: Entry = Entry {
    label: 1_048_575,
    exp: 7,
    ttl: 255,
};

fn is_written(rt: &impl Abort, alloc: Global, entries: &[Entry], bytes: &[u8]) -> Result<(), Fail>
    requires some { 0 < length entries.now }
    requires fit { list_all is_entry entries.now ≡ true }
{
    let written = write_stack(alloc, entries)?;
    let same = written.as_slice() == bytes;
    drop(written);
    assert!(rt; same, "{entries:?}");
    Ok(())
}

#[test]
fn stacks_are_written(rt: HostRuntime) -> Result<(), Fail> {
    let two = [0x00, 0x01, 0xe0, 0x40, 0x00, 0x06, 0x41, 0x40];
    is_written(&rt, rt.alloc(), &[E30, E100], &two)?;
    is_written(&rt, rt.alloc(), &[E16], &[0x00, 0x01, 0x01, 0x40])?;
    is_written(&rt, rt.alloc(), &[ONES], &[0xff, 0xff, 0xff, 0xff])
}

// What bytes are read as: entries, and how many bytes they take; or a refusal.
type Read<'a> = (&'a [u8], Result<(&'a [Entry], usize), StackRefused>);

const READ: &[Read] = &[
    (
        &[0x00, 0x01, 0xe0, 0x40, 0x00, 0x06, 0x41, 0x40],
        Ok((&[E30, E100], 8)),
    ),
    (
        &[0x00, 0x01, 0xe0, 0x40, 0x00, 0x06, 0x41, 0x40, 0xab],
        Ok((&[E30, E100], 8)),
    ),
    // Two stacks in a row.
    (
        &[0x00, 0x06, 0x41, 0x40, 0x00, 0x01, 0xe1, 0x40],
        Ok((&[E100], 4)),
    ),
    // What follows is no entry.
    (
        &[0x00, 0x06, 0x41, 0x40, 0x00, 0x00, 0x31, 0x40],
        Ok((&[E100], 4)),
    ),
    (&[0x00, 0x01, 0x01, 0x40], Ok((&[E16], 4))),
    (&[0xff, 0xff, 0xf1, 0x40], Ok((&[MOST], 4))),
    (
        &[0xff, 0xff, 0xff, 0xfe],
        Ok((&[Entry { ttl: 254, ..ONES }], 4)),
    ),
    (&[0xff, 0xff, 0xff, 0xff], Ok((&[ONES], 4))),
    (&[0x00, 0x01, 0xe0, 0x40], Err(StackRefused::Cut(1))),
    (
        &[0x00, 0x01, 0xe0, 0x40, 0x00, 0x06, 0x41],
        Err(StackRefused::Cut(1)),
    ),
    (&[], Err(StackRefused::Cut(0))),
    (&[0x00, 0x06, 0x41], Err(StackRefused::Cut(0))),
    (&[0x00, 0x00, 0x31, 0x40], Err(StackRefused::Reserved(0, 3))),
    (
        &[0x00, 0x00, 0xf1, 0x40],
        Err(StackRefused::Reserved(0, 15)),
    ),
    (
        &[0x00, 0x01, 0xe0, 0x40, 0x00, 0x00, 0x00, 0x40],
        Err(StackRefused::Reserved(1, 0)),
    ),
];

fn is_read(alloc: Global, (bytes, wanted): &Read) -> bool {
    match (read_stack(alloc, bytes), wanted) {
        (Ok((entries, used)), Ok((wanted, count))) => entries.as_slice() == *wanted
            && used == *count,
        (Err(refused), Err(wanted)) => refused == *wanted,
        _ => false,
    }
}

#[test]
fn stacks_are_read(rt: HostRuntime) {
    for row in READ {
        assert!(rt; is_read(rt.alloc(), row), "{row:?}");
    }
}

// Labels are numbered through the lists of their names in `LABELS`.
const M30: (Label, Class) = (Label(0), Class::Mpls);

const M007: (Label, Class) = (Label(1), Class::Mpls);

const M15: (Label, Class) = (Label(2), Class::Mpls);

const M16: (Label, Class) = (Label(3), Class::Mpls);

const M1048575: (Label, Class) = (Label(4), Class::Mpls);

const M1048576: (Label, Class) = (Label(5), Class::Mpls);

// Over 2^32 by 16.
const M4294967312: (Label, Class) = (Label(6), Class::Mpls);

const S100: (Label, Class) = (Label(8), Class::Smpls);

const S: (Label, Class) = (Label(9), Class::Smpls);

const S010: (Label, Class) = (Label(10), Class::Smpls);

const X100: (Label, Class) = (Label(11), Class::Smpls);

const IP1: (Label, Class) = (Label(13), Class::Ip);

// A network of labels alone.
const LABELS: Sample = Sample {
    mpls: &[
        "30",
        "007",
        "15",
        "16",
        "1048575",
        "1048576",
        "4294967312",
        "s9",
    ],
    smpls: &["s100", "s", "s010", "x100", "12"],
    ip: &["ip1"],
    routers: &[],
    links: &[],
    rows: &[],
};

fn is_known(net: &Network, label: (Label, Class)) -> bool
    ensures { result ≡ label_known net.now.classes label }
{
    net.keeps();
    label.0.0 < net.counts().labels && net.class(label.0) == label.1
}

fn are_known(net: &Network, labels: &[(Label, Class)]) -> bool
    ensures { result ≡ list_all (λ l. label_known net.now.classes l) labels.now }
{
    labels.iter().all(|label| is_known(net, *label))
}

// A header, and its entries or its first label that has no value.
type Valued<'a> = (&'a [(Label, Class)], Result<&'a [Entry], (Label, Class)>);

const VALUED: &[Valued] = &[
    (&[M30, S100, IP1], Ok(&[E30, E100])),
    (&[IP1], Ok(&[])),
    (&[M16, M1048575, S100, IP1], Ok(&[E16, MOST, E100])),
    (&[M007, S100, IP1], Err(M007)),
    (&[M15, S100, IP1], Err(M15)),
    (&[M1048576, S100, IP1], Err(M1048576)),
    (&[M4294967312, S100, IP1], Err(M4294967312)),
    (&[M30, S, IP1], Err(S)),
    (&[S010, IP1], Err(S010)),
    (&[X100, IP1], Err(X100)),
    (&[M30, M007, M15, S, IP1], Err(M007)),
    (&[M30, M15, M007, S, IP1], Err(M15)),
];

fn has_values(alloc: Global, net: &Network, (labels, wanted): &Valued) -> Result<bool, Fail> {
    let header = Header::from_labels(alloc, labels)?;
    let same = are_known(net, labels)
        && match (entries_of(alloc, net, &header, 64), wanted) {
            (Ok(entries), Ok(wanted)) => entries.as_slice() == *wanted,
            (Err(NoValue::Label(label)), Err(wanted)) => label == wanted.0,
            _ => false,
        };
    drop(header);
    Ok(same)
}

fn have_values(rt: &impl Abort, alloc: Global, net: &Network) -> Result<(), Fail> {
    for row in VALUED {
        assert!(rt; has_values(alloc, net, row)?, "{row:?}");
    }
    Ok(())
}

#[test]
fn headers_have_entries(rt: HostRuntime) -> Result<(), Fail> {
    let net = network(rt.alloc(), &LABELS)?;
    let done = have_values(&rt, rt.alloc(), &net);
    drop(net);
    done
}

// Entries and a label under them, and their header, if all its labels are there.
type Named<'a> = (&'a [Entry], (Label, Class), Option<&'a [(Label, Class)]>);

const NAMED: &[Named] = &[
    (&[E30, E100], IP1, Some(&[M30, S100, IP1])),
    (&[], IP1, Some(&[IP1])),
    (
        &[E16, MOST, ONES, E100],
        IP1,
        Some(&[M16, M1048575, M1048575, S100, IP1]),
    ),
    // No mpls label 31, and no smpls label s101.
    (&[Entry { label: 31, ..E16 }, E100], IP1, None),
    (&[E30, Entry { label: 101, ..E16 }], IP1, None),
    // Each of them in the place of the other.
    (&[E100, E100], IP1, None),
    (&[E30], IP1, None),
    // s9 is an mpls label, and 12 an smpls label.
    (&[Entry { label: 9, ..E16 }], IP1, None),
    (&[Entry { label: 12, ..E16 }, E100], IP1, None),
    (&[E30, E100], M30, None),
    (&[E30, E100], S100, None),
    (&[], M30, None),
    (&[], (Label(14), Class::Ip), None),
];

fn is_header(header: &Header, labels: &[(Label, Class)]) -> bool {
    header.len() == labels.len()
        && labels
            .iter()
            .enumerate()
            .all(|(i, label)| header.at(i) == Some(*label))
}

fn has_names(alloc: Global, net: &Network, (entries, ip, wanted): &Named) -> Result<bool, Fail> {
    match (header_of(alloc, net, entries, ip.0)?, wanted) {
        (Some(header), Some(labels)) => {
            let same = is_header(&header, labels);
            drop(header);
            Ok(same)
        }
        (None, None) => Ok(true),
        _ => Ok(false),
    }
}

fn have_names(rt: &impl Abort, alloc: Global, net: &Network) -> Result<(), Fail> {
    for row in NAMED {
        assert!(rt; has_names(alloc, net, row)?, "{row:?}");
    }
    Ok(())
}

#[test]
fn entries_have_a_header(rt: HostRuntime) -> Result<(), Fail> {
    let net = network(rt.alloc(), &LABELS)?;
    let done = have_names(&rt, rt.alloc(), &net);
    drop(net);
    done
}
