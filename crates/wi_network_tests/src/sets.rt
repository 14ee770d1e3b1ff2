//! Sets of links, bounds and names by example.
use crate::common::{equal, set, set_is};
use std::process::Abort;
use std::test::Fail;
use wi_net::{Bounds, FailSet, LinkId, is_name};

// Links that are added in turn, and whether each is new.
const ADDED: &[(u32, bool)] = &[
    (5, true),
    (1, true),
    (9, true),
    (5, false),
    (3, true),
    (1, false),
];

// Links that are taken out in turn, and whether each was there.
const REMOVED: &[(u32, bool)] = &[(5, true), (5, false), (0, false), (9, true)];

fn inserted(rt: &impl Abort, set: &mut FailSet) -> Result<(), Fail> {
    for (link, added) in ADDED {
        equal(rt, set.insert(LinkId(*link))?, *added);
    }
    Ok(())
}

fn removed(rt: &impl Abort, set: &mut FailSet) {
    for (link, there) in REMOVED {
        equal(rt, set.contains(LinkId(*link)), *there);
        equal(rt, set.remove(LinkId(*link)), *there);
    }
}

#[test]
fn sets_are_listed_in_rising_order(rt: HostRuntime) -> Result<(), Fail> {
    let mut fails = FailSet::new(rt.alloc());
    set_is(&rt, &fails, &[]);
    inserted(&rt, &mut fails)?;
    let twin = fails.twin()?;
    removed(&rt, &mut fails);
    set_is(&rt, &fails, &[1, 3]);
    set_is(&rt, &twin, &[1, 3, 5, 9]);
    Ok(())
}

fn bounds_are(rt: &impl Abort, bounds: &Bounds, k: u32, down: &[u32], up: &[u32]) {
    equal(rt, bounds.k, k);
    set_is(rt, &bounds.down, down);
    set_is(rt, &bounds.up, up);
}

#[test]
fn twins_of_bounds_are_equal(rt: HostRuntime) -> Result<(), Fail> {
    let bounds = Bounds {
        k: 2,
        down: set(rt.alloc(), &[1, 4])?,
        up: set(rt.alloc(), &[0])?,
    };
    bounds_are(&rt, &bounds.twin()?, 2, &[1, 4], &[0]);
    Ok(())
}

// Texts, and whether each is a name.
const NAMES: &[(&str, bool)] = &[
    ("a", true),
    (" !#~\u{80}é", true),
    ("32 bytes .......................", true),
    ("", false),
    ("33 bytes ........................", false),
    ("a\"", false),
    ("\u{1f}", false),
    ("a\u{7f}b", false),
];

#[test]
fn names_have_1_to_32_bytes_of_most_kinds(rt: HostRuntime) {
    for (name, good) in NAMES {
        equal(&rt, (*name, is_name(name)), (*name, *good));
    }
}
