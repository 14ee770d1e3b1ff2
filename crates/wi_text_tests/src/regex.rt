//! Expressions by example.
use crate::tree::tree;
use std::alloc::Global;
use std::process::Abort;
use std::test::Fail;

// An expression, whether it matches the empty word, and how many positions it has.
type Case<'a> = (&'a [u8], bool, usize);

const CASES: &[Case] = &[
    (b"0", false, 1),
    (b"0*", true, 1),
    (b"0+", false, 1),
    (b"0?", true, 1),
    (b"0?+", true, 1),
    (b"0*+", true, 1),
    (b"01&", false, 2),
    (b"0*1&", false, 2),
    (b"01?&", false, 2),
    (b"0*1?&", true, 2),
    (b"01|", false, 2),
    (b"0*1|", true, 2),
    (b"01?|", true, 2),
    (b"0?1*&2+|", true, 3),
    (b"01|*2&+", false, 3),
];

fn tells(rt: &impl Abort, alloc: Global, case: &Case) -> Result<(), Fail> {
    let (signs, nullable, positions) = case;
    let regex = tree(alloc, &[(signs, 1)])?;
    let told = (regex.nullable(), regex.positions());
    drop(regex);
    assert_eq!(rt; told, (*nullable, *positions));
    Ok(())
}

#[test]
fn signs_tell_of_the_empty_word_and_of_positions(rt: HostRuntime) -> Result<(), Fail> {
    for case in CASES {
        tells(&rt, rt.alloc(), case)?;
    }
    Ok(())
}
