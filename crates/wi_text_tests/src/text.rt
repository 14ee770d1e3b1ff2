//! Texts by example.
use std::process::Abort;
use std::test::Fail;
use wi_text::{Text, is_letter, is_number, is_plain, is_plain_name, is_space};

// A character, and whether it is a space, a letter, and plain.
const CHARACTERS: &[(char, bool, bool, bool)] = &[
    (' ', true, false, false),
    ('\t', true, false, false),
    ('\r', true, false, false),
    ('\n', true, false, false),
    ('\u{b}', false, false, false),
    ('\u{a0}', false, false, false),
    ('/', false, false, false),
    ('0', false, false, true),
    ('9', false, false, true),
    (':', false, false, false),
    ('@', false, false, false),
    ('A', false, true, true),
    ('Z', false, true, true),
    ('[', false, false, false),
    ('_', false, false, true),
    ('`', false, false, false),
    ('a', false, true, true),
    ('z', false, true, true),
    ('{', false, false, false),
    ('é', false, false, false),
];

#[test]
fn characters_have_kinds(rt: HostRuntime) {
    for (character, space, letter, plain) in CHARACTERS {
        let kinds = (
            is_space(*character),
            is_letter(*character),
            is_plain(*character),
        );
        assert_eq!(rt; kinds, (*space, *letter, *plain));
    }
}

const NAMES: &[&str] = &["core_1", "core-1", "", "é"];

fn put_pieces(text: &mut Text) -> Result<(), Fail> {
    text.put("a = ")?;
    text.put_number(u128::MAX)?;
    for name in NAMES {
        text.put(" ")?;
        text.put_name(name)?;
    }
    text.put(" ")?;
    text.put_quoted("ip")?;
    Ok(())
}

#[test]
fn pieces_make_a_text(rt: HostRuntime) -> Result<(), Fail> {
    let mut text = Text::new(rt.alloc());
    put_pieces(&mut text)?;
    let written = "a = 340282366920938463463374607431768211455 core_1 \"core-1\" \"\" \"é\" \"ip\"";
    assert!(rt; text.as_bytes() == written.as_bytes());
    assert!(rt; text.into_bytes().as_slice() == written.as_bytes());
    assert!(rt; is_plain_name("core_1") && !is_plain_name(""));
    Ok(())
}

// Texts, and whether each is a number.
const NUMBERS: &[(&str, bool)] = &[
    ("0", true),
    ("7", true),
    ("10", true),
    ("65536", true),
    ("340282366920938463463374607431768211456", true),
    ("", false),
    ("00", false),
    ("01", false),
    ("1_", false),
    ("-1", false),
    ("+1", false),
    ("1 ", false),
    ("é", false),
];

#[test]
fn numbers_have_no_leading_zero(rt: HostRuntime) {
    for (text, is_one) in NUMBERS {
        assert_eq!(rt; is_number(text), *is_one);
    }
}
