//! What the tests share.
use std::fmt::Debug;
use std::process::Abort;

// One function for all comparisons: a test that asserts by itself takes longer to prove.
pub(crate) fn equal<T: PartialEq + Debug + Drop>(rt: &impl Abort, found: T, wanted: T) {
    assert_eq!(rt; found, wanted);
}
