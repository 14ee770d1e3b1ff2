//! What tests of several libraries compare.
use std::process::Abort;
use wi_world::Step;

/// The steps have these groups and members.
pub fn steps_are(rt: &impl Abort, steps: &[Step], expected: &[(u32, u32)]) {
    assert_eq!(rt; steps.len(), expected.len());
    for (step, (group, member)) in steps.iter().zip(expected) {
        assert_eq!(rt; (step.group, step.member), (*group, *member));
    }
}
