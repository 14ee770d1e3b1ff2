//! Which group of a table is used is a question to the groups and the failed links alone, so that whoever has them can ask:
//! it costs a look-up in the set for each member up to the first that is left.
ghost use Rattle.std.specs.Prelude.{◌≡◌};
ghost use Rattle.wi_net.specs.Net.{is_active, first_active};

use crate::fails::FailSet;
use crate::parts::Group;

/// The first group that has a link outside the set. It takes no memory.
pub fn first_active(groups: &[Group], fails: &FailSet) -> Option<usize>
    ensures { result ≡ first_active fails.now groups.now }
{
    groups.iter().position(|group| is_active(group, fails))
}

// Whether a group has a link outside the set.
fn is_active(group: &Group, fails: &FailSet) -> bool
    ensures { result ≡ is_active fails.now group.now }
{
    group
        .as_slice()
        .iter()
        .any(|member| !fails.contains(member.link))
}
