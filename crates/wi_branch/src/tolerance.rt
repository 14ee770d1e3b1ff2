//! A number of failures comes with what shows that it is the least one: a tree at it, and one at one failure fewer.
use crate::refused::ExactRefused;
use wi_base::NoMemory;
use wi_cert::TreeCertificate;
use wi_trace::Answer;

/// How many failures it takes.
#[derive(Drop)]
pub enum Tolerance {
    /// It takes `k`. The exact answer there is a yes, and `yes` shows it; `below` shows the no at one failure fewer, and is there
    /// but for a `k` of 0.
    At {
        k: u32,
        answer: Answer,
        yes: TreeCertificate,
        below: Option<TreeCertificate>,
    },
    /// It takes more than were asked for, or no number is enough. `no` shows the no at the most that were asked for.
    NoneUpTo {
        no: TreeCertificate,
    },
}

/// Why it isn't known how many failures it takes.
#[derive(Drop)]
pub enum TolerateRefused {
    /// There is no exact answer at so many failures, for this reason; fewer don't suffice.
    Exact(u32, ExactRefused),
    /// Memory ran out.
    Memory,
}

impl From<NoMemory> for TolerateRefused {
    ghost use Rattle.std.specs.Prelude.{◌≡◌};
    ghost use Rattle.wi_branch.specs.declared.tolerance.TolerateRefused.{TolerateRefused};

    ghost from_gives = { λ _ r. r ≡ TolerateRefused.Memory };

    fn from(_error: NoMemory) -> Self {
        TolerateRefused::Memory
    }
}
