//! Where a weight doesn't fit, nothing is known of the least run, so an overflow is told before a run that is too long. A
//! refusal is `Copy` and takes no memory.
use wi_base::NoMemory;
use wi_quantity::Weight;
use wi_saturate::Overflow;

/// Why nothing is known of the runs below a cut; without a cut, why a problem isn't decided.
#[derive(Clone, Copy, Debug, PartialEq, Eq)]
pub enum SearchRefused {
    /// A summary below the cut that is no heavier than any run has a component over 2^64 - 1: the lightest such summary, from spot to
    /// spot.
    Overflow(Overflow<Weight>),
    /// The least run's effort, which is over 4,096.
    TooLong(u64),
    /// Memory ran out.
    Memory,
}

impl From<NoMemory> for SearchRefused {
    ghost use Rattle.std.specs.Prelude.{◌≡◌};
    ghost use Rattle.wi_decide.specs.declared.refused.SearchRefused.{SearchRefused};

    ghost from_gives = { λ _ r. r ≡ SearchRefused.Memory };

    fn from(_error: NoMemory) -> Self {
        SearchRefused::Memory
    }
}
