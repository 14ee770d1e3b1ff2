//! Each rule has effort 1, whatever else it weighs: so the effort of a run is the number of its rules, and of runs that weigh
//! the same otherwise one with the fewest rules is least.
ghost use Rattle.std.specs.Prelude.{◌≡◌, ◌++◌, ◌∷◌, [], replicate, take};
ghost use Rattle.wi_quantity.specs.Weighing.{components};
ghost use Rattle.wi_build.specs.Systems.{weight};

use wi_quantity::Weight;
use wi_weight::{Effort, Pair, Terms};

// What each rule takes.
const ONE: Effort = Effort { count: 1 };

/// A weight with effort 1 in the place of its own.
pub(crate) fn counted(share: Weight) -> Weight
    ensures { result ≡ weight (take 5 (components share) ++ 1 ∷ []) }
{
    Pair {
        first: share.first,
        second: ONE,
    }
}

/// Effort 1 and nothing else.
pub(crate) fn effort() -> Weight
    ensures { result ≡ weight (replicate 5 0 ++ 1 ∷ []) }
{
    Pair {
        first: Terms::of([0, 0, 0, 0, 0]),
        second: ONE,
    }
}
