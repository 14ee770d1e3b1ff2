//! A value means a list of whole numbers of any size, so that one definition of sum and one of order serve every kind of
//! weight. Components have 128 bits, of which a weight that fits uses 64: sums of a few such weights are exact without a test
//! at each addition, for twice the bytes.
ghost use Rattle.std.specs.Prelude.{◌≡◌, ◌^◌, ◌↔◌, IsTrue, List, ℕ};
ghost use Rattle.wi_weight.specs.Weights.{Scale, WeightLaws, IsWeight, EachBelow, plus, zero_weight};

use std::cmp::Ordering;

/// A kind of weight. A value means the list of its components, which are numbers of 128 bits here; the laws speak of lists
/// with components of any size. Smaller is better. No call takes memory.
pub trait Domain: Copy {
    /// How many components there are, and their order.
    ghost scale: { Scale };

    /// The list that a value means.
    ghost components: { Self → List ℕ };

    /// The weight of doing nothing: each component is 0.
    fn unit() -> Self
        ensures { components result ≡ zero_weight scale };

    /// The sum, component by component, of what is done first and what is done next.
    fn extend(self, next: Self) -> Self
        requires first { EachBelow (2 ^ 120) (components self) }
        requires second { EachBelow (2 ^ 120) (components next) }
        ensures { components result ≡ plus (components self) (components next) };

    /// How this weight compares with the other.
    fn compare(&self, other: &Self) -> Ordering
        ensures { result ≡ scale.order (components self.now) (components other.now) };

    /// Whether each component is at most 2^64 - 1.
    fn fits(&self) -> bool
        ensures { IsTrue result ↔ EachBelow (2 ^ 64) (components self.now) };

    /// Each value means a weight of the scale.
    ghost admitted: { (w : Self) → IsWeight scale (components w) };

    /// Values that mean the same list are the same.
    ghost same_value: { (v w : Self) → components v ≡ components w → v ≡ w };

    /// The weights of the scale keep the laws.
    ghost laws: { WeightLaws scale };
}
