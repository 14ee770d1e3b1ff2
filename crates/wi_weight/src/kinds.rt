//! `Terms` has five fields and no array, since arrays that mean the same list need not be the same value, and a search may keep
//! one weight for many rules that have it. It takes five numbers even where fewer are asked for. `Pair` has its laws from those
//! of its parts, so that kinds can be put together.
ghost use Rattle.std.specs.Prelude.{◌≡◌, ◌^◌, ◌<◌, ◌↔◌, IsTrue, [], ◌∷◌, slice_index};

use crate::domain::Domain;
use std::cmp::Ordering;

// Whether a component is at most 2^64 - 1.
fn has_64_bits(component: u128) -> bool
    ensures { IsTrue result ↔ (component < 2 ^ 64) }
{
    component < 1 << 64
}

/// No component: there is one weight. It asks whether there is a run, and nothing more.
#[derive(Clone, Copy, Debug, PartialEq, Eq)]
pub struct Reach;

impl Domain for Reach {
    ghost use Rattle.std.specs.Prelude.{[], refl};
    ghost use Rattle.wi_weight.specs.Kinds.{reach_scale};
    ghost use Rattle.wi_weight.specs.lemmas.LexLaws.{lex_laws};

    ghost scale = { reach_scale };

    ghost components = { λ _. [] };

    ghost admitted = { λ _. refl };

    ghost same_value = { λ v w same. refl };

    ghost laws = { lex_laws 0 };

    fn unit() -> Reach {
        Reach
    }

    fn extend(self, _next: Reach) -> Reach {
        Reach
    }

    fn compare(&self, _other: &Reach) -> Ordering {
        Ordering::Equal
    }

    fn fits(&self) -> bool {
        true
    }
}

/// One component, such as the number of rules of a run.
#[derive(Clone, Copy, Debug, PartialEq, Eq)]
pub struct Effort {
    pub count: u128,
}

impl Domain for Effort {
    ghost use Rattle.std.specs.Prelude.{[], ◌∷◌, refl};
    ghost use Rattle.wi_weight.specs.Kinds.{effort_scale};
    ghost use Rattle.wi_weight.specs.lemmas.LexLaws.{lex_laws};
    ghost use Rattle.wi_weight.specs.lemmas.Same.{same_effort};

    ghost scale = { effort_scale };

    ghost components = { λ e. e.count ∷ [] };

    ghost admitted = { λ _. refl };

    ghost same_value = { same_effort };

    ghost laws = { lex_laws 1 };

    fn unit() -> Effort {
        Effort { count: 0 }
    }

    fn extend(self, next: Effort) -> Effort {
        Effort {
            count: self.count + next.count,
        }
    }

    fn compare(&self, other: &Effort) -> Ordering {
        self.count.cmp(&other.count)
    }

    fn fits(&self) -> bool {
        has_64_bits(self.count)
    }
}

/// Five components, of which the first that differs decides. Whoever needs fewer leaves the last ones 0.
#[derive(Clone, Copy, Debug, PartialEq, Eq)]
pub struct Terms {
    pub first: u128,
    pub second: u128,
    pub third: u128,
    pub fourth: u128,
    pub fifth: u128,
}

impl Terms {
    /// These components, in order.
    pub fn of(parts: [u128; 5]) -> Self
        ensures { result ≡ record { first = slice_index parts 0; second = slice_index parts 1; third = slice_index parts 2; fourth = slice_index parts 3; fifth = slice_index parts 4 } }
    {
        let [first, second, third, fourth, fifth] = parts;
        Terms {
            first,
            second,
            third,
            fourth,
            fifth,
        }
    }

    /// The components, in order.
    pub fn parts(&self) -> [u128; 5]
        ensures { result ≡ self.now.first ∷ self.now.second ∷ self.now.third ∷ self.now.fourth ∷ self.now.fifth ∷ [] }
    {
        [self.first, self.second, self.third, self.fourth, self.fifth]
    }
}

impl Domain for Terms {
    ghost use Rattle.std.specs.Prelude.{[], ◌∷◌, refl};
    ghost use Rattle.wi_weight.specs.Kinds.{terms_scale};
    ghost use Rattle.wi_weight.specs.lemmas.LexLaws.{lex_laws};
    ghost use Rattle.wi_weight.specs.lemmas.Same.{same_terms};

    ghost scale = { terms_scale };

    ghost components = { λ t. t.first ∷ t.second ∷ t.third ∷ t.fourth ∷ t.fifth ∷ [] };

    ghost admitted = { λ _. refl };

    ghost same_value = { same_terms };

    ghost laws = { lex_laws 5 };

    fn unit() -> Terms {
        Terms {
            first: 0,
            second: 0,
            third: 0,
            fourth: 0,
            fifth: 0,
        }
    }

    fn extend(self, next: Terms) -> Terms {
        Terms {
            first: self.first + next.first,
            second: self.second + next.second,
            third: self.third + next.third,
            fourth: self.fourth + next.fourth,
            fifth: self.fifth + next.fifth,
        }
    }

    fn compare(&self, other: &Terms) -> Ordering {
        self.parts().cmp(&other.parts())
    }

    fn fits(&self) -> bool {
        has_64_bits(self.first)
            && has_64_bits(self.second)
            && has_64_bits(self.third)
            && has_64_bits(self.fourth)
            && has_64_bits(self.fifth)
    }
}

/// Two weights side by side: the components of the first, then those of the second. The first part decides first.
#[derive(Clone, Copy, Debug, PartialEq, Eq)]
pub struct Pair<A, B> {
    pub first: A,
    pub second: B,
}

impl<A: Domain, B: Domain> Domain for Pair<A, B> {
    ghost use Rattle.std.specs.Prelude.{◌++◌};
    ghost use Rattle.wi_weight.specs.Kinds.{pair_scale};
    ghost use Rattle.wi_weight.specs.lemmas.PairLaws.{pair_laws, pair_admitted, same_parts};
    ghost use Rattle.wi_weight.specs.lemmas.Same.{same_pair};

    ghost scale = { pair_scale A.scale B.scale };

    ghost components = { λ p. A.components p.first ++ B.components p.second };

    ghost admitted = { λ p. pair_admitted A.scale B.scale (A.components p.first) (B.components p.second) (A.admitted p.first) (B.admitted p.second) };

    ghost same_value = { λ v w same.
        let parts = same_parts A.scale (A.components v.first) (A.components w.first) (B.components v.second) (B.components w.second) (A.admitted v.first) (A.admitted w.first) same in
        same_pair v w (A.same_value v.first w.first parts.0) (B.same_value v.second w.second parts.1) };

    ghost laws = { pair_laws A.scale B.scale A.laws B.laws };

    fn unit() -> Pair<A, B> {
        Pair {
            first: A::unit(),
            second: B::unit(),
        }
    }

    fn extend(self, next: Pair<A, B>) -> Pair<A, B> {
        Pair {
            first: self.first.extend(next.first),
            second: self.second.extend(next.second),
        }
    }

    fn compare(&self, other: &Pair<A, B>) -> Ordering {
        match self.first.compare(&other.first) {
            Ordering::Equal => self.second.compare(&other.second),
            decided => decided,
        }
    }

    fn fits(&self) -> bool {
        self.first.fits() && self.second.fits()
    }
}
