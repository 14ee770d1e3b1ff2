//! Of an overflow the terms that were asked for and the effort are printed, so one of these has to be too large: a law says
//! so. What is said by the limit's name holds with any number, so another has the number. They run no code.
ghost use Rattle.std.specs.Prelude.{◌≡◌, ◌^◌, ◌++◌, ◌∷◌, [], ℕ, List, length, take, Option};
ghost use Rattle.wi_weight.specs.Weights.{EachBelow};
ghost use Rattle.wi_weight.specs.declared.kinds.Pair.{Pair};
ghost use Rattle.wi_weight.specs.declared.kinds.Terms.{Terms};
ghost use Rattle.wi_weight.specs.declared.kinds.Effort.{Effort};
ghost use Rattle.wi_quantity.specs.Weighing.{components};
ghost use Rattle.wi_build.specs.Problems.{Problem, IsProblem};
ghost use Rattle.wi_decide.specs.declared.searching.TheConstants.{EFFORT_LIMIT};
ghost use Rattle.wi_decide.specs.Searches.{IsOverflowingBelow};

/// A summary that doesn't fit, below whatever cut, has a component of over 64 bits among those that the vector has terms for, or
/// its effort is one: the components past the vector's terms are 0.
pub fn overflows_show()
    ensures { (problem : Problem) (cut : Option (List ℕ)) (head : ℕ × ℕ) (target : ℕ) (w : Pair Terms Effort) → IsProblem problem → IsOverflowingBelow problem cut head target (components w) → EachBelow (2 ^ 64) (take (length problem.vector) (components w) ++ w.second.count ∷ []) → ⊥ }
{}

/// A run that is shown has so many rules at most.
pub fn limits_have_these_numbers()
    ensures { EFFORT_LIMIT ≡ 4096 }
{}
