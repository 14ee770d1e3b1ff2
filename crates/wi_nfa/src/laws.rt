//! States have numbers that others see, so a definition says which automaton an expression has, and that it accepts what the
//! expression matches is a law. It holds for every automaton of that definition, whoever builds it. What is
//! said by the limit's name holds with any number, so another law has the number. The functions run no code.
ghost use Rattle.std.specs.Prelude.{◌≡◌, ◌≤◌, ℕ, List, ◌↔◌, Contains};
ghost use Rattle.std.specs.List.Sorted.{IsStrictlyIncreasing};
ghost use Rattle.wi_regex.specs.declared.regex.Regex.{Regex};
ghost use Rattle.wi_regex.specs.Matching.{Matches, position_count};
ghost use Rattle.wi_nfa.specs.declared.nfa.TheConstants.{POSITION_LIMIT};
ghost use Rattle.wi_nfa.specs.Automata.{Automaton, IsPositionAutomaton, AcceptsFrom};

use wi_regex::Atom;

/// A position automaton accepts exactly what its expression matches.
pub fn accepts_what_matches<A: Atom>()
    ensures { (r : Regex A) (m : Automaton) (w : List ℕ) → IsPositionAutomaton A.set r m → AcceptsFrom m 0 w ↔ Matches A.set r w }
{}

/// Nothing leads to the start, and what a state leads to is a position of the expression.
pub fn start_is_never_entered<A: Atom>()
    ensures start { (r : Regex A) (m : Automaton) (p : ℕ) → IsPositionAutomaton A.set r m → Contains (m.next p) 0 → ⊥ }
    ensures positions { (r : Regex A) (m : Automaton) (p q : ℕ) → IsPositionAutomaton A.set r m → Contains (m.next p) q → (1 ≤ q) × (q ≤ position_count r) }
{}

/// A set has one list in rising order: which list is given is settled by what it lists.
pub fn rising_lists_are_equal()
    ensures { (xs ys : List ℕ) → IsStrictlyIncreasing xs → IsStrictlyIncreasing ys → ((t : ℕ) → Contains xs t ↔ Contains ys t) → xs ≡ ys }
{}

/// An expression has so many positions at most.
pub fn limits_have_these_numbers()
    ensures { POSITION_LIMIT ≡ 512 }
{}
