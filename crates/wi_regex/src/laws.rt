//! A star is defined by a list of words, none of them empty, so that the definition goes by the expression alone and nothing
//! has to decrease besides. That it splits off a front is a law, then. It runs no code.
ghost use Rattle.std.specs.Prelude.{◌≡◌, ℕ, List, [], ◌↔◌, ◌⊎◌};
ghost use Rattle.wi_regex.specs.declared.regex.Regex.{Regex};
ghost use Rattle.wi_regex.specs.Matching.{Matches, IsRepeated, SplitsOff};

use crate::atom::Atom;

/// A star matches the empty word, and each word that splits into a front that isn't empty and that the body matches,
/// and a rest that the star matches.
pub fn star_splits_off<A: Atom>()
    ensures { (r : Regex A) (w : List ℕ) → IsRepeated (Matches A.set r) w ↔ ((w ≡ []) ⊎ SplitsOff (Matches A.set r) w) }
{}
