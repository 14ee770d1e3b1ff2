//! The law is over rows that come from anywhere, so that nobody has to trust the search that made them: whether they are closed
//! can be looked at row by row. It runs no code.
ghost use Rattle.std.specs.Prelude.{ℕ, List, Option};
ghost use Rattle.wi_pds.specs.declared.rule.Rule.{Rule};
ghost use Rattle.wi_pds.specs.Closed.{AreClosed, AreClosedRows, BoundsRuns, Summary};

use wi_weight::Domain;

/// Closed rows bound every run: each run that pops the symbol of a listed head, and weighs less than the bound if there is
/// one, has a row of at most its weight; and whatever may stand below that symbol makes a listed head with the run's last state.
/// This is a law, for rows that come from anywhere; the function does nothing.
pub fn rows_bound_runs<W: Domain>()
    ensures { (rules : ℕ → ℕ → List (Rule W)) (start : ℕ × ℕ) (heads pairs : List (ℕ × ℕ)) (rows : List Summary) (bound : Option (List ℕ)) →
        AreClosed rules start heads pairs →
        AreClosedRows W.scale W.components rules heads rows bound →
        BoundsRuns W.scale W.components rules heads pairs rows bound }
{}
