//! Whoever lets a table end at a lower weight than it did needs no search anew. The law runs no code.
ghost use Rattle.std.specs.Prelude.{ℕ, List, Option, IfSome};
ghost use Rattle.wi_weight.specs.Weights.{IsWeight, AtMost};
ghost use Rattle.wi_pds.specs.declared.rule.Rule.{Rule};
ghost use Rattle.wi_pds.specs.Closed.{Summary, AreClosedRows};
ghost use Rattle.wi_saturate.specs.declared.row.Row.{Row};
ghost use Rattle.wi_saturate.specs.Rows.{summaries};
ghost use Rattle.wi_saturate.specs.LeastTables.{IsLeastTable, AreRowsBelow, bound_of};

use wi_weight::Domain;

/// The rows of a table below a weight are closed under it, where it is no more than the weight that the table goes up to.
pub fn rows_below_a_weight_are_closed<W: Domain>()
    ensures { (rules : ℕ → ℕ → List (Rule W)) (heads : List (ℕ × ℕ)) (goal : ℕ × ℕ × ℕ) (cut : Option (List ℕ)) (rows : List (Row W)) (best : Option (List ℕ)) (w : List ℕ) (kept : List Summary) →
        IsLeastTable W.scale W.components rules heads goal cut rows best →
        IsWeight W.scale w → IfSome (bound_of best cut) (λ b. AtMost W.scale w b) →
        AreRowsBelow W.scale w (summaries W.components rows) kept →
        AreClosedRows W.scale W.components rules heads kept (Some w) }
{}
