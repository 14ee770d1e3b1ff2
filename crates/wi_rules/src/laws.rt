//! The rules are over any automata, weights and bounds, so what they mean is shown once, whoever makes them and however they
//! are listed. Each law holds for every encoding, and runs no code.
ghost use Rattle.std.specs.Prelude.{◌≡◌, ◌∷◌, [], ℕ, List, Some};
ghost use Rattle.wi_pds.specs.declared.rule.Rule.{Rule};
ghost use Rattle.wi_pds.specs.Runs.{Pops, PopRun, run_weight};
ghost use Rattle.wi_rules.specs.declared.spot.Spot.{Spot};
ghost use Rattle.wi_rules.specs.declared.spot.Origin.{Origin};
ghost use Rattle.wi_rules.specs.Goals.{HasGoalRun, IsGoalRun, IsMatch, rules_weight, origins_of, origins_for};
ghost use Rattle.wi_rules.specs.Numbers.{IsSystemOf, origins_by, Fits, Layout, number, spot_of};
ghost use Rattle.wi_rules.specs.Rules.{IsEncoding, SpotRule, Encoding};
ghost use Rattle.wi_world.specs.declared.run.Run.{Run};

use wi_weight::Domain;

/// The rules have a goal run of a weight exactly where there is a matching moving run of that weight.
pub fn goal_runs_are_moving_runs()
    ensures forwards { (s : Encoding) (w : List ℕ) (run : Run) → IsEncoding s → IsMatch s w run → HasGoalRun s w }
    ensures backwards { (s : Encoding) (w : List ℕ) → IsEncoding s → HasGoalRun s w → (run : Run) × IsMatch s w run }
{}

/// The rules of a goal run stand, in their order, for the labels of a first header from the bottom, a first link, steps and an end:
/// those of a matching moving run of its weight. Each matching moving run is told so.
pub fn rules_tell_runs()
    ensures of_rules { (s : Encoding) (rs : List SpotRule) → IsEncoding s → IsGoalRun s rs → (run : Run) × IsMatch s (rules_weight s rs) run × (origins_of rs ≡ origins_for run) }
    ensures of_run { (s : Encoding) (w : List ℕ) (run : Run) → IsEncoding s → IsMatch s w run → (rs : List SpotRule) × IsGoalRun s rs × (rules_weight s rs ≡ w) × (origins_of rs ≡ origins_for run) }
{}

/// The same over numbers of spots, for every pushdown system that has these rules: a goal run leads from state 0, with the
/// symbol 0 alone, to state 1.
pub fn goals_are_matches<W: Domain>()
    ensures forwards { (s : Encoding) (o : Rule W → Origin) (rules : ℕ → ℕ → List (Rule W)) (w : List ℕ) (run : Run) → IsSystemOf s W.scale W.components o rules → IsMatch s w run → Pops W.scale W.components rules 0 0 1 w }
    ensures backwards { (s : Encoding) (o : Rule W → Origin) (rules : ℕ → ℕ → List (Rule W)) (w : List ℕ) → IsSystemOf s W.scale W.components o rules → Pops W.scale W.components rules 0 0 1 w → (run : Run) × IsMatch s w run }
    ensures origins { (s : Encoding) (o : Rule W → Origin) (rules : ℕ → ℕ → List (Rule W)) (rs : List (Rule W)) → IsSystemOf s W.scale W.components o rules → PopRun rules 0 0 1 rs → (run : Run) × IsMatch s (run_weight W.scale W.components rs) run × (origins_by o rs ≡ origins_for run) }
{}

/// A spot whose parts are there is told by its number, and each number that has a spot is the number of that one.
pub fn spots_have_numbers()
    ensures number { (y : Layout) (p : Spot) → Fits y p → spot_of y (number y p) ≡ Some p }
    ensures spot { (y : Layout) (n : ℕ) (p : Spot) → spot_of y n ≡ Some p → (number y p ≡ n) × Fits y p }
{}
