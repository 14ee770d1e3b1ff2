//! `wi_rules` speaks of any automata and weights, and of no code. These laws say that a problem has such, that the rules made
//! here are theirs, and so that goal runs answer the problem, whoever searches for them. Each runs no code.
ghost use Rattle.std.specs.Prelude.{◌≡◌, ◌↔◌, ◌<◌, ◌^◌, ℕ, List, true, length, Contains};
ghost use Rattle.wi_weight.specs.Weights.{EachBelow};
ghost use Rattle.wi_weight.specs.declared.kinds.Pair.{Pair};
ghost use Rattle.wi_weight.specs.declared.kinds.Terms.{Terms};
ghost use Rattle.wi_weight.specs.declared.kinds.Effort.{Effort};
ghost use Rattle.wi_pds.specs.declared.rule.Rule.{Rule};
ghost use Rattle.wi_net.specs.Net.{Net};
ghost use Rattle.wi_query.specs.declared.query.Query.{Query};
ghost use Rattle.wi_query.specs.Meaning.{IsQuery, HasAutomata};
ghost use Rattle.wi_quantity.specs.declared.vector.Part.{Part};
ghost use Rattle.wi_quantity.specs.Vectors.{is_vector};
ghost use Rattle.wi_quantity.specs.Weighing.{components};
ghost use Rattle.wi_pds.specs.Rules.{rules_at};
ghost use Rattle.wi_pds.specs.Runs.{Pops, PopRun, run_weight};
ghost use Rattle.wi_world.specs.declared.run.Run.{Run};
ghost use Rattle.wi_world.specs.Holds.{NoTrace, NoneMoving};
ghost use Rattle.wi_world.specs.Survival.{Survives, SurvivesMoving};
ghost use Rattle.wi_rules.specs.declared.spot.Origin.{Origin};
ghost use Rattle.wi_rules.specs.Rules.{IsEncoding};
ghost use Rattle.wi_rules.specs.Goals.{origins_for};
ghost use Rattle.wi_rules.specs.Numbers.{NumberedRule, AreRulesOf, IsSystemOf, origins_by, rules_at_number};
ghost use Rattle.wi_build.specs.Tags.{origin_of};
ghost use Rattle.wi_build.specs.Problems.{Problem, IsProblem, IsAnswering, asks, problem_of};
ghost use Rattle.wi_build.specs.Encodings.{encoding_of};
ghost use Rattle.wi_build.specs.Systems.{scale, rules, all_rules};

use wi_weight::Domain;

/// The automata of a query, the weights of a vector and the bounds are such as rules are made of.
pub fn problems_have_encodings()
    ensures { (problem : Problem) → IsProblem problem → IsEncoding (encoding_of problem) }
{}

/// A system that has these rules has a goal run of a weight exactly where a run of the moving world within the bounds matches
/// the query and has that weight; and what the rules of a goal run stand for, in their order, tells such a run. The weights
/// are those of five terms and an effort.
pub fn goal_runs_are_matching_runs<W: Domain>()
    ensures forwards { (problem : Problem) (o : Rule W → Origin) (rules : ℕ → ℕ → List (Rule W)) (w : List ℕ) (run : Run) → IsProblem problem → IsSystemOf (encoding_of problem) W.scale W.components o rules → IsAnswering problem w run → Pops W.scale W.components rules 0 0 1 w }
    ensures backwards { (problem : Problem) (o : Rule W → Origin) (rules : ℕ → ℕ → List (Rule W)) (w : List ℕ) → IsProblem problem → IsSystemOf (encoding_of problem) W.scale W.components o rules → Pops W.scale W.components rules 0 0 1 w → (run : Run) × IsAnswering problem w run }
    ensures origins { (problem : Problem) (o : Rule W → Origin) (rules : ℕ → ℕ → List (Rule W)) (rs : List (Rule W)) → IsProblem problem → IsSystemOf (encoding_of problem) W.scale W.components o rules → PopRun rules 0 0 1 rs → (run : Run) × IsAnswering problem (run_weight W.scale W.components rs) run × (origins_by o rs ≡ origins_for run) }
{}

/// The rules of a head are fewer than 2^32, and each component of what a rule weighs is below 2^64.
pub fn rules_are_few_and_fit()
    ensures few { (problem : Problem) (n g : ℕ) → IsProblem problem → length (rules_at_number (encoding_of problem) n g) < 2 ^ 32 }
    ensures fit { (problem : Problem) (n g : ℕ) (rule : NumberedRule) → IsProblem problem → is_vector problem.vector ≡ true → Contains (rules_at_number (encoding_of problem) n g) rule → EachBelow (2 ^ 64) rule.weight }
{}

/// The rules on demand are those of the problem; their tags say what they stand for.
pub fn systems_have_the_rules()
    ensures { (problem : Problem) → IsProblem problem → AreRulesOf (encoding_of problem) components (λ rule. origin_of rule.tag) (rules problem) }
{}

/// The listed rules are the same, head by head.
pub fn lists_have_the_rules()
    ensures heads { (problem : Problem) (n g : ℕ) → rules_at (all_rules (encoding_of problem)) n g ≡ rules problem n g }
    ensures rules { (problem : Problem) → IsProblem problem → AreRulesOf (encoding_of problem) components (λ rule. origin_of rule.tag) (rules_at (all_rules (encoding_of problem))) }
{}

/// The rules have a goal run of a weight exactly where a run of the moving world within the bounds matches the query and has
/// that weight; and what the rules of a goal run stand for, in their order, tells such a run. The listed rules are the same.
pub fn goal_runs_answer_the_query()
    ensures forwards { (problem : Problem) (w : List ℕ) (run : Run) → IsProblem problem → IsAnswering problem w run → Pops scale components (rules problem) 0 0 1 w }
    ensures backwards { (problem : Problem) (w : List ℕ) → IsProblem problem → Pops scale components (rules problem) 0 0 1 w → (run : Run) × IsAnswering problem w run }
    ensures origins { (problem : Problem) (rs : List (Rule (Pair Terms Effort))) → IsProblem problem → PopRun (rules problem) 0 0 1 rs → (run : Run) × IsAnswering problem (run_weight scale components rs) run × (origins_by (λ rule. origin_of rule.tag) rs ≡ origins_for run) }
{}

/// A head has fewer rules than numbers of 32 bits.
pub fn heads_have_few_rules()
    ensures { (problem : Problem) → IsProblem problem → (n g : ℕ) → length (rules problem n g) < 2 ^ 32 }
{}

/// The weights of rules fit.
pub fn weights_fit()
    ensures { (problem : Problem) → IsProblem problem → is_vector problem.vector ≡ true → (n g : ℕ) (r : Rule (Pair Terms Effort)) → Contains (rules problem n g) r → EachBelow (2 ^ 64) (components r.weight) }
{}

/// Two readings of the text of a query have the same rules, head by head.
pub fn readings_have_the_same_rules()
    ensures { (net : Net) (text : List ℕ) (q r : Query) (vector : List (List Part)) → IsQuery net text q → IsQuery net text r → HasAutomata q → HasAutomata r → (p g : ℕ) → rules (problem_of net q vector) p g ≡ rules (problem_of net r vector) p g }
{}

/// Where dropped packets are asked for, a no says that each packet on the way goes on, and the other way round: under failures that
/// stay, and at each moment of the moving world.
pub fn a_no_of_loss_is_survival()
    ensures traces { (problem : Problem) → IsProblem problem → problem.query.drops ≡ true → NoTrace problem.net (asks problem) ↔ Survives problem.net (asks problem) }
    ensures moving { (problem : Problem) → IsProblem problem → problem.query.drops ≡ true → NoneMoving problem.net (asks problem) ↔ SurvivesMoving problem.net (asks problem) }
{}
