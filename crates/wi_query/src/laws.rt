//! A query has no fault, and the signs of an expression are those of one tree: so what a text asks doesn't depend on how it is
//! read. What is said by a limit's name holds with any number, so another law has the numbers. The laws run no code.
ghost use Rattle.std.specs.Prelude.{◌≡◌, ℕ, List, [], true};
ghost use Rattle.wi_syntax.specs.Trees.{Tree, AnExpression, is_tree, signs_of};
ghost use Rattle.wi_net.specs.Net.{Net};
ghost use Rattle.wi_query.specs.declared.bounds.TheConstants.{FAILURE_LIMIT};
ghost use Rattle.wi_query.specs.declared.query.TheConstants.{LENGTH_LIMIT};
ghost use Rattle.wi_query.specs.declared.fault.QueryFault.{QueryFault};
ghost use Rattle.wi_query.specs.declared.fault.QueryFault.TheVariants.{Memory};
ghost use Rattle.wi_query.specs.declared.query.Query.{Query};
ghost use Rattle.wi_query.specs.Meaning.{IsQuery, AskTheSame};
ghost use Rattle.wi_query.specs.Faults.{IsFault};
ghost use Rattle.wi_query.specs.declared.strict.StrictFault.{StrictFault};
ghost use Rattle.wi_query.specs.declared.strict.StrictFault.TheVariants.{InQuery};
ghost use Rattle.wi_query.specs.Linked.{IsStrictQuery, IsStrictFault};

/// The text of a query has no fault.
pub fn a_query_has_no_fault()
    ensures { (net : Net) (text : List ℕ) (query : Query) (fault : QueryFault) → IsQuery net text query → IsFault net text fault → fault ≡ Memory }
{}

/// Nor has one whose pairs all mean links a fault where each pair has to.
pub fn a_strict_query_has_no_fault()
    ensures { (net : Net) (text : List ℕ) (query : Query) (fault : StrictFault) → IsStrictQuery net text query → IsStrictFault net text fault → fault ≡ InQuery Memory }
{}

/// The signs of an expression are those of one tree, so they mean one language.
pub fn signs_have_one_tree<A>()
    ensures { (t u : Tree A) → is_tree (λ a. true) AnExpression t ≡ true → is_tree (λ a. true) AnExpression u ≡ true → signs_of t [] ≡ signs_of u [] → t ≡ u }
{}

/// Two readings of a text ask the same.
pub fn a_text_asks_one_thing()
    ensures { (net : Net) (text : List ℕ) (q r : Query) → IsQuery net text q → IsQuery net text r → AskTheSame q r }
{}

/// A query has so many bytes at most, and at most so many risk groups fail.
pub fn limits_have_these_numbers()
    ensures length { LENGTH_LIMIT ≡ 4096 }
    ensures failures { FAILURE_LIMIT ≡ 65535 }
{}
