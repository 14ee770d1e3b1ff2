//! Why an accepted certificate can be believed, and why a maker's is accepted. The laws are about the definitions alone, so they
//! hold whoever makes a certificate and whoever checks it. They run no code.
ghost use Rattle.std.specs.Prelude.{◌≡◌, ◌<◌, ◌≤◌, ℕ, List, true, length, Contains, slice_index};
ghost use Rattle.wi_weight.specs.declared.kinds.Pair.{Pair};
ghost use Rattle.wi_weight.specs.declared.kinds.Terms.{Terms};
ghost use Rattle.wi_weight.specs.declared.kinds.Effort.{Effort};
ghost use Rattle.wi_world.specs.declared.run.Run.{Run};
ghost use Rattle.wi_net.specs.Net.{Net};
ghost use Rattle.wi_query.specs.declared.query.Query.{Query};
ghost use Rattle.wi_query.specs.Meaning.{IsQuery, HasAutomata};
ghost use Rattle.wi_quantity.specs.declared.vector.Part.{Part};
ghost use Rattle.wi_quantity.specs.Weighing.{components};
ghost use Rattle.wi_trace.specs.declared.answer.Answer.{Answer};
ghost use Rattle.wi_pds.specs.declared.rule.Rule.{Rule};
ghost use Rattle.wi_build.specs.Problems.{Problem, IsProblem, problem_of, weighs};
ghost use Rattle.wi_build.specs.Systems.{rules};
ghost use Rattle.wi_cert.specs.declared.certificate.Certificate.{Certificate};
ghost use Rattle.wi_cert.specs.declared.check_refused.CheckRefused.{CheckRefused};
ghost use Rattle.wi_cert.specs.Text.{IsWritable};
ghost use Rattle.wi_accept.specs.Answers.{IsDecided, answer_of};
ghost use Rattle.wi_accept.specs.Causes.{IsRefusal, IsAccepted};
ghost use Rattle.wi_accept.specs.Makers.{IsMaker};
ghost use Rattle.wi_accept.specs.Trees.{IsDecidedExactly, IsTreeAccepted, IsTreeMaker, IsTreeRefusal};
ghost use Rattle.wi_cert.specs.declared.tree.TreeCertificate.{TreeCertificate};
ghost use Rattle.wi_cert.specs.Trees.{IsTreeWritable};

/// The answer of a certificate that nothing speaks against holds, whoever wrote it.
pub fn an_accepted_answer_holds()
    ensures { (problem : Problem) (c : Certificate) → IsProblem problem → IsWritable c → IsAccepted problem c → IsDecided problem (answer_of problem c.shown) }
{}

/// Nothing speaks against the certificate that a maker writes for an answer that holds.
pub fn makers_certificates_are_accepted()
    ensures { (problem : Problem) (answer : Answer) (c : Certificate) → IsProblem problem → IsDecided problem answer → IsMaker problem answer c → IsAccepted problem c }
{}

/// Two makers' certificates of a problem list the same heads, pairs and rows: what bounds every run doesn't depend on which least
/// run is shown.
pub fn makers_certificates_close_alike()
    ensures { (problem : Problem) (a b : Answer) (c d : Certificate) → IsProblem problem → IsDecided problem a → IsDecided problem b → IsMaker problem a c → IsMaker problem b d → c.closed ≡ d.closed }
{}

/// What is accepted for a query is accepted however the query's text was read.
pub fn readings_accept_the_same()
    ensures { (net : Net) (text : List ℕ) (q r : Query) (vector : List (List Part)) (c : Certificate) → IsQuery net text q → IsQuery net text r → HasAutomata q → HasAutomata r → IsAccepted (problem_of net q vector) c → IsAccepted (problem_of net r vector) c }
{}

/// And so is a tree.
pub fn readings_accept_the_same_trees()
    ensures { (net : Net) (text : List ℕ) (q r : Query) (vector : List (List Part)) (t : TreeCertificate) → IsQuery net text q → IsQuery net text r → HasAutomata q → HasAutomata r → IsTreeAccepted (problem_of net q vector) t → IsTreeAccepted (problem_of net r vector) t }
{}

/// A certificate is refused for one cause: there are no two first ones.
pub fn a_certificate_has_one_first_refusal()
    ensures { (problem : Problem) (c : Certificate) (r s : CheckRefused) → IsRefusal problem c r → IsRefusal problem c s → r ≡ s }
{}

/// The answer of a tree that nothing speaks against holds without doubt, whoever wrote it.
pub fn an_accepted_trees_answer_holds()
    ensures { (problem : Problem) (t : TreeCertificate) → IsProblem problem → IsTreeWritable t → IsTreeAccepted problem t → IsDecidedExactly problem (answer_of problem t.shown) }
{}

/// Nothing speaks against the tree that a maker writes for an answer that holds without doubt.
pub fn makers_trees_are_accepted()
    ensures { (problem : Problem) (answer : Answer) (t : TreeCertificate) → IsProblem problem → IsDecidedExactly problem answer → IsTreeMaker problem answer t → IsTreeAccepted problem t }
{}

/// A tree is refused for one cause, too.
pub fn a_tree_has_one_first_refusal()
    ensures { (problem : Problem) (t : TreeCertificate) (r s : CheckRefused) → IsTreeRefusal problem t r → IsTreeRefusal problem t s → r ≡ s }
{}

/// The terms that a vector hasn't are 0 in what every rule and every run weighs, so the other terms and the effort tell a weight.
pub fn unused_terms_weigh_nothing()
    ensures rules { (problem : Problem) (p g i : ℕ) (r : Rule (Pair Terms Effort)) → IsProblem problem → Contains (rules problem p g) r → length problem.vector ≤ i → i < 5 → slice_index (components r.weight) i ≡ 0 }
    ensures runs { (problem : Problem) (run : Run) (i : ℕ) → length problem.vector ≤ i → i < 5 → slice_index (weighs problem run) i ≡ 0 }
{}
