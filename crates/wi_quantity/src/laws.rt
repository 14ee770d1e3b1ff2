//! That a text is read in one way is shown of the grammar: so an answer of the reader is the only right one, want of memory
//! apart. What links, hops and ends add is tied to what a whole run weighs, so that a search may add up shares. The laws run no code.
ghost use Rattle.std.specs.Prelude.{◌≡◌, ◌++◌, ◌∷◌, [], ℕ, List, replicate};
ghost use Rattle.wi_weight.specs.Weights.{plus};
ghost use Rattle.wi_net.specs.Net.{Net};
ghost use Rattle.wi_world.specs.declared.run.Run.{Run};
ghost use Rattle.wi_world.specs.Runs.{effort_of};
ghost use Rattle.wi_quantity.specs.declared.fault.WeightFault.{WeightFault};
ghost use Rattle.wi_quantity.specs.declared.fault.WeightFault.TheVariants.{Memory};
ghost use Rattle.wi_quantity.specs.declared.vector.Part.{Part};
ghost use Rattle.wi_quantity.specs.Faults.{Means, IsFault};
ghost use Rattle.wi_quantity.specs.Vectors.{is_vector};
ghost use Rattle.wi_quantity.specs.Weighing.{weight_of, first_weight, steps_weight};
ghost use Rattle.wi_quantity.specs.Written.{Written, Reads};

/// A text is written in one way only, so what it means and its first fault are determined.
pub fn a_text_is_read_one_way()
    ensures { (text : List ℕ) (v w : Written) → Reads text v → Reads text w → v ≡ w }
{}

/// A text means one vector.
pub fn a_text_means_one_vector()
    ensures { (text : List ℕ) (v u : List (List Part)) → Means text v → Means text u → v ≡ u }
{}

/// A text that means a vector has no fault.
pub fn a_text_with_a_meaning_has_no_fault()
    ensures { (text : List ℕ) (vector : List (List Part)) (fault : WeightFault) → Means text vector → IsFault text fault → fault ≡ Memory }
{}

/// What a run weighs is what its first link, each of its steps and its end weigh, with its effort last.
pub fn runs_weigh_the_sum_of_their_shares()
    ensures { (net : Net) (vector : List (List Part)) (run : Run) → plus (plus (first_weight net vector run.first.0) (steps_weight net vector run.end (run.first, run.header) run.steps)) (replicate 5 0 ++ effort_of net run ∷ []) ≡ weight_of net vector run }
{}
