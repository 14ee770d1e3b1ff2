//! That what is asked of a ring can be asked of it.
ghost use Rattle.std.specs.Prelude.{◌≡◌, ◌≤◌, ℕ};
ghost use Rattle.wi_query.specs.declared.fault.QueryFault.{QueryFault};
ghost use Rattle.wi_query.specs.declared.fault.QueryFault.TheVariants as query_fault;
ghost use Rattle.wi_query.specs.Faults.{IsFault as IsQueryFault};
ghost use Rattle.wi_quantity.specs.declared.fault.WeightFault.{WeightFault};
ghost use Rattle.wi_quantity.specs.declared.fault.WeightFault.TheVariants as weight_fault;
ghost use Rattle.wi_quantity.specs.Faults.{IsFault as IsWeightsFault};
ghost use Rattle.wi_gen.specs.Ring.{net_of, ring_of};
ghost use Rattle.wi_gen.specs.Texts.{query_text, weights_text};

/// The texts that are generated with a ring are a query of it, and weights: nothing but memory can be wanting.
pub fn the_texts_have_no_fault()
    ensures query { (seed size : ℕ) → 4 ≤ size → size ≤ 2000 → (fault : QueryFault) → IsQueryFault (net_of (ring_of seed size)) (query_text (ring_of seed size)) fault → fault ≡ query_fault.Memory }
    ensures weights { (fault : WeightFault) → IsWeightsFault weights_text fault → fault ≡ weight_fault.Memory }
{}
