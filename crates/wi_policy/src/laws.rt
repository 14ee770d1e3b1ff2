//! That a file which has policies has no fault is shown of the definitions: so where it has policies, want of memory is the only
//! refusal that a reader may answer. The law runs no code.
ghost use Rattle.std.specs.Prelude.{◌≡◌, ◌<◌, ℕ, List, length};
ghost use Rattle.wi_net.specs.declared.bounds.Bounds.{Bounds};
ghost use Rattle.wi_net.specs.Net.{Net};
ghost use Rattle.wi_policy.specs.declared.policy.Policy.{Policy};
ghost use Rattle.wi_policy.specs.declared.policy.PoliciesRefused.{PoliciesRefused};
ghost use Rattle.wi_policy.specs.Policies.{HasNoPolicies, HasPolicies};

/// A file that has policies, and at least one, is refused for want of memory only.
pub fn a_file_has_its_policies_or_one_fault()
    ensures { (net : Net) (given : Bounds) (bytes : List ℕ) (policies : List Policy) (refused : PoliciesRefused) → HasPolicies net given bytes policies → 0 < length policies → HasNoPolicies net given bytes refused → refused ≡ PoliciesRefused.Memory }
{}
