//! What a plan promises that leaves no inner link without protection. The law holds for every network and every plan over it, whoever
//! wrote the plan, and runs no code.
ghost use Rattle.std.specs.Prelude.{◌≡◌, []};
ghost use Rattle.wi_net.specs.Net.{Net};
ghost use Rattle.wi_net.specs.Network.{IsNetwork};
ghost use Rattle.wi_plan.specs.declared.plan.Plan.{Plan};
ghost use Rattle.wi_plan.specs.Plans.{IsPlan};
ghost use Rattle.wi_bypass.specs.Bypasses.{unprotected, SurvivesEachGroup};

/// In the network of a plan each inner link of whose paths has a detour among the bypasses, path by path, the packets arrive while any
/// single risk group is out that has neither the path's first nor its last link: a packet that sets out on the path's first link, with
/// the path's label alone, has one trace that can't be continued. It goes along the path with each link of the risk group replaced by
/// its bypass, and ends on the last link with the header that it had at first.
pub fn a_plan_without_unprotected_links_survives()
    ensures { (net : Net) (plan : Plan) → IsNetwork net → IsPlan net plan → unprotected net plan.paths plan.bypasses ≡ [] → SurvivesEachGroup net plan }
{}
