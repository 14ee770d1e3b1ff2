//! One search settles many outages: a run that is found goes on in each outage off its way, and where none is found although more may
//! fail, none is found in an outage that takes no more out. Each law holds for every network and every bounds of it, and runs no
//! code.
ghost use Rattle.std.specs.Prelude.{◌≡◌, ◌+◌, true, List, [], ◌∷◌};
ghost use Rattle.std.specs.List.{All};
ghost use Rattle.wi_net.specs.LinkSet.{is_apart, is_within};
ghost use Rattle.wi_net.specs.Net.{Net, widened};
ghost use Rattle.wi_net.specs.RiskGroups.{union};
ghost use Rattle.wi_net.specs.declared.bounds.Bounds.{Bounds};
ghost use Rattle.wi_net.specs.declared.parts.LinkId.{LinkId};
ghost use Rattle.wi_world.specs.declared.run.Run.{Run};
ghost use Rattle.wi_world.specs.Moves.{is_trace, AreBounds, IsAllowed, IsBounded};
ghost use Rattle.wi_world.specs.Runs.{used_by};
ghost use Rattle.wi_outage.specs.Outages.{group_outages, router_outages, IsGroup, IsOutage};
ghost use Rattle.wi_outage.specs.Survival.{is_survived, with_down, with_k, with_up};

/// A run that survives an outage is a trace while the outage's links are down, too, under failures that the bounds allow then. The failed
/// links may come from a search with other links down: how many they are is counted anew. So a trace under failures that the bounds
/// allow survives each outage off its way; and it stands for each outage among the failed links, since it uses none of them.
pub fn a_run_survives_an_outage()
    ensures survived { (net : Net) (bounds : Bounds) (fails : List LinkId) (run : Run) (links : List LinkId) → IsBounded net bounds → widened net links ≡ links → widened net fails ≡ fails → is_within bounds.down fails ≡ true → is_apart fails bounds.up ≡ true → is_trace net fails run ≡ true → is_survived net bounds fails (used_by net run) links ≡ true → IsAllowed net (with_down bounds links) (union fails links) × (is_trace net (union fails links) run ≡ true) }
    ensures off_the_way { (net : Net) (bounds : Bounds) (fails : List LinkId) (run : Run) (links : List LinkId) → IsBounded net bounds → IsAllowed net bounds fails → is_trace net fails run ≡ true → widened net links ≡ links → is_apart links bounds.up ≡ true → is_apart links (used_by net run) ≡ true → IsAllowed net (with_down bounds links) (union fails links) × (is_trace net (union fails links) run ≡ true) }
    ensures uses_no_failed { (net : Net) (fails : List LinkId) (run : Run) → is_trace net fails run ≡ true → is_apart fails (used_by net run) ≡ true }
{}

/// What may fail while a risk group is out may fail, too, where one risk group more is allowed to. So where no allowed failures have
/// a matching trace then, none have one while the group is out.
pub fn a_no_at_one_more_survives()
    ensures { (net : Net) (bounds : Bounds) (d : LinkId) (links fails : List LinkId) → IsBounded net bounds → links ≡ widened net (d ∷ []) → is_apart links bounds.up ≡ true → IsAllowed net (with_down bounds links) fails → IsAllowed net (with_k bounds (bounds.k + 1)) fails }
{}

/// While nothing but one risk group is out, each link is up that is neither of it nor known to be down. So what fails then may fail, too,
/// where one risk group is allowed to and such links are known to be up: those that were found to break something by themselves. Where
/// no allowed failures have a matching trace then, none have one while any other group is out.
pub fn what_is_found_is_kept_up()
    ensures { (net : Net) (bounds : Bounds) (d : LinkId) (links kept fails : List LinkId) → IsBounded net bounds → widened net kept ≡ kept → is_apart kept bounds.down ≡ true → links ≡ widened net (d ∷ []) → is_apart links bounds.up ≡ true → is_apart links kept ≡ true → IsAllowed net (with_k (with_down bounds links) 0) fails → IsAllowed net (with_k (with_up bounds kept) 1) fails }
{}

/// The links of an outage are at least one, in whole risk groups, and none of them is given as down or up; those of a risk group are one
/// group. Bounds of the network stay bounds where an outage is down without a link that they know to be up, and where risk groups are
/// kept up without a link that they know to be down.
pub fn outages_keep_bounds()
    ensures groups { (net : Net) (given : Bounds) → All (λ outage. IsOutage net given outage.links) (group_outages net given) }
    ensures one_group { (net : Net) (given : Bounds) → All (λ outage. IsGroup net outage.links) (group_outages net given) }
    ensures routers { (net : Net) (given : Bounds) → All (λ outage. IsOutage net given outage.links) (router_outages net given) }
    ensures down { (net : Net) (bounds : Bounds) (links : List LinkId) → AreBounds net bounds → widened net links ≡ links → is_apart links bounds.up ≡ true → AreBounds net (with_down bounds links) }
    ensures up { (net : Net) (bounds : Bounds) (kept : List LinkId) → AreBounds net bounds → widened net kept ≡ kept → is_apart kept bounds.down ≡ true → AreBounds net (with_up bounds kept) }
{}
