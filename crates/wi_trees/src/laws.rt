//! What a branch is, its bounds say: which sets are its own, which runs move in it, and which fit. So whatever searches or checks
//! within bounds serves for branches as it is, and where a tree of branches holds, it answers without doubt. Each law holds for
//! every network and all bounds, and runs no code.
ghost use Rattle.std.specs.Prelude.{◌≡◌, ◌<◌, ◌+◌, ◌^◌, ℕ, ◌&&◌, not, true, false, ⊤, List, [], ◌∷◌, length, Option, Some, None};
ghost use Rattle.std.specs.List.{find};
ghost use Rattle.wi_net.specs.declared.bounds.Bounds.{Bounds};
ghost use Rattle.wi_net.specs.declared.parts.LinkId.{LinkId};
ghost use Rattle.wi_net.specs.LinkSet.{has};
ghost use Rattle.wi_net.specs.Net.{Net, risk_count};
ghost use Rattle.wi_net.specs.Network.{IsNetwork};
ghost use Rattle.wi_world.specs.declared.answer.Verdict.{Verdict};
ghost use Rattle.wi_world.specs.declared.answer.Word.{Word};
ghost use Rattle.wi_world.specs.declared.run.Run.{Run};
ghost use Rattle.wi_world.specs.Moves.{AreBounds, IsAllowed, IsBounded};
ghost use Rattle.wi_world.specs.Moving.{IsMovingRun};
ghost use Rattle.wi_world.specs.Runs.{needs, verdict_of};
ghost use Rattle.wi_world.specs.Holds.{Matches};
ghost use Rattle.wi_query.specs.declared.query.Query.{Query};
ghost use Rattle.wi_query.specs.Meaning.{IsQueryOf, question_of};
ghost use Rattle.wi_quantity.specs.declared.vector.Part.{Part};
ghost use Rattle.wi_quantity.specs.Weighing.{weight_of};
ghost use Rattle.wi_trees.specs.Branches.{IsBranch, IsBranchSet, IsBranchRun, fits_branch, CanSplit, with_down, with_up, free_links, split_of};
ghost use Rattle.wi_trees.specs.Trees.{NoRunBelow, NoTraceBelow, Tree, TreeOf, TreeHolds, preorder, size, HoldsExactly, question_at, whole_of};
ghost use Rattle.wi_trees.specs.Nodes.{AreNodes};

/// Whole bounds are a branch of themselves, and the two children of a branch are branches.
pub fn children_are_branches()
    ensures root { (net : Net) (whole : Bounds) → AreBounds net whole → IsBranch net whole whole }
    ensures down { (net : Net) (whole branch : Bounds) (e : LinkId) → IsNetwork net → IsBranch net whole branch
        → CanSplit net branch e → IsBranch net whole (with_down net branch e) }
    ensures up { (net : Net) (whole branch : Bounds) (e : LinkId) → IsBranch net whole branch
        → CanSplit net branch e → IsBranch net whole (with_up net branch e) }
{}

/// The sets of a branch are those that it allows as bounds.
pub fn branch_sets_are_allowed_sets()
    ensures forwards { (net : Net) (whole branch : Bounds) (fails : List LinkId) → IsBranch net whole branch
        → IsBranchSet net whole branch fails → IsAllowed net branch fails }
    ensures backwards { (net : Net) (whole branch : Bounds) (fails : List LinkId) → IsBranch net whole branch
        → IsAllowed net branch fails → IsBranchSet net whole branch fails }
{}

/// The moving runs of a branch are those of the branch as bounds.
pub fn branch_runs_are_moving_runs()
    ensures forwards { (net : Net) (whole branch : Bounds) (run : Run) → IsBranch net whole branch
        → IsBranchRun net whole branch run → IsMovingRun net branch run }
    ensures backwards { (net : Net) (whole branch : Bounds) (run : Run) → IsBranch net whole branch
        → IsMovingRun net branch run → IsBranchRun net whole branch run }
{}

/// A run fits a branch exactly where it fits the branch as bounds; it then fits the whole bounds, too.
pub fn runs_that_fit_a_branch()
    ensures forwards { (net : Net) (whole branch : Bounds) (run : Run) → IsBranch net whole branch
        → fits_branch net whole branch run ≡ true → verdict_of net branch run ≡ Verdict.Fits (needs net branch run) }
    ensures backwards { (net : Net) (whole branch : Bounds) (run : Run) (fails : List LinkId) → IsBranch net whole branch
        → verdict_of net branch run ≡ Verdict.Fits fails → fits_branch net whole branch run ≡ true }
    ensures whole { (net : Net) (whole branch : Bounds) (run : Run) (fails : List LinkId) → AreBounds net whole
        → IsBranch net whole branch → verdict_of net branch run ≡ Verdict.Fits fails
        → verdict_of net whole run ≡ Verdict.Fits (needs net whole run) }
{}

/// Where a moving run of a branch doesn't fit it, there is a link to split the branch by: the least that the run needs within
/// the whole bounds and that the branch has neither down nor up.
pub fn runs_that_do_not_fit_split()
    ensures least { (net : Net) (whole branch : Bounds) (run : Run) → IsBranch net whole branch
        → split_of net branch run ≡ find (λ e. not (has branch.down e) && not (has branch.up e)) (needs net whole run) }
    ensures there { (net : Net) (whole branch : Bounds) (run : Run) → IsNetwork net → IsBranch net whole branch
        → IsMovingRun net branch run → fits_branch net whole branch run ≡ false
        → (e : LinkId) × (split_of net branch run ≡ Some e) × CanSplit net branch e }
{}

/// A tree that holds answers a query: no matching trace under a set of its branch is below its bound. With a run that is a
/// matching moving run of some branch and fits it, and has the bound's weight, that is a yes; without a bound it is a no.
pub fn trees_answer()
    ensures none_below { (net : Net) (query : Query) (vector : List (List Part)) (bound : Option (List ℕ)) (branch : Bounds)
        (tree : Tree) → IsBounded net branch → TreeHolds net (question_of query) (weight_of net vector) bound branch tree
        → NoTraceBelow net (question_of query) (weight_of net vector) bound branch }
    ensures least_yes { (net : Net) (query : Query) (k : ℕ) (vector : List (List Part)) (tree : Tree) (branch : Bounds)
        (run : Run) (fails : List LinkId) → IsNetwork net → IsQueryOf net query
        → TreeHolds net (question_of query) (weight_of net vector) (Some (weight_of net vector run)) (whole_of k query) tree
        → IsBranch net (whole_of k query) branch → IsMovingRun net branch run → Matches net (question_of query) run
        → verdict_of net branch run ≡ Verdict.Fits fails
        → HoldsExactly net (question_at k query) (weight_of net vector) Word.Yes (Some (weight_of net vector run)) (Some run)
        (Some (Verdict.Fits (needs net (whole_of k query) run))) }
    ensures never { (net : Net) (query : Query) (k : ℕ) (vector : List (List Part)) (tree : Tree)
        → IsNetwork net → IsQueryOf net query
        → TreeHolds net (question_of query) (weight_of net vector) None (whole_of k query) tree
        → HoldsExactly net (question_at k query) (weight_of net vector) Word.No None None None }
{}

/// Nodes in preorder that leave nothing open are those of one tree, which holds; and the nodes of a tree that holds are such. A
/// tree has as many nodes as that list.
pub fn nodes_are_a_tree()
    ensures tree { (net : Net) (query : Query) (vector : List (List Part)) (bound : Option (List ℕ))
        (nodes : List (Option LinkId)) (branch : Bounds)
        → AreNodes (NoRunBelow net (question_of query) (weight_of net vector) bound) net nodes (branch ∷ [])
        → (tree : Tree) × TreeHolds net (question_of query) (weight_of net vector) bound branch tree × (preorder tree ≡ nodes) }
    ensures nodes { (net : Net) (query : Query) (vector : List (List Part)) (bound : Option (List ℕ)) (branch : Bounds)
        (tree : Tree) → TreeHolds net (question_of query) (weight_of net vector) bound branch tree
        → AreNodes (NoRunBelow net (question_of query) (weight_of net vector) bound) net (preorder tree) (branch ∷ []) }
    ensures count { (tree : Tree) → length (preorder tree) ≡ size tree }
{}

/// Each split leaves fewer risk groups that are neither down nor up; so a tree of splits has a bounded number of nodes, whatever
/// is so at its leaves.
pub fn splits_leave_fewer_groups_free()
    ensures down { (net : Net) (branch : Bounds) (e : LinkId) → IsBounded net branch → CanSplit net branch e
        → risk_count net (free_links net (with_down net branch e)) < risk_count net (free_links net branch) }
    ensures up { (net : Net) (branch : Bounds) (e : LinkId) → IsBounded net branch → CanSplit net branch e
        → risk_count net (free_links net (with_up net branch e)) < risk_count net (free_links net branch) }
    ensures nodes { (net : Net) (branch : Bounds) (tree : Tree) → IsBounded net branch → TreeOf (λ leaf. ⊤) net branch tree
        → size tree < 2 ^ (risk_count net (free_links net branch) + 1) }
{}
