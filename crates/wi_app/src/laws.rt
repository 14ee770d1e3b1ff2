//! What one call stores, another believes. The laws are about what `run` promises of each call, and run no code.
ghost use Rattle.std.specs.Prelude.{◌≡◌, ◌≢◌, ◌⊎◌, ◌<◌, ℕ, List, Option, true, Some};
ghost use Rattle.wi_base.specs.Shelf.{ShelfSeen};
ghost use Rattle.wi_base.specs.Sink.{SinkSeen};
ghost use Rattle.wi_words.specs.Commands.{Asking, Ask, Verify, Check, Exact, CheckExact, command_of};
ghost use Rattle.wi_words.specs.declared.Content.{Content};
ghost use Rattle.wi_files.specs.Shelves.{IsCalm, OthersStand};
ghost use Rattle.wi_ask.specs.Asked.{ForAsking};
ghost use Rattle.wi_app.specs.Run.{Completes, Does};
ghost use Rattle.wi_app.specs.Surviving.{IsSurvived, IsSurvivedMoving};

/// Where `verify` answers and its certificate isn't stored in the place of the network, `check` of that file with the same texts
/// gives 0, on a shelf that tells and stands as `verify` left it; but for a call that fails, or want of memory.
pub fn what_is_written_is_accepted()
    ensures { (verifying checking : List (List ℕ)) (asking : Asking) (content : Content) (file : List ℕ) (shelf between after : ShelfSeen) (out printed err said later_out later_printed later_err later_said : SinkSeen) (status result : ℕ)
        → command_of verifying ≡ Some (Ask asking (Verify content (Some file))) → command_of checking ≡ Some (Ask asking (Check file)) → asking.network ≢ file
        → shelf.told ≡ true → between.told ≡ true → OthersStand (Some file) shelf between → Does verifying shelf between out printed err said status → status < 3
        → Completes checking between after later_out later_printed later_err later_said result → IsCalm between after → later_printed.faults ≡ later_out.faults → later_said.faults ≡ later_err.faults
        → (result ≡ 0) ⊎ (result ≡ 11) }
{}

/// Where `exact` answers and its tree isn't stored in the place of the network, `check-exact` of that file with the same texts
/// gives 0, on a shelf that tells and stands as `exact` left it; but for a call that fails, or want of memory.
pub fn what_exact_writes_is_accepted()
    ensures { (answering checking : List (List ℕ)) (asking : Asking) (file : List ℕ) (shelf between after : ShelfSeen) (out printed err said later_out later_printed later_err later_said : SinkSeen) (status result : ℕ)
        → command_of answering ≡ Some (Ask asking (Exact (Some file))) → command_of checking ≡ Some (Ask asking (CheckExact file)) → asking.network ≢ file
        → shelf.told ≡ true → between.told ≡ true → OthersStand (Some file) shelf between → Does answering shelf between out printed err said status → status < 3
        → Completes checking between after later_out later_printed later_err later_said result → IsCalm between after → later_printed.faults ≡ later_out.faults → later_said.faults ≡ later_err.faults
        → (result ≡ 0) ⊎ (result ≡ 11) }
{}

/// Where dropped packets are asked for and the status is 1, each packet on the way goes on, whatever links fail within what may and
/// stay failed; and by `verify`, `packets` and `draw` also at each moment while links fail and are repaired.
pub fn a_no_of_loss_is_survival()
    ensures verified { (words : List (List ℕ)) (asking : Asking) (content : Content) (file : Option (List ℕ)) (shelf after : ShelfSeen) (out printed err said : SinkSeen) → command_of words ≡ Some (Ask asking (Verify content file)) → Does words shelf after out printed err said 1 → ForAsking shelf asking (λ problem. IsSurvived problem × IsSurvivedMoving problem) }
    ensures exactly { (words : List (List ℕ)) (asking : Asking) (file : Option (List ℕ)) (shelf after : ShelfSeen) (out printed err said : SinkSeen) → command_of words ≡ Some (Ask asking (Exact file)) → Does words shelf after out printed err said 1 → ForAsking shelf asking IsSurvived }
{}
