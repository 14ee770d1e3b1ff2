//! What follows from what a stack is, for any bytes and any network.
ghost use Rattle.std.specs.Prelude.{◌≡◌, ℕ, List, ◌++◌, ◌∷◌, [], true, Ok, Some};
ghost use Rattle.wi_labels.specs.declared.label.Label.{Label};
ghost use Rattle.wi_labels.specs.declared.label.Class.TheVariants.{Ip};
ghost use Rattle.wi_labels.specs.Header.{Entry as Labelled, is_valid_header};
ghost use Rattle.wi_net.specs.Net.{Net, labels_known};
ghost use Rattle.wi_net.specs.Network.{IsNetwork};
ghost use Rattle.wi_wire.specs.declared.entry.Entry.{Entry};
ghost use Rattle.wi_wire.specs.declared.refused.StackRefused.{StackRefused};
ghost use Rattle.wi_wire.specs.declared.refused.StackRefused.TheVariants.{Memory};
ghost use Rattle.wi_wire.specs.Stacks.{IsStack, IsNoStack};
ghost use Rattle.wi_wire.specs.Values.{entries_of, header_of};

/// Bytes begin with one stack at most, and the same rest follows it: so no stack's bytes begin with those of another, and what was
/// written is read again, whatever follows. Bytes that begin with a stack are refused for nothing, and of those that don't, one
/// refusal is so.
pub fn bytes_begin_with_one_stack()
    ensures one { (bytes more rest : List ℕ) (s t : List Entry)
        → IsStack bytes s rest → IsStack bytes t more → (s ≡ t) × (rest ≡ more) }
    ensures apart { (bytes rest : List ℕ) (s : List Entry) (refusal : StackRefused)
        → IsStack bytes s rest → IsNoStack bytes refusal → refusal ≡ Memory }
    ensures first { (bytes : List ℕ) (a b : StackRefused)
        → IsNoStack bytes a → IsNoStack bytes b → (a ≡ Memory → ⊥) → (b ≡ Memory → ⊥) → a ≡ b }
{}

/// The entries of a header give it again, over its own `ip` label.
pub fn entries_give_the_header_again()
    ensures { (net : Net) (ttl : ℕ) (above : List Labelled) (ip : Label) (entries : List Entry)
        → IsNetwork net
        → is_valid_header (above ++ (ip, Ip) ∷ []) ≡ true
        → labels_known net (above ++ (ip, Ip) ∷ []) ≡ true
        → entries_of net ttl (above ++ (ip, Ip) ∷ []) ≡ Ok entries
        → header_of net entries ip ≡ Some (above ++ (ip, Ip) ∷ []) }
{}
