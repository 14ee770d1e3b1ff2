//! Both lists rise as a part of the type, so that a look-up by halves has no condition at any call. Whoever makes one has to
//! have sorted them, and shows that they rise.
ghost use Rattle.std.specs.Prelude.{◌↔◌, IsTrue};
ghost use Rattle.std.specs.List.{Contains};
ghost use Rattle.std.specs.List.Sorted.{IsStrictlySortedBy};
ghost use Rattle.std.proofs.Props.{props};
ghost use Rattle.wi_pds.specs.Pairs.{pair_cmp};

use wi_base::Listed;

/// Heads, each a state and a symbol, and pairs of an upper symbol and one that may stand right below it.
/// Both lists rise: by the first number and then by the second, each entry once.
#[derive(Drop)]
pub struct Heads {
    pub heads: Listed<(u64, u32)>,
    pub pairs: Listed<(u32, u32)>,
    pub ghost heads_rise: { IsStrictlySortedBy pair_cmp heads } by { Prim.hlevel props },
    pub ghost pairs_rise: { IsStrictlySortedBy pair_cmp pairs } by { Prim.hlevel props },
}

impl Heads {
    /// Whether the head is listed. It takes no memory, and its time grows with the logarithm of the list's length.
    pub fn contains(&self, p: u64, g: u32) -> bool
        ensures { IsTrue result ↔ Contains self.now.heads (p, g) }
    {
        self.heads.as_slice().binary_search(&(p, g)).is_ok()
    }

    /// Whether the pair is listed. It takes no memory, and its time grows with the logarithm of the list's length.
    pub fn has_pair(&self, upper: u32, lower: u32) -> bool
        ensures { IsTrue result ↔ Contains self.now.pairs (upper, lower) }
    {
        self.pairs.as_slice().binary_search(&(upper, lower)).is_ok()
    }
}
