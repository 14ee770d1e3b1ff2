//! Each thing that is found is followed once, so that what leads on only together meets once, when the later of the two is
//! followed. While it runs, a head is kept twice and a pair three times; both lists are sorted once, at the end.
ghost use Rattle.std.specs.Prelude.{ℕ, IfOk};
ghost use Rattle.wi_pds.specs.LeastClosed.{AreLeastClosed, IsReached};
ghost use Rattle.wi_reduce.specs.private.Kept.{IsSearch, IsStep, AreSame};

use crate::search::Search;
use std::alloc::Global;
use wi_base::{Listed, NoMemory};
use wi_pds::{Heads, System};

/// The least heads and pairs that are closed: the start's head, and what each rule of each of them leads to.
/// Only heads that are in the answer are asked for their rules.
///
/// What it costs: each of these heads is asked once; each of their rules is looked at once; and for each symbol, each pop of it
/// and each other symbol in its place meets each pair below it once. Each meeting is a look-up in a hashed set, of pairs in
/// words of 64 bits. The heads and the pairs are sorted once, at the end. While it runs it keeps a head twice, and a pair twice and
/// as a bit; and each once in the answer.
pub fn reach<W: Copy, S: System<W>>(alloc: Global, sys: &S) -> Result<Heads, NoMemory>
    requires { (p g : ℕ) → IsReached (S.rules sys.now) (S.start_head sys.now) p g → S.may_ask sys.now p g }
    ensures { IfOk result (λ found. AreLeastClosed (S.rules sys.now) (S.start_head sys.now) found.heads found.pairs) }
{
    let mut search = Search::new(alloc);
    search.heads.add(sys.start())?;
    while step(alloc, sys, &mut search)? {
        // Its bound shows that the search ends.
        let _followed = search.followed();
    }
    Ok(sorted(search))
}

// Follows something that was found and that is still to be followed, if there is any. Says whether there was.
fn step<W: Copy, S: System<W>>(
    alloc: Global,
    sys: &S,
    search: &mut Search,
) -> Result<bool, NoMemory>
    requires search { IsSearch (S.rules sys.now) (S.start_head sys.now) search.old }
    requires asked { (p g : ℕ) → IsReached (S.rules sys.now) (S.start_head sys.now) p g → S.may_ask sys.now p g }
    ensures { IfOk result (IsStep (S.rules sys.now) (S.start_head sys.now) search.old search.new) }
{
    if let Some((p, g)) = search.heads.next() {
        search.follow_head(alloc, sys, p, g)?;
        return Ok(true);
    }
    if let Some((g, x)) = search.pairs.next(alloc)? {
        search.follow_pair(g, x)?;
        return Ok(true);
    }
    if let Some((g, to)) = search.pops.next(alloc)? {
        search.follow_pop(g, to)?;
        return Ok(true);
    }
    if let Some((g, v)) = search.swaps.next(alloc)? {
        search.follow_swap(g, v)?;
        return Ok(true);
    }
    Ok(false)
}

// The heads and pairs that were found, in order.
fn sorted(search: Search) -> Heads
    ensures heads { AreSame search.heads result.heads }
    ensures pairs { AreSame search.pairs result.pairs }
{
    let heads = search.heads.into_sorted();
    let pairs = search.pairs.into_sorted();
    Heads {
        heads: Listed::of(heads),
        pairs: Listed::of(pairs),
    }
}
