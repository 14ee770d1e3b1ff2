//! Tables of least summaries, with what is counted meanwhile.
ghost use Rattle.std.specs.Prelude.{◌≡◌, ℕ, ◌<◌, ◌≤◌, None, IfOk, option_map};
ghost use Rattle.std.specs.List.{Contains};
ghost use Rattle.wi_pds.specs.Closed.{AreClosed};
ghost use Rattle.wi_saturate.specs.LeastTables.{AreReady, IsLeastTable};

use std::alloc::Global;
use std::marker::Brand;
use std::sync::ledger::{Blank, Ledger};
use wi_pds::{Heads, System};
use wi_saturate::{LeastRefused, Steps, Table, least_counted};
use wi_weight::Domain;

// A call of this is a proof that the counter stands at the count.
pub(crate) fn stands_at<L: Ledger>(_steps: &Steps<L>, _count: usize)
    requires { _steps.now ≡ _count }
{}

// A call of this is a proof that the counter stands at the count, or above it.
fn stands_at_least<L: Ledger>(_tries: &Steps<L>, _count: usize)
    requires { _count ≤ _tries.now }
{}

// The table. The tries, from none on, have risen by at least its number of rows. The steps, from none on, have risen by its number of rows.
fn counted_table<W: Domain, S: System<W>, L: Ledger, M: Ledger>(
    alloc: Global,
    sys: &S,
    heads: &Heads,
    goal: (u64, u32, u64),
    cut: Option<W>,
    blank: Blank,
    other: Blank,
) -> Result<Table<W>, LeastRefused<W>>
    requires name { blank.name ≡ L.name }
    requires parts { blank.parts ≡ L.parts }
    requires some { 0 < blank.parts }
    requires other_name { other.name ≡ M.name }
    requires other_parts { other.parts ≡ M.parts }
    requires other_some { 0 < other.parts }
    requires closed { AreClosed (S.rules sys.now) (S.start_head sys.now) heads.now.heads heads.now.pairs }
    requires ready { AreReady W.components (S.rules sys.now) heads.now.heads }
    requires start { S.start_head sys.now ≡ (goal.0, goal.1) }
    requires asked { (p g : ℕ) → Contains heads.now.heads (p, g) → S.may_ask sys.now p g }
    ensures { IfOk result (λ t. IsLeastTable W.scale W.components (S.rules sys.now) heads.now.heads goal (option_map W.components cut) t.rows (option_map W.components t.best)) }
{
    let mut steps = Steps::<L>::open(blank);
    let mut tries = Steps::<M>::open(other);
    let table = least_counted(alloc, sys, heads, goal, cut, &mut steps, &mut tries)?;
    stands_at(&steps, table.rows().len());
    stands_at_least(&tries, table.rows().len());
    Ok(table)
}

// The same, over ledgers of its own.
pub(crate) fn table_of<W: Domain, S: System<W>>(
    alloc: Global,
    sys: &S,
    heads: &Heads,
    goal: (u64, u32, u64),
    cut: Option<W>,
) -> Result<Table<W>, LeastRefused<W>>
    requires closed { AreClosed (S.rules sys.now) (S.start_head sys.now) heads.now.heads heads.now.pairs }
    requires ready { AreReady W.components (S.rules sys.now) heads.now.heads }
    requires start { S.start_head sys.now ≡ (goal.0, goal.1) }
    requires asked { (p g : ℕ) → Contains heads.now.heads (p, g) → S.may_ask sys.now p g }
    ensures { IfOk result (λ t. IsLeastTable W.scale W.components (S.rules sys.now) heads.now.heads goal (option_map W.components cut) t.rows (option_map W.components t.best)) }
{
    counted_table::<W, S, Brand, Brand>(alloc, sys, heads, goal, cut, Blank::new(1), Blank::new(1))
}
