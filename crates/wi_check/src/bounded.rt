//! What bounds every run is judged without a run: the heads and pairs lead nowhere else, no row is for the goal, and the rows leave
//! out nothing that weighs less than the run that is shown. A certificate has this once, and a tree for each of its leaves.
ghost use Rattle.std.specs.Prelude.{◌≡◌, None, IfErr, OnOk, option_map};
ghost use Rattle.wi_quantity.specs.Weighing.{components};
ghost use Rattle.wi_cert.specs.Shown.{IsShown};
ghost use Rattle.wi_cert.specs.Closed.{IsClosed};
ghost use Rattle.wi_accept.specs.Causes.{bound_of, missing_in, open_in};
ghost use Rattle.wi_check.specs.private.Rows.{demanded};
ghost use Rattle.wi_check.specs.private.Stages.{IsGap, NoneClosed};

use crate::closing::first_lack;
use crate::heads::Listings;
use crate::rows::{Demand, Rows, weight_to};
use crate::weights::weight_of;
use std::alloc::Global;
use wi_accept::Follower;
use wi_base::NoMemory;
use wi_build::LazySystem;
use wi_cert::{Claim, Closed, ClosedRefused, Shown};
use wi_quantity::Weight;

/// What speaks first against heads, pairs and rows, or that memory ran out before that was known.
#[derive(Clone, Copy)]
pub(crate) enum Gap {
    Closed(ClosedRefused),
    Memory,
}

impl From<NoMemory> for Gap {
    ghost use Rattle.std.specs.Prelude.{◌≡◌};
    ghost use Rattle.wi_check.specs.declared.bounded.Gap.{Gap};

    ghost from_gives = { λ _ r. r ≡ Gap.Memory };

    fn from(_error: NoMemory) -> Self {
        Gap::Memory
    }
}

/// Checks heads and pairs, then the goal, and then rows.
pub(crate) fn check_closed(
    alloc: Global,
    system: &LazySystem<'_>,
    shown: &Shown,
    closed: &Closed,
) -> Result<(), Gap>
    requires shown { IsShown shown.now }
    requires closed { IsClosed shown.now closed.now }
    ensures passed { OnOk result (NoneClosed system.now shown.now closed.now 3) }
    ensures refused { IfErr result (IsGap system.now shown.now closed.now) }
{
    let listed = Listings {
        heads: closed.heads.as_slice(),
        pairs: closed.pairs.as_slice(),
    };
    let lack = first_lack(
        alloc,
        system,
        listed,
        rows_of(shown, closed),
        bound_of(shown),
    )?;
    check_heads(system, shown, closed, lack.follower)?;
    check_goal(system, shown, closed)?;
    check_rows(system, shown, closed, lack.demand)
}

// Checks that heads and pairs lack nothing.
fn check_heads(
    system: &LazySystem<'_>,
    shown: &Shown,
    closed: &Closed,
    follower: Option<Follower>,
) -> Result<(), Gap>
    requires { follower ≡ missing_in system.now closed.now }
    ensures none { OnOk result (follower ≡ None) }
    ensures passed { OnOk result (NoneClosed system.now shown.now closed.now 1) }
    ensures refused { IfErr result (IsGap system.now shown.now closed.now) }
{
    match follower {
        None => Ok(()),
        Some(Follower::Head(p, g)) => Err(Gap::Closed(ClosedRefused::HeadMissing(p, g))),
        Some(Follower::Pair(u, v)) => Err(Gap::Closed(ClosedRefused::PairMissing(u, v))),
    }
}

// Checks that no row is for the goal.
fn check_goal(system: &LazySystem<'_>, shown: &Shown, closed: &Closed) -> Result<(), Gap>
    requires shown { IsShown shown.now }
    requires closed { IsClosed shown.now closed.now }
    requires before { NoneClosed system.now shown.now closed.now 1 }
    ensures passed { OnOk result (NoneClosed system.now shown.now closed.now 2) }
    ensures refused { IfErr result (IsGap system.now shown.now closed.now) }
{
    match weight_to(rows_of(shown, closed), (0, 0), 1) {
        None => Ok(()),
        Some(weight) => Err(Gap::Closed(ClosedRefused::GoalBelow(weight))),
    }
}

// Checks that no row is open under what is shown.
fn check_rows(
    system: &LazySystem<'_>,
    shown: &Shown,
    closed: &Closed,
    demand: Option<Demand>,
) -> Result<(), Gap>
    requires demand { option_map demanded demand ≡ open_in system.now shown.now.terms (bound_of shown.now) closed.now }
    requires before { NoneClosed system.now shown.now closed.now 2 }
    ensures passed { OnOk result (NoneClosed system.now shown.now closed.now 3) }
    ensures refused { IfErr result (IsGap system.now shown.now closed.now) }
{
    match demand {
        None => Ok(()),
        Some(demand) => Err(Gap::Closed(ClosedRefused::NotClosed {
            head: demand.head,
            target: demand.target,
            sum: demand.weight,
        })),
    }
}

// The rows, with how many terms their weights have.
fn rows_of<'a>(shown: &Shown, closed: &'a Closed) -> Rows<'a>
    ensures terms { result.terms ≡ shown.now.terms }
    ensures rows { result.rows.now ≡ closed.now.rows }
{
    Rows {
        terms: shown.terms,
        rows: closed.rows.as_slice(),
    }
}

// What bounds every run: the weight that is shown, if there is one.
fn bound_of(shown: &Shown) -> Option<Weight>
    requires { IsShown shown.now }
    ensures { option_map components result ≡ bound_of shown.now }
{
    if shown.claim == Claim::No {
        None
    } else {
        Some(weight_of(shown.terms, shown.weight.as_slice()))
    }
}
