//! Whether heads, pairs and rows are closed, in one walk along the heads. A head may have a rule for each link or label, so its rules are
//! asked for once and not kept: what follows from them and what they demand is looked up side by side. What heads and pairs lack is told before
//! any row that is open; so the first open row waits until the walk has come to its end.
ghost use Rattle.std.specs.Prelude.{◌≡◌, ◌^◌, None, find, IfOk, OnOk, option_map};
ghost use Rattle.std.specs.List.{All};
ghost use Rattle.std.specs.Option.{option_or};
ghost use Rattle.wi_weight.specs.Weights.{EachBelow};
ghost use Rattle.wi_quantity.specs.Weighing.{components};
ghost use Rattle.wi_cert.specs.Order.{pair_below};
ghost use Rattle.wi_build.specs.Systems.{scale, rules};
ghost use Rattle.wi_accept.specs.Followers.{is_missing, followers_at, followers_of, first_missing};
ghost use Rattle.wi_accept.specs.Demands.{is_open, demands_at, first_open};
ghost use Rattle.wi_check.specs.private.Lists.{Rises, AreWhole};
ghost use Rattle.wi_check.specs.private.Rows.{AreRows, summaries, demanded};

use crate::heads::{Listings, missing_by_rules};
use crate::lists::{has_head, pairs_of};
use crate::rows::{Demand, Rows, open_by_rules, own_rows};
use std::alloc::Global;
use std::collections::HashSet;
use wi_accept::Follower;
use wi_base::NoMemory;
use wi_build::LazySystem;
use wi_pds::{Rule, System};
use wi_quantity::Weight;

/// What is lacking.
#[derive(Clone, Copy)]
pub(crate) struct Lack {
    /// The first head or pair that follows from a rule and isn't listed.
    pub follower: Option<Follower>,
    /// The first row that there must be below the bound, and isn't. It is known where no head and no pair is lacking.
    pub demand: Option<Demand>,
}

/// What is lacking first: the start's head, and then head by head, rule by rule.
pub(crate) fn first_lack(
    alloc: Global,
    system: &LazySystem<'_>,
    listed: Listings<'_>,
    rows: Rows<'_>,
    bound: Option<Weight>,
) -> Result<Lack, NoMemory>
    requires heads { Rises pair_below listed.heads.now }
    requires pairs { Rises pair_below listed.pairs.now }
    requires rows { AreRows rows }
    ensures follower { IfOk result (λ lack. lack.follower ≡ first_missing (rules system.now) (0, 0) listed.entry.heads.now listed.entry.pairs.now) }
    ensures demand { IfOk result (λ lack. lack.follower ≡ None → option_map demanded lack.demand ≡ first_open scale components (rules system.now) listed.entry.heads.now (summaries rows.entry) (option_map components bound)) }
{
    let (p, g) = system.start();
    if !has_head(listed.heads, p, g) {
        return Ok(Lack {
            follower: Some(Follower::Head(p, g)),
            demand: None,
        });
    }
    let mut whole = HashSet::new(alloc);
    let lack = lack_by_heads(alloc, system, listed, rows, bound, &mut whole, listed.heads);
    drop(whole);
    lack
}

// What is lacking first by the rules of some heads.
fn lack_by_heads(
    alloc: Global,
    system: &LazySystem<'_>,
    listed: Listings<'_>,
    rows: Rows<'_>,
    bound: Option<Weight>,
    whole: &mut HashSet<(u32, u32)>,
    heads: &[(u64, u32)],
) -> Result<Lack, NoMemory>
    requires heads { Rises pair_below listed.heads.now }
    requires pairs { Rises pair_below listed.pairs.now }
    requires rows { AreRows rows }
    requires whole { AreWhole listed.pairs.now whole.old.keys }
    ensures follower { IfOk result (λ lack. lack.follower ≡ find (λ n. is_missing listed.entry.heads.now listed.entry.pairs.now n) (followers_of (rules system.now) listed.entry.pairs.now heads.now)) }
    ensures demand { IfOk result (λ lack. lack.follower ≡ None → option_map demanded lack.demand ≡ first_open scale components (rules system.now) heads.now (summaries rows.entry) (option_map components bound)) }
{
    let mut demand = None;
    for head in heads {
        let lack = lack_at_head(alloc, system, listed, rows, bound, whole, *head, demand)?;
        if lack.follower.is_some() {
            return Ok(lack);
        }
        demand = lack.demand;
    }
    Ok(Lack {
        follower: None,
        demand,
    })
}

// What is lacking first by the rules of a head, where the heads before it may have an open row.
fn lack_at_head(
    alloc: Global,
    system: &LazySystem<'_>,
    listed: Listings<'_>,
    rows: Rows<'_>,
    bound: Option<Weight>,
    whole: &mut HashSet<(u32, u32)>,
    head: (u64, u32),
    before: Option<Demand>,
) -> Result<Lack, NoMemory>
    requires heads { Rises pair_below listed.heads.now }
    requires pairs { Rises pair_below listed.pairs.now }
    requires rows { AreRows rows }
    requires whole { AreWhole listed.pairs.now whole.old.keys }
    ensures follower { IfOk result (λ lack. lack.follower ≡ find (λ n. is_missing listed.entry.heads.now listed.entry.pairs.now n) (followers_at listed.entry.pairs.now head.1 (rules system.now head.0 head.1))) }
    ensures demand { IfOk result (λ lack. lack.follower ≡ None → option_map demanded lack.demand ≡ option_or (option_map demanded before) (find (λ d. is_open scale (option_map components bound) (summaries rows.entry) d) (demands_at components (summaries rows.entry) head.0 head.1 (rules system.now head.0 head.1)))) }
    ensures whole { OnOk result (AreWhole listed.entry.pairs.now whole.new.keys) }
{
    system.keeps();
    let rules = system.rules_of(alloc, head.0, head.1)?;
    let lack = lack_by_rules(listed, rows, bound, whole, head, before, rules.as_slice());
    drop(rules);
    lack
}

// The same, by the rules of the head. Of several open rows the first is told, so behind one no more are looked for.
fn lack_by_rules(
    listed: Listings<'_>,
    rows: Rows<'_>,
    bound: Option<Weight>,
    whole: &mut HashSet<(u32, u32)>,
    head: (u64, u32),
    before: Option<Demand>,
    rules: &[Rule<Weight>],
) -> Result<Lack, NoMemory>
    requires heads { Rises pair_below listed.heads.now }
    requires pairs { Rises pair_below listed.pairs.now }
    requires rows { AreRows rows }
    requires whole { AreWhole listed.pairs.now whole.old.keys }
    requires small { All (λ r. EachBelow (2 ^ 64) (components r.weight)) rules.now }
    ensures follower { IfOk result (λ lack. lack.follower ≡ find (λ n. is_missing listed.entry.heads.now listed.entry.pairs.now n) (followers_at listed.entry.pairs.now head.1 rules.now)) }
    ensures demand { IfOk result (λ lack. lack.follower ≡ None → option_map demanded lack.demand ≡ option_or (option_map demanded before) (find (λ d. is_open scale (option_map components bound) (summaries rows.entry) d) (demands_at components (summaries rows.entry) head.0 head.1 rules.now))) }
    ensures whole { OnOk result (AreWhole listed.entry.pairs.now whole.new.keys) }
{
    let below = pairs_of(listed.pairs, head.1);
    let follower = missing_by_rules(listed, whole, head.1, below, rules)?;
    let demand = match before {
        Some(_) => before,
        None => open_by_rules(rows, own_rows(rows, head), bound, head, rules),
    };
    Ok(Lack { follower, demand })
}
