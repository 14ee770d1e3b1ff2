//! Whether heads and pairs are closed: each rule of each listed head is looked at once, with the pairs of its symbol. Many rules over
//! one symbol, in all states, put the same symbol in its place; so it is noted for which two no pair is missing, and their pairs are
//! gone along once.
ghost use Rattle.std.specs.Prelude.{◌≡◌, map, find, IfOk, OnOk};
ghost use Rattle.wi_cert.specs.Order.{pair_below};
ghost use Rattle.wi_accept.specs.Followers.{pairs_of, followers, followers_at, is_missing};
ghost use Rattle.wi_check.specs.private.Lists.{Rises, symbol_below, AreWhole};

use crate::lists::{first_absent, has_head, has_pair, heads_of, pairs_of};
use std::collections::HashSet;
use wi_accept::Follower;
use wi_base::NoMemory;
use wi_pds::{Rule, Word2};
use wi_quantity::Weight;

/// Heads and pairs of a certificate.
#[derive(Clone, Copy)]
pub(crate) struct Listings<'a> {
    pub heads: &'a [(u64, u32)],
    pub pairs: &'a [(u32, u32)],
}

/// The first that follows from rules over a symbol and isn't listed; `below` are the pairs of the symbol.
pub(crate) fn missing_by_rules(
    listed: Listings<'_>,
    whole: &mut HashSet<(u32, u32)>,
    g: u32,
    below: &[(u32, u32)],
    rules: &[Rule<Weight>],
) -> Result<Option<Follower>, NoMemory>
    requires heads { Rises pair_below listed.heads.now }
    requires pairs { Rises pair_below listed.pairs.now }
    requires whole { AreWhole listed.pairs.now whole.old.keys }
    requires below { below.now ≡ pairs_of listed.pairs.now g }
    ensures found { IfOk result (λ found. found ≡ find (λ n. is_missing listed.entry.heads.now listed.entry.pairs.now n) (followers_at listed.entry.pairs.now g rules.now)) }
    ensures whole { OnOk result (AreWhole listed.entry.pairs.now whole.new.keys) }
{
    for rule in rules {
        let found = missing_by_rule(listed, whole, g, below, rule.to, rule.word)?;
        if found.is_some() {
            return Ok(found);
        }
    }
    Ok(None)
}

// The first that follows from a rule over a symbol and isn't listed; `below` are the pairs of the symbol.
fn missing_by_rule(
    listed: Listings<'_>,
    whole: &mut HashSet<(u32, u32)>,
    g: u32,
    below: &[(u32, u32)],
    to: u64,
    word: Word2,
) -> Result<Option<Follower>, NoMemory>
    requires heads { Rises pair_below listed.heads.now }
    requires pairs { Rises pair_below listed.pairs.now }
    requires whole { AreWhole listed.pairs.now whole.old.keys }
    requires below { below.now ≡ pairs_of listed.pairs.now g }
    ensures found { IfOk result (λ found. found ≡ find (λ n. is_missing listed.entry.heads.now listed.entry.pairs.now n) (followers listed.entry.pairs.now g to word)) }
    ensures whole { OnOk result (AreWhole listed.entry.pairs.now whole.new.keys) }
{
    match word {
        Word2::Empty => Ok(missing_head(listed, below, to)),
        Word2::One(u) => {
            if !has_head(listed.heads, to, u) {
                return Ok(Some(Follower::Head(to, u)));
            }
            missing_pair(listed, whole, g, below, u)
        }
        Word2::Two(u, v) => {
            if !has_head(listed.heads, to, u) {
                return Ok(Some(Follower::Head(to, u)));
            }
            if !has_pair(listed.pairs, u, v) {
                return Ok(Some(Follower::Pair(u, v)));
            }
            missing_pair(listed, whole, g, below, v)
        }
    }
}

// The first head that isn't listed, of those of a spot with the lower symbols of pairs.
fn missing_head(listed: Listings<'_>, below: &[(u32, u32)], to: u64) -> Option<Follower>
    requires heads { Rises pair_below listed.heads.now }
    requires below { Rises symbol_below below.now }
    ensures { result ≡ find (λ n. is_missing listed.entry.heads.now listed.entry.pairs.now n) (map (λ x. Follower.Head to x.1) below.now) }
{
    let lower = first_absent(below, heads_of(listed.heads, to))?;
    Some(Follower::Head(to, lower))
}

// The first pair that isn't listed, of those of an upper symbol with the lower symbols of the pairs of g. Those of g itself are all
// listed, so a rule that keeps its top needs no look.
fn missing_pair(
    listed: Listings<'_>,
    whole: &mut HashSet<(u32, u32)>,
    g: u32,
    below: &[(u32, u32)],
    upper: u32,
) -> Result<Option<Follower>, NoMemory>
    requires pairs { Rises pair_below listed.pairs.now }
    requires whole { AreWhole listed.pairs.now whole.old.keys }
    requires below { below.now ≡ pairs_of listed.pairs.now g }
    ensures found { IfOk result (λ found. found ≡ find (λ n. is_missing listed.entry.heads.now listed.entry.pairs.now n) (map (λ x. Follower.Pair upper x.1) below.now)) }
    ensures whole { OnOk result (AreWhole listed.entry.pairs.now whole.new.keys) }
{
    if upper == g || whole.contains(&(g, upper)) {
        Ok(None)
    } else {
        unseen_missing_pair(listed, whole, g, below, upper)
    }
}

// The same where these symbols weren't looked at yet. If no pair is missing, that is noted.
fn unseen_missing_pair(
    listed: Listings<'_>,
    whole: &mut HashSet<(u32, u32)>,
    g: u32,
    below: &[(u32, u32)],
    upper: u32,
) -> Result<Option<Follower>, NoMemory>
    requires pairs { Rises pair_below listed.pairs.now }
    requires whole { AreWhole listed.pairs.now whole.old.keys }
    requires below { below.now ≡ pairs_of listed.pairs.now g }
    ensures found { IfOk result (λ found. found ≡ find (λ n. is_missing listed.entry.heads.now listed.entry.pairs.now n) (map (λ x. Follower.Pair upper x.1) below.now)) }
    ensures whole { OnOk result (AreWhole listed.entry.pairs.now whole.new.keys) }
{
    match first_absent(below, pairs_of(listed.pairs, upper)) {
        Some(lower) => Ok(Some(Follower::Pair(upper, lower))),
        None => {
            whole.insert((g, upper))?;
            Ok(None)
        }
    }
}
