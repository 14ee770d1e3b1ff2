//! The systems that the tests ask about.
ghost use Rattle.std.specs.Prelude.{◌≡◌, ℕ, ◌^◌, ◌<◌, [], ◌∷◌, IfOk};
ghost use Rattle.wi_weight.specs.Weights.{EachBelow};
ghost use Rattle.wi_pds.specs.Rules.{rules_at};
ghost use Rattle.wi_pds.specs.Closed.{AreClosed};
ghost use Rattle.wi_saturate.specs.LeastTables.{AreReady};
ghost use Rattle.wi_search_tests.specs.Systems.{two_ways_list, doubling_list};

use std::alloc::Global;
use wi_base::{Listed, NoMemory};
use wi_pds::{Heads, Rule, RuleList, Word2};
use wi_weight::{Domain, Effort};

pub(crate) fn rule<W: Copy>(
    from: u64,
    top: u32,
    to: u64,
    word: Word2,
    weight: W,
    tag: u64,
) -> Rule<W>
    ensures { result ≡ record { from = from; top = top; to = to; word = word; weight = weight; tag = tag } }
{
    Rule {
        from,
        top,
        to,
        word,
        weight,
        tag,
    }
}

fn two_ways_rules<W: Domain>(
    alloc: Global,
    one: W,
    two: W,
    five: W,
) -> Result<Vec<Rule<W>>, NoMemory>
    ensures { IfOk result (λ rules. rules.items ≡ two_ways_list one two five) }
{
    let mut rules = Vec::new(alloc);
    rules.push(rule(0, 0, 2, Word2::Two(1, 0), one, 0))?;
    rules.push(rule(2, 1, 2, Word2::Empty, five, 1))?;
    rules.push(rule(2, 1, 3, Word2::Empty, two, 2))?;
    rules.push(rule(2, 0, 1, Word2::Empty, one, 3))?;
    rules.push(rule(3, 0, 1, Word2::Empty, one, 4))?;
    Ok(rules)
}

// Two ways to pop 1 in state 2, which end in different states. The one that weighs two is cheaper than the one that weighs five.
// Beside it what can be reached in it.
pub(crate) fn two_ways<W: Domain>(
    alloc: Global,
    one: W,
    two: W,
    five: W,
) -> Result<(RuleList<W>, Heads), NoMemory>
    requires one { EachBelow (2 ^ 64) (W.components one) }
    requires two { EachBelow (2 ^ 64) (W.components two) }
    requires five { EachBelow (2 ^ 64) (W.components five) }
    ensures start { IfOk result (λ r. r.0.start ≡ (0, 0)) }
    ensures heads { IfOk result (λ r. r.1.heads ≡ (0, 0) ∷ (2, 0) ∷ (2, 1) ∷ (3, 0) ∷ []) }
    ensures closed { IfOk result (λ r. AreClosed (rules_at r.0.rules) (0, 0) r.1.heads r.1.pairs) }
    ensures ready { IfOk result (λ r. AreReady W.components (rules_at r.0.rules) r.1.heads) }
{
    let rules = two_ways_rules(alloc, one, two, five)?;
    let heads = Vec::from_array(alloc, [(0, 0), (2, 0), (2, 1), (3, 0)])?;
    let pairs = Vec::from_array(alloc, [(1, 0)])?;
    Ok((
        RuleList {
            start: (0, 0),
            rules: Listed::of(rules),
        },
        Heads {
            heads: Listed::of(heads),
            pairs: Listed::of(pairs),
        },
    ))
}

// The same over efforts.
pub(crate) fn efforts(alloc: Global) -> Result<(RuleList<Effort>, Heads), NoMemory>
    ensures start { IfOk result (λ r. r.0.start ≡ (0, 0)) }
    ensures heads { IfOk result (λ r. r.1.heads ≡ (0, 0) ∷ (2, 0) ∷ (2, 1) ∷ (3, 0) ∷ []) }
    ensures closed { IfOk result (λ r. AreClosed (rules_at r.0.rules) (0, 0) r.1.heads r.1.pairs) }
    ensures ready { IfOk result (λ r. AreReady ⟦<Effort as Domain>⟧.components (rules_at r.0.rules) r.1.heads) }
{
    let two = Effort { count: 2 };
    two_ways(alloc, Effort { count: 1 }, two, Effort { count: 5 })
}

fn doubling_rules<W: Domain>(alloc: Global, one: W, base: W) -> Result<Vec<Rule<W>>, NoMemory>
    ensures { IfOk result (λ rules. rules.items ≡ doubling_list one base) }
{
    let mut rules = Vec::new(alloc);
    rules.push(rule(0, 0, 0, Word2::Empty, base, 0))?;
    rules.push(rule(0, 1, 0, Word2::Two(0, 0), one, 0))?;
    rules.push(rule(0, 2, 0, Word2::Two(1, 1), one, 0))?;
    rules.push(rule(0, 3, 0, Word2::One(2), one, 0))?;
    Ok(rules)
}

// 1 weighs twice what 0 does and one more, 2 twice what 1 does and one more, 3 one more than 2.
pub(crate) fn doubling<W: Domain>(
    alloc: Global,
    one: W,
    base: W,
) -> Result<(RuleList<W>, Heads), NoMemory>
    requires one { EachBelow (2 ^ 64) (W.components one) }
    requires base { EachBelow (2 ^ 64) (W.components base) }
    ensures start { IfOk result (λ r. r.0.start ≡ (0, 3)) }
    ensures closed { IfOk result (λ r. AreClosed (rules_at r.0.rules) (0, 3) r.1.heads r.1.pairs) }
    ensures ready { IfOk result (λ r. AreReady W.components (rules_at r.0.rules) r.1.heads) }
{
    let rules = doubling_rules(alloc, one, base)?;
    let heads = Vec::from_array(alloc, [(0, 0), (0, 1), (0, 2), (0, 3)])?;
    let pairs = Vec::from_array(alloc, [(0, 0), (0, 1), (1, 1)])?;
    Ok((
        RuleList {
            start: (0, 3),
            rules: Listed::of(rules),
        },
        Heads {
            heads: Listed::of(heads),
            pairs: Listed::of(pairs),
        },
    ))
}
