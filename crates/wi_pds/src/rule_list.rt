//! A system of few rules can be written down as a list. Each time a head's rules are asked for, it goes over the whole list and
//! copies those that it finds: where rules are many, a system that makes them on demand is the better one.
use crate::rule::Rule;
use crate::system::System;
use std::alloc::Global;
use wi_base::{Listed, NoMemory};

/// A system that lists its rules. The rules of a head are those with its state and symbol, in the list's order.
#[derive(Drop)]
pub struct RuleList<W> {
    pub start: (u64, u32),
    pub rules: Listed<Rule<W>>,
}

impl<W: Copy> System<W> for RuleList<W> {
    ghost use Rattle.std.specs.Prelude.{ℕ, List};
    ghost use Rattle.wi_pds.specs.Rules.{rules_at};
    ghost use Rattle.wi_pds.specs.lemmas.Rules.{listed_name_heads};

    ghost start_head = { λ s. s.start };

    ghost rules = { λ s. rules_at s.rules };

    ghost may_ask = { λ s p g. Unit {0} };

    ghost names_head = { λ s. listed_name_heads s.rules };

    fn start(&self) -> (u64, u32) {
        self.start
    }

    fn rules_of(&self, alloc: Global, p: u64, g: u32) -> Result<Vec<Rule<W>>, NoMemory> {
        let found = self
            .rules
            .as_slice()
            .iter()
            .copied()
            .filter(|rule| rule.from == p && rule.top == g)
            .collect(alloc)?;
        Ok(found)
    }
}
