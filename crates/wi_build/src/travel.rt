//! A packet's travel as rules: what may happen on a link, and the further operations of a member. What must have failed is carried along
//! from group to group, and the walk over a row ends where not all of it may be down.
ghost use Rattle.std.specs.Prelude.{◌≡◌, suc, ◌∷◌, [], ◌++◌, ◌<◌, length, OnOk, IfOk, true};
ghost use Rattle.wi_build.specs.Encodings.{encoding_of};
ghost use Rattle.wi_build.specs.private.Hops.{IsArrival, AreNeeds, IsGroup, IsMember};
ghost use Rattle.wi_build.specs.private.Needs.{no_needs, with_groups};
ghost use Rattle.wi_build.specs.private.Rows.{head_rules, rules_for, member_rules, group_rules, fate_rules};
ghost use Rattle.wi_build.specs.private.Tags.{IsWithin};
ghost use Rattle.wi_net.specs.Net.{entry, risk_count};
ghost use Rattle.wi_net.specs.Tables.{row_members};
ghost use Rattle.wi_rules.specs.Rules.{may_use, ending, hop_rules, inactive_rules, undefined_rules, end_rules, on_link_rules};
ghost use Rattle.wi_world.specs.Moves.{before_end};

use crate::head::{Arrival, Fate, Head, Made, Way, operation};
use crate::lazy::LazySystem;
use crate::needs::Needs;
use crate::weights::effort;
use std::alloc::Global;
use wi_base::NoMemory;
use wi_labels::Label;
use wi_net::Member;
use wi_pds::{Rule, Word2};
use wi_quantity::Weight;
use wi_rules::{Origin, Spot};
use wi_world::{End, Step};

impl<'a> LazySystem<'a> {
    /// On a link: the hops of the entry, and last, in an accepting state, the ends.
    pub(crate) fn push_on_link(
        &self,
        alloc: Global,
        rules: &mut Vec<Rule<Weight>>,
        head: Head,
        at: Arrival,
    ) -> Result<(), NoMemory>
        requires { IsArrival self.now at head.symbol }
        ensures { OnOk result (rules.new.items ≡ rules.old.items ++ rules_for (encoding_of self.now) head (on_link_rules (encoding_of self.now) at.link at.state at.top)) }
    {
        self.push_entry(alloc, rules, head, at, Fate::Travels)?;
        if self.path_accepts(at.state) {
            self.push_ends(alloc, rules, head, at)?;
        }
        Ok(())
    }

    // The ends: the packet arrives, or it is dropped.
    fn push_ends(
        &self,
        alloc: Global,
        rules: &mut Vec<Rule<Weight>>,
        head: Head,
        at: Arrival,
    ) -> Result<(), NoMemory>
        requires { IsArrival self.now at head.symbol }
        ensures { OnOk result (rules.new.items ≡ rules.old.items ++ rules_for (encoding_of self.now) head (end_rules (encoding_of self.now) at.link at.top)) }
    {
        if !self.drops() {
            return self.push_end(rules, head, at, End::Arrives, 0);
        }
        self.push_inactive(alloc, rules, head, at)?;
        self.push_entry(alloc, rules, head, at, Fate::Lost)
    }

    // An end that leaves the header as it is, and for which so many risk groups must have failed.
    fn push_end(
        &self,
        rules: &mut Vec<Rule<Weight>>,
        head: Head,
        at: Arrival,
        end: End,
        failures: usize,
    ) -> Result<(), NoMemory>
        requires at { IsArrival self.now at head.symbol }
        requires end { IsWithin (Origin.Ending end) }
        requires failures { failures ≡ risk_count self.now.net (before_end self.now.net (entry self.now.net at.link at.top) end) }
        ensures { OnOk result (rules.new.items ≡ rules.old.items ++ rules_for (encoding_of self.now) head (ending (encoding_of self.now) at.link at.top end (Spot.Close 0) (Word2.One (suc at.top.0)) ∷ [])) }
    {
        self.keeps();
        let made = Made {
            word: Word2::One(head.symbol),
            weight: self.end_weight(failures),
            origin: Origin::Ending(end),
        };
        self.push(rules, head, Spot::Close(0), made)
    }

    // The end of a packet for which no group is active, if all their links may be down.
    fn push_inactive(
        &self,
        alloc: Global,
        rules: &mut Vec<Rule<Weight>>,
        head: Head,
        at: Arrival,
    ) -> Result<(), NoMemory>
        requires { IsArrival self.now at head.symbol }
        ensures { OnOk result (rules.new.items ≡ rules.old.items ++ rules_for (encoding_of self.now) head (inactive_rules (encoding_of self.now) at.link at.top)) }
    {
        self.keeps();
        let needs = self.all_needs(alloc, at)?;
        if !needs.may_be_down(self.limits()) {
            return Ok(());
        }
        self.push_end(rules, head, at, End::Inactive, needs.risks.len())
    }

    // What must have failed for no group to be active.
    fn all_needs(&self, alloc: Global, at: Arrival) -> Result<Needs, NoMemory>
        ensures { IfOk result (λ needs. needs ≡ with_groups self.now.net self.now.bounds no_needs (entry self.now.net at.link at.top)) }
    {
        let net = self.network();
        let bounds = self.limits();
        let mut needs = Needs::none(alloc);
        for group in net.entry(at.link, at.top) {
            needs.add_members(net, bounds, group.as_slice())?;
        }
        Ok(needs)
    }

    // What an entry has for each member, group by group, as long as what must have failed may be down.
    fn push_entry(
        &self,
        alloc: Global,
        rules: &mut Vec<Rule<Weight>>,
        head: Head,
        at: Arrival,
        fate: Fate,
    ) -> Result<(), NoMemory>
        requires { IsArrival self.now at head.symbol }
        ensures { OnOk result (rules.new.items ≡ rules.old.items ++ rules_for (encoding_of self.now) head (fate_rules (encoding_of self.now) at fate)) }
    {
        self.keeps();
        let net = self.network();
        let bounds = self.limits();
        let mut needs = Needs::none(alloc);
        let mut first = net.first_member(at.link, at.top);
        for (j, group) in net.entry(at.link, at.top).iter().enumerate() {
            if !needs.may_be_down(bounds) {
                return Ok(());
            }
            let members = group.as_slice();
            self.push_group(rules, head, at, &needs, j as u32, first, members, fate)?;
            needs.add_members(net, bounds, members)?;
            first += members.len() as u32;
        }
        Ok(())
    }

    // What a group has for each member. Its first member has this number.
    fn push_group(
        &self,
        rules: &mut Vec<Rule<Weight>>,
        head: Head,
        at: Arrival,
        needs: &Needs,
        group: u32,
        first: u32,
        members: &[Member],
        fate: Fate,
    ) -> Result<(), NoMemory>
        requires at { IsArrival self.now at head.symbol }
        requires needs { AreNeeds self.now at needs.now group }
        requires group { IsGroup self.now at group first members.now }
        ensures { OnOk result (rules.new.items ≡ rules.old.items ++ rules_for (encoding_of self.now) head (group_rules (encoding_of self.now) at fate group members.now)) }
    {
        self.keeps();
        for (i, member) in members.iter().enumerate() {
            let step = Step {
                group,
                member: i as u32,
            };
            self.push_member(rules, head, at, needs, step, first + i as u32, member, fate)?;
        }
        Ok(())
    }

    // What there is for the member of this number, if its link may be up.
    fn push_member(
        &self,
        rules: &mut Vec<Rule<Weight>>,
        head: Head,
        at: Arrival,
        needs: &Needs,
        step: Step,
        number: u32,
        member: &Member,
        fate: Fate,
    ) -> Result<(), NoMemory>
        requires at { IsArrival self.now at head.symbol }
        requires needs { AreNeeds self.now at needs.now step.group }
        requires member { IsMember self.now at step number member.now }
        ensures { OnOk result (rules.new.items ≡ rules.old.items ++ rules_for (encoding_of self.now) head (member_rules (encoding_of self.now) at fate step member.now)) }
    {
        self.keeps();
        if !needs.may_be_up(self.network(), self.limits(), member.link) {
            return Ok(());
        }
        match fate {
            Fate::Travels => self.push_hop(rules, head, at, needs, step, number, member),
            Fate::Lost => self.push_lost(rules, head, at, needs, step, number, member),
        }
    }

    // The hops by a member that can be taken: one for each state that comes after by its link.
    fn push_hop(
        &self,
        rules: &mut Vec<Rule<Weight>>,
        head: Head,
        at: Arrival,
        needs: &Needs,
        step: Step,
        number: u32,
        member: &Member,
    ) -> Result<(), NoMemory>
        requires at { IsArrival self.now at head.symbol }
        requires needs { AreNeeds self.now at needs.now step.group }
        requires member { IsMember self.now at step number member.now }
        requires taken { may_use self.now.net self.now.bounds (entry self.now.net at.link at.top) step.group member.now.link ≡ true }
        ensures { OnOk result (rules.new.items ≡ rules.old.items ++ rules_for (encoding_of self.now) head (hop_rules (encoding_of self.now) at.link at.state at.top step member.now)) }
    {
        self.keeps();
        let Some(word) = self.first_word_over(member.ops.as_slice(), at.top) else {
            return Ok(());
        };
        let made = Made {
            word,
            weight: self.hop_weight(member, needs.risks.len()),
            origin: Origin::Hop(step),
        };
        let states = self.path_after(at.state, member.link);
        self.push_each(rules, head, states, Way::through(member, number, 1), made)
    }

    // The end of a packet that is dropped on the way through a member that can be taken, with the first operation.
    fn push_lost(
        &self,
        rules: &mut Vec<Rule<Weight>>,
        head: Head,
        at: Arrival,
        needs: &Needs,
        step: Step,
        number: u32,
        member: &Member,
    ) -> Result<(), NoMemory>
        requires at { IsArrival self.now at head.symbol }
        requires needs { AreNeeds self.now at needs.now step.group }
        requires member { IsMember self.now at step number member.now }
        requires taken { may_use self.now.net self.now.bounds (entry self.now.net at.link at.top) step.group member.now.link ≡ true }
        ensures { OnOk result (rules.new.items ≡ rules.old.items ++ rules_for (encoding_of self.now) head (undefined_rules (encoding_of self.now) at.link at.top step member.now)) }
    {
        self.keeps();
        let Some((to, word)) = self.lost_by(member, number, 0, at.top) else {
            return Ok(());
        };
        let made = Made {
            word,
            weight: self.end_weight(needs.risks.len()),
            origin: Origin::Ending(End::Undefined(step)),
        };
        self.push(rules, head, to, made)
    }

    /// Amid the operations of the member of a number, so many of them done: the next one.
    pub(crate) fn push_operation(
        &self,
        rules: &mut Vec<Rule<Weight>>,
        head: Head,
        number: u32,
        done: u32,
        state: u32,
        top: Label,
    ) -> Result<(), NoMemory>
        requires symbol { head.symbol ≡ suc top.0 }
        requires label { top.0 < length self.now.net.classes }
        requires member { number < row_members self.now.net.rows }
        requires done { (0 < done) × (done < 8) }
        ensures { OnOk result (rules.new.items ≡ rules.old.items ++ head_rules self.now head (Spot.Mid number done state)) }
    {
        self.keeps();
        let member = self.member(number);
        let Some(op) = operation(member, done) else {
            return Ok(());
        };
        let Some(word) = self.word_over(op, top) else {
            return Ok(());
        };
        let made = Made {
            word,
            weight: effort(),
            origin: Origin::Operation(number, done),
        };
        let to = Way::through(member, number, done + 1).to(state);
        self.push(rules, head, to, made)
    }

    /// On the way through the member of a number to where the packet is dropped, so many operations done: the next one.
    pub(crate) fn push_dropping(
        &self,
        rules: &mut Vec<Rule<Weight>>,
        head: Head,
        number: u32,
        done: u32,
        top: Label,
    ) -> Result<(), NoMemory>
        requires symbol { head.symbol ≡ suc top.0 }
        requires label { top.0 < length self.now.net.classes }
        requires member { number < row_members self.now.net.rows }
        requires done { (0 < done) × (done < 8) }
        ensures { OnOk result (rules.new.items ≡ rules.old.items ++ head_rules self.now head (Spot.Drop number done)) }
    {
        self.keeps();
        let member = self.member(number);
        let Some((to, word)) = self.lost_by(member, number, done, top) else {
            return Ok(());
        };
        let made = Made {
            word,
            weight: effort(),
            origin: Origin::Operation(number, done),
        };
        self.push(rules, head, to, made)
    }
}
