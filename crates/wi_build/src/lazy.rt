//! A query may reach few of the states that there are, so the rules of a head are made when they are asked for, in one walk over
//! what they are of, and aren't kept: whoever asks again has them made again.
ghost use Rattle.std.specs.List.{list_all, flat_map, range_with_len};
ghost use Rattle.std.specs.Prelude.{◌≡◌, suc, ◌∷◌, [], ◌++◌, ◌<◌, length, map, OnOk, IfOk, ◌^◌, Some, true, slice_get, take, IfSome, not, if◌then◌else◌};
ghost use Rattle.wi_build.specs.Encodings.{encoding_of};
ghost use Rattle.wi_build.specs.Problems.{IsProblem};
ghost use Rattle.wi_build.specs.private.Rows.{rule_made, head_rules, spot_on, rules_for};
ghost use Rattle.wi_build.specs.Systems.{rules_by, weight};
ghost use Rattle.wi_build.specs.private.Tags.{IsWithin};
ghost use Rattle.wi_net.specs.LinkSet.{has};
ghost use Rattle.wi_net.specs.Net.{entry, links_where};
ghost use Rattle.wi_net.specs.Network.{op_known};
ghost use Rattle.wi_net.specs.Tables.{all_members, row_members};
ghost use Rattle.wi_nfa.specs.Left.{states_left};
ghost use Rattle.wi_pds.specs.declared.rule.Word2.{Word2};
ghost use Rattle.wi_quantity.specs.Vectors.{is_vector};
ghost use Rattle.wi_quantity.specs.Weighing.{hop_weight, end_weight, is_way_out};
ghost use Rattle.wi_query.specs.Sets.{holds};
ghost use Rattle.wi_rules.specs.Numbers.{Fits, layout_of, spot_of};
ghost use Rattle.wi_rules.specs.Rules.{may_build, word_over, first_word_over, lost_by, plain, build_rules, set_out_rules};
ghost use Rattle.wi_rules.specs.declared.spot.Spot.{Spot};

use crate::first::first_links;
use crate::head::{Arrival, Head, Made, Way, operation, plain};
use crate::layout::Layout;
use crate::needs::Needs;
use crate::problem::Problem;
use crate::states::{after, before};
use crate::tag::tag_of;
use crate::weights::{counted, effort};
use std::alloc::Global;
use std::marker::Model;
use wi_base::NoMemory;
use wi_labels::{Class, Label, Op};
use wi_net::{Bounds, LinkId, Member, Network};
use wi_nfa::States;
use wi_pds::{Rule, System, Word2};
use wi_quantity::{Weight, end_weight, first_weight, hop_weight};
use wi_query::{Query, SymbolSet};
use wi_rules::{Origin, Spot};

/// The rules of a problem, each head's made when they are asked for.
#[derive(Drop)]
pub struct LazySystem<'a> {
    problem: &'a Problem<'a>,
    layout: Layout,
    // Where a packet may set out. Each label on top asks for that, and mostly it is few of the links.
    first: Vec<LinkId>,
}

impl<'a> Model for LazySystem<'a> {
    ghost use Rattle.std.specs.Coded.{codes};
    ghost use Rattle.wi_regex.specs.contracts.regex.Regex as regex;
    ghost use Rattle.wi_query.specs.contracts.symbols.SymbolSet as set;
    ghost use Rattle.wi_build.specs.Problems.{Problem};
    ghost use Rattle.std.specs.Prelude.{◌≡◌};
    ghost use Rattle.wi_build.specs.Encodings.{encoding_of};
    ghost use Rattle.wi_build.specs.private.First.{first_links};
    ghost use Rattle.wi_rules.specs.Numbers.{layout_of};

    ghost Value = { Problem };

    ghost coded = { Prim.hlevel (codes, (regex.the_row set.the_row).coded) };

    ghost view = { λ s. s.problem.now };

    ghost invariant = { λ s. (s.layout ≡ layout_of (encoding_of s.problem.now)) × (s.first.items ≡ first_links (encoding_of s.problem.now)) };
}

impl<'a> LazySystem<'a> {
    /// The rules of a problem. It keeps the links on which the path lets a packet set out.
    pub fn of(alloc: Global, problem: &'a Problem<'a>) -> Result<LazySystem<'a>, NoMemory>
        ensures { IfOk result (λ system. system ≡ problem.now) }
    {
        problem.keeps();
        Ok(LazySystem {
            problem,
            layout: Layout::of(problem.net(), problem.query()),
            first: first_links(alloc, problem)?,
        })
    }

    /// How its spots are numbered.
    pub fn layout(&self) -> &Layout
        ensures { result.now ≡ layout_of (encoding_of self.now) }
    {
        &self.layout
    }

    /// What every system keeps: its problem is one.
    pub fn keeps(&self)
        ensures problem { IsProblem self.now }
        ensures vector { is_vector self.now.vector ≡ true }
    {
        self.problem.keeps();
    }

    // Puts a rule of a head at the end of a list.
    pub(crate) fn push(
        &self,
        rules: &mut Vec<Rule<Weight>>,
        head: Head,
        to: Spot,
        made: Made,
    ) -> Result<(), NoMemory>
        requires { IsWithin made.origin }
        ensures { OnOk result (rules.new.items ≡ rules.old.items ++ rule_made (encoding_of self.now) head to made ∷ []) }
    {
        rules.push(Rule {
            from: head.spot,
            top: head.symbol,
            to: self.layout.number(to),
            word: made.word,
            weight: made.weight,
            tag: tag_of(made.origin),
        })?;
        Ok(())
    }

    // Puts a rule of a head for each state at the end of a list.
    pub(crate) fn push_each(
        &self,
        rules: &mut Vec<Rule<Weight>>,
        head: Head,
        states: States<'_, SymbolSet>,
        way: Way,
        made: Made,
    ) -> Result<(), NoMemory>
        requires { IsWithin made.origin }
        ensures { OnOk result (rules.new.items ≡ rules.old.items ++ map (λ q. rule_made (encoding_of self.now) head (spot_on way q) made) (states_left holds states.entry)) }
    {
        for state in states {
            self.push(rules, head, way.to(state), made)?;
        }
        Ok(())
    }
}

// What the rules are made of: the automata of the query, what operations write, and weights.
impl<'a> LazySystem<'a> {
    /// The network.
    pub fn network(&self) -> &'a Network
        ensures { result.now ≡ self.now.net }
    {
        self.problem.net()
    }

    /// What may fail in it.
    pub(crate) fn limits(&self) -> &'a Bounds
        ensures { result.now ≡ self.now.bounds }
    {
        self.problem.bounds()
    }

    /// How many terms a weight has that is shown, its effort not counted.
    pub fn terms(&self) -> usize
        ensures { result ≡ length self.now.vector }
    {
        self.problem.terms()
    }

    // The query.
    fn query(&self) -> &'a Query
        ensures { result.now ≡ self.now.query }
    {
        self.problem.query()
    }

    /// Whether packets are to be dropped.
    pub(crate) fn drops(&self) -> bool
        ensures { result ≡ (encoding_of self.now).drops }
    {
        self.query().drops
    }

    /// How many labels there are.
    pub(crate) fn labels(&self) -> u32
        ensures { result ≡ length self.now.net.classes }
    {
        self.network().keeps();
        self.network().counts().labels
    }

    /// The spot of a number, if there is one.
    pub(crate) fn spot_of(&self, number: u64) -> Option<Spot>
        ensures value { result ≡ spot_of (layout_of (encoding_of self.now)) number }
        ensures fits { IfSome result (Fits (layout_of (encoding_of self.now))) }
    {
        self.layout.spot_of(number)
    }

    /// How many states the automaton of the first header has.
    pub(crate) fn first_states(&self) -> u32
        ensures { result ≡ (encoding_of self.now).first.states }
    {
        let query = self.query();
        query.keeps();
        query.first.nfa().states() as u32
    }

    pub(crate) fn first_accepts(&self, state: u32) -> bool
        ensures { result ≡ (encoding_of self.now).first.accepts state }
    {
        self.query().first.nfa().accepts(state)
    }

    pub(crate) fn path_accepts(&self, state: u32) -> bool
        ensures { result ≡ (encoding_of self.now).path.accepts state }
    {
        self.query().path.nfa().accepts(state)
    }

    pub(crate) fn last_accepts(&self, state: u32) -> bool
        ensures { result ≡ (encoding_of self.now).last.accepts state }
    {
        self.query().last.nfa().accepts(state)
    }

    /// The states of the first header's automaton before one by a label.
    pub(crate) fn first_before(&self, state: u32, label: u32) -> States<'a, SymbolSet>
        requires { state < (encoding_of self.now).first.states }
        ensures { states_left holds result ≡ (encoding_of self.now).first_before state label }
    {
        before(&self.query().first, state, label)
    }

    /// The states of the path's automaton after one by a link.
    pub(crate) fn path_after(&self, state: u32, link: LinkId) -> States<'a, SymbolSet>
        requires { state < (encoding_of self.now).path.states }
        ensures { states_left holds result ≡ (encoding_of self.now).path.next state link.0 }
    {
        after(&self.query().path, state, link.0)
    }

    /// The states of the last header's automaton after one by a label.
    pub(crate) fn last_after(&self, state: u32, label: Label) -> States<'a, SymbolSet>
        requires { state < (encoding_of self.now).last.states }
        ensures { states_left holds result ≡ (encoding_of self.now).last.next state label.0 }
    {
        after(&self.query().last, state, label.0)
    }

    /// Whether a label may be pushed on a symbol where a header is made from the bottom up.
    pub(crate) fn may_build(&self, label: u32, symbol: u32) -> bool
        requires { label < length self.now.net.classes }
        ensures { result ≡ may_build self.now.net label symbol }
    {
        self.network().keeps();
        let class = self.network().class(Label(label));
        if symbol == 0 {
            return matches!(class, Class::Ip);
        }
        let below = symbol - 1;
        below < self.labels()
            && Op::Push(Label(label), class).allowed(self.network().class(Label(below)))
    }

    /// What an operation writes over a label, where it is defined there.
    pub(crate) fn word_over(&self, op: Op, top: Label) -> Option<Word2>
        requires top { top.0 < length self.now.net.classes }
        requires op { op_known self.now.net op ≡ true }
        ensures { result ≡ word_over self.now.net op top.0 }
    {
        self.network().keeps();
        if !op.allowed(self.network().class(top)) {
            return None;
        }
        Some(match op {
            Op::Swap(label, _) => Word2::One(label.0 + 1),
            Op::Push(label, _) => Word2::Two(label.0 + 1, top.0 + 1),
            Op::Pop => Word2::Empty,
        })
    }

    /// What a member's first operation writes over a label; the label itself, where there is none.
    pub(crate) fn first_word_over(&self, ops: &[Op], top: Label) -> Option<Word2>
        requires top { top.0 < length self.now.net.classes }
        requires ops { list_all (op_known self.now.net) ops.now ≡ true }
        ensures { result ≡ first_word_over self.now.net ops.now top.0 }
    {
        self.network().keeps();
        match ops.first() {
            Some(op) => self.word_over(*op, top),
            None => Some(Word2::One(top.0 + 1)),
        }
    }

    /// Where an operation of the member of a number leads a packet that is dropped on the way through it, and what it writes: the
    /// operation at a place, if it has one.
    pub(crate) fn lost_by(
        &self,
        member: &Member,
        number: u32,
        place: u32,
        top: Label,
    ) -> Option<(Spot, Word2)>
        requires top { top.0 < length self.now.net.classes }
        requires ops { list_all (op_known self.now.net) member.now.ops ≡ true }
        requires place { place < 8 }
        ensures { result ≡ lost_by self.now.net member.now.ops number place top.0 }
    {
        self.network().keeps();
        let op = operation(member, place)?;
        let Some(word) = self.word_over(op, top) else {
            return Some((Spot::Close(0), Word2::One(top.0 + 1)));
        };
        let next = place + 1;
        if (next as usize) < member.ops.as_slice().len() {
            Some((Spot::Drop(number, next), word))
        } else {
            None
        }
    }

    /// The member of a number.
    pub(crate) fn member(&self, number: u32) -> &'a Member
        requires { number < row_members self.now.net.rows }
        ensures value { slice_get (all_members self.now.net.rows) number ≡ Some result.now }
        ensures ops { list_all (op_known self.now.net) result.now.ops ≡ true }
    {
        let net = self.network();
        net.keeps();
        net.member(number)
    }

    /// The weight of setting out on a link, with effort 1.
    pub(crate) fn first_weight(&self, link: LinkId) -> Weight
        requires { link.0 < length self.now.net.links }
        ensures { result ≡ weight ((encoding_of self.now).first_share link ++ 1 ∷ []) }
    {
        counted(first_weight(self.problem.vector(), self.network(), link))
    }

    /// The weight of a hop, with effort 1, where so many risk groups must have failed before.
    pub(crate) fn hop_weight(&self, member: &Member, failures: usize) -> Weight
        requires member { is_way_out self.now.net member.now ≡ true }
        requires failures { failures < 2 ^ 32 }
        ensures { result ≡ weight (take 5 (hop_weight self.now.net self.now.vector member.now failures) ++ 1 ∷ []) }
    {
        counted(hop_weight(self.problem.vector(), self.network(), member, failures))
    }

    /// The weight of an end, with effort 1, where so many risk groups must have failed for it.
    pub(crate) fn end_weight(&self, failures: usize) -> Weight
        requires { failures < 2 ^ 32 }
        ensures { result ≡ weight (take 5 (end_weight self.now.vector failures) ++ 1 ∷ []) }
    {
        counted(end_weight(self.problem.vector(), failures))
    }
}

// Rules that make the first header, set out, and read the last header.
impl<'a> LazySystem<'a> {
    /// Start: to each accepting state of the first header.
    pub(crate) fn push_start(
        &self,
        rules: &mut Vec<Rule<Weight>>,
        head: Head,
    ) -> Result<(), NoMemory>
        requires { head.symbol ≡ 0 }
        ensures { OnOk result (rules.new.items ≡ rules.old.items ++ head_rules self.now head Spot.Start) }
    {
        for state in 0..self.first_states() {
            self.push_accepting(rules, head, state)?;
        }
        Ok(())
    }

    // The rule that begins in a state, if that accepts.
    fn push_accepting(
        &self,
        rules: &mut Vec<Rule<Weight>>,
        head: Head,
        state: u32,
    ) -> Result<(), NoMemory>
        ensures { OnOk result (rules.new.items ≡ rules.old.items ++ rules_for (encoding_of self.now) head (if (encoding_of self.now).first.accepts state then plain (encoding_of self.now) (Spot.Build state) (Word2.One 0) ∷ [] else [])) }
    {
        if self.first_accepts(state) {
            self.push(rules, head, Spot::Build(state), plain(Word2::One(0)))?;
        }
        Ok(())
    }

    /// Build, past its first state: each label that may be pushed.
    pub(crate) fn push_build(
        &self,
        rules: &mut Vec<Rule<Weight>>,
        head: Head,
        state: u32,
    ) -> Result<(), NoMemory>
        requires { state < (encoding_of self.now).first.states }
        ensures { OnOk result (rules.new.items ≡ rules.old.items ++ rules_for (encoding_of self.now) head (flat_map (build_rules (encoding_of self.now) state head.symbol) (range_with_len 0 (length self.now.net.classes)))) }
    {
        for label in 0..self.labels() {
            self.push_label(rules, head, state, label)?;
        }
        Ok(())
    }

    // The rules that push a label.
    fn push_label(
        &self,
        rules: &mut Vec<Rule<Weight>>,
        head: Head,
        state: u32,
        label: u32,
    ) -> Result<(), NoMemory>
        requires state { state < (encoding_of self.now).first.states }
        requires label { label < length self.now.net.classes }
        ensures { OnOk result (rules.new.items ≡ rules.old.items ++ rules_for (encoding_of self.now) head (build_rules (encoding_of self.now) state head.symbol label)) }
    {
        self.keeps();
        if !self.may_build(label, head.symbol) {
            return Ok(());
        }
        let made = Made {
            word: Word2::Two(label + 1, head.symbol),
            weight: effort(),
            origin: Origin::Pushed(Label(label)),
        };
        let states = self.first_before(state, label);
        self.push_each(rules, head, states, Way::Build, made)
    }

    /// Build in its first state: each link that isn't known to be down, and by which the path goes on, may be the first.
    pub(crate) fn push_first_links(
        &self,
        rules: &mut Vec<Rule<Weight>>,
        head: Head,
        top: Label,
    ) -> Result<(), NoMemory>
        requires { head.symbol ≡ suc top.0 }
        ensures { OnOk result (rules.new.items ≡ rules.old.items ++ rules_for (encoding_of self.now) head (flat_map (set_out_rules (encoding_of self.now) top.0) (links_where self.now.net (λ e. not (has self.now.bounds.down e))))) }
    {
        rules.reserve(self.first.len())?;
        for link in &self.first {
            self.push_first_link(rules, head, top, *link)?;
        }
        Ok(())
    }

    // The rules that set out on a link.
    fn push_first_link(
        &self,
        rules: &mut Vec<Rule<Weight>>,
        head: Head,
        top: Label,
        link: LinkId,
    ) -> Result<(), NoMemory>
        requires symbol { head.symbol ≡ suc top.0 }
        requires link { link.0 < length self.now.net.links }
        ensures { OnOk result (rules.new.items ≡ rules.old.items ++ rules_for (encoding_of self.now) head (set_out_rules (encoding_of self.now) top.0 link)) }
    {
        self.keeps();
        let made = Made {
            word: Word2::One(head.symbol),
            weight: self.first_weight(link),
            origin: Origin::SetOut(link),
        };
        let states = self.path_after(0, link);
        self.push_each(rules, head, states, Way::OnLink(link), made)
    }

    /// Close over a label: to each state after it.
    pub(crate) fn push_close(
        &self,
        rules: &mut Vec<Rule<Weight>>,
        head: Head,
        state: u32,
        top: Label,
    ) -> Result<(), NoMemory>
        requires symbol { head.symbol ≡ suc top.0 }
        requires label { top.0 < length self.now.net.classes }
        requires state { state < (encoding_of self.now).last.states }
        ensures { OnOk result (rules.new.items ≡ rules.old.items ++ head_rules self.now head (Spot.Close state)) }
    {
        let states = self.last_after(state, top);
        self.push_each(rules, head, states, Way::Close, plain(Word2::Empty))
    }

    /// Close over the bottom: to the end, from an accepting state.
    pub(crate) fn push_done(
        &self,
        rules: &mut Vec<Rule<Weight>>,
        head: Head,
        state: u32,
    ) -> Result<(), NoMemory>
        requires { head.symbol ≡ 0 }
        ensures { OnOk result (rules.new.items ≡ rules.old.items ++ head_rules self.now head (Spot.Close state)) }
    {
        if self.last_accepts(state) {
            self.push(rules, head, Spot::Done, plain(Word2::Empty))?;
        }
        Ok(())
    }
}

// The rules of a head.
impl<'a> LazySystem<'a> {
    // Puts the rules of a head over the bottom at the end of a list.
    fn push_at_bottom(
        &self,
        rules: &mut Vec<Rule<Weight>>,
        head: Head,
        spot: Spot,
    ) -> Result<(), NoMemory>
        requires spot { Fits (layout_of (encoding_of self.now)) spot }
        requires symbol { head.symbol ≡ 0 }
        ensures { OnOk result (rules.new.items ≡ rules.old.items ++ head_rules self.now head spot) }
    {
        match spot {
            Spot::Start => self.push_start(rules, head),
            Spot::Build(state) if state > 0 => self.push_build(rules, head, state),
            Spot::Close(state) => self.push_done(rules, head, state),
            _ => Ok(()),
        }
    }

    // Puts the rules of a head over a label at the end of a list.
    fn push_at_label(
        &self,
        alloc: Global,
        rules: &mut Vec<Rule<Weight>>,
        head: Head,
        spot: Spot,
        top: Label,
    ) -> Result<(), NoMemory>
        requires spot { Fits (layout_of (encoding_of self.now)) spot }
        requires symbol { head.symbol ≡ suc top.0 }
        requires label { top.0 < length self.now.net.classes }
        ensures { OnOk result (rules.new.items ≡ rules.old.items ++ head_rules self.now head spot) }
    {
        match spot {
            Spot::Start | Spot::Done => Ok(()),
            Spot::Build(0) => self.push_first_links(rules, head, top),
            Spot::Build(state) => self.push_build(rules, head, state),
            Spot::Close(state) => self.push_close(rules, head, state, top),
            Spot::OnLink(link, state) => {
                self.push_on_link(alloc, rules, head, Arrival { link, state, top })
            }
            Spot::Mid(member, done, state) => {
                self.push_operation(rules, head, member, done, state, top)
            }
            Spot::Drop(member, done) => self.push_dropping(rules, head, member, done, top),
        }
    }

    /// Puts the rules of a head at the end of a list.
    ///
    /// What it costs: one walk over what these rules are of, with the states that come after or before: all labels where a
    /// header is made, the links on which the packet may set out, and on a link the groups of its row, as far as what must have
    /// failed may be down. What the groups before need is carried along. Where a packet may be dropped there, the row is gone over
    /// twice more, once to its end, for what all its groups need.
    pub(crate) fn push_head(
        &self,
        alloc: Global,
        rules: &mut Vec<Rule<Weight>>,
        head: Head,
    ) -> Result<(), NoMemory>
        ensures { OnOk result (rules.new.items ≡ rules.old.items ++ rules_by (encoding_of self.now) head.spot head.symbol) }
    {
        let Some(spot) = self.spot_of(head.spot) else {
            return Ok(());
        };
        if head.symbol == 0 {
            return self.push_at_bottom(rules, head, spot);
        }
        if head.symbol > self.labels() {
            return Ok(());
        }
        self.push_at_label(alloc, rules, head, spot, Label(head.symbol - 1))
    }
}

impl<'a> System<Weight> for LazySystem<'a> {
    ghost use Rattle.wi_build.specs.Encodings.{encoding_of};
    ghost use Rattle.wi_build.specs.Systems.{rules_by};
    ghost use Rattle.wi_build.specs.lemmas.Systems.{rules_name_heads};

    ghost start_head = { λ s. (0, 0) };

    ghost rules = { λ s. rules_by (encoding_of s) };

    ghost may_ask = { λ s p g. Unit {0} };

    ghost names_head = { λ s. rules_name_heads (encoding_of s) };

    fn start(&self) -> (u64, u32) {
        (0, 0)
    }

    fn rules_of(&self, alloc: Global, p: u64, g: u32) -> Result<Vec<Rule<Weight>>, NoMemory> {
        let mut rules = Vec::new(alloc);
        let head = Head { spot: p, symbol: g };
        self.push_head(alloc, &mut rules, head)?;
        Ok(rules)
    }
}
