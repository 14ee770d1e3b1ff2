//! The ways around a link are a pushdown system of which nothing is kept: the rules of a router are made when they are asked for, of
//! the links that leave it. The start is a state of its own, so that a link from a router to itself has no empty way around it.
ghost use Rattle.std.specs.Prelude.{◌≡◌, ◌<◌, ◌++◌, true, length, map, slice_get, IfOk, OnOk};
ghost use Rattle.std.specs.Option.{option_to_list};
ghost use Rattle.wi_net.specs.Net.{is_link};
ghost use Rattle.wi_detour.specs.Graphs.{exits_of};
ghost use Rattle.wi_detour.specs.private.Around.{IsAround, is_outside, exits_at, links_on, along, endings, rules_around, spelled};

use crate::graph::Graph;
use std::alloc::Global;
use std::marker::Model;
use wi_base::NoMemory;
use wi_net::{Link, LinkId, Network};
use wi_pds::{Rule, RuleId, System, Word2};
use wi_weight::{Effort, Pair};

/// A length, and then a number of links.
pub type Length = Pair<Effort, Effort>;

// The states: the start, the end, and then one for each router.
const START: u64 = 0;

const END: u64 = 1;

const ROUTERS: u64 = 2;

/// The ways around a link: from a start, along links outside the link's risk group, to an end. There is one symbol, which the last
/// rule pops.
#[derive(Drop)]
pub struct Ways<'a> {
    net: &'a Network,
    graph: &'a Graph,
    link: LinkId,
    ends: Link,
}

impl<'a> Model for Ways<'a> {
    ghost use Rattle.std.specs.Prelude.{◌≡◌};
    ghost use Rattle.wi_detour.specs.Graphs.{exits_of};
    ghost use Rattle.wi_detour.specs.private.Around.{Around, IsAround};

    ghost Value = { Around };

    ghost view = { λ w. record { net = w.net.now; link = w.link; ends = w.ends } };

    ghost invariant = { λ w. IsAround (record { net = w.net.now; link = w.link; ends = w.ends }) × (w.graph.now ≡ exits_of w.net.now) };
}

impl<'a> Ways<'a> {
    /// The ways around a link of a network. It takes no memory.
    pub fn around(net: &'a Network, graph: &'a Graph, link: LinkId) -> Ways<'a>
        requires link { link.0 < length net.now.links }
        requires graph { graph.now ≡ exits_of net.now }
        ensures net { result.net ≡ net.now }
        ensures link { result.link ≡ link }
    {
        net.keeps();
        Ways {
            net,
            graph,
            link,
            ends: *net.link(link),
        }
    }

    /// What they keep: they are around a link of a network.
    pub fn keeps(&self)
        ensures { IsAround self.now }
    {
        let _link = self.link;
    }

    // The links that leave the router of a state.
    fn exits(&self, state: u64) -> &'a [LinkId]
        ensures { result.now ≡ exits_at self.now state }
    {
        if state == START {
            return self.graph.exits(self.ends.from.0 as u64);
        }
        if state == END {
            return &[];
        }
        self.graph.exits(state - ROUTERS)
    }

    // Whether a link isn't in the risk group of the link that is gone around.
    fn is_outside(&self, link: LinkId) -> bool
        ensures { result ≡ is_outside self.now link }
    {
        self.net.risk(self.link).0 != self.net.risk(link).0
    }

    // The rule that goes along a link.
    fn along(&self, state: u64, link: LinkId) -> Rule<Length>
        requires { is_link self.now.net link ≡ true }
        ensures { result ≡ along self.now.net state link }
    {
        let found = self.net.link(link);
        Rule {
            weight: of_length(found.distance, 1),
            from: state,
            to: found.to.0 as u64 + ROUTERS,
            tag: link.0 as u64,
            top: 0,
            word: Word2::One(0),
        }
    }

    // Puts the rules along links at the end of a list.
    fn push_links(&self, rules: &mut Vec<Rule<Length>>, state: u64) -> Result<(), NoMemory>
        ensures { OnOk result (rules.new.items ≡ rules.old.items ++ map (along self.now.net state) (links_on self.now state)) }
    {
        for link in self.exits(state) {
            if self.is_outside(*link) {
                rules.push(self.along(state, *link))?;
            }
        }
        Ok(())
    }

    // Puts the rule that ends at the link's target at the end of a list.
    fn push_ending(&self, rules: &mut Vec<Rule<Length>>, state: u64) -> Result<(), NoMemory>
        ensures { OnOk result (rules.new.items ≡ rules.old.items ++ endings self.now state) }
    {
        if state == self.ends.to.0 as u64 + ROUTERS {
            rules.push(Rule {
                weight: of_length(0, 0),
                from: state,
                to: END,
                tag: 0,
                top: 0,
                word: Word2::Empty,
            })?;
        }
        Ok(())
    }

    // The link that the rule at a place stands for: an ending stands for none.
    fn link_at(&self, id: RuleId) -> Option<LinkId>
        ensures { result ≡ slice_get (links_on self.now id.p) id.at }
    {
        let mut left = id.at;
        for link in self.exits(id.p) {
            if self.is_outside(*link) {
                if left == 0 {
                    return Some(*link);
                }
                left -= 1;
            }
        }
        None
    }

    /// The links that ids of rules stand for, in order. It goes over the links of each state once more.
    pub fn spelled(&self, alloc: Global, ids: &[RuleId]) -> Result<Vec<LinkId>, NoMemory>
        ensures { IfOk result (λ via. via.items ≡ spelled self.now ids.now) }
    {
        let mut via = Vec::new(alloc);
        for id in ids {
            if let Some(link) = self.link_at(*id) {
                via.push(link)?;
            }
        }
        Ok(via)
    }
}

// So long, with so many links.
fn of_length(distance: u32, links: u32) -> Length
    ensures { result ≡ record { first = record { count = distance }; second = record { count = links } } }
{
    Pair {
        first: Effort {
            count: distance as u128,
        },
        second: Effort {
            count: links as u128,
        },
    }
}

impl<'a> System<Length> for Ways<'a> {
    ghost use Rattle.wi_detour.specs.private.Around.{rules_around};
    ghost use Rattle.wi_detour.specs.lemmas.Around.{rules_name_heads};

    ghost start_head = { λ w. (0, 0) };

    ghost rules = { rules_around };

    ghost may_ask = { λ w p g. Unit {0} };

    ghost names_head = { rules_name_heads };

    fn start(&self) -> (u64, u32) {
        (START, 0)
    }

    fn rules_of(&self, alloc: Global, p: u64, g: u32) -> Result<Vec<Rule<Length>>, NoMemory> {
        let mut rules = Vec::new(alloc);
        if g == 0 {
            self.push_links(&mut rules, p)?;
            self.push_ending(&mut rules, p)?;
        }
        Ok(rules)
    }
}
