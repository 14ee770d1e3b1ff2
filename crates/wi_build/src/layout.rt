//! The number of a spot is computed from its parts, and they from it, so that no table of spots is needed: five counts are
//! enough. Each member has seven numbers for each state of the path's automaton, and seven more where packets are dropped,
//! whether it has so many operations or not.
ghost use Rattle.std.specs.Prelude.{◌≡◌, ◌<◌, ◌^◌, List};
ghost use Rattle.wi_net.specs.declared.bounds.Bounds.{Bounds};
ghost use Rattle.wi_quantity.specs.declared.vector.Part.{Part};
ghost use Rattle.wi_rules.specs.declared.spot.Spot.{Spot};
ghost use Rattle.wi_rules.specs.Numbers.{layout_of, number, spot_of, building, closing, on_links, amid, dropping};
ghost use Rattle.wi_build.specs.Encodings.{encoding_of};
ghost use Rattle.wi_build.specs.Systems.{spot_count};
ghost use Rattle.wi_build.specs.Tags.{origin_of};

use crate::tag;
use std::marker::Model;
use wi_net::{LinkId, Network};
use wi_pds::Rule;
use wi_quantity::Weight;
use wi_query::Query;
use wi_rules::{Origin, Spot};

/// How many states the automata of the first header, of the last header and of the links have, how many links and members there
/// are, and whether packets are dropped: this numbers the spots.
#[derive(Drop)]
pub struct Layout {
    first: u32,
    last: u32,
    path: u32,
    links: u32,
    members: u32,
    drops: bool,
}

impl Model for Layout {
    ghost use Rattle.wi_rules.specs.Numbers.{Layout};
    ghost use Rattle.wi_build.specs.private.Small.{IsSmall};

    ghost Value = { Layout };

    ghost view = { λ y. record { first = y.first; last = y.last; path = y.path; links = y.links; members = y.members; drops = y.drops } };

    ghost invariant = { λ y. IsSmall (record { first = y.first; last = y.last; path = y.path; links = y.links; members = y.members; drops = y.drops }) };
}

impl Layout {
    /// The layout of a network and a query. It takes no memory.
    pub fn of(net: &Network, query: &Query) -> Layout
        ensures { (vector : List (List Part)) (bounds : Bounds) → result ≡ layout_of (encoding_of (record { net = net.now; query = query.now; vector = vector; bounds = bounds })) }
    {
        net.keeps();
        query.keeps();
        let counts = net.counts();
        Layout {
            first: query.first.nfa().states() as u32,
            last: query.last.nfa().states() as u32,
            path: query.path.nfa().states() as u32,
            links: counts.links,
            members: counts.members,
            drops: query.drops,
        }
    }

    /// How many spots there are. It takes no memory.
    pub(crate) fn spots(&self) -> u64
        ensures { result ≡ spot_count self.now }
    {
        let path = u64::from(self.path);
        let rows = u64::from(self.members) * 7;
        let lost = if self.drops { rows } else { 0 };
        let travel = u64::from(self.links) * path + (rows * path + lost);
        u64::from(self.first) + (u64::from(self.last) + travel) + 2
    }

    /// The number of a spot. It takes no memory.
    pub(crate) fn number(&self, spot: Spot) -> u64
        ensures { result ≡ number self.now spot }
    {
        match spot {
            Spot::Start => 0,
            Spot::Done => 1,
            Spot::Build(state) => u64::from(state) + 2,
            Spot::Close(state) => u64::from(self.first) + u64::from(state) + 2,
            Spot::OnLink(link, state) => self.number_on_link(link, state),
            Spot::Mid(member, done, state) => self.number_amid(member, done, state),
            Spot::Drop(member, done) => self.number_dropping(member, done),
        }
    }

    fn number_on_link(&self, link: LinkId, state: u32) -> u64
        ensures { result ≡ number self.now (Spot.OnLink link state) }
    {
        let row = u64::from(link.0) * u64::from(self.path);
        u64::from(self.first) + (u64::from(self.last) + (row + u64::from(state))) + 2
    }

    fn number_amid(&self, member: u32, done: u32, state: u32) -> u64
        ensures { result ≡ number self.now (Spot.Mid member done state) }
    {
        let path = u64::from(self.path);
        let row = u64::from(member) * 7 + u64::from(done.saturating_sub(1));
        let amid = u64::from(self.links) * path + (row * path + u64::from(state));
        u64::from(self.first) + (u64::from(self.last) + amid) + 2
    }

    fn number_dropping(&self, member: u32, done: u32) -> u64
        ensures { result ≡ number self.now (Spot.Drop member done) }
    {
        let path = u64::from(self.path);
        let row = u64::from(member) * 7 + u64::from(done.saturating_sub(1));
        let travel = u64::from(self.links) * path + (u64::from(self.members) * 7 * path + row);
        u64::from(self.first) + (u64::from(self.last) + travel) + 2
    }

    /// The spot of a number, if there is one. It takes no memory.
    pub fn spot_of(&self, number: u64) -> Option<Spot>
        ensures { result ≡ spot_of self.now number }
    {
        if number == 0 {
            return Some(Spot::Start);
        }
        if number == 1 {
            return Some(Spot::Done);
        }
        self.building(number - 2)
    }

    fn building(&self, n: u64) -> Option<Spot>
        ensures { result ≡ building self.now n }
    {
        let size = u64::from(self.first);
        if n < size {
            Some(Spot::Build(n as u32))
        } else {
            self.closing(n - size)
        }
    }

    fn closing(&self, n: u64) -> Option<Spot>
        ensures { result ≡ closing self.now n }
    {
        let size = u64::from(self.last);
        if n < size {
            Some(Spot::Close(n as u32))
        } else {
            self.on_links(n - size)
        }
    }

    fn on_links(&self, n: u64) -> Option<Spot>
        ensures { result ≡ on_links self.now n }
    {
        let path = u64::from(self.path);
        let size = u64::from(self.links) * path;
        if n < size {
            Some(Spot::OnLink(LinkId((n / path) as u32), (n % path) as u32))
        } else {
            self.amid(n - size)
        }
    }

    fn amid(&self, n: u64) -> Option<Spot>
        ensures { result ≡ amid self.now n }
    {
        let path = u64::from(self.path);
        let size = u64::from(self.members) * 7 * path;
        if n < size {
            let row = n / path;
            Some(Spot::Mid((row / 7) as u32, (row % 7) as u32 + 1, (n % path) as u32))
        } else {
            self.dropping(n - size)
        }
    }

    fn dropping(&self, n: u64) -> Option<Spot>
        ensures { result ≡ dropping self.now n }
    {
        if self.drops && n < u64::from(self.members) * 7 {
            Some(Spot::Drop((n / 7) as u32, (n % 7) as u32 + 1))
        } else {
            None
        }
    }

    /// What a rule stands for, where it is one for the layout's network and query. It takes no memory.
    pub fn rule_origin(&self, rule: &Rule<Weight>) -> Origin
        ensures { result ≡ origin_of rule.now.tag }
    {
        tag::origin_of(rule.tag)
    }
}
