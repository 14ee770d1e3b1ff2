//! Sets of links are rising lists, so that equal sets are equal lists, and are small where few links fail. To look a link up
//! takes halvings; to add or to take out one moves those behind it.
ghost use Rattle.std.specs.Prelude.{◌≡◌, ◌≤◌, [], true, length, slice_get, not, IfOk, OnOk, OnErr};
ghost use Rattle.wi_net.specs.LinkSet.{has, with_link, without, is_rising};
ghost use Rattle.wi_net.specs.private.LinkSet.{place_in};

use crate::parts::LinkId;
use std::alloc::{AllocError, Global};
use std::marker::Model;
use wi_base::NoMemory;

/// A set of links, as those that failed: listed in rising order, and searched by halves.
#[derive(Drop)]
pub struct FailSet {
    links: Vec<LinkId>,
}

impl Model for FailSet {
    ghost use Rattle.std.specs.Prelude.{◌≡◌, true, List};
    ghost use Rattle.wi_net.specs.LinkSet.{is_rising};
    ghost use Rattle.wi_net.specs.declared.parts.LinkId.{LinkId};

    ghost Value = { List LinkId };

    ghost view = { λ s. s.links.items };

    ghost invariant = { λ s. is_rising s.links.items ≡ true };
}

impl FailSet {
    /// The empty set.
    pub fn new(alloc: Global) -> FailSet
        ensures { result ≡ [] }
    {
        FailSet {
            links: Vec::new(alloc),
        }
    }

    // The links in rising order.
    pub(crate) fn as_slice(&self) -> &[LinkId]
        ensures value { result.now ≡ self.now }
        ensures rising { is_rising result.now ≡ true }
    {
        self.links.as_slice()
    }

    /// How many links there are. It takes no memory.
    pub fn len(&self) -> usize
        ensures { result ≡ length self.now }
    {
        self.links.len()
    }

    /// The link at a place, in rising order. It takes no memory.
    pub fn at(&self, i: usize) -> Option<LinkId>
        ensures value { result ≡ slice_get self.now i }
        ensures rising { is_rising self.now ≡ true }
    {
        self.links.get(i).copied()
    }

    /// An equal set.
    pub fn twin(&self) -> Result<FailSet, NoMemory>
        ensures { IfOk result (λ s. s ≡ self.now) }
    {
        let links = Vec::from_slice(*self.links.allocator(), self.links.as_slice())?;
        Ok(FailSet { links })
    }

    /// Whether the link is in it. It takes no memory.
    pub fn contains(&self, link: LinkId) -> bool
        ensures { result ≡ has self.now link }
    {
        let at = place_of(self.links.as_slice(), link);
        stands_at(self.links.as_slice(), link, at)
    }

    /// Adds a link. It answers whether the link is new. Where memory runs out nothing has changed.
    #[tactic(auto, using(crate::proofs::RisingLemmas::rising_laws))]
    pub fn insert(&mut self, link: LinkId) -> Result<bool, NoMemory>
        ensures answer { IfOk result (λ added. added ≡ not (has self.old link)) }
        ensures ok { OnOk result (self.new ≡ with_link self.old link) }
        ensures err { OnErr result (self.new ≡ self.old) }
    {
        let at = place_of(self.links.as_slice(), link);
        if stands_at(self.links.as_slice(), link, at) {
            return Ok(false);
        }
        self.links.insert(at, link).map_err(AllocError::from)?;
        Ok(true)
    }

    /// Takes a link out. It answers whether the link was there. It takes no memory.
    #[tactic(auto, using(crate::proofs::RisingLemmas::rising_laws))]
    pub fn remove(&mut self, link: LinkId) -> bool
        ensures answer { result ≡ has self.old link }
        ensures rest { self.new ≡ without self.old link }
    {
        let at = place_of(self.links.as_slice(), link);
        if !stands_at(self.links.as_slice(), link, at) {
            return false;
        }
        let _gone = self.links.remove(at);
        true
    }
}

// How many links stand before a link's place.
fn place_of(links: &[LinkId], link: LinkId) -> usize
    requires { is_rising links.now ≡ true }
    ensures bound { result ≤ length links.now }
    ensures place { result ≡ place_in links.now link }
{
    links.partition_point(|x| x.0 < link.0)
}

// Whether a link stands at its place.
fn stands_at(links: &[LinkId], link: LinkId, at: usize) -> bool
    requires rising { is_rising links.now ≡ true }
    requires place { at ≡ place_in links.now link }
    ensures { result ≡ has links.now link }
{
    match links.get(at) {
        Some(x) => x.0 == link.0,
        None => false,
    }
}
