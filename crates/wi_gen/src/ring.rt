//! What has which number in a ring, so that it is said once and the parts are made from it. Nothing here takes memory.
ghost use Rattle.std.specs.Prelude.{◌≡◌, ◌≤◌, ◌<◌, ◌+◌, ◌*◌, ◌%◌, List, [], ◌∷◌};
ghost use Rattle.wi_gen.specs.Ring.{ring_of, further, back, bypass, along, destination, entry, exit, forward, backward, push, swap};
ghost use Rattle.wi_gen.specs.private.Ring.{IsRing, distance_of};

use std::marker::Model;
use wi_labels::{Class, Label, Op};
use wi_net::LinkId;

/// The link from `s` to the circle.
pub const ENTRY: LinkId = LinkId(0);

/// The link from the path's last router to `t`.
pub const EXIT: LinkId = LinkId(1);

/// A label with its class.
pub type Entry = (Label, Class);

/// How many routers are in the circle, how many of its links are on the path, and what distances are made from.
#[derive(Drop)]
pub struct RingPlan {
    seed: u64,
    size: u32,
    path: u32,
}

impl Model for RingPlan {
    ghost use Rattle.wi_gen.specs.Ring.{Ring};
    ghost use Rattle.wi_gen.specs.private.Ring.{IsRing};

    ghost Value = { Ring };

    ghost view = { λ p. record { seed = p.seed; size = p.size; path = p.path } };

    ghost invariant = { λ p. IsRing (record { seed = p.seed; size = p.size; path = p.path }) };
}

impl RingPlan {
    /// The ring of a seed and of so many routers.
    pub fn new(seed: u64, size: u32) -> RingPlan
        requires least { 4 ≤ size }
        requires most { size ≤ 2000 }
        ensures { result ≡ ring_of seed size }
    {
        let longest = size.min(64) - 2;
        let more = (seed % u64::from(longest)) as u32;
        RingPlan {
            seed,
            size,
            path: 2 + more,
        }
    }

    /// What keeps a ring within a network's limits.
    pub fn keeps(&self)
        ensures { IsRing self.now }
    {
        let _size = self.size;
    }

    /// How many routers are in the circle.
    pub fn size(&self) -> u32
        ensures { result ≡ self.now.size }
    {
        self.size
    }

    /// How many of the circle's links are on the path.
    pub fn path(&self) -> u32
        ensures { result ≡ self.now.path }
    {
        self.path
    }

    /// The place so many further round.
    pub fn further(&self, i: u32, d: u32) -> u32
        requires place { i < self.now.size }
        requires far { d < self.now.size }
        ensures { result ≡ further self.now i d }
    {
        let size = self.size;
        (i + d) % size
    }

    /// The place so many back.
    pub fn back(&self, i: u32, d: u32) -> u32
        requires place { i < self.now.size }
        requires far { d < self.now.size }
        ensures { result ≡ back self.now i d }
    {
        (i + self.size - d) % self.size
    }

    /// The label of the bypass of the path's link from a router.
    pub fn bypass(&self, i: u32) -> Entry
        requires { i < self.now.path }
        ensures { result ≡ bypass self.now i }
    {
        (Label(i), Class::Mpls)
    }

    /// The label with which packets come to a router along the path.
    pub fn along(&self, i: u32) -> Entry
        requires first { 1 ≤ i }
        requires last { i ≤ self.now.path }
        ensures { result ≡ along self.now i }
    {
        (Label(self.path + i - 1), Class::Smpls)
    }

    /// The label under all others.
    pub fn destination(&self) -> Label
        ensures { result ≡ destination self.now }
    {
        Label(2 * self.path)
    }

    /// The link from a router of the circle to the next.
    pub fn forward(&self, i: u32) -> LinkId
        requires { i < self.now.size }
        ensures { result ≡ forward self.now i }
    {
        prove!(i < self.size);
        LinkId(2 + i)
    }

    /// The link to a router of the circle from the next.
    pub fn backward(&self, i: u32) -> LinkId
        requires { i < self.now.size }
        ensures { result ≡ backward self.now i }
    {
        LinkId(2 + self.size + i)
    }

    /// The distance of a link.
    pub fn distance(&self, link: LinkId) -> u32
        requires { link.0 < 2 + 2 * self.now.size }
        ensures { result ≡ distance_of self.now link }
    {
        1 + ((self.seed % 97 + 31 * u64::from(link.0)) % 97) as u32
    }
}

/// Puts a label on top.
pub fn push(label: Entry) -> Op
    ensures { result ≡ push label }
{
    Op::Push(label.0, label.1)
}

/// Puts a label in the place of the top.
pub fn swap(label: Entry) -> Op
    ensures { result ≡ swap label }
{
    Op::Swap(label.0, label.1)
}
