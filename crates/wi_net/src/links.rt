//! Files, queries and scripts name links by their ends, so there are two indexes, and to find a link by either end is one
//! look-up. They double what a link takes.
ghost use Rattle.std.specs.Prelude.{◌≡◌, ◌<◌, ◌^◌, ◌++◌, ◌∷◌, [], ℕ, None, length, true, IfOk, IfSome, position, slice_get, Some, OnOk, OnErr};
ghost use Rattle.wi_net.specs.Ends.{is_out, is_in, are_ends_apart};

use crate::parts::{Link, NameId, RouterId};
use indexmap::IndexSet;
use std::alloc::Global;
use std::marker::Model;
use wi_base::NoMemory;

/// A list of links. No two leave a router by one interface, and no two reach one by one interface.
#[derive(Drop)]
pub struct Links {
    links: Vec<Link>,
    outs: IndexSet<(u32, u32)>,
    ins: IndexSet<(u32, u32)>,
}

impl Model for Links {
    ghost use Rattle.std.specs.Prelude.{List};
    ghost use Rattle.wi_net.specs.declared.parts.Link.{Link};
    ghost use Rattle.wi_net.specs.private.Ends.{AreKeyed};
    ghost use Rattle.std.specs.Prelude.{ℕ, ◌-◌, min, vec_len, vec_capacity};
    ghost use Rattle.indexmap.specs.IndexSet.{spare};

    // The links, and how many more there is room for.
    ghost Value = { List Link × ℕ };

    ghost view = { λ l. (l.links.items, min (vec_capacity l.links - vec_len l.links) (min (spare l.outs) (spare l.ins))) };

    ghost invariant = { λ l. AreKeyed l.links.items l.outs.keys l.ins.keys };
}

impl Links {
    /// No links.
    pub fn new(alloc: Global) -> Links
        ensures { result.0 ≡ [] }
    {
        Links {
            links: Vec::new(alloc),
            outs: IndexSet::new(alloc),
            ins: IndexSet::new(alloc),
        }
    }

    /// How many links there are.
    pub fn len(&self) -> usize
        ensures { result ≡ length self.now.0 }
    {
        self.links.len()
    }

    /// The links in their order.
    pub fn as_slice(&self) -> &[Link]
        ensures { result.now ≡ self.now.0 }
    {
        self.links.as_slice()
    }

    /// The link of a number.
    pub fn get(&self, number: usize) -> &Link
        requires { number < length self.now.0 }
        ensures { slice_get self.now.0 number ≡ Some result.now }
    {
        &self.links[number]
    }

    /// The link of a number, if there is one.
    pub fn at(&self, number: usize) -> Option<Link>
        ensures { result ≡ slice_get self.now.0 number }
    {
        self.links.get(number).copied()
    }

    /// The link that leaves a router by an interface.
    pub fn find_out(&self, router: RouterId, name: NameId) -> Option<usize>
        ensures value { result ≡ position (is_out router name) self.now.0 }
        ensures within { IfSome result (λ n. n < length self.now.0) }
    {
        self.outs.get_index_of(&(router.0, name.0))
    }

    /// The link that reaches a router by an interface.
    pub fn find_in(&self, router: RouterId, name: NameId) -> Option<usize>
        ensures value { result ≡ position (is_in router name) self.now.0 }
        ensures within { IfSome result (λ n. n < length self.now.0) }
    {
        self.ins.get_index_of(&(router.0, name.0))
    }

    /// Equal links, where no two have one end.
    pub fn twin(&self) -> Result<Links, NoMemory>
        requires { are_ends_apart self.now.0 ≡ true }
        ensures { IfOk result (λ links. links.0 ≡ self.now.0) }
    {
        let mut links = Links::new(*self.links.allocator());
        match links.put_all(self.as_slice()) {
            Ok(()) => Ok(links),
            Err(refused) => {
                drop(links);
                Err(refused)
            }
        }
    }

    // Puts all of some links, where there are none.
    fn put_all(&mut self, links: &[Link]) -> Result<(), NoMemory>
        requires none { self.old.0 ≡ [] }
        requires apart { are_ends_apart links.now ≡ true }
        ensures { OnOk result (self.new.0 ≡ links.now) }
    {
        for link in links {
            self.reserve()?;
            self.put(*link);
        }
        Ok(())
    }

    /// Makes room for one more link.
    pub fn reserve(&mut self) -> Result<(), NoMemory>
        ensures same { self.new.0 ≡ self.old.0 }
        ensures room { OnOk result (0 < self.new.1) }
    {
        self.links.reserve(1)?;
        self.outs.reserve(1)?;
        self.ins.reserve(1)?;
        Ok(())
    }

    /// Puts a link whose interfaces are free, where there is room.
    pub fn put(&mut self, link: Link)
        requires room { 0 < self.old.1 }
        requires free_out { position (is_out link.from link.out_if) self.old.0 ≡ None }
        requires free_in { position (is_in link.to link.in_if) self.old.0 ≡ None }
        ensures { self.new.0 ≡ self.old.0 ++ link ∷ [] }
    {
        let _new = self.ins.insert((link.to.0, link.in_if.0)).unwrap();
        let _new = self.outs.insert((link.from.0, link.out_if.0)).unwrap();
        self.links.push_reserved(link);
    }
}
