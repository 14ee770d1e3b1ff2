//! A way is followed from router to router, so there is an index from a router to the links that leave it, made in one walk over the
//! links. It takes a list for each router, and a number for each link.
ghost use Rattle.std.specs.Prelude.{◌≡◌, ◌<◌, ◌++◌, ◌∷◌, [], length, slice_set, map, IfOk, OnOk};
ghost use Rattle.std.specs.List.{range_with_len};
ghost use Rattle.wi_detour.specs.Graphs.{exits_of};
ghost use Rattle.wi_detour.specs.private.Exits.{exits_in};

use std::alloc::{AllocError, Global};
use std::marker::Model;
use wi_base::NoMemory;
use wi_net::{LinkId, Network};

// The links that leave one router.
#[derive(Drop)]
struct Exits {
    links: Vec<LinkId>,
}

impl Model for Exits {
    ghost use Rattle.std.specs.Prelude.{List};
    ghost use Rattle.wi_net.specs.declared.parts.LinkId.{LinkId};

    ghost Value = { List LinkId };

    ghost view = { λ e. e.links.items };
}

impl Exits {
    fn new(alloc: Global) -> Exits
        ensures { result ≡ [] }
    {
        Exits {
            links: Vec::new(alloc),
        }
    }

    fn push(&mut self, link: LinkId) -> Result<(), NoMemory>
        ensures { OnOk result (self.new ≡ self.old ++ link ∷ []) }
    {
        self.links.push(link)?;
        Ok(())
    }

    fn as_slice(&self) -> &[LinkId]
        ensures { result.now ≡ self.now }
    {
        self.links.as_slice()
    }
}

/// A network as a graph: the links that leave each router. Whoever asks for many detours makes it once.
#[derive(Drop)]
pub struct Graph {
    exits: Vec<Exits>,
}

impl Model for Graph {
    ghost use Rattle.std.specs.Prelude.{List};
    ghost use Rattle.wi_net.specs.declared.parts.LinkId.{LinkId};

    ghost Value = { List (List LinkId) };

    ghost view = { λ g. g.exits.items };
}

impl Graph {
    /// The graph of a network. Time and room grow with the number of routers and links.
    pub fn of(alloc: Global, net: &Network) -> Result<Graph, NoMemory>
        ensures { IfOk result (λ graph. graph ≡ exits_of net.now) }
    {
        net.keeps();
        let counts = net.counts();
        let mut exits = no_exits(alloc, counts.routers as usize)?;
        for number in 0..counts.links {
            let link = LinkId(number);
            put(&mut exits, net.link(link).from.0, link)?;
        }
        Ok(Graph { exits })
    }

    // The links that leave the router of a number: none, where there is no such router.
    pub(crate) fn exits(&self, router: u64) -> &[LinkId]
        ensures { result.now ≡ exits_in self.now router }
    {
        match self.exits.get(router as usize) {
            Some(exits) => exits.as_slice(),
            None => &[],
        }
    }
}

// No links for each of so many routers.
fn no_exits(alloc: Global, count: usize) -> Result<Vec<Exits>, AllocError>
    ensures { IfOk result (λ exits. exits.items ≡ map (λ i. []) (range_with_len 0 count)) }
{
    (0..count).map(|_| Exits::new(alloc)).collect(alloc)
}

// Puts a link behind those that leave a router.
fn put(exits: &mut Vec<Exits>, router: u32, link: LinkId) -> Result<(), NoMemory>
    requires { router < length exits.old.items }
    ensures { OnOk result (exits.new.items ≡ slice_set exits.old.items router (exits_in exits.old.items router ++ link ∷ [])) }
{
    let from_router = &mut exits[router as usize];
    from_router.push(link)
}
