//! A list of links is read in two passes, since all its shapes are asked before any name: the second pass looks each name up
//! once. Whether links are joined costs one look a link, and whether one stands twice one look-up a link, in a set as large as
//! the list.
ghost use Rattle.std.specs.Prelude.{◌≡◌, true, [], IfOk, IfSome, option_map};
ghost use Rattle.std.specs.List.{list_all};
ghost use Rattle.serde_json.specs.View.{view, items_view};
ghost use Rattle.wi_net.specs.Builder.{found_or};
ghost use Rattle.wi_net.specs.Net.{is_link};
ghost use Rattle.wi_plan.specs.Plans.{meets};
ghost use Rattle.wi_planjson.specs.Names.{link_of, are_named, links_in};
ghost use Rattle.wi_planjson.specs.Routes.{first_break, first_repeat, repeat_from};
ghost use Rattle.wi_planjson.specs.Reading.{Gives};
ghost use Rattle.wi_planjson.specs.private.Places.{place_in};

use crate::refused::{Place, PlanRefused};
use crate::shape::names;
use indexmap::IndexSet;
use serde_json::Value;
use std::alloc::Global;
use wi_base::NoMemory;
use wi_net::{LinkId, Network};

/// Whose links a list has: those of a path, or those of the way around a link, by its number.
#[derive(Clone, Copy)]
pub enum Route {
    Path(usize),
    Via(usize),
}

impl Route {
    /// The place of a link of the list.
    pub fn place(self, j: usize) -> Place
        ensures { result ≡ place_in self j }
    {
        match self {
            Route::Path(i) => Place::PathLink(i, j),
            Route::Via(i) => Place::ViaLink(i, j),
        }
    }
}

/// Whether each value of a list is of the form of a link.
pub fn are_named(route: Route, values: &[Value]) -> Result<(), PlanRefused>
    ensures { Gives (λ u. u) result (are_named (place_in route) (items_view values.now)) }
{
    for (j, value) in values.iter().enumerate() {
        if names(value).is_none() {
            return Err(PlanRefused::WrongShape(route.place(j)));
        }
    }
    Ok(())
}

/// The links that the values of a list name.
pub fn links_in(
    alloc: Global,
    net: &Network,
    route: Route,
    values: &[Value],
) -> Result<Vec<LinkId>, PlanRefused>
    ensures answer { Gives (λ links. links.items) result (links_in net.now (place_in route) (items_view values.now)) }
    ensures known { IfOk result (λ links. list_all (is_link net.now) links.items ≡ true) }
{
    let mut links = Vec::new(alloc);
    for (j, value) in values.iter().enumerate() {
        let link = link_at(net, route.place(j), value)?;
        links.push(link)?;
    }
    Ok(links)
}

/// The link that a value names.
pub fn link_at(net: &Network, place: Place, value: &Value) -> Result<LinkId, PlanRefused>
    ensures answer { Gives (λ link. link) result (found_or (PlanRefused.Unknown place) (link_of net.now (view value.now))) }
    ensures known { IfOk result (λ link. is_link net.now link ≡ true) }
{
    match link_of(net, value) {
        Some(link) => Ok(link),
        None => Err(PlanRefused::Unknown(place)),
    }
}

fn link_of(net: &Network, value: &Value) -> Option<LinkId>
    ensures answer { result ≡ link_of net.now (view value.now) }
    ensures known { IfSome result (λ link. is_link net.now link ≡ true) }
{
    let (router, out_if) = names(value)?;
    let router = net.find_router(router)?;
    net.find_out(router, out_if)
}

/// The place of the first link that doesn't leave the router that the link before reaches. It takes no memory.
pub fn first_break(net: &Network, links: &[LinkId]) -> Option<usize>
    requires { list_all (is_link net.now) links.now ≡ true }
    ensures { result ≡ first_break net.now links.now }
{
    for j in 1..links.len() {
        if !meets(net, links[j - 1], links[j]) {
            return Some(j);
        }
    }
    None
}

fn meets(net: &Network, first: LinkId, second: LinkId) -> bool
    requires first { is_link net.now first ≡ true }
    requires second { is_link net.now second ≡ true }
    ensures { result ≡ meets net.now first second }
{
    net.link(second).from == net.link(first).to
}

/// The place of the first link that stands earlier.
pub fn first_repeat(alloc: Global, links: &[LinkId]) -> Result<Option<usize>, NoMemory>
    ensures { IfOk result (λ place. place ≡ first_repeat links.now) }
{
    let mut before = IndexSet::new(alloc);
    let place = repeat_in(&mut before, links);
    drop(before);
    place
}

// The same, after links that stand before those.
fn repeat_in(before: &mut IndexSet<LinkId>, links: &[LinkId]) -> Result<Option<usize>, NoMemory>
    ensures { IfOk result (λ place. place ≡ repeat_from before.old.keys 0 links.now) }
{
    for (j, link) in links.iter().enumerate() {
        if !before.insert(*link)? {
            return Ok(Some(j));
        }
    }
    Ok(None)
}
