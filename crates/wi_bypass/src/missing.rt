//! A plan has bypasses of some links. For each inner link without one a least detour is looked for, in one graph for all of them; the
//! plan's own bypasses are kept as they are, and are judged with those that were found.
ghost use Rattle.std.specs.Prelude.{◌≡◌, ◌<◌, ◌++◌, true, not, length, IfOk, OnOk};
ghost use Rattle.std.specs.List.{filter, list_all};
ghost use Rattle.wi_net.specs.Net.{is_link};
ghost use Rattle.wi_plan.specs.Plans.{is_bypass_of, IsPlan};
ghost use Rattle.wi_detour.specs.Graphs.{exits_of};
ghost use Rattle.wi_bypass.specs.Bypasses.{is_without, wanting, IsFound, AreFound, is_protected, unprotected, with_found};
ghost use Rattle.wi_bypass.specs.private.Marks.{are_within, marked_each, is_outside, marked_outside, IsAdded};

use crate::inner::inner_links;
use crate::marks::{mark, no_marks, unmarked};
use std::alloc::Global;
use wi_base::{Listed, NoMemory};
use wi_detour::{Graph, detour};
use wi_net::{LinkId, Network};
use wi_plan::{Bypass, Plan};

/// The bypasses that were found for a plan, in the order in which the paths come to their links; and the inner links of its paths that
/// have no detour among its own bypasses and these.
#[derive(Drop)]
pub struct Found {
    pub bypasses: Listed<Bypass>,
    pub unprotected: Listed<LinkId>,
}

/// For each inner link of a plan's paths that has no bypass a least detour, where it has one (facility backup, RFC 4090, 3.2). What the
/// plan has stays: with what is found behind its own bypasses it is a plan again. Nothing but want of memory refuses it.
///
/// What it costs: a graph of the network, a detour for each inner link without bypass, and else the sizes of the plan and the network.
pub fn bypasses(alloc: Global, net: &Network, plan: &Plan) -> Result<Found, NoMemory>
    requires { IsPlan net.now plan.now }
    ensures found { IfOk result (λ f. AreFound net.now (wanting plan.now) f.bypasses) }
    ensures left { IfOk result (λ f. f.unprotected ≡ unprotected net.now plan.now.paths (plan.now.bypasses ++ f.bypasses)) }
    ensures plan { IfOk result (λ f. IsPlan net.now (with_found plan.now f.bypasses)) }
{
    let inner = inner_links(alloc, net, plan.paths.as_slice())?;
    found_for(alloc, net, plan.bypasses.as_slice(), &inner)
}

// What is found for links besides these bypasses.
fn found_for(
    alloc: Global,
    net: &Network,
    own: &[Bypass],
    links: &[LinkId],
) -> Result<Found, NoMemory>
    requires links { list_all (is_link net.now) links.now ≡ true }
    requires own { list_all (is_bypass_of net.now) own.now ≡ true }
    ensures found { IfOk result (λ f. AreFound net.now (filter (is_without own.now) links.now) f.bypasses) }
    ensures left { IfOk result (λ f. f.unprotected ≡ filter (λ e. not (is_protected net.now (own.now ++ f.bypasses) e)) links.now) }
{
    let wanting = without_bypass(alloc, net, own, links)?;
    let bypasses = detours(alloc, net, &wanting)?;
    match without_detour(alloc, net, own, &bypasses, links) {
        Ok(unprotected) => Ok(Found {
            bypasses: Listed::of(bypasses),
            unprotected: Listed::of(unprotected),
        }),
        Err(error) => {
            drop(bypasses);
            Err(error)
        }
    }
}

// The links that no bypass is for.
fn without_bypass(
    alloc: Global,
    net: &Network,
    bypasses: &[Bypass],
    links: &[LinkId],
) -> Result<Vec<LinkId>, NoMemory>
    requires { list_all (is_bypass_of net.now) bypasses.now ≡ true }
    ensures { IfOk result (λ left. left.items ≡ filter (is_without bypasses.now) links.now) }
{
    let mut marks = no_marks(alloc, net.counts().links as usize)?;
    mark_each(&mut marks, bypasses);
    unmarked(alloc, &marks, links)
}

// Marks the link of each bypass.
fn mark_each(marks: &mut Vec<bool>, bypasses: &[Bypass])
    requires { are_within (length marks.old.items) bypasses.now ≡ true }
    ensures { marks.new.items ≡ marked_each marks.old.items bypasses.now }
{
    for bypass in bypasses {
        mark(marks, bypass.link);
    }
}

// The bypasses that are found for links.
fn detours(alloc: Global, net: &Network, links: &[LinkId]) -> Result<Vec<Bypass>, NoMemory>
    requires { list_all (is_link net.now) links.now ≡ true }
    ensures { IfOk result (λ found. AreFound net.now links.now found.items) }
{
    let graph = Graph::of(alloc, net)?;
    let mut found = Vec::new(alloc);
    match add_detours(alloc, net, &graph, links, &mut found) {
        Ok(()) => {
            drop(graph);
            Ok(found)
        }
        Err(error) => {
            drop((graph, found));
            Err(error)
        }
    }
}

// Adds the bypasses that are found for links.
fn add_detours(
    alloc: Global,
    net: &Network,
    graph: &Graph,
    links: &[LinkId],
    found: &mut Vec<Bypass>,
) -> Result<(), NoMemory>
    requires links { list_all (is_link net.now) links.now ≡ true }
    requires graph { graph.now ≡ exits_of net.now }
    ensures { OnOk result (IsAdded net.now links.now found.old.items found.new.items) }
{
    for link in links {
        if let Some(bypass) = bypass_of(alloc, net, graph, *link)? {
            found.push(bypass)?;
        }
    }
    Ok(())
}

// What is found for a link.
fn bypass_of(
    alloc: Global,
    net: &Network,
    graph: &Graph,
    link: LinkId,
) -> Result<Option<Bypass>, NoMemory>
    requires link { link.0 < length net.now.links }
    requires graph { graph.now ≡ exits_of net.now }
    ensures { IfOk result (IsFound net.now link) }
{
    match detour(alloc, net, graph, link)? {
        Some(via) => Ok(Some(Bypass { link, via })),
        None => Ok(None),
    }
}

// The links that have no detour among a plan's own bypasses and those that were found.
fn without_detour(
    alloc: Global,
    net: &Network,
    own: &[Bypass],
    found: &[Bypass],
    links: &[LinkId],
) -> Result<Vec<LinkId>, NoMemory>
    requires own { list_all (is_bypass_of net.now) own.now ≡ true }
    requires found { list_all (is_bypass_of net.now) found.now ≡ true }
    ensures { IfOk result (λ left. left.items ≡ filter (λ e. not (is_protected net.now (own.now ++ found.now) e)) links.now) }
{
    let mut marks = no_marks(alloc, net.counts().links as usize)?;
    mark_outside(&mut marks, net, own);
    mark_outside(&mut marks, net, found);
    unmarked(alloc, &marks, links)
}

// Marks the link of each bypass that has no link of its risk group.
fn mark_outside(marks: &mut Vec<bool>, net: &Network, bypasses: &[Bypass])
    requires { are_within (length marks.old.items) bypasses.now ≡ true }
    ensures marks { marks.new.items ≡ marked_outside net.now marks.old.items bypasses.now }
    ensures count { length marks.new.items ≡ length marks.old.items }
{
    for bypass in bypasses {
        if is_outside(net, bypass) {
            mark(marks, bypass.link);
        }
    }
}

// Whether no link of a bypass is in the risk group of the link that it is for.
fn is_outside(net: &Network, bypass: &Bypass) -> bool
    ensures { result ≡ is_outside net.now bypass.now }
{
    let via = bypass.via.as_slice();
    via.iter()
        .all(|link| net.risk(bypass.link).0 != net.risk(*link).0)
}
