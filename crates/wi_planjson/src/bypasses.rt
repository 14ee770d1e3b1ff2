//! Each bypass is asked all that is asked of it before the next is looked at, as the format's order of faults has it. Which
//! links have a bypass is kept in a set, so that this costs one look-up a bypass.
ghost use Rattle.std.specs.Prelude.{◌≡◌, ◌&&◌, ◌++◌, ◌∷◌, [], true, false, IfOk, OnOk};
ghost use Rattle.std.specs.List.{list_all};
ghost use Rattle.serde_json.specs.View.{view, items_view};
ghost use Rattle.wi_net.specs.Net.{is_link};
ghost use Rattle.wi_plan.specs.Plans.{is_joined, is_around};
ghost use Rattle.wi_planjson.specs.Reading.{Gives, each};
ghost use Rattle.wi_planjson.specs.Bypasses.{is_bypassed, place_of, bypass_rules, bypass_of, bypass_at, bypasses_of};
ghost use Rattle.wi_planjson.specs.Plan.{drafted_bypasses_of};
ghost use Rattle.wi_planjson.specs.private.Forms.{bypasses_by};

use crate::refused::{Place, PlanRefused};
use crate::routes::{Route, are_named, first_break, link_at, links_in};
use crate::shape::{list, named, object};
use indexmap::IndexSet;
use serde_json::Value;
use std::alloc::Global;
use std::marker::Model;
use wi_base::{Listed, NoMemory};
use wi_net::{LinkId, Network};
use wi_plan::Bypass;

/// Bypasses, no two of which are of one link.
#[derive(Drop)]
pub struct Bypasses {
    list: Vec<Bypass>,
    links: IndexSet<LinkId>,
}

impl Model for Bypasses {
    ghost use Rattle.std.specs.Prelude.{◌≡◌, List};
    ghost use Rattle.wi_plan.specs.declared.plan.Bypass.{Bypass};
    ghost use Rattle.wi_planjson.specs.private.Starts.{links_of};

    ghost Value = { List Bypass };

    ghost view = { λ b. b.list.items };

    ghost invariant = { λ b. b.links.keys ≡ links_of b.list.items };
}

impl Bypasses {
    /// No bypasses.
    pub fn new(alloc: Global) -> Bypasses
        ensures { result ≡ [] }
    {
        Bypasses {
            list: Vec::new(alloc),
            links: IndexSet::new(alloc),
        }
    }

    /// Whether a link has a bypass.
    pub fn has(&self, link: LinkId) -> bool
        ensures { result ≡ is_bypassed self.now link }
    {
        self.links.contains(&link)
    }

    /// Adds a bypass of a link that has none.
    pub fn push(&mut self, bypass: Bypass) -> Result<(), NoMemory>
        requires { is_bypassed self.old bypass.link ≡ false }
        ensures { OnOk result (self.new ≡ self.old ++ bypass ∷ []) }
    {
        self.list.reserve(1)?;
        self.links.insert(bypass.link)?;
        self.list.push_reserved(bypass);
        Ok(())
    }

    /// The list of the bypasses.
    pub fn into_list(self) -> Listed<Bypass>
        ensures { result ≡ self }
    {
        let Bypasses { list, links } = self;
        drop(links);
        Listed::of(list)
    }
}

/// Whether a file has to say which bypasses it has.
#[derive(Clone, Copy)]
pub enum Form {
    Whole,
    Draft,
}

/// Adds the bypasses of a file.
pub fn read_bypasses(
    alloc: Global,
    net: &Network,
    bypasses: &mut Bypasses,
    form: Form,
    file: &Value,
) -> Result<(), PlanRefused>
    requires { bypasses.old ≡ [] }
    ensures { Gives (λ _. bypasses.new) result (bypasses_by form net.now (view file.now)) }
{
    match form {
        Form::Whole => listed_bypasses(alloc, net, bypasses, file),
        Form::Draft => drafted_bypasses(alloc, net, bypasses, file),
    }
}

// The same, where a file that doesn't speak of bypasses has none.
#[tactic(auto, unfolding(crate::specs::Plan::drafted_bypasses_of))]
fn drafted_bypasses(
    alloc: Global,
    net: &Network,
    bypasses: &mut Bypasses,
    file: &Value,
) -> Result<(), PlanRefused>
    requires { bypasses.old ≡ [] }
    ensures { Gives (λ _. bypasses.new) result (drafted_bypasses_of net.now (view file.now)) }
{
    if file.get("bypasses").is_none() {
        Ok(())
    } else {
        listed_bypasses(alloc, net, bypasses, file)
    }
}

// The same, where they have to be there.
#[tactic(auto, unfolding(crate::specs::Bypasses::bypasses_of))]
fn listed_bypasses(
    alloc: Global,
    net: &Network,
    bypasses: &mut Bypasses,
    file: &Value,
) -> Result<(), PlanRefused>
    requires { bypasses.old ≡ [] }
    ensures { Gives (λ _. bypasses.new) result (bypasses_of net.now (view file.now)) }
{
    let values = list(Place::Bypasses, file.get("bypasses"))?;
    each_bypass(alloc, net, bypasses, values)
}

fn each_bypass(
    alloc: Global,
    net: &Network,
    bypasses: &mut Bypasses,
    values: &[Value],
) -> Result<(), PlanRefused>
    ensures { Gives (λ _. bypasses.new) result (each (bypass_at net.now) bypasses.old 0 (items_view values.now)) }
{
    for (i, value) in values.iter().enumerate() {
        add_bypass(alloc, net, bypasses, i, value)?;
    }
    Ok(())
}

#[tactic(auto, unfolding(crate::specs::Bypasses::bypass_at))]
fn add_bypass(
    alloc: Global,
    net: &Network,
    bypasses: &mut Bypasses,
    i: usize,
    value: &Value,
) -> Result<(), PlanRefused>
    ensures { Gives (λ _. bypasses.new) result (bypass_at net.now bypasses.old i (view value.now)) }
{
    let bypass = bypass_of(alloc, net, i, value)?;
    match bypass_rules(net, bypasses, i, &bypass) {
        Ok(()) => Ok(bypasses.push(bypass)?),
        Err(refused) => {
            drop(bypass);
            Err(refused)
        }
    }
}

// The bypass that a value names.
#[tactic(auto, unfolding(crate::specs::Bypasses::bypass_of))]
fn bypass_of(alloc: Global, net: &Network, i: usize, value: &Value) -> Result<Bypass, PlanRefused>
    ensures answer { Gives (λ bypass. bypass) result (bypass_of net.now i (view value.now)) }
    ensures link { IfOk result (λ bypass. is_link net.now bypass.link ≡ true) }
    ensures via { IfOk result (λ bypass. list_all (is_link net.now) bypass.via ≡ true) }
{
    let object = object(Place::Bypass(i), value)?;
    let value = named(Place::BypassLink(i), object.get("link"))?;
    let values = list(Place::BypassVia(i), object.get("via"))?;
    are_named(Route::Via(i), values)?;
    let link = link_at(net, Place::BypassLink(i), value)?;
    let via = links_in(alloc, net, Route::Via(i), values)?;
    Ok(Bypass {
        link,
        via: Listed::of(via),
    })
}

// What is asked of a bypass when its links are known.
#[tactic(auto, unfolding(crate::specs::Bypasses::bypass_rules))]
fn bypass_rules(
    net: &Network,
    bypasses: &Bypasses,
    i: usize,
    bypass: &Bypass,
) -> Result<(), PlanRefused>
    requires link { is_link net.now bypass.now.link ≡ true }
    requires via { list_all (is_link net.now) bypass.now.via ≡ true }
    ensures answer { Gives (λ u. u) result (bypass_rules net.now bypasses.now i bypass.now) }
    ensures free { OnOk result (is_bypassed bypasses.now bypass.now.link ≡ false) }
{
    let via = bypass.via.as_slice();
    if via.is_empty() {
        return Err(PlanRefused::TooShort(Place::BypassVia(i)));
    }
    if !leads_around(net, bypass.link, via) {
        return Err(PlanRefused::Broken(Place::BypassVia(i)));
    }
    if bypasses.has(bypass.link) {
        return Err(PlanRefused::Repeated(Place::BypassLink(i)));
    }
    if let Some(j) = place_of(bypass.link, via) {
        return Err(PlanRefused::Repeated(Place::ViaLink(i, j)));
    }
    Ok(())
}

// Whether links are joined, and lead from the source of a link to its target.
fn leads_around(net: &Network, link: LinkId, via: &[LinkId]) -> bool
    requires link { is_link net.now link ≡ true }
    requires via { list_all (is_link net.now) via.now ≡ true }
    ensures { result ≡ (is_joined net.now via.now && is_around net.now link via.now) }
{
    first_break(net, via).is_none() && is_around(net, link, via)
}

fn is_around(net: &Network, link: LinkId, via: &[LinkId]) -> bool
    requires link { is_link net.now link ≡ true }
    requires via { list_all (is_link net.now) via.now ≡ true }
    ensures { result ≡ is_around net.now link via.now }
{
    match (via.first(), via.last()) {
        (Some(first), Some(last)) => {
            let around = net.link(link);
            net.link(*first).from == around.from && net.link(*last).to == around.to
        }
        _ => false,
    }
}

fn place_of(link: LinkId, via: &[LinkId]) -> Option<usize>
    ensures { result ≡ place_of link via.now }
{
    via.iter().position(|v| v.0 == link.0)
}
