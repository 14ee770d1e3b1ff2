//! Each name is looked up once, before any label or link is held against it: what it stands for is then a number, a class, or
//! all. So an atom compares numbers, and not texts. It takes a small value for each name of a list.
ghost use Rattle.std.specs.Prelude.{◌≡◌, ◌<◌, ◌&&◌, ◌∷◌, [], Some, None, IfSome, IfOk, IfErr, OnErr, length, string_bytes};
ghost use Rattle.std.specs.List.{flat_map, list_any};
ghost use Rattle.wi_labels.specs.Header.{same_class};
ghost use Rattle.wi_net.specs.Finding.{find_router};
ghost use Rattle.wi_query.specs.Sets.{class_of_word, class_named};
ghost use Rattle.wi_query.specs.Unknown.{ARouter, unknown_label, unknown_in_end, unknown_in_pair};
ghost use Rattle.wi_query.specs.private.Names.{IsFirst, label_meant, is_meant, finder, end_meant, ends_meant, is_at, is_between, AreMeant};
ghost use Rattle.wi_query.specs.private.Lookups.{one_by, one_between, IsThere, has_link};

use crate::fault::QueryFault;
use std::alloc::Global;
use wi_labels::{Class, Label};
use wi_net::{LinkId, Network, RouterId};
use wi_syntax::{End, Name, Pair};

/// What a name of a label stands for.
#[derive(Clone, Copy)]
pub(crate) enum LabelName {
    /// Each label of a class.
    OfClass(Class),
    One(Label),
}

/// What an end of a link stands for.
#[derive(Clone, Copy)]
pub(crate) enum EndMeant {
    Any,
    At(RouterId),
    /// The one link by an interface of a router.
    By(LinkId),
}

/// Which end of a link is meant.
#[derive(Clone, Copy)]
pub(crate) enum Side {
    Source,
    Target,
}

/// What both ends of a link stand for.
#[derive(Clone, Copy)]
pub(crate) struct Ends {
    source: EndMeant,
    target: EndMeant,
}

// The characters of a name, to tell it.
fn text_of(alloc: Global, name: &Name) -> Result<String, QueryFault>
    ensures text { IfOk result (λ text. string_bytes text ≡ name.now.text) }
    ensures refused { IfErr result (λ fault. fault ≡ QueryFault.Memory) }
{
    Ok(String::from_str(alloc, name.as_str())?)
}

// The class that a word means.
fn class_of_word(word: &str) -> Option<Class>
    ensures { result ≡ class_of_word word.now }
{
    if word == "mpls" {
        Some(Class::Mpls)
    } else if word == "smpls" {
        Some(Class::Smpls)
    } else if word == "ip" {
        Some(Class::Ip)
    } else {
        None
    }
}

fn class_named(name: &Name) -> Option<Class>
    ensures { result ≡ class_named name.now }
{
    if name.is_quoted() {
        return None;
    }
    class_of_word(name.as_str())
}

/// What a name of a label stands for.
pub(crate) fn label_named(
    alloc: Global,
    net: &Network,
    name: &Name,
) -> Result<LabelName, QueryFault>
    ensures found { IfOk result (λ found. label_meant net.now name.now ≡ Some found) }
    ensures refused { IfErr result (IsFirst (unknown_label net.now name.now)) }
{
    if let Some(class) = class_named(name) {
        return Ok(LabelName::OfClass(class));
    }
    match net.find_label(name.as_str()) {
        Some(label) => Ok(LabelName::One(label)),
        None => Err(QueryFault::UnknownLabel(name.at(), text_of(alloc, name)?)),
    }
}

/// What each of some names stands for, or the first that stands for nothing.
pub(crate) fn labels_named(
    alloc: Global,
    net: &Network,
    names: &[Name],
) -> Result<Vec<LabelName>, QueryFault>
    ensures found { IfOk result (λ found. AreMeant (label_meant net.now) names.now found.items) }
    ensures refused { IfErr result (IsFirst (flat_map (unknown_label net.now) names.now)) }
{
    let mut found = Vec::new(alloc);
    for name in names {
        found.push(label_named(alloc, net, name)?)?;
    }
    Ok(found)
}

fn same_class(one: Class, other: Class) -> bool
    ensures { result ≡ same_class one other }
{
    match (one, other) {
        (Class::Mpls, Class::Mpls) | (Class::Smpls, Class::Smpls) | (Class::Ip, Class::Ip) => true,
        _ => false,
    }
}

/// Whether a label is one that a name stands for.
pub(crate) fn is_meant(net: &Network, name: LabelName, label: Label) -> bool
    requires { label.0 < length net.now.labels }
    ensures { result ≡ is_meant net.now name label.0 }
{
    match name {
        LabelName::OfClass(class) => same_class(net.class(label), class),
        LabelName::One(one) => one.0 == label.0,
    }
}

fn router_named(alloc: Global, net: &Network, name: &Name) -> Result<RouterId, QueryFault>
    ensures found { IfOk result (λ router. find_router net.now name.now.text ≡ Some router) }
    ensures absent { OnErr result (find_router net.now name.now.text ≡ None) }
    ensures refused { IfErr result (IsFirst ((ARouter, name.now) ∷ [])) }
{
    match net.find_router(name.as_str()) {
        Some(router) => Ok(router),
        None => Err(QueryFault::UnknownRouter(name.at(), text_of(alloc, name)?)),
    }
}

// The link that leaves, or reaches, a router by an interface.
fn link_by(net: &Network, side: Side, router: RouterId, interface: &str) -> Option<LinkId>
    ensures value { result ≡ finder net.now side router interface.now }
    ensures there { IsThere net.now result }
{
    match side {
        Side::Source => net.find_out(router, interface),
        Side::Target => net.find_in(router, interface),
    }
}

// What an end stands for.
fn end_of(alloc: Global, net: &Network, side: Side, end: &End) -> Result<EndMeant, QueryFault>
    ensures found { IfOk result (λ meant. end_meant net.now (finder net.now side) end.now ≡ Some meant) }
    ensures refused { IfErr result (IsFirst (unknown_in_end net.now (finder net.now side) end.now)) }
{
    match end {
        End::Any(_) => Ok(EndMeant::Any),
        End::Router(router) => Ok(EndMeant::At(router_named(alloc, net, router)?)),
        End::Interface(router, interface) => {
            let id = router_named(alloc, net, router)?;
            match link_by(net, side, id, interface.as_str()) {
                Some(link) => Ok(EndMeant::By(link)),
                None => Err(QueryFault::UnknownInterface(
                    interface.at(),
                    text_of(alloc, interface)?,
                )),
            }
        }
    }
}

// What both ends of a pair stand for.
fn ends_of(alloc: Global, net: &Network, pair: &Pair) -> Result<Ends, QueryFault>
    ensures found { IfOk result (λ ends. ends_meant net.now pair.now ≡ Some ends) }
    ensures refused { IfErr result (IsFirst (unknown_in_pair net.now pair.now)) }
{
    let source = end_of(alloc, net, Side::Source, &pair.from)?;
    let target = end_of(alloc, net, Side::Target, &pair.to)?;
    Ok(Ends { source, target })
}

// What an end stands for, where the network has its names.
fn end_known(net: &Network, side: Side, end: &End) -> Option<EndMeant>
    ensures found { result ≡ end_meant net.now (finder net.now side) end.now }
    ensures there { IfSome result (λ meant. IsThere net.now (one_by meant)) }
{
    match end {
        End::Any(_) => Some(EndMeant::Any),
        End::Router(router) => Some(EndMeant::At(net.find_router(router.as_str())?)),
        End::Interface(router, interface) => {
            let id = net.find_router(router.as_str())?;
            Some(EndMeant::By(link_by(net, side, id, interface.as_str())?))
        }
    }
}

/// What both ends of a pair stand for, where the network has its names.
pub(crate) fn ends_known(net: &Network, pair: &Pair) -> Option<Ends>
    ensures found { result ≡ ends_meant net.now pair.now }
    ensures there { IfSome result (λ ends. IsThere net.now (one_between ends)) }
{
    let source = end_known(net, Side::Source, &pair.from)?;
    let target = end_known(net, Side::Target, &pair.to)?;
    Some(Ends { source, target })
}

/// What each of some pairs stands for, or the first name in them that stands for nothing.
pub(crate) fn pairs_named(
    alloc: Global,
    net: &Network,
    pairs: &[Pair],
) -> Result<Vec<Ends>, QueryFault>
    ensures found { IfOk result (λ found. AreMeant (ends_meant net.now) pairs.now found.items) }
    ensures refused { IfErr result (IsFirst (flat_map (unknown_in_pair net.now) pairs.now)) }
{
    let mut found = Vec::new(alloc);
    for pair in pairs {
        found.push(ends_of(alloc, net, pair)?)?;
    }
    Ok(found)
}

// Whether a link of this number, with this router at its end, is one that is meant.
fn is_at(meant: EndMeant, router: RouterId, link: LinkId) -> bool
    ensures { result ≡ is_at meant router link.0 }
{
    match meant {
        EndMeant::Any => true,
        EndMeant::At(id) => id.0 == router.0,
        EndMeant::By(one) => one.0 == link.0,
    }
}

/// Whether a link is one that a pair stands for.
pub(crate) fn is_between(net: &Network, ends: Ends, link: LinkId) -> bool
    requires { link.0 < length net.now.links }
    ensures { result ≡ is_between net.now ends link.0 }
{
    let at = net.link(link);
    is_at(ends.source, at.from, link) && is_at(ends.target, at.to, link)
}

// The one link that may have an end, where the end stands for one.
fn one_by(meant: EndMeant) -> Option<LinkId>
    ensures { result ≡ one_by meant }
{
    match meant {
        EndMeant::By(link) => Some(link),
        EndMeant::Any | EndMeant::At(_) => None,
    }
}

// The one link that may have both ends, where an end stands for one.
fn one_between(ends: Ends) -> Option<LinkId>
    ensures { result ≡ one_between ends }
{
    match one_by(ends.source) {
        Some(link) => Some(link),
        None => one_by(ends.target),
    }
}

// Whether some link of the network is one that both ends stand for.
fn any_link(net: &Network, ends: Ends) -> bool
    ensures { result ≡ has_link net.now ends }
{
    for x in 0..net.counts().links {
        if is_between(net, ends, LinkId(x)) {
            return true;
        }
    }
    false
}

/// Whether some link is one that a pair stands for. Where an end is an interface, only its link is asked.
pub(crate) fn has_link(net: &Network, ends: Ends) -> bool
    requires { IsThere net.now (one_between ends) }
    ensures { result ≡ has_link net.now ends }
{
    match one_between(ends) {
        Some(link) => is_between(net, ends, link),
        None => any_link(net, ends),
    }
}

/// Whether a label is one that some name stands for.
pub(crate) fn any_meant(net: &Network, names: &[LabelName], label: Label) -> bool
    requires { label.0 < length net.now.labels }
    ensures { result ≡ list_any (λ name. is_meant net.now name label.0) names.now }
{
    for name in names {
        if is_meant(net, *name, label) {
            return true;
        }
    }
    false
}

/// Whether a link is one that some pair stands for.
pub(crate) fn any_between(net: &Network, pairs: &[Ends], link: LinkId) -> bool
    requires { link.0 < length net.now.links }
    ensures { result ≡ list_any (λ ends. is_between net.now ends link.0) pairs.now }
{
    for ends in pairs {
        if is_between(net, *ends, link) {
            return true;
        }
    }
    false
}
