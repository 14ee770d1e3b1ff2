//! The shapes of all members of a link come before any name is looked up, as the format's order of faults has it. A link
//! costs a look-up for each of its names.
ghost use Rattle.std.specs.Prelude.{◌≡◌, ◌+◌, ◌<◌, ◌≤◌, OnOk, length, option_map};
ghost use Rattle.serde_json.specs.View.{view, items_view};
ghost use Rattle.wi_netjson.specs.Reading.{Gives, each};
ghost use Rattle.wi_netjson.specs.private.Refusals.{link_fault};
ghost use Rattle.wi_netjson.specs.Links.{link_rules, link_at, links_of, group_name_at};

use crate::fault::{LinkPart, NetFault, Place};
use crate::shape::{limited, list, object, optional_text, text, whole};
use serde_json::Value;
use wi_net::{BuildRefused, Field, LINK_LIMIT, NetworkBuilder};

/// Adds the links of a file, which name risk groups in some formats.
#[tactic(auto, unfolding(crate::specs::Links::links_of))]
pub fn links(builder: &mut NetworkBuilder, has_groups: bool, file: &Value) -> Result<(), NetFault>
    ensures { Gives (λ _. builder.new) result (links_of has_groups builder.old (view file.now)) }
{
    let values = list(Place::Links, file.get("links"))?;
    limited(Place::Links, LINK_LIMIT, builder.link_count(), values)?;
    each_link(builder, has_groups, values)
}

fn each_link(
    builder: &mut NetworkBuilder,
    has_groups: bool,
    values: &[Value],
) -> Result<(), NetFault>
    requires { length builder.old.net.links + length values.now ≤ LINK_LIMIT }
    ensures { Gives (λ _. builder.new) result (each (link_at has_groups) builder.old 0 (items_view values.now)) }
{
    for (i, value) in values.iter().enumerate() {
        link(builder, has_groups, i, value)?;
    }
    Ok(())
}

#[tactic(auto, unfolding(crate::specs::Links::link_at))]
fn link(
    builder: &mut NetworkBuilder,
    has_groups: bool,
    i: usize,
    value: &Value,
) -> Result<(), NetFault>
    requires { length builder.old.net.links < LINK_LIMIT }
    ensures answer { Gives (λ _. builder.new) result (link_at has_groups builder.old i (view value.now)) }
    ensures count { OnOk result (length builder.new.net.links ≡ length builder.old.net.links + 1) }
{
    let link = object(Place::Link(i), Some(value))?;
    let from = text(Place::LinkPart(i, LinkPart::From), link.get("from"))?;
    let out_if = text(Place::LinkPart(i, LinkPart::Out), link.get("out"))?;
    let to = text(Place::LinkPart(i, LinkPart::To), link.get("to"))?;
    let in_if = text(Place::LinkPart(i, LinkPart::In), link.get("in"))?;
    let distance = whole(Place::LinkPart(i, LinkPart::Distance), link.get("distance"))?;
    let group = group_name(has_groups, i, link)?;
    add(builder, i, from, out_if, to, in_if, distance, group)
}

#[tactic(auto, using(crate::proofs::LinkRules::link_refused, crate::proofs::LinkRules::link_added, crate::proofs::LinkRules::link_counted))]
fn add(
    builder: &mut NetworkBuilder,
    i: usize,
    from: &str,
    out_if: &str,
    to: &str,
    in_if: &str,
    distance: u32,
    group: Option<&str>,
) -> Result<(), NetFault>
    requires { length builder.old.net.links < LINK_LIMIT }
    ensures answer { Gives (λ _. builder.new) result (link_rules builder.old i from.now out_if.now to.now in_if.now distance (option_map (λ s. s.now) group.entry)) }
    ensures count { OnOk result (length builder.new.net.links ≡ length builder.old.net.links + 1) }
{
    match builder.link(from, out_if, to, in_if, distance, group) {
        Ok(_) => Ok(()),
        Err(refused) => Err(link_fault(i, refused)),
    }
}

// The name of a link's risk group.
fn group_name(has_groups: bool, i: usize, link: &Value) -> Result<Option<&str>, NetFault>
    ensures { Gives (λ o. option_map (λ s. s.now) o) result (group_name_at has_groups i (view link.now)) }
{
    if has_groups {
        optional_text(Place::LinkPart(i, LinkPart::Group), link.get("group"))
    } else {
        Ok(None)
    }
}

fn link_fault(i: usize, refused: BuildRefused) -> NetFault
    ensures { result ≡ link_fault i refused }
{
    match refused {
        BuildRefused::BadName(Field::Group) => {
            NetFault::BadName(Place::LinkPart(i, LinkPart::Group))
        }
        BuildRefused::BadName(Field::Out) => NetFault::BadName(Place::LinkPart(i, LinkPart::Out)),
        BuildRefused::BadName(Field::In) => NetFault::BadName(Place::LinkPart(i, LinkPart::In)),
        BuildRefused::Unknown(Field::From) => {
            NetFault::UnknownRouter(Place::LinkPart(i, LinkPart::From))
        }
        BuildRefused::Unknown(Field::To) => {
            NetFault::UnknownRouter(Place::LinkPart(i, LinkPart::To))
        }
        BuildRefused::Taken(Field::Out) => {
            NetFault::InterfaceTaken(Place::LinkPart(i, LinkPart::Out))
        }
        BuildRefused::Taken(Field::In) => {
            NetFault::InterfaceTaken(Place::LinkPart(i, LinkPart::In))
        }
        BuildRefused::Limit(_, limit) => NetFault::OverLimit(Place::Links, limit),
        _ => NetFault::Memory,
    }
}
