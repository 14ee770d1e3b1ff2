//! One text for each network, so that what is written can be compared and kept by its bytes, and reads as the same network.
//! The whole JSON value is made before its text.
ghost use Rattle.std.specs.Prelude.{◌≡◌, ◌++◌, ◌∷◌, [], true, false, codes, decimal, string_bytes, slice_index_or, ◌≤◌, length, Ok, IfOk, OnOk};
ghost use Rattle.std.specs.List.{list_all};
ghost use Rattle.serde_json.specs.Data.{string, number, unsigned, object, member, no_members, put as with_member};
ghost use Rattle.serde_json.specs.View.{view, members_view};
ghost use Rattle.wi_net.specs.Network.{HasEnds, op_known, is_row_of};
ghost use Rattle.wi_net.specs.private.Network.{is_member_of, are_groups_of};
ghost use Rattle.wi_netjson.specs.declared.file.TheConstants.{NETWORK_LIMIT};
ghost use Rattle.wi_netjson.specs.private.Written.{AreLarger};
ghost use Rattle.wi_netjson.specs.Written.{has_larger, format_of, list_of, labels_in, labels_data, link_data, op_data, way_data, group_data, row_data, network_data, text_of};
ghost use Rattle.wi_netjson.specs.File.{network_of};

use serde_json::{Map, Value, json, put};
use std::alloc::{AllocError, Global};
use wi_base::NoMemory;
use wi_labels::{Class, Label, Op};
use wi_net::{Group, Link, LinkId, Member, Network, RouterId};

/// The canonical text of a network: version 1 where each risk group has one link, else version 2. It reads as the same
/// network where it is within the file limit.
pub fn write_network(alloc: Global, network: &Network) -> Result<Vec<u8>, NoMemory>
    ensures text { IfOk result (λ bytes. bytes.items ≡ text_of network.now) }
    ensures reads_back { IfOk result (λ bytes. length bytes.items ≤ NETWORK_LIMIT → network_of bytes.items ≡ Ok network.now) }
{
    network.keeps();
    let value = Value::Object(network_members(alloc, network)?);
    Ok(value.to_vec(alloc)?)
}

/// The members of a network's value, of which its canonical text is made.
pub fn network_members(alloc: Global, network: &Network) -> Result<Map<String, Value>, NoMemory>
    ensures { IfOk result (λ members. object (members_view members.entries) ≡ network_data network.now) }
{
    let mut members = Map::new(alloc);
    match put_network(alloc, network, &mut members) {
        Ok(()) => Ok(members),
        Err(error) => {
            drop(members);
            Err(error)
        }
    }
}

// Puts the members of a network into what has none yet. Each value is made just before it is put, so that one at a time is held.
fn put_network(
    alloc: Global,
    network: &Network,
    members: &mut Map<String, Value>,
) -> Result<(), NoMemory>
    requires { members.old.entries ≡ [] }
    ensures { OnOk result (object (members_view members.new.entries) ≡ network_data network.now) }
{
    put_links(alloc, network, members)?;
    put(members, alloc, "labels", labels_value(alloc, network)?)?;
    put(members, alloc, "routers", routers_value(alloc, network)?)?;
    put(members, alloc, "tables", tables_value(alloc, network)?)?;
    Ok(())
}

// Puts the links, and the version, which depends on their risk groups.
fn put_links(
    alloc: Global,
    network: &Network,
    members: &mut Map<String, Value>,
) -> Result<(), NoMemory>
    ensures { OnOk result (members_view members.new.entries ≡ with_member (codes "links") (list_of (link_data network.now) network.now.links) (with_member (codes "format") (string (format_of network.now)) (members_view members.old.entries))) }
{
    let larger = larger_groups(alloc, network)?;
    let format = Value::try_from_str(alloc, format_of(network, larger.as_slice()))?;
    put(members, alloc, "format", format)?;
    let links = links_value(alloc, network, larger.as_slice())?;
    put(members, alloc, "links", links)?;
    Ok(())
}

// Whether a later link names a link as the least of its risk group, for each link.
fn larger_groups(alloc: Global, network: &Network) -> Result<Vec<bool>, NoMemory>
    ensures { IfOk result (λ v. AreLarger network.now.links v.items) }
{
    let count = network.counts().links;
    let mut larger = vec![in alloc; false; count as usize]?;
    for e in 0..count {
        let risk = network.link(LinkId(e)).risk;
        if risk.0 < e {
            larger[risk.0 as usize] = true;
        }
    }
    Ok(larger)
}

fn is_larger(larger: &[bool], risk: LinkId) -> bool
    ensures { result ≡ slice_index_or larger.now risk.0 false }
{
    match larger.get(risk.0 as usize) {
        Some(is_larger) => *is_larger,
        None => false,
    }
}

// Version 2 where a risk group has several links.
fn format_of(network: &Network, larger: &[bool]) -> &'static str
    requires { AreLarger network.now.links larger.now }
    ensures { result.now ≡ format_of network.now }
{
    if has_larger(network, larger) {
        "mpls-whatif-2"
    } else {
        "mpls-whatif-1"
    }
}

fn has_larger(network: &Network, larger: &[bool]) -> bool
    requires { AreLarger network.now.links larger.now }
    ensures { result ≡ has_larger network.now.links }
{
    for e in 0..network.counts().links {
        if is_larger(larger, network.link(LinkId(e)).risk) {
            return true;
        }
    }
    false
}

fn routers_value(alloc: Global, network: &Network) -> Result<Value, NoMemory>
    ensures { IfOk result (λ v. view v ≡ list_of string network.now.routers) }
{
    let mut values = Vec::new(alloc);
    for r in 0..network.counts().routers {
        values.push(Value::try_from_str(alloc, network.router_name(RouterId(r)))?)?;
    }
    Ok(Value::Array(values))
}

fn labels_value(alloc: Global, network: &Network) -> Result<Value, NoMemory>
    ensures { IfOk result (λ v. view v ≡ labels_data network.now) }
{
    let mpls = class_value(alloc, network, Class::Mpls)?;
    let smpls = class_value(alloc, network, Class::Smpls)?;
    let ip = class_value(alloc, network, Class::Ip)?;
    Ok(labels_object(alloc, ip, mpls, smpls)?)
}

fn labels_object(alloc: Global, ip: Value, mpls: Value, smpls: Value) -> Result<Value, AllocError>
    ensures { IfOk result (λ v. view v ≡ object (member (codes "ip") (view ip) (member (codes "mpls") (view mpls) (member (codes "smpls") (view smpls) no_members)))) }
{
    json!(in alloc; {"ip": ip, "mpls": mpls, "smpls": smpls})
}

// The labels of a class.
fn class_value(alloc: Global, network: &Network, class: Class) -> Result<Value, NoMemory>
    ensures { IfOk result (λ v. view v ≡ list_of string (labels_in class network.now.classes network.now.labels)) }
{
    network.keeps();
    let mut values = Vec::new(alloc);
    for l in 0..network.counts().labels {
        if network.class(Label(l)) == class {
            values.push(Value::try_from_str(alloc, network.label_name(Label(l)))?)?;
        }
    }
    Ok(Value::Array(values))
}

fn links_value(alloc: Global, network: &Network, larger: &[bool]) -> Result<Value, NoMemory>
    requires { AreLarger network.now.links larger.now }
    ensures { IfOk result (λ v. view v ≡ list_of (link_data network.now) network.now.links) }
{
    network.keeps();
    let mut values = Vec::new(alloc);
    for e in 0..network.counts().links {
        values.push(link_value(alloc, network, larger, network.link(LinkId(e)))?)?;
    }
    Ok(Value::Array(values))
}

fn link_value(
    alloc: Global,
    network: &Network,
    larger: &[bool],
    link: &Link,
) -> Result<Value, NoMemory>
    requires larger { AreLarger network.now.links larger.now }
    requires ends { HasEnds network.now link.now }
    ensures { IfOk result (λ v. view v ≡ link_data network.now link.now) }
{
    let from = network.router_name(link.from);
    let out_if = network.interface_name(link.out_if);
    let to = network.router_name(link.to);
    let in_if = network.interface_name(link.in_if);
    if is_larger(larger, link.risk) {
        Ok(grouped_link_object(alloc, from, out_if, to, in_if, link.distance, link.risk)?)
    } else {
        Ok(link_object(alloc, from, out_if, to, in_if, link.distance)?)
    }
}

fn link_object(
    alloc: Global,
    from: &str,
    out_if: &str,
    to: &str,
    in_if: &str,
    distance: u32,
) -> Result<Value, AllocError>
    ensures { IfOk result (λ v. view v ≡ object (member (codes "distance") (number (unsigned distance)) (member (codes "from") (string from.now) (member (codes "in") (string in_if.now) (member (codes "out") (string out_if.now) (member (codes "to") (string to.now) no_members)))))) }
{
    json!(in alloc; {"distance": distance, "from": from, "in": in_if, "out": out_if, "to": to})
}

fn grouped_link_object(
    alloc: Global,
    from: &str,
    out_if: &str,
    to: &str,
    in_if: &str,
    distance: u32,
    risk: LinkId,
) -> Result<Value, AllocError>
    ensures { IfOk result (λ v. view v ≡ object (member (codes "distance") (number (unsigned distance)) (member (codes "from") (string from.now) (member (codes "group") (string (codes "g" ++ decimal risk.0)) (member (codes "in") (string in_if.now) (member (codes "out") (string out_if.now) (member (codes "to") (string to.now) no_members))))))) }
{
    let group = group_name(alloc, risk)?;
    named_link_object(alloc, from, out_if, to, in_if, distance, group.as_str())
}

// The name of a risk group that is told by its least link.
fn group_name(alloc: Global, risk: LinkId) -> Result<String, AllocError>
    ensures { IfOk result (λ s. string_bytes s ≡ codes "g" ++ decimal risk.0) }
{
    format!(in alloc; "g{}", risk.0)
}

fn named_link_object(
    alloc: Global,
    from: &str,
    out_if: &str,
    to: &str,
    in_if: &str,
    distance: u32,
    group: &str,
) -> Result<Value, AllocError>
    ensures { IfOk result (λ v. view v ≡ object (member (codes "distance") (number (unsigned distance)) (member (codes "from") (string from.now) (member (codes "group") (string group.now) (member (codes "in") (string in_if.now) (member (codes "out") (string out_if.now) (member (codes "to") (string to.now) no_members))))))) }
{
    json!(in alloc; {"distance": distance, "from": from, "group": group, "in": in_if, "out": out_if, "to": to})
}

fn tables_value(alloc: Global, network: &Network) -> Result<Value, NoMemory>
    ensures { IfOk result (λ v. view v ≡ list_of (row_data network.now) network.now.rows) }
{
    network.keeps();
    let mut values = Vec::new(alloc);
    for i in 0..network.counts().rows {
        let (link, label) = network.row(i);
        let groups = network.entry(link, label);
        values.push(row_value(alloc, network, link, label, groups)?)?;
    }
    Ok(Value::Array(values))
}

// What the tables say of a link and a label.
fn row_value(
    alloc: Global,
    network: &Network,
    link: LinkId,
    label: Label,
    groups: &[Group],
) -> Result<Value, NoMemory>
    requires { is_row_of network.now (record { link = link; label = label; groups = groups.now }) ≡ true }
    ensures { IfOk result (λ v. view v ≡ row_data network.now (record { link = link; label = label; groups = groups.now })) }
{
    network.keeps();
    let found = network.link(link);
    let at = network.router_name(found.to);
    let in_if = network.interface_name(found.in_if);
    let name = network.label_name(label);
    let groups = groups_value(alloc, network, groups)?;
    Ok(row_object(alloc, at, groups, in_if, name)?)
}

fn row_object(
    alloc: Global,
    at: &str,
    groups: Value,
    in_if: &str,
    label: &str,
) -> Result<Value, AllocError>
    ensures { IfOk result (λ v. view v ≡ object (member (codes "at") (string at.now) (member (codes "groups") (view groups) (member (codes "in") (string in_if.now) (member (codes "label") (string label.now) no_members))))) }
{
    json!(in alloc; {"at": at, "groups": groups, "in": in_if, "label": label})
}

fn groups_value(alloc: Global, network: &Network, groups: &[Group]) -> Result<Value, NoMemory>
    requires { are_groups_of network.now groups.now ≡ true }
    ensures { IfOk result (λ v. view v ≡ list_of (group_data network.now) groups.now) }
{
    let mut values = Vec::new(alloc);
    for group in groups {
        values.push(group_value(alloc, network, group.as_slice())?)?;
    }
    Ok(Value::Array(values))
}

fn group_value(alloc: Global, network: &Network, group: &[Member]) -> Result<Value, NoMemory>
    requires { list_all (is_member_of network.now) group.now ≡ true }
    ensures { IfOk result (λ v. view v ≡ group_data network.now group.now) }
{
    let mut values = Vec::new(alloc);
    for member in group {
        values.push(member_value(alloc, network, member)?)?;
    }
    Ok(Value::Array(values))
}

fn member_value(alloc: Global, network: &Network, member: &Member) -> Result<Value, NoMemory>
    requires { is_member_of network.now member.now ≡ true }
    ensures { IfOk result (λ v. view v ≡ way_data network.now member.now) }
{
    network.keeps();
    let out_if = network.interface_name(network.link(member.link).out_if);
    let ops = operations_value(alloc, network, member.ops.as_slice())?;
    Ok(member_object(alloc, ops, out_if)?)
}

fn member_object(alloc: Global, ops: Value, out_if: &str) -> Result<Value, AllocError>
    ensures { IfOk result (λ v. view v ≡ object (member (codes "ops") (view ops) (member (codes "out") (string out_if.now) no_members))) }
{
    json!(in alloc; {"ops": ops, "out": out_if})
}

fn operations_value(alloc: Global, network: &Network, ops: &[Op]) -> Result<Value, NoMemory>
    requires { list_all (op_known network.now) ops.now ≡ true }
    ensures { IfOk result (λ v. view v ≡ list_of (op_data network.now) ops.now) }
{
    let mut values = Vec::new(alloc);
    for op in ops {
        values.push(operation_value(alloc, network, *op)?)?;
    }
    Ok(Value::Array(values))
}

fn operation_value(alloc: Global, network: &Network, op: Op) -> Result<Value, NoMemory>
    requires { op_known network.now op ≡ true }
    ensures { IfOk result (λ v. view v ≡ op_data network.now op) }
{
    network.keeps();
    match op {
        Op::Swap(label, _) => Ok(two_words(alloc, "swap", network.label_name(label))?),
        Op::Push(label, _) => Ok(two_words(alloc, "push", network.label_name(label))?),
        Op::Pop => Ok(json!(in alloc; ["pop"])?),
    }
}

fn two_words(alloc: Global, word: &str, name: &str) -> Result<Value, AllocError>
    ensures { IfOk result (λ v. view v ≡ list_of string (word.now ∷ name.now ∷ [])) }
{
    json!(in alloc; [word, name])
}
