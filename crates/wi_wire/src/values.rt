//! A value that isn't written as numbers are written is none, so each value has one name, and each entry at most one label of a
//! class. Labels are looked up by these names, of which the network has an index: both ways cost in the number of labels.
ghost use Rattle.std.specs.Prelude.{◌≡◌, true, IfOk, IfErr, option_map, string_bytes};
ghost use Rattle.std.specs.List.{list_all};
ghost use Rattle.wi_net.specs.Net.{label_known, labels_known};
ghost use Rattle.wi_wire.specs.Stacks.{is_entry};
ghost use Rattle.wi_wire.specs.Values.{HasNoValue, value_in, value_of, entries_of};
ghost use Rattle.wi_wire.specs.Values.{name_of, of_class, label_of, labels_of, header_of};
ghost use Rattle.wi_wire.specs.private.Labelled.{entry_at, class_of};

use crate::entry::{Entry, add_entry, is_free};
use crate::refused::NoValue;
use std::alloc::Global;
use wi_base::{NoMemory, read_decimal};
use wi_labels::{Class, Header, Label};
use wi_net::Network;

/// The entries of a header, top first, all with this TTL and Exp 0; or the first label that has no value. The `ip` label under the
/// stack has no entry.
pub fn entries_of(
    alloc: Global,
    net: &Network,
    header: &Header,
    ttl: u8,
) -> Result<Vec<Entry>, NoValue>
    requires { labels_known net.now header.now ≡ true }
    ensures entries { IfOk result (λ entries. entries_of net.now ttl header.now ≡ Ok entries.items) }
    ensures fit { IfOk result (λ entries. list_all is_entry entries.items ≡ true) }
    ensures refused { IfErr result (HasNoValue net.now ttl header.now) }
{
    let mut entries = Vec::new(alloc);
    for i in 0..header.len() {
        let (label, class) = header.at(i).unwrap();
        if let Some(entry) = entry_at(net, label, class, ttl)? {
            add_entry(&mut entries, entry)?;
        }
    }
    Ok(entries)
}

// The entry of a label; none for an `ip` label.
fn entry_at(net: &Network, label: Label, class: Class, ttl: u8) -> Result<Option<Entry>, NoValue>
    requires { label_known net.now.classes (label, class) ≡ true }
    ensures { result ≡ entry_at net.now ttl (label, class) }
{
    net.keeps();
    let value = match class {
        Class::Ip => return Ok(None),
        _ => value_of(class, net.label_name(label).as_bytes()),
    };
    match value {
        Some(value) => Ok(Some(Entry {
            label: value,
            exp: 0,
            ttl,
        })),
        None => Err(NoValue::Label(label)),
    }
}

// The value of a label of a class, by its name.
fn value_of(class: Class, name: &[u8]) -> Option<u32>
    ensures { result ≡ value_of class name.now }
{
    match (class, name) {
        (Class::Mpls, _) => value_in(name),
        (Class::Smpls, [b's', digits @ ..]) => value_in(digits),
        _ => None,
    }
}

// The value that a number is, as it is written.
fn value_in(text: &[u8]) -> Option<u32>
    ensures { result ≡ value_in text.now }
{
    let value = u32::try_from(read_decimal(text)?).ok()?;
    is_free(value).then_some(value)
}

/// The header of entries, top first, over an `ip` label: the last entry is an `smpls` label, the others are `mpls` labels. None
/// where one of them isn't in the network, or `ip` is no `ip` label of it. Exp and TTL aren't looked at.
pub fn header_of(
    alloc: Global,
    net: &Network,
    entries: &[Entry],
    ip: Label,
) -> Result<Option<Header>, NoMemory>
    ensures { IfOk result (λ header. header ≡ header_of net.now entries.now ip) }
{
    let Some(mut labels) = labels_of(alloc, net, entries)? else {
        return Ok(None);
    };
    let Some(bottom) = of_class(net, Class::Ip, ip) else {
        return Ok(None);
    };
    labels.push(bottom)?;
    match Header::from_labels(alloc, labels.as_slice()) {
        Ok(header) => Ok(Some(header)),
        Err(wi_labels::NoMemory::Memory) => Err(NoMemory::Memory),
    }
}

// The labels of entries, top first.
fn labels_of(
    alloc: Global,
    net: &Network,
    entries: &[Entry],
) -> Result<Option<Vec<(Label, Class)>>, NoMemory>
    ensures { IfOk result (λ labels. option_map (λ v. v.items) labels ≡ labels_of net.now entries.now) }
{
    let mut labels = Vec::new(alloc);
    for (i, entry) in entries.iter().enumerate() {
        let class = class_of(i + 1 == entries.len());
        match label_of(alloc, net, class, entry.label)? {
            Some(label) => labels.push(label)?,
            None => return Ok(None),
        }
    }
    Ok(Some(labels))
}

// The class of the bottom label of a stack, and of the others.
fn class_of(is_bottom: bool) -> Class
    ensures { result ≡ class_of is_bottom }
{
    if is_bottom { Class::Smpls } else { Class::Mpls }
}

// The label of a class that has a value.
fn label_of(
    alloc: Global,
    net: &Network,
    class: Class,
    value: u32,
) -> Result<Option<(Label, Class)>, NoMemory>
    ensures { IfOk result (λ label. label ≡ label_of net.now class value) }
{
    let name = name_of(alloc, class, value)?;
    match net.find_label(name.as_str()) {
        Some(label) => Ok(of_class(net, class, label)),
        None => Ok(None),
    }
}

// The name of the label of a class that has a value.
fn name_of(alloc: Global, class: Class, value: u32) -> Result<String, NoMemory>
    ensures { IfOk result (λ name. string_bytes name ≡ name_of class value) }
{
    match class {
        Class::Mpls => Ok(format!(in alloc; "{value}")?),
        Class::Smpls => Ok(format!(in alloc; "s{value}")?),
        Class::Ip => Ok(String::new(alloc)),
    }
}

/// A label as one of a class, if it is.
pub(crate) fn of_class(net: &Network, class: Class, label: Label) -> Option<(Label, Class)>
    ensures { result ≡ of_class net.now class label }
{
    net.keeps();
    if label.0 < net.counts().labels && net.class(label) == class {
        Some((label, class))
    } else {
        None
    }
}
