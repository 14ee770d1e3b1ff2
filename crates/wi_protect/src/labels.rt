//! Labels are numbered class by class, so the new ones stand behind the network's of their class, and each `ip` label moves by
//! the count of the new ones. All new names are made and looked up before anything is refused: a name that is taken is told
//! before a count that is too large. Each costs a look-up, and its text.
ghost use Rattle.std.specs.Prelude.{◌≡◌, ◌+◌, ◌≤◌, ◌<◌, ◌^◌, ◌++◌, true, length, string_bytes, Ok, IfOk, OnOk, codes};
ghost use Rattle.std.specs.List.{list_any};
ghost use Rattle.wi_labels.specs.Header.{same_class};
ghost use Rattle.wi_net.specs.declared.limits.TheConstants.{LABEL_LIMIT};
ghost use Rattle.wi_net.specs.Names.{are_names};
ghost use Rattle.wi_net.specs.Builder.{with_label, links_alone};
ghost use Rattle.wi_protect.specs.Labels.{names_of, numbered, numbered_to, path_labels, bypass_labels, paths_labels, bypasses_labels, paths_names, bypasses_names, label_names, label_classes, first_bypass_label, first_path_label, new_labels};
ghost use Rattle.wi_protect.specs.Refusals.{is_taken, has_taken};
ghost use Rattle.wi_protect.specs.private.Adding.{MayLabel, CanLabel, with_labels, name_if};

use std::alloc::Global;
use wi_base::NoMemory;
use wi_labels::{Class, Label};
use wi_net::{Network, NetworkBuilder};
use wi_plan::{Bypass, Path, Plan};

/// The numbers of the first bypass's first label and of the first path's, and how many labels are new.
#[derive(Clone, Copy)]
pub struct Numbers {
    pub bypass: u32,
    pub path: u32,
    pub new: u32,
}

/// How many labels a path has: one for each of its links but the first and the last.
pub fn path_labels(path: &Path) -> usize
    ensures { result ≡ path_labels path.now }
{
    path.links.as_slice().len().saturating_sub(2)
}

/// How many labels a bypass has: one for each of its links but the last.
pub fn bypass_labels(bypass: &Bypass) -> usize
    ensures { result ≡ bypass_labels bypass.now }
{
    bypass.via.as_slice().len().saturating_sub(1)
}

/// How many labels paths have.
pub fn path_label_count(paths: &[Path]) -> u128
    requires { length paths.now < 2 ^ 64 }
    ensures { result ≡ paths_labels paths.now }
{
    let mut count = 0;
    for path in paths {
        count += path_labels(path) as u128;
    }
    count
}

/// How many labels bypasses have.
pub fn bypass_label_count(bypasses: &[Bypass]) -> u128
    requires { length bypasses.now < 2 ^ 64 }
    ensures { result ≡ bypasses_labels bypasses.now }
{
    let mut count = 0;
    for bypass in bypasses {
        count += bypass_labels(bypass) as u128;
    }
    count
}

// The name of a label: a letter, the number of its path or bypass, a dot, the label's number along it.
fn numbered(alloc: Global, letter: &str, owner: usize, place: usize) -> Result<String, NoMemory>
    ensures { IfOk result (λ s. string_bytes s ≡ numbered letter.now owner place) }
{
    Ok(format!(in alloc; "{letter}{owner}.{place}")?)
}

/// Whether the name of a new label is there already.
pub fn has_taken(alloc: Global, net: &Network, plan: &Plan) -> Result<bool, NoMemory>
    ensures { IfOk result (λ taken. taken ≡ has_taken net.now plan.now) }
{
    if is_bypass_taken(alloc, net, plan.bypasses.as_slice())? {
        return Ok(true);
    }
    is_path_taken(alloc, net, plan.paths.as_slice())
}

fn is_bypass_taken(alloc: Global, net: &Network, bypasses: &[Bypass]) -> Result<bool, NoMemory>
    ensures { IfOk result (λ taken. taken ≡ list_any (is_taken net.now) (bypasses_names 1 bypasses.now)) }
{
    for (i, bypass) in bypasses.iter().enumerate() {
        let count = bypass_labels(bypass);
        if is_numbered_taken(alloc, net, "b", i + 1, count)? {
            return Ok(true);
        }
    }
    Ok(false)
}

fn is_path_taken(alloc: Global, net: &Network, paths: &[Path]) -> Result<bool, NoMemory>
    ensures { IfOk result (λ taken. taken ≡ list_any (is_taken net.now) (paths_names 1 paths.now)) }
{
    for (i, path) in paths.iter().enumerate() {
        let count = path_labels(path);
        if is_numbered_taken(alloc, net, "p", i + 1, count)? {
            return Ok(true);
        }
    }
    Ok(false)
}

fn is_numbered_taken(
    alloc: Global,
    net: &Network,
    letter: &str,
    owner: usize,
    count: usize,
) -> Result<bool, NoMemory>
    ensures { IfOk result (λ taken. taken ≡ list_any (is_taken net.now) (numbered_to letter.now owner count)) }
{
    for i in 0..count {
        let name = numbered(alloc, letter, owner, i + 1)?;
        if net.find_label(name.as_str()).is_some() {
            return Ok(true);
        }
    }
    Ok(false)
}

/// Adds the network's labels and the plan's, class by class.
pub fn add_labels(
    builder: &mut NetworkBuilder,
    alloc: Global,
    net: &Network,
    plan: &Plan,
) -> Result<Numbers, NoMemory>
    requires alone { builder.old ≡ links_alone net.now }
    requires names { are_names (label_names net.now plan.now) ≡ true }
    requires few { length (label_names net.now plan.now) ≤ LABEL_LIMIT }
    ensures labels { OnOk result (builder.new ≡ record builder.old { net = record builder.old.net { labels = label_names net.now plan.now; classes = label_classes net.now plan.now } }) }
    ensures bypass { IfOk result (λ numbers. numbers.bypass ≡ first_bypass_label net.now) }
    ensures path { IfOk result (λ numbers. numbers.path ≡ first_path_label net.now plan.now) }
    ensures new { IfOk result (λ numbers. numbers.new ≡ new_labels plan.now) }
{
    add_class(builder, net, Class::Mpls)?;
    let bypass = builder.label_count();
    add_bypass_labels(builder, alloc, plan.bypasses.as_slice())?;
    let bypass_end = builder.label_count();
    add_class(builder, net, Class::Smpls)?;
    let path = builder.label_count();
    add_path_labels(builder, alloc, plan.paths.as_slice())?;
    let path_end = builder.label_count();
    add_class(builder, net, Class::Ip)?;
    Ok(Numbers {
        bypass: bypass as u32,
        path: path as u32,
        new: (bypass_end - bypass + (path_end - path)) as u32,
    })
}

// Adds the labels of a class.
fn add_class(builder: &mut NetworkBuilder, net: &Network, class: Class) -> Result<(), NoMemory>
    requires { CanLabel class builder.old (names_of class net.now.classes net.now.labels) }
    ensures { OnOk result (builder.new ≡ with_labels class builder.old (names_of class net.now.classes net.now.labels)) }
{
    net.keeps();
    for i in 0..net.counts().labels {
        add_if(
            builder,
            class,
            net.class(Label(i)),
            net.label_name(Label(i)),
        )?;
    }
    Ok(())
}

// Adds a label, if it is of a class.
fn add_if(
    builder: &mut NetworkBuilder,
    class: Class,
    found: Class,
    name: &str,
) -> Result<(), NoMemory>
    requires { CanLabel class builder.old (name_if class found name.now) }
    ensures { OnOk result (builder.new ≡ with_labels class builder.old (name_if class found name.now)) }
{
    if is_class(class, found) {
        add_label(builder, class, name)?;
    }
    Ok(())
}

fn is_class(class: Class, found: Class) -> bool
    ensures { result ≡ same_class class found }
{
    class == found
}

fn add_bypass_labels(
    builder: &mut NetworkBuilder,
    alloc: Global,
    bypasses: &[Bypass],
) -> Result<(), NoMemory>
    requires { CanLabel Class.Mpls builder.old (bypasses_names 1 bypasses.now) }
    ensures { OnOk result (builder.new ≡ with_labels Class.Mpls builder.old (bypasses_names 1 bypasses.now)) }
{
    for (i, bypass) in bypasses.iter().enumerate() {
        let count = bypass_labels(bypass);
        add_numbered(builder, alloc, Class::Mpls, "b", i + 1, count)?;
    }
    Ok(())
}

fn add_path_labels(
    builder: &mut NetworkBuilder,
    alloc: Global,
    paths: &[Path],
) -> Result<(), NoMemory>
    requires { CanLabel Class.Smpls builder.old (paths_names 1 paths.now) }
    ensures { OnOk result (builder.new ≡ with_labels Class.Smpls builder.old (paths_names 1 paths.now)) }
{
    for (i, path) in paths.iter().enumerate() {
        let count = path_labels(path);
        add_numbered(builder, alloc, Class::Smpls, "p", i + 1, count)?;
    }
    Ok(())
}

// Adds so many labels, their second number rising from 1.
fn add_numbered(
    builder: &mut NetworkBuilder,
    alloc: Global,
    class: Class,
    letter: &str,
    owner: usize,
    count: usize,
) -> Result<(), NoMemory>
    requires { CanLabel class builder.old (numbered_to letter.now owner count) }
    ensures { OnOk result (builder.new ≡ with_labels class builder.old (numbered_to letter.now owner count)) }
{
    for i in 0..count {
        let text = numbered(alloc, letter, owner, i + 1)?;
        add_label(builder, class, text.as_str())?;
    }
    Ok(())
}

// Adds a label that breaks no rule: so a refusal is for want of memory.
fn add_label(builder: &mut NetworkBuilder, class: Class, name: &str) -> Result<(), NoMemory>
    requires { MayLabel class builder.old name.now }
    ensures { OnOk result (builder.new ≡ with_label builder.old class name.now) }
{
    match builder.label(class, name) {
        Ok(_) => Ok(()),
        Err(_) => Err(NoMemory::Memory),
    }
}
