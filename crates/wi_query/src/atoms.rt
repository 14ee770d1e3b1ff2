//! An atom becomes a mark for each of the network's labels or links, so that whoever asks later has one look-up and no names.
//! To make it, the names of the atom are gone over for each of these.
ghost use Rattle.std.specs.Prelude.{◌≡◌, true, [], length, replicate, List, IfOk, IfErr};
ghost use Rattle.wi_net.specs.Net.{Net};
ghost use Rattle.wi_query.specs.Sets.{SymbolMarks, is_label_of, is_link_of};
ghost use Rattle.wi_query.specs.Unknown.{Unknown, unknown_in_label_atom, unknown_in_link_atom};
ghost use Rattle.wi_query.specs.private.Names.{IsFirst, marks_of, chosen, label_marks, link_marks};

use crate::fault::QueryFault;
use crate::names::{
    Ends, LabelName, any_between, any_meant, label_named, labels_named, pairs_named,
};
use crate::symbols::SymbolSet;
use std::alloc::Global;
use wi_base::NoMemory;
use wi_labels::Label;
use wi_net::{LinkId, Network};
use wi_syntax::{LabelAtom, LinkAtom};

/// An atom of a query's text, over labels or over links.
pub(crate) trait Meant {
    /// The set that it means.
    ghost marks: { Net → Self → SymbolMarks };

    /// The names in it that the network hasn't.
    ghost unknown: { Net → Self → List Unknown };

    /// The set that it means, or the first name in it that the network hasn't.
    fn set(&self, alloc: Global, net: &Network) -> Result<SymbolSet, QueryFault>
        ensures made { IfOk result (λ set. set ≡ marks net.now self.now) }
        ensures known { IfOk result (λ set. unknown net.now self.now ≡ []) }
        ensures refused { IfErr result (IsFirst (unknown net.now self.now)) };
}

// Each of so many symbols.
fn all_symbols(alloc: Global, count: u32) -> Result<SymbolSet, NoMemory>
    ensures { IfOk result (λ set. set ≡ replicate count true) }
{
    let marks = vec![in alloc; true; count as usize]?;
    Ok(SymbolSet::of(marks))
}

// Whether a symbol is meant, where some part of a list may mean it.
fn chosen(except: bool, any: bool) -> bool
    ensures { result ≡ chosen except any }
{
    any != except
}

// The labels that names stand for, or all but these.
fn labels_among(
    alloc: Global,
    net: &Network,
    except: bool,
    names: &[LabelName],
) -> Result<SymbolSet, NoMemory>
    ensures { IfOk result (λ set. set ≡ label_marks net.now except names.now) }
{
    let mut marks = Vec::new(alloc);
    for x in 0..net.counts().labels {
        marks.push(chosen(except, any_meant(net, names, Label(x))))?;
    }
    Ok(SymbolSet::of(marks))
}

// The links that pairs stand for, or all but these.
fn links_among(
    alloc: Global,
    net: &Network,
    except: bool,
    pairs: &[Ends],
) -> Result<SymbolSet, NoMemory>
    ensures { IfOk result (λ set. set ≡ link_marks net.now except pairs.now) }
{
    let mut marks = Vec::new(alloc);
    for x in 0..net.counts().links {
        marks.push(chosen(except, any_between(net, pairs, LinkId(x))))?;
    }
    Ok(SymbolSet::of(marks))
}

impl Meant for LabelAtom {
    ghost marks = { λ net atom. marks_of (length net.labels) (is_label_of net atom) };

    ghost unknown = { unknown_in_label_atom };

    fn set(&self, alloc: Global, net: &Network) -> Result<SymbolSet, QueryFault> {
        match self {
            LabelAtom::Any => Ok(all_symbols(alloc, net.counts().labels)?),
            LabelAtom::Name(name) => {
                let named = [label_named(alloc, net, name)?];
                Ok(labels_among(alloc, net, false, &named)?)
            }
            LabelAtom::List(except, names) => {
                let named = labels_named(alloc, net, names.as_slice())?;
                Ok(labels_among(alloc, net, *except, named.as_slice())?)
            }
        }
    }
}

impl Meant for LinkAtom {
    ghost marks = { λ net atom. marks_of (length net.links) (is_link_of net atom) };

    ghost unknown = { unknown_in_link_atom };

    fn set(&self, alloc: Global, net: &Network) -> Result<SymbolSet, QueryFault> {
        match self {
            LinkAtom::Any => Ok(all_symbols(alloc, net.counts().links)?),
            LinkAtom::List(except, pairs) => {
                let named = pairs_named(alloc, net, pairs.as_slice())?;
                Ok(links_among(alloc, net, *except, named.as_slice())?)
            }
        }
    }
}
