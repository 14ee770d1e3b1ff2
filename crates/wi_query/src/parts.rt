//! All names are looked up in the order of the text, before any automaton is made, since an unknown name is told before an
//! expression that is too large. So all three expressions are there before the first automaton.
ghost use Rattle.std.specs.Prelude.{◌≡◌, ◌<◌, ◌^◌, [], IfOk, IfErr};
ghost use Rattle.std.specs.List.{flat_map};
ghost use Rattle.wi_regex.specs.Matching.{position_count};
ghost use Rattle.wi_syntax.specs.Grammar.{IsLast, IsWritten};
ghost use Rattle.wi_query.specs.Sets.{is_label_of};
ghost use Rattle.wi_query.specs.Last.{last_signs, is_dropped};
ghost use Rattle.wi_query.specs.Unknown.{unknown_in_label_atom, unknown_in_sign, unknown_in};
ghost use Rattle.wi_query.specs.Meaning.{AreSignsOf};
ghost use Rattle.wi_query.specs.private.Names.{IsFirst};
ghost use Rattle.wi_query.specs.private.Parts.{AreParts, AreCounted};

use crate::bounds::known_links;
use crate::expression::regex_of;
use crate::fault::QueryFault;
use crate::symbols::SymbolSet;
use std::alloc::Global;
use wi_net::{FailSet, Network};
use wi_regex::Regex;
use wi_syntax::{LabelAtom, Last, Sign, Written};

/// The expressions of a query, whether the packet is to be dropped, and the links that are known down and up.
#[derive(Drop)]
pub(crate) struct Parts {
    pub(crate) first: Regex<SymbolSet>,
    pub(crate) path: Regex<SymbolSet>,
    pub(crate) last: Regex<SymbolSet>,
    pub(crate) drops: bool,
    pub(crate) down: FailSet,
    pub(crate) up: FailSet,
}

// Whether the packet is to be dropped.
fn is_dropped(last: &Last) -> bool
    ensures { result ≡ is_dropped last.now }
{
    matches!(last, Last::Dropped(_))
}

// The last header, or the first name in it that the network hasn't. A packet may be dropped with any header.
fn last_of(alloc: Global, net: &Network, last: &Last) -> Result<Regex<SymbolSet>, QueryFault>
    requires { IsLast last.now }
    ensures read { IfOk result (λ regex. AreSignsOf (is_label_of net.now) (last_signs last.now) regex) }
    ensures known { IfOk result (λ regex. flat_map (unknown_in_sign (unknown_in_label_atom net.now)) (last_signs last.now) ≡ []) }
    ensures small { IfOk result (λ regex. position_count regex < 2 ^ 64) }
    ensures refused { IfErr result (IsFirst (flat_map (unknown_in_sign (unknown_in_label_atom net.now)) (last_signs last.now))) }
{
    match last {
        Last::Header(signs) => regex_of(alloc, net, signs.as_slice()),
        Last::Dropped(_) => {
            let signs = [Sign::Atom(LabelAtom::Any), Sign::Star];
            regex_of(alloc, net, &signs)
        }
    }
}

/// The parts of a query, or the first name in it that the network hasn't.
pub(crate) fn parts_of(alloc: Global, net: &Network, written: &Written) -> Result<Parts, QueryFault>
    requires { IsWritten written.now }
    ensures made { IfOk result (λ parts. AreParts net.now written.now parts) }
    ensures counted { IfOk result (λ parts. AreCounted parts) }
    ensures known { IfOk result (λ parts. unknown_in net.now written.now ≡ []) }
    ensures refused { IfErr result (IsFirst (unknown_in net.now written.now)) }
{
    let first = regex_of(alloc, net, written.first.as_slice())?;
    let path = regex_of(alloc, net, written.path.as_slice())?;
    let last = last_of(alloc, net, &written.last)?;
    let down = known_links(alloc, net, &written.down)?;
    let up = known_links(alloc, net, &written.up)?;
    Ok(Parts {
        first,
        path,
        last,
        drops: is_dropped(&written.last),
        down,
        up,
    })
}
