//! An operation names its label alone: the class is the network's, so no file can give a label another one. An operation
//! costs one look-up.
ghost use Rattle.std.specs.Prelude.{◌≡◌, [], option_map};
ghost use Rattle.serde_json.specs.Find.{as_array};
ghost use Rattle.serde_json.specs.View.{view, items_view};
ghost use Rattle.wi_net.specs.Builder.{found_or};
ghost use Rattle.wi_netjson.specs.Reading.{Gives, each};
ghost use Rattle.wi_netjson.specs.Operations.{operation_at, operation_of, one_word, two_words, labelled};

use crate::fault::{NetFault, Place};
use serde_json::Value;
use std::alloc::Global;
use wi_labels::{Class, Label, Op, Ops};
use wi_net::NetworkBuilder;

/// The operations of a member.
pub fn operations(
    alloc: Global,
    builder: &NetworkBuilder,
    i: usize,
    j: usize,
    m: usize,
    values: &[Value],
) -> Result<Ops, NetFault>
    ensures { Gives (λ ops. ops) result (each (operation_at builder.now.net i j m) [] 0 (items_view values.now)) }
{
    let mut ops = Ops::new(alloc);
    for (o, value) in values.iter().enumerate() {
        let op = operation(builder, Place::Operation(i, j, m, o), value)?;
        ops.push(op)?;
    }
    Ok(ops)
}

#[tactic(auto, using(crate::proofs::Walk::many_words))]
fn operation(builder: &NetworkBuilder, place: Place, value: &Value) -> Result<Op, NetFault>
    ensures { Gives (λ op. op) result (operation_of builder.now.net place (as_array (view value.now))) }
{
    match value.as_array() {
        Some(words) => match words.as_slice() {
            [word] => one_word(place, word.as_str()),
            [word, name] => two_words(builder, place, word.as_str(), name.as_str()),
            _ => Err(NetFault::BadOperation(place)),
        },
        None => Err(NetFault::BadOperation(place)),
    }
}

fn one_word(place: Place, word: Option<&str>) -> Result<Op, NetFault>
    ensures { Gives (λ op. op) result (one_word place (option_map (λ s. s.now) word.entry)) }
{
    match word {
        Some(word) => {
            if word == "pop" {
                Ok(Op::Pop)
            } else {
                Err(NetFault::BadOperation(place))
            }
        }
        None => Err(NetFault::BadOperation(place)),
    }
}

fn two_words(
    builder: &NetworkBuilder,
    place: Place,
    word: Option<&str>,
    name: Option<&str>,
) -> Result<Op, NetFault>
    ensures { Gives (λ op. op) result (two_words builder.now.net place (option_map (λ s. s.now) word.entry) (option_map (λ s. s.now) name.entry)) }
{
    match (word, name) {
        (Some(word), Some(name)) => {
            if word == "swap" {
                let (label, class) = labelled(builder, place, name)?;
                Ok(Op::Swap(label, class))
            } else if word == "push" {
                let (label, class) = labelled(builder, place, name)?;
                Ok(Op::Push(label, class))
            } else {
                Err(NetFault::BadOperation(place))
            }
        }
        _ => Err(NetFault::BadOperation(place)),
    }
}

// The label of a name, with its class.
fn labelled(builder: &NetworkBuilder, place: Place, name: &str) -> Result<(Label, Class), NetFault>
    ensures { Gives (λ l. l) result (found_or (NetFault.UnknownLabel place) (labelled builder.now.net name.now)) }
{
    match builder.find_label(name) {
        Some(label) => match builder.class(label) {
            Some(class) => Ok((label, class)),
            None => Err(NetFault::UnknownLabel(place)),
        },
        None => Err(NetFault::UnknownLabel(place)),
    }
}
