//! The three lists of labels are read one after the other, since labels are numbered class by class and a name is unique over
//! all of them: a label costs one look-up.
ghost use Rattle.std.specs.Prelude.{◌≡◌, ◌+◌, ◌<◌, ◌≤◌, true, length, OnOk, option_map};
ghost use Rattle.std.specs.List.{list_all};
ghost use Rattle.serde_json.specs.View.{view, items_view};
ghost use Rattle.wi_net.specs.Network.{is_no_later};
ghost use Rattle.wi_netjson.specs.Reading.{Gives, each};
ghost use Rattle.wi_netjson.specs.private.Refusals.{label_fault};
ghost use Rattle.wi_netjson.specs.Labels.{label_at, labels_of, label_list};

use crate::fault::{NetFault, Place};
use crate::shape::{limited, list, object, text};
use serde_json::Value;
use wi_labels::Class;
use wi_net::{BuildRefused, LABEL_LIMIT, NetworkBuilder};

/// Adds the labels of a file.
#[tactic(auto, unfolding(crate::specs::Labels::labels_of))]
pub fn labels(builder: &mut NetworkBuilder, file: &Value) -> Result<(), NetFault>
    requires { list_all (λ c. is_no_later c Class.Mpls) builder.old.net.classes ≡ true }
    ensures { Gives (λ _. builder.new) result (labels_of builder.old (view file.now)) }
{
    let lists = object(Place::Labels, file.get("labels"))?;
    label_list(builder, Class::Mpls, lists.get("mpls"))?;
    label_list(builder, Class::Smpls, lists.get("smpls"))?;
    label_list(builder, Class::Ip, lists.get("ip"))
}

#[tactic(auto, unfolding(crate::specs::Labels::label_list))]
fn label_list(
    builder: &mut NetworkBuilder,
    class: Class,
    value: Option<&Value>,
) -> Result<(), NetFault>
    requires { list_all (λ c. is_no_later c class) builder.old.net.classes ≡ true }
    ensures answer { Gives (λ _. builder.new) result (label_list class builder.old (option_map (λ v. view v.now) value.entry)) }
    ensures in_order { OnOk result (list_all (λ c. is_no_later c class) builder.new.net.classes ≡ true) }
{
    let values = list(Place::LabelList(class), value)?;
    limited(
        Place::LabelList(class),
        LABEL_LIMIT,
        builder.label_count(),
        values,
    )?;
    each_label(builder, class, values)
}

fn each_label(builder: &mut NetworkBuilder, class: Class, values: &[Value]) -> Result<(), NetFault>
    requires few { length builder.old.net.labels + length values.now ≤ LABEL_LIMIT }
    requires in_order { list_all (λ c. is_no_later c class) builder.old.net.classes ≡ true }
    ensures answer { Gives (λ _. builder.new) result (each (label_at class) builder.old 0 (items_view values.now)) }
    ensures in_order { OnOk result (list_all (λ c. is_no_later c class) builder.new.net.classes ≡ true) }
{
    for (i, value) in values.iter().enumerate() {
        label(builder, class, i, value)?;
    }
    Ok(())
}

#[tactic(auto, using(wi_net::proofs::Classes::one_later), unfolding(crate::specs::Labels::label_at, wi_net::specs::Builder::add_label))]
fn label(
    builder: &mut NetworkBuilder,
    class: Class,
    i: usize,
    value: &Value,
) -> Result<(), NetFault>
    requires few { length builder.old.net.labels < LABEL_LIMIT }
    requires in_order { list_all (λ c. is_no_later c class) builder.old.net.classes ≡ true }
    ensures answer { Gives (λ _. builder.new) result (label_at class builder.old i (view value.now)) }
    ensures count { OnOk result (length builder.new.net.labels ≡ length builder.old.net.labels + 1) }
    ensures in_order { OnOk result (list_all (λ c. is_no_later c class) builder.new.net.classes ≡ true) }
{
    let name = text(Place::LabelName(class, i), Some(value))?;
    match builder.label(class, name) {
        Ok(_) => Ok(()),
        Err(refused) => Err(label_fault(class, i, refused)),
    }
}

fn label_fault(class: Class, i: usize, refused: BuildRefused) -> NetFault
    ensures { result ≡ label_fault class i refused }
{
    match refused {
        BuildRefused::BadName(_) => NetFault::BadName(Place::LabelName(class, i)),
        BuildRefused::Repeated => NetFault::RepeatedLabel(Place::LabelName(class, i)),
        BuildRefused::Limit(_, limit) => NetFault::OverLimit(Place::LabelList(class), limit),
        _ => NetFault::Memory,
    }
}
