//! What kind of value stands at a place is asked for each part of a file, so each kind is one function that names the fault.
//! Nothing is copied: texts and lists are lent by the JSON value.
ghost use Rattle.std.specs.Prelude.{◌≡◌, ◌+◌, ◌≤◌, length, OnOk, option_map};
ghost use Rattle.serde_json.specs.View.{view, items_view};
ghost use Rattle.wi_netjson.specs.Reading.{Gives, text, list, object, limited, whole, optional_text};

use crate::fault::{NetFault, Place};
use serde_json::Value;

/// The text at a place.
pub fn text(place: Place, value: Option<&Value>) -> Result<&str, NetFault>
    ensures { Gives (λ s. s.now) result (text place (option_map (λ v. view v.now) value.entry)) }
{
    match value {
        Some(value) => match value.as_str() {
            Some(text) => Ok(text),
            None => Err(NetFault::WrongShape(place)),
        },
        None => Err(NetFault::WrongShape(place)),
    }
}

/// The list at a place.
pub fn list(place: Place, value: Option<&Value>) -> Result<&[Value], NetFault>
    ensures { Gives (λ vs. items_view vs.now) result (list place (option_map (λ v. view v.now) value.entry)) }
{
    match value {
        Some(value) => match value.as_array() {
            Some(values) => Ok(values.as_slice()),
            None => Err(NetFault::WrongShape(place)),
        },
        None => Err(NetFault::WrongShape(place)),
    }
}

/// The object at a place.
pub fn object(place: Place, value: Option<&Value>) -> Result<&Value, NetFault>
    ensures { Gives (λ v. view v.now) result (object place (option_map (λ v. view v.now) value.entry)) }
{
    match value {
        Some(value) => {
            if value.is_object() {
                Ok(value)
            } else {
                Err(NetFault::WrongShape(place))
            }
        }
        None => Err(NetFault::WrongShape(place)),
    }
}

/// Refuses a list that goes over a limit, after so many things before it.
#[tactic(auto, using(crate::proofs::Walk::len_of_items))]
pub fn limited(place: Place, limit: u32, before: usize, values: &[Value]) -> Result<(), NetFault>
    requires { before ≤ limit }
    ensures answer { Gives (λ u. u) result (limited place limit before (items_view values.now)) }
    ensures few { OnOk result (before + length values.now ≤ limit) }
{
    if values.len() <= limit as usize - before {
        Ok(())
    } else {
        Err(NetFault::OverLimit(place, limit))
    }
}

/// The whole number at a place, below 2^32.
pub fn whole(place: Place, value: Option<&Value>) -> Result<u32, NetFault>
    ensures { Gives (λ n. n) result (whole place (option_map (λ v. view v.now) value.entry)) }
{
    match value {
        Some(value) => match value.as_number() {
            Some(number) => match number.as_u64() {
                Some(n) => {
                    if n <= 4294967295 {
                        Ok(n as u32)
                    } else {
                        Err(NetFault::BadNumber(place))
                    }
                }
                None => Err(NetFault::BadNumber(place)),
            },
            None => Err(NetFault::WrongShape(place)),
        },
        None => Err(NetFault::WrongShape(place)),
    }
}

/// The text at a place that may have nothing.
pub fn optional_text(place: Place, value: Option<&Value>) -> Result<Option<&str>, NetFault>
    ensures { Gives (λ o. option_map (λ s. s.now) o) result (optional_text place (option_map (λ v. view v.now) value.entry)) }
{
    match value {
        Some(value) => Ok(Some(text(place, Some(value))?)),
        None => Ok(None),
    }
}
