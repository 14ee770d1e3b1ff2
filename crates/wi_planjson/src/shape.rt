//! What kind of value stands at a place is asked for each part of a file, so each kind is one function that names the place.
//! Nothing is copied: texts and lists are lent by the JSON value.
ghost use Rattle.std.specs.Prelude.{◌≡◌, option_map};
ghost use Rattle.serde_json.specs.View.{view, items_view};
ghost use Rattle.wi_planjson.specs.Reading.{Gives, text, list, object};
ghost use Rattle.wi_planjson.specs.Names.{names_of, both, named};

use crate::refused::{Place, PlanRefused};
use serde_json::Value;

/// The text at a place.
pub fn text(place: Place, value: Option<&Value>) -> Result<&str, PlanRefused>
    ensures { Gives (λ s. s.now) result (text place (option_map (λ v. view v.now) value.entry)) }
{
    match value {
        Some(value) => match value.as_str() {
            Some(text) => Ok(text),
            None => Err(PlanRefused::WrongShape(place)),
        },
        None => Err(PlanRefused::WrongShape(place)),
    }
}

/// The list at a place.
pub fn list(place: Place, value: Option<&Value>) -> Result<&[Value], PlanRefused>
    ensures { Gives (λ vs. items_view vs.now) result (list place (option_map (λ v. view v.now) value.entry)) }
{
    match value {
        Some(value) => match value.as_array() {
            Some(values) => Ok(values.as_slice()),
            None => Err(PlanRefused::WrongShape(place)),
        },
        None => Err(PlanRefused::WrongShape(place)),
    }
}

/// The object at a place.
pub fn object(place: Place, value: &Value) -> Result<&Value, PlanRefused>
    ensures { Gives (λ v. view v.now) result (object place (view value.now)) }
{
    if value.is_object() {
        Ok(value)
    } else {
        Err(PlanRefused::WrongShape(place))
    }
}

/// The names of a link's router and out interface, if the value is a list of two texts.
#[tactic(auto, using(crate::proofs::Shapes::many_names))]
pub fn names(value: &Value) -> Option<(&str, &str)>
    ensures { option_map (λ n. (n.0.now, n.1.now)) result ≡ names_of (view value.now) }
{
    match value.as_array() {
        Some(values) => match values.as_slice() {
            [router, out_if] => both(router.as_str(), out_if.as_str()),
            _ => None,
        },
        None => None,
    }
}

fn both<'a>(first: Option<&'a str>, second: Option<&'a str>) -> Option<(&'a str, &'a str)>
    ensures { option_map (λ n. (n.0.now, n.1.now)) result ≡ both (option_map (λ s. s.now) first.entry) (option_map (λ s. s.now) second.entry) }
{
    match (first, second) {
        (Some(first), Some(second)) => Some((first, second)),
        _ => None,
    }
}

/// The value at a place, if it is of the form of a link.
pub fn named(place: Place, value: Option<&Value>) -> Result<&Value, PlanRefused>
    ensures { Gives (λ v. view v.now) result (named place (option_map (λ v. view v.now) value.entry)) }
{
    match value {
        Some(value) => {
            if names(value).is_some() {
                Ok(value)
            } else {
                Err(PlanRefused::WrongShape(place))
            }
        }
        None => Err(PlanRefused::WrongShape(place)),
    }
}
