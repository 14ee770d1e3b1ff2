//! Whoever writes a plan looks for the part at fault in the file, so a place is the way to it, as for networks. What is wrong with the
//! network that a plan asks for has the place in that network.
ghost use Rattle.std.specs.Prelude.{◌≡◌, ◌++◌, codes, IfOk, OnOk};
ghost use Rattle.wi_faults.specs.NetworkFaults.{element_text};
ghost use Rattle.wi_faults.specs.PlanFaults.{at_text, part_of, place_text, plan_fault_text, protect_fault_text};

use crate::network_faults::element;
use std::alloc::Global;
use wi_base::NoMemory;
use wi_planjson::{Place, PlanRefused};
use wi_protect::ProtectRefused;
use wi_text::Text;

/// What is said of a file that has no plan: the place, and what is wrong there.
pub fn plan_fault_text(alloc: Global, refused: PlanRefused) -> Result<Text, NoMemory>
    ensures { IfOk result (λ text. text ≡ plan_fault_text refused) }
{
    let mut text = Text::new(alloc);
    put_fault(refused, &mut text)?;
    Ok(text)
}

fn put_fault(refused: PlanRefused, text: &mut Text) -> Result<(), NoMemory>
    ensures { OnOk result (text.new ≡ text.old ++ plan_fault_text refused) }
{
    match refused {
        PlanRefused::Memory => text.put("whatif: out of memory\n"),
        PlanRefused::NotEmpty => at(Place::Tables, "not empty", text),
        PlanRefused::WrongShape(place) => at(place, "wrong shape", text),
        PlanRefused::Unknown(place) => at(place, "unknown", text),
        PlanRefused::TooShort(place) => at(place, "too short", text),
        PlanRefused::Broken(place) => at(place, "broken", text),
        PlanRefused::Repeated(place) => at(place, "repeated", text),
        PlanRefused::Taken(place) => at(place, "taken", text),
        PlanRefused::Continues(place) => at(place, "continues", text),
    }
}

// A fault at a place.
fn at(place: Place, words: &str, text: &mut Text) -> Result<(), NoMemory>
    ensures { OnOk result (text.new ≡ text.old ++ at_text place words.now) }
{
    text.put("plan: ")?;
    put_place(place, text)?;
    text.put(": ")?;
    text.put(words)?;
    text.put("\n")
}

// A place, as the members' names with dots between and numbers in brackets.
fn put_place(place: Place, text: &mut Text) -> Result<(), NoMemory>
    ensures { OnOk result (text.new ≡ text.old ++ place_text place) }
{
    match place {
        Place::Tables => text.put("tables"),
        Place::Paths => text.put("paths"),
        Place::Path(i) => element("paths", i, text),
        Place::PathIp(i) => put_part("paths", i, ".ip", text),
        Place::PathLinks(i) => put_part("paths", i, ".links", text),
        Place::PathLink(i, j) => {
            element("paths", i, text)?;
            element(".links", j, text)
        }
        Place::Bypasses => text.put("bypasses"),
        Place::Bypass(i) => element("bypasses", i, text),
        Place::BypassLink(i) => put_part("bypasses", i, ".link", text),
        Place::BypassVia(i) => put_part("bypasses", i, ".via", text),
        Place::ViaLink(i, j) => {
            element("bypasses", i, text)?;
            element(".via", j, text)
        }
    }
}

// A member of an element.
fn put_part(list: &str, i: usize, word: &str, text: &mut Text) -> Result<(), NoMemory>
    ensures { OnOk result (text.new ≡ text.old ++ part_of list.now i word.now) }
{
    element(list, i, text)?;
    text.put(word)
}

/// What is said of a plan whose network can't be made.
pub fn protect_fault_text(alloc: Global, refused: ProtectRefused) -> Result<Text, NoMemory>
    ensures { IfOk result (λ text. text ≡ protect_fault_text refused) }
{
    let mut text = Text::new(alloc);
    match refused {
        ProtectRefused::Memory => text.put("whatif: out of memory\n")?,
        ProtectRefused::TakenLabel => text.put("plan: labels: taken\n")?,
        ProtectRefused::TooManyLabels => text.put("plan: labels: over the limit 20000\n")?,
    }
    Ok(text)
}
