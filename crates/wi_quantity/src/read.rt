//! The form of the whole text comes first, then all words, then all counts, then all numbers: so each kind of fault is told
//! before any of the next. Terms are held as they are written meanwhile, and gone over once for each kind.
ghost use Rattle.std.specs.Prelude.{◌≡◌, true, nat_lt, None, Some, map, filter_map, option_map, IfOk, IfErr, if◌then◌else◌};
ghost use Rattle.std.specs.List.{list_all};
ghost use Rattle.std.specs.Str.Parse.{digits_value};
ghost use Rattle.wi_text.specs.Characters.{is_number};
ghost use Rattle.wi_quantity.specs.Faults.{Means, IsFault, quantity_named};
ghost use Rattle.wi_quantity.specs.private.Meaning.{has_number, have_numbers, unknown_in, unknown_among, many_among, large_in, large_among, AreMeant, IsFaultOf, IsUnknown, small_meant};

use crate::fault::WeightFault;
use crate::vector::{Part, Vector};
use crate::written::{Piece, WrittenPart, stop, terms_in};
use std::alloc::Global;
use wi_base::{Listed, NoMemory};
use wi_world::Quantity;

/// The vector of a weights text, such as `Hops, Distance+3*Tunnels`: terms with commas between them, each a sum of parts
/// `number*quantity`; white space may stand between them.
pub fn read_weights(alloc: Global, text: &str) -> Result<Vector, WeightFault>
    ensures read { IfOk result (λ vector. Means text.now vector) }
    ensures refused { IfErr result (λ fault. IsFault text.now fault) }
{
    if let Some(byte) = stop(text.as_bytes()) {
        return Err(WeightFault::Syntax(byte));
    }
    let terms = terms_in(alloc, text.as_bytes())?;
    vector_of(alloc, terms.as_slice())
}

// What terms mean, or their first fault.
fn vector_of(alloc: Global, terms: &[Listed<WrittenPart>]) -> Result<Vector, WeightFault>
    requires { have_numbers terms.now ≡ true }
    ensures meant { IfOk result (λ vector. AreMeant terms.now vector) }
    ensures refused { IfErr result (λ fault. IsFaultOf terms.now fault) }
{
    if let Some(word) = unknown_among(terms) {
        return Err(unknown(alloc, word));
    }
    if let Some(count) = many_among(terms) {
        return Err(WeightFault::TooManyTerms(count));
    }
    if let Some(byte) = large_among(terms) {
        return Err(WeightFault::Coefficient(byte));
    }
    Ok(Vector {
        terms: meant(alloc, terms)?,
    })
}

// The fault of a word that is no quantity.
fn unknown(alloc: Global, word: &Piece) -> WeightFault
    ensures { IsUnknown word.now result }
{
    match String::from_str(alloc, word.as_str()) {
        Ok(text) => WeightFault::UnknownQuantity(word.at(), text),
        Err(_) => WeightFault::Memory,
    }
}

// The quantity of a name.
fn quantity_named(name: &str) -> Option<Quantity>
    ensures { result ≡ quantity_named name.now }
{
    match name {
        "Links" => Some(Quantity::Links),
        "Hops" => Some(Quantity::Hops),
        "Distance" => Some(Quantity::Distance),
        "Failures" => Some(Quantity::Failures),
        "Tunnels" => Some(Quantity::Tunnels),
        _ => None,
    }
}

// The first word of terms that is no quantity.
fn unknown_among(terms: &[Listed<WrittenPart>]) -> Option<&Piece>
    ensures { option_map (λ word. word.now) result ≡ unknown_among terms.now }
{
    for term in terms {
        if let Some(word) = unknown_in(term.as_slice()) {
            return Some(word);
        }
    }
    None
}

fn unknown_in(parts: &[WrittenPart]) -> Option<&Piece>
    ensures { option_map (λ word. word.now) result ≡ unknown_in parts.now }
{
    for part in parts {
        let word = part.word();
        if quantity_named(word.as_str()).is_none() {
            return Some(word);
        }
    }
    None
}

// How many terms there are, if more than five; or else how many parts the first term has that has more than five.
fn many_among(terms: &[Listed<WrittenPart>]) -> Option<usize>
    ensures { result ≡ many_among terms.now }
{
    if terms.len() > 5 {
        return Some(terms.len());
    }
    for term in terms {
        let count = term.as_slice().len();
        if count > 5 {
            return Some(count);
        }
    }
    None
}

// Where the first number of terms starts that is over 65,535.
fn large_among(terms: &[Listed<WrittenPart>]) -> Option<usize>
    requires { have_numbers terms.now ≡ true }
    ensures { result ≡ large_among terms.now }
{
    for term in terms {
        if let Some(byte) = large_in(term.as_slice()) {
            return Some(byte);
        }
    }
    None
}

fn large_in(parts: &[WrittenPart]) -> Option<usize>
    requires { list_all has_number parts.now ≡ true }
    ensures { result ≡ large_in parts.now }
{
    for part in parts {
        if let Some(number) = part.number() {
            if value_of(number.as_str()).is_none() {
                return Some(number.at());
            }
        }
    }
    None
}

// The value of a number, unless it is over 65,535.
fn value_of(number: &str) -> Option<u16>
    requires { is_number number.now ≡ true }
    ensures { result ≡ (if nat_lt 65535 (digits_value 10 number.now) then None else Some (digits_value 10 number.now)) }
{
    number.parse().ok()
}

// What terms mean that have no fault.
fn meant(alloc: Global, terms: &[Listed<WrittenPart>]) -> Result<Vec<Listed<Part>>, NoMemory>
    requires { have_numbers terms.now ≡ true }
    ensures { IfOk result (λ vector. vector.items ≡ map (filter_map small_meant) terms.now) }
{
    let mut vector = Vec::new(alloc);
    for term in terms {
        vector.push(meant_in(alloc, term.as_slice())?)?;
    }
    Ok(vector)
}

fn meant_in(alloc: Global, parts: &[WrittenPart]) -> Result<Listed<Part>, NoMemory>
    requires { list_all has_number parts.now ≡ true }
    ensures { IfOk result (λ term. term ≡ filter_map small_meant parts.now) }
{
    let mut term = Vec::new(alloc);
    for part in parts {
        if let Some(meant) = part_meant(part) {
            term.push(meant)?;
        }
    }
    Ok(Listed::of(term))
}

// What a part means, if its word is a quantity and its number not over 65,535: without a number it counts once.
fn part_meant(part: &WrittenPart) -> Option<Part>
    requires { has_number part.now ≡ true }
    ensures { result ≡ small_meant part.now }
{
    let coefficient = match part.number() {
        Some(number) => value_of(number.as_str())?,
        None => 1,
    };
    let quantity = quantity_named(part.word().as_str())?;
    Some(Part {
        coefficient: u32::from(coefficient),
        quantity,
    })
}
