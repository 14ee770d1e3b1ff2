//! Whether the parts of a run are as the query asks: each is a word, of numbers of labels or of links, that an automaton reads.
ghost use Rattle.std.specs.Prelude.{◌≡◌, [], Ok, true, false, map, IfOk};
ghost use Rattle.wi_regex.specs.Matching.{Matches};
ghost use Rattle.wi_nfa.specs.Sets.{symbols};
ghost use Rattle.wi_query.specs.Sets.{holds};
ghost use Rattle.wi_world.specs.Runs.{links_of, last_header, locations};

use std::alloc::Global;
use wi_base::NoMemory;
use wi_labels::Header;
use wi_net::{LinkId, Network};
use wi_query::Expression;
use wi_regex::Symbol;
use wi_trace::{Location, Run, Step, follow, twin_of};

/// Whether an expression matches a word.
pub(crate) fn matches(
    alloc: Global,
    expression: &Expression,
    word: &[Symbol],
) -> Result<bool, NoMemory>
    ensures yes { result ≡ Ok true → Matches holds expression.now.regex (symbols word.now) }
    ensures no { result ≡ Ok false → Matches holds expression.now.regex (symbols word.now) → ⊥ }
{
    expression.keeps();
    match expression.nfa().accepts_word(alloc, word) {
        Ok(accepts) => Ok(accepts),
        Err(_) => Err(NoMemory::Memory),
    }
}

/// The labels of a header, by number.
pub(crate) fn labels_of(alloc: Global, header: &Header) -> Result<Vec<Symbol>, NoMemory>
    ensures { IfOk result (λ word. symbols word.items ≡ map (λ l. l.0.0) header.now) }
{
    let mut word = Vec::new(alloc);
    for i in 0..header.len() {
        match header.at(i) {
            Some((label, _)) => word.push(Symbol(label.0))?,
            None => return Ok(word),
        }
    }
    Ok(word)
}

/// The links of a run, by number, and its last header, as far as its steps lead.
pub(crate) fn travelled(
    alloc: Global,
    net: &Network,
    run: &Run,
) -> Result<(Vec<Symbol>, Header), NoMemory>
    ensures links { IfOk result (λ found. symbols found.0.items ≡ map (λ e. e.0) (links_of net.now run.now)) }
    ensures header { IfOk result (λ found. found.1 ≡ last_header net.now (run.now.first, run.now.header) run.now.steps) }
{
    let at = (run.first, twin_of(&run.header)?);
    travel(alloc, net, at, run.steps.as_slice())
}

// The links of a packet, by number, and its last header, from a place on.
#[tactic(auto, using(crate::proofs::WalkLemmas::travel_laws))]
fn travel(
    alloc: Global,
    net: &Network,
    mut at: Location,
    steps: &[Step],
) -> Result<(Vec<Symbol>, Header), NoMemory>
    ensures links { IfOk result (λ found. symbols found.0.items ≡ map (λ e. e.0) (map (λ place. place.0) (locations net.now at steps.now))) }
    ensures header { IfOk result (λ found. found.1 ≡ last_header net.now at steps.now) }
{
    let mut links = Vec::new(alloc);
    for step in steps {
        links.push(Symbol(at.0.0))?;
        if !follow(net, &mut at, *step)? {
            return Ok((links, no_header(alloc)?));
        }
    }
    links.push(Symbol(at.0.0))?;
    Ok((links, at.1))
}

// A header without labels.
fn no_header(alloc: Global) -> Result<Header, NoMemory>
    ensures { IfOk result (λ header. header ≡ []) }
{
    match Header::from_labels(alloc, &[]) {
        Ok(header) => Ok(header),
        Err(_) => Err(NoMemory::Memory),
    }
}
