//! What a query asks is said by an expression, and rules are made by its automaton, so both are kept in one type, which also
//! keeps that they belong together: whoever has a query needs no condition for that. Each has sets of its own, so an atom's set
//! is there twice.
ghost use Rattle.std.specs.Prelude.{◌≡◌, ◌<◌, ◌^◌, true, [], IfOk, IfErr};
ghost use Rattle.std.specs.List.{flat_map};
ghost use Rattle.wi_regex.specs.Matching.{position_count};
ghost use Rattle.wi_syntax.specs.Trees.{IsExpression};
ghost use Rattle.wi_query.specs.Sets.{holds};
ghost use Rattle.wi_query.specs.Unknown.{unknown_in_sign};
ghost use Rattle.wi_query.specs.Meaning.{AreSignsOf};
ghost use Rattle.wi_query.specs.private.Names.{IsFirst};
ghost use Rattle.wi_query.specs.private.Frames.{set_sign};
ghost use Rattle.wi_query.specs.private.Parts.{IsOver};
ghost use Rattle.wi_query.specs.Compiled.{HasAutomaton};

use crate::atoms::Meant;
use crate::fault::QueryFault;
use crate::symbols::SymbolSet;
use crate::tree::Reading;
use std::alloc::Global;
use std::marker::Model;
use wi_net::Network;
use wi_nfa::{Nfa, NfaRefused};
use wi_regex::Regex;
use wi_syntax::Sign;

/// An expression over the labels or the links of a network, with its own automaton.
#[derive(Drop)]
pub struct Expression {
    regex: Regex<SymbolSet>,
    nfa: Nfa<SymbolSet>,
}

impl Model for Expression {
    ghost use Rattle.std.specs.Coded.{codes};
    ghost use Rattle.wi_regex.specs.contracts.regex.Regex as expressions;
    ghost use Rattle.wi_query.specs.contracts.symbols.SymbolSet as sets;
    ghost use Rattle.wi_query.specs.Compiled.{Compiled, HasAutomaton};

    ghost Value = { Compiled };

    ghost coded = { Prim.hlevel (codes, (expressions.the_row sets.the_row).coded) };

    ghost view = { λ e. record { regex = e.regex; nfa = e.nfa } };

    ghost invariant = { λ e. HasAutomaton (record { regex = e.regex; nfa = e.nfa }) };
}

impl Expression {
    /// The expression.
    pub fn regex(&self) -> &Regex<SymbolSet>
        ensures { result.now ≡ self.now.regex }
    {
        &self.regex
    }

    /// Its position automaton: state i stands for atom i of the text, from 1.
    pub fn nfa(&self) -> &Nfa<SymbolSet>
        ensures { result.now ≡ self.now.nfa }
    {
        &self.nfa
    }

    /// What every expression keeps: the automaton is its own, and has at most 513 states.
    pub fn keeps(&self)
        ensures { HasAutomaton self.now }
    {
        let _regex = &self.regex;
    }
}

// A sign with the set of its atom, or the first name in it that the network hasn't.
fn set_sign<A: Meant>(
    alloc: Global,
    net: &Network,
    sign: &Sign<A>,
) -> Result<Sign<SymbolSet>, QueryFault>
    ensures made { IfOk result (λ s. s ≡ set_sign (A.marks net.now) sign.now) }
    ensures known { IfOk result (λ s. unknown_in_sign (A.unknown net.now) sign.now ≡ []) }
    ensures refused { IfErr result (IsFirst (unknown_in_sign (A.unknown net.now) sign.now)) }
{
    Ok(match sign {
        Sign::Atom(atom) => Sign::Atom(atom.set(alloc, net)?),
        Sign::Open => Sign::Open,
        Sign::Close => Sign::Close,
        Sign::Star => Sign::Star,
        Sign::Plus => Sign::Plus,
        Sign::Maybe => Sign::Maybe,
        Sign::Or => Sign::Or,
    })
}

/// The expression that signs are, or the first name in them that the network hasn't.
pub(crate) fn regex_of<A: Meant>(
    alloc: Global,
    net: &Network,
    signs: &[Sign<A>],
) -> Result<Regex<SymbolSet>, QueryFault>
    requires { IsExpression (λ a. true) signs.now }
    ensures read { IfOk result (λ regex. AreSignsOf (λ a x. holds (A.marks net.now a) x) signs.now regex) }
    ensures known { IfOk result (λ regex. flat_map (unknown_in_sign (A.unknown net.now)) signs.now ≡ []) }
    ensures small { IfOk result (λ regex. position_count regex < 2 ^ 64) }
    ensures refused { IfErr result (IsFirst (flat_map (unknown_in_sign (A.unknown net.now)) signs.now)) }
{
    let _count = signs.len();
    let mut reading = Reading::new(alloc);
    for sign in signs {
        match set_sign(alloc, net, sign) {
            Ok(known) => reading = reading.after(alloc, known)?,
            Err(fault) => {
                drop(reading);
                return Err(fault);
            }
        }
    }
    match reading.finished(alloc)? {
        Some(regex) => Ok(regex),
        None => unreachable!(),
    }
}

/// An expression with its automaton. It is the one of this number in the text, from 1.
pub(crate) fn compiled(
    alloc: Global,
    number: u32,
    regex: Regex<SymbolSet>,
) -> Result<Expression, QueryFault>
    requires { position_count regex < 2 ^ 64 }
    ensures regex { IfOk result (λ e. e.regex ≡ regex) }
    ensures automaton { IfOk result (λ e. HasAutomaton e) }
    ensures over { IfErr result (IsOver number regex) }
{
    match Nfa::build(alloc, &regex) {
        Ok(nfa) => Ok(Expression { regex, nfa }),
        Err(NfaRefused::TooManyPositions(n)) => Err(QueryFault::TooManyPositions(number, n)),
        Err(NfaRefused::Memory) => Err(QueryFault::Memory),
    }
}
