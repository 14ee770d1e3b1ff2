//! Each event is judged in the state that those before it left, so that the first that isn't allowed is told. The state after
//! each event is kept, with a copy of the header and of the failed links, since all are printed.
ghost use Rattle.std.specs.Prelude.{◌≡◌, ◌++◌, ◌∷◌, [], true, None, Some, Ok, Err, ℕ, IfOk, IfErr, OnOk};
ghost use Rattle.std.specs.List.{list_all};
ghost use Rattle.wi_world.specs.Moving.{after_event};
ghost use Rattle.wi_net.specs.Network.{IsNetwork};
ghost use Rattle.wi_net.specs.Net.{is_link, labels_known, widened};
ghost use Rattle.wi_script.specs.declared.script.ScriptCause.{ScriptCause};
ghost use Rattle.wi_script.specs.declared.script.ScriptRefused.{ScriptRefused};
ghost use Rattle.wi_script.specs.Known.{is_known_event, IsScriptOf};
ghost use Rattle.wi_script.specs.Plays.{begin, states_of, hop_words, is_state_of, IsNotPlayed, IsNotPlayedFrom};
ghost use Rattle.wi_world.specs.declared.world.Event.{Event};
ghost use Rattle.wi_script.specs.private.Moments.{seen, is_moment_of, TakesPlace};

use crate::script::{Script, ScriptCause, ScriptRefused};
use crate::sets::remove_all;
use std::alloc::Global;
use wi_base::{Listed, NoMemory};
use wi_net::{FailSet, LinkId, Network};
use wi_trace::{Cause, Location, hop_under, insert_all, twin_of};
use wi_world::{Event, State, Step};

// Where the packet is, and which links are down.
#[derive(Drop)]
struct Moment {
    at: Location,
    fails: FailSet,
}

/// The states of the moving world while a script is played with at most `k` risk groups failed: where it starts, and then
/// what each event leaves.
pub fn play(
    alloc: Global,
    net: &Network,
    k: u32,
    script: &Script,
) -> Result<Listed<State>, ScriptRefused>
    requires { IsScriptOf net.now script.now }
    ensures played { IfOk result (λ states. states_of net.now k (begin script.now) script.now.events ≡ Some states) }
    ensures known { IfOk result (λ states. list_all (is_state_of net.now) states ≡ true) }
    ensures refused { IfErr result (λ refused. IsNotPlayed net.now k script.now refused) }
{
    net.keeps();
    let begin = Moment {
        at: (script.first, twin_of(&script.header)?),
        fails: FailSet::new(alloc),
    };
    let states = states_from(alloc, net, k, begin, script.events.as_slice())?;
    Ok(Listed::of(states))
}

// The states from a moment on.
fn states_from(
    alloc: Global,
    net: &Network,
    k: u32,
    mut now: Moment,
    events: &[Event],
) -> Result<Vec<State>, ScriptRefused>
    requires network { IsNetwork net.now }
    requires known { is_moment_of net.now (seen now) ≡ true }
    requires events { list_all (is_known_event net.now) events.now ≡ true }
    ensures played { IfOk result (λ states. states_of net.now k (seen now) events.now ≡ Some states.items) }
    ensures known { IfOk result (λ states. list_all (is_state_of net.now) states.items ≡ true) }
    ensures refused { IfErr result (λ refused. IsNotPlayedFrom net.now k (seen now) events.now refused) }
{
    let mut states = Vec::new(alloc);
    for (i, event) in events.iter().enumerate() {
        note(&mut states, &now)?;
        if let Some(cause) = happen(alloc, net, k, &mut now, *event)? {
            return Err(ScriptRefused::BadLine(i + 2, cause));
        }
    }
    note(&mut states, &now)?;
    Ok(states)
}

// Notes a state.
fn note(states: &mut Vec<State>, now: &Moment) -> Result<(), NoMemory>
    ensures { OnOk result (states.new.items ≡ states.old.items ++ seen now.now ∷ []) }
{
    let state = State {
        link: now.at.0,
        header: twin_of(&now.at.1)?,
        fails: now.fails.twin()?,
    };
    match states.push(state) {
        Ok(()) => Ok(()),
        Err(_failed) => Err(NoMemory::Memory),
    }
}

// An event happens, or the answer is why it isn't allowed.
fn happen(
    alloc: Global,
    net: &Network,
    k: u32,
    now: &mut Moment,
    event: Event,
) -> Result<Option<ScriptCause>, NoMemory>
    requires network { IsNetwork net.now }
    requires known { is_moment_of net.now (seen now.old) ≡ true }
    requires event { is_known_event net.now event ≡ true }
    ensures { IfOk result (λ cause. TakesPlace net.now k (seen now.old) event (seen now.new) cause) }
{
    match event {
        Event::Fail(link) => fail(alloc, net, k, now, link),
        Event::Repair(link) => repair(alloc, net, now, link),
        Event::Hop(step) => take(alloc, net, now, step),
    }
}

// A link's risk group fails.
fn fail(
    alloc: Global,
    net: &Network,
    k: u32,
    now: &mut Moment,
    link: LinkId,
) -> Result<Option<ScriptCause>, NoMemory>
    requires known { is_moment_of net.now (seen now.old) ≡ true }
    requires link { is_link net.now link ≡ true }
    ensures { IfOk result (λ cause. TakesPlace net.now k (seen now.old) (Event.Fail link) (seen now.new) cause) }
{
    if now.fails.contains(link) {
        return Ok(Some(ScriptCause::AlreadyFailed));
    }
    if net.count(&now.fails) >= k as usize {
        return Ok(Some(ScriptCause::TooManyFailed));
    }
    let failing = risk_group(alloc, net, link)?;
    insert_all(&mut now.fails, &failing)?;
    Ok(None)
}

// A link's risk group is repaired.
fn repair(
    alloc: Global,
    net: &Network,
    now: &mut Moment,
    link: LinkId,
) -> Result<Option<ScriptCause>, NoMemory>
    requires { is_moment_of net.now (seen now.old) ≡ true }
    ensures { (k : ℕ) → IfOk result (λ cause. TakesPlace net.now k (seen now.old) (Event.Repair link) (seen now.new) cause) }
{
    if !now.fails.contains(link) {
        return Ok(Some(ScriptCause::NotFailed));
    }
    let repaired = risk_group(alloc, net, link)?;
    remove_all(&mut now.fails, &repaired);
    Ok(None)
}

// The links of a link's risk group.
fn risk_group(alloc: Global, net: &Network, link: LinkId) -> Result<FailSet, NoMemory>
    ensures { IfOk result (λ group. group ≡ widened net.now (link ∷ [])) }
{
    let alone = alone(alloc, link)?;
    net.widen(alloc, &alone)
}

// A link alone.
fn alone(alloc: Global, link: LinkId) -> Result<FailSet, NoMemory>
    ensures { IfOk result (λ alone. alone ≡ link ∷ []) }
{
    let mut alone = FailSet::new(alloc);
    alone.insert(link)?;
    Ok(alone)
}

// The packet takes a step.
fn take(
    alloc: Global,
    net: &Network,
    now: &mut Moment,
    step: Step,
) -> Result<Option<ScriptCause>, NoMemory>
    requires network { IsNetwork net.now }
    requires known { is_moment_of net.now (seen now.old) ≡ true }
    ensures { (k : ℕ) → IfOk result (λ cause. TakesPlace net.now k (seen now.old) (Event.Hop step) (seen now.new) cause) }
{
    match hop_under(alloc, net, &now.fails, &mut now.at, step)? {
        None => Ok(None),
        Some(cause) => Ok(Some(hop_words(cause))),
    }
}

// What a script says of a hop that isn't allowed. The other causes aren't those of a hop under one set of failed links.
fn hop_words(cause: Cause) -> ScriptCause
    ensures { result ≡ hop_words cause }
{
    match cause {
        Cause::NoGroup => ScriptCause::NoSuchGroup,
        Cause::NoMember => ScriptCause::NoSuchMember,
        Cause::NotFirstActive => ScriptCause::NotFirstActive,
        Cause::LinkFailed => ScriptCause::LinkFailed,
        Cause::Undefined(i) => ScriptCause::Undefined(i),
        Cause::BadStart
        | Cause::TooManyBefore(_)
        | Cause::NeedsUp(_)
        | Cause::LinkBefore
        | Cause::Active(_)
        | Cause::Defined => ScriptCause::NotAnEvent,
    }
}
