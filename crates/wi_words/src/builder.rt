//! Commands are written down as clap's own values, so that clap's definition says which words are one. They are made anew for
//! each call.
ghost use Rattle.std.specs.Prelude.{◌≡◌, IfOk, map, false};
ghost use Rattle.clap.specs.Words.{app_of, rule_of, shape_of};
ghost use Rattle.clap.specs.Simple.{App, Shape, new_shape, with_subcommand};
ghost use Rattle.clap.specs.declared.builder.command.Command.TheViews.{out-Command as fields_of};
ghost use Rattle.wi_words.specs.Commands.{asking, auditing, checking, draw, flag, gen, operand, option, optional, outages, packets, planning, play, program, stack, tolerate, with_flag, with_option, with_optional, with_options};

use clap::{Arg, ArgAction, Command};
use std::alloc::{AllocError, Global};

// A word that has to be there, in its place.
fn operand<'a>(alloc: Global, id: &'a str) -> Arg<'a>
    ensures rule { rule_of result ≡ operand id.entry.now }
    ensures local { result.global ≡ false }
{
    Arg::new(alloc, id).required(true).action(ArgAction::Set)
}

// One that may be left out.
fn optional<'a>(alloc: Global, id: &'a str) -> Arg<'a>
    ensures rule { rule_of result ≡ optional id.entry.now }
    ensures local { result.global ≡ false }
{
    Arg::new(alloc, id).action(ArgAction::Set)
}

// `--NAME VALUE`, which may be left out.
fn option<'a>(alloc: Global, name: &'a str) -> Arg<'a>
    ensures rule { rule_of result ≡ option name.entry.now }
    ensures local { result.global ≡ false }
{
    Arg::new(alloc, name).long(name).action(ArgAction::Set)
}

// `--NAME`, without a value, which may be left out.
fn flag<'a>(alloc: Global, name: &'a str) -> Arg<'a>
    ensures rule { rule_of result ≡ flag name.entry.now }
    ensures local { result.global ≡ false }
{
    Arg::new(alloc, name).long(name).action(ArgAction::SetTrue)
}

// A command with operands of these names, in this order.
fn verb<'a>(alloc: Global, name: &'a str, ids: &[&'a str]) -> Result<Command<'a>, AllocError>
    ensures shape { IfOk result (λ c. shape_of c ≡ record (new_shape name.entry.now) { rules = map (λ id. operand id.now) ids.now }) }
    ensures local { IfOk result (λ c. (fields_of c).has_globals ≡ false) }
{
    let mut command = Command::new(alloc, name);
    for id in ids {
        command = command.arg(operand(alloc, id))?;
    }
    Ok(command)
}

// A command with an operand added that may be left out, where there was memory for both.
fn with_optional<'a>(
    alloc: Global,
    command: Result<Command<'a>, AllocError>,
    id: &'a str,
) -> Result<Command<'a>, AllocError>
    ensures shape { (s : Shape) → IfOk command.entry (λ c. shape_of c ≡ s) → IfOk result (λ c. shape_of c ≡ with_optional id.entry.now s) }
    ensures local { IfOk command.entry (λ c. (fields_of c).has_globals ≡ false) → IfOk result (λ c. (fields_of c).has_globals ≡ false) }
{
    command?.arg(optional(alloc, id))
}

// A command with an option added, where there was memory for both.
fn with_option<'a>(
    alloc: Global,
    command: Result<Command<'a>, AllocError>,
    name: &'a str,
) -> Result<Command<'a>, AllocError>
    ensures shape { (s : Shape) → IfOk command.entry (λ c. shape_of c ≡ s) → IfOk result (λ c. shape_of c ≡ with_option name.entry.now s) }
    ensures local { IfOk command.entry (λ c. (fields_of c).has_globals ≡ false) → IfOk result (λ c. (fields_of c).has_globals ≡ false) }
{
    command?.arg(option(alloc, name))
}

// A command with a flag added, where there was memory for both.
fn with_flag<'a>(
    alloc: Global,
    command: Result<Command<'a>, AllocError>,
    name: &'a str,
) -> Result<Command<'a>, AllocError>
    ensures shape { (s : Shape) → IfOk command.entry (λ c. shape_of c ≡ s) → IfOk result (λ c. shape_of c ≡ with_flag name.entry.now s) }
    ensures local { IfOk command.entry (λ c. (fields_of c).has_globals ≡ false) → IfOk result (λ c. (fields_of c).has_globals ≡ false) }
{
    command?.arg(flag(alloc, name))
}

// A command with the options `--weights W` and `--certificate FILE` added, where there was memory for it.
fn with_options<'a>(
    alloc: Global,
    command: Result<Command<'a>, AllocError>,
) -> Result<Command<'a>, AllocError>
    ensures shape { (s : Shape) → IfOk command.entry (λ c. shape_of c ≡ s) → IfOk result (λ c. shape_of c ≡ with_options s) }
    ensures local { IfOk command.entry (λ c. (fields_of c).has_globals ≡ false) → IfOk result (λ c. (fields_of c).has_globals ≡ false) }
{
    with_option(alloc, with_option(alloc, command, "weights"), "certificate")
}

// `NAME NETWORK QUERY [--weights W] [--certificate FILE]`
fn asking<'a>(alloc: Global, name: &'a str) -> Result<Command<'a>, AllocError>
    ensures shape { IfOk result (λ c. shape_of c ≡ asking name.entry.now) }
    ensures local { IfOk result (λ c. (fields_of c).has_globals ≡ false) }
{
    with_options(alloc, verb(alloc, name, &["NETWORK", "QUERY"]))
}

// `NAME NETWORK QUERY CERTIFICATE [--weights W]`
fn checking<'a>(alloc: Global, name: &'a str) -> Result<Command<'a>, AllocError>
    ensures shape { IfOk result (λ c. shape_of c ≡ checking name.entry.now) }
    ensures local { IfOk result (λ c. (fields_of c).has_globals ≡ false) }
{
    with_option(
        alloc,
        verb(alloc, name, &["NETWORK", "QUERY", "CERTIFICATE"]),
        "weights",
    )
}

// `play NETWORK SCRIPT K`
fn play<'a>(alloc: Global) -> Result<Command<'a>, AllocError>
    ensures shape { IfOk result (λ c. shape_of c ≡ play) }
    ensures local { IfOk result (λ c. (fields_of c).has_globals ≡ false) }
{
    verb(alloc, "play", &["NETWORK", "SCRIPT", "K"])
}

// `gen SEED SIZE`
fn generate<'a>(alloc: Global) -> Result<Command<'a>, AllocError>
    ensures shape { IfOk result (λ c. shape_of c ≡ gen) }
    ensures local { IfOk result (λ c. (fields_of c).has_globals ≡ false) }
{
    verb(alloc, "gen", &["SEED", "SIZE"])
}

// `tolerate NETWORK QUERY LIMIT [--weights W] [--certificate FILE]`
fn tolerate<'a>(alloc: Global) -> Result<Command<'a>, AllocError>
    ensures shape { IfOk result (λ c. shape_of c ≡ tolerate) }
    ensures local { IfOk result (λ c. (fields_of c).has_globals ≡ false) }
{
    with_options(
        alloc,
        verb(alloc, "tolerate", &["NETWORK", "QUERY", "LIMIT"]),
    )
}

// `NAME PLAN`
fn planning<'a>(alloc: Global, name: &'a str) -> Result<Command<'a>, AllocError>
    ensures shape { IfOk result (λ c. shape_of c ≡ planning name.entry.now) }
    ensures local { IfOk result (λ c. (fields_of c).has_globals ≡ false) }
{
    verb(alloc, name, &["PLAN"])
}

// `packets NETWORK QUERY [--weights W]`
fn packets<'a>(alloc: Global) -> Result<Command<'a>, AllocError>
    ensures shape { IfOk result (λ c. shape_of c ≡ packets) }
    ensures local { IfOk result (λ c. (fields_of c).has_globals ≡ false) }
{
    with_option(
        alloc,
        verb(alloc, "packets", &["NETWORK", "QUERY"]),
        "weights",
    )
}

// `stack HEX`
fn stack<'a>(alloc: Global) -> Result<Command<'a>, AllocError>
    ensures shape { IfOk result (λ c. shape_of c ≡ stack) }
    ensures local { IfOk result (λ c. (fields_of c).has_globals ≡ false) }
{
    verb(alloc, "stack", &["HEX"])
}

// `NAME NETWORK POLICIES [--given TEXT]`
fn auditing<'a>(alloc: Global, name: &'a str) -> Result<Command<'a>, AllocError>
    ensures shape { IfOk result (λ c. shape_of c ≡ auditing name.entry.now) }
    ensures local { IfOk result (λ c. (fields_of c).has_globals ≡ false) }
{
    with_option(alloc, verb(alloc, name, &["NETWORK", "POLICIES"]), "given")
}

// `outages NETWORK POLICIES [--given TEXT] [--routers]`
fn outages<'a>(alloc: Global) -> Result<Command<'a>, AllocError>
    ensures shape { IfOk result (λ c. shape_of c ≡ outages) }
    ensures local { IfOk result (λ c. (fields_of c).has_globals ≡ false) }
{
    with_flag(alloc, auditing(alloc, "outages"), "routers")
}

// `draw NETWORK [QUERY [--weights W]]`
fn draw<'a>(alloc: Global) -> Result<Command<'a>, AllocError>
    ensures shape { IfOk result (λ c. shape_of c ≡ draw) }
    ensures local { IfOk result (λ c. (fields_of c).has_globals ≡ false) }
{
    let network = verb(alloc, "draw", &["NETWORK"]);
    with_option(alloc, with_optional(alloc, network, "QUERY"), "weights")
}

// A program with a command added, where there was memory for both.
fn with_command<'a>(
    whole: Result<Command<'a>, AllocError>,
    command: Result<Command<'a>, AllocError>,
) -> Result<Command<'a>, AllocError>
    ensures { (a : App) (s : Shape) → IfOk whole.entry (λ c. app_of c ≡ a) → IfOk command.entry (λ c. shape_of c ≡ s) → IfOk command.entry (λ c. (fields_of c).has_globals ≡ false) → IfOk result (λ c. app_of c ≡ with_subcommand a s) }
{
    match whole {
        Ok(whole) => match command {
            Ok(command) => whole.subcommand(command),
            Err(error) => {
                drop(whole);
                Err(error)
            }
        },
        Err(error) => {
            drop(command);
            Err(error)
        }
    }
}

/// The program, whose commands are its subcommands.
pub fn program<'a>(alloc: Global) -> Result<Command<'a>, AllocError>
    ensures { IfOk result (λ c. app_of c ≡ program) }
{
    let whole = Ok(Command::new(alloc, "whatif").subcommand_required(true));
    let whole = with_command(whole, asking(alloc, "verify"));
    let whole = with_command(whole, checking(alloc, "check"));
    let whole = with_command(whole, play(alloc));
    let whole = with_command(whole, generate(alloc));
    let whole = with_command(whole, asking(alloc, "exact"));
    let whole = with_command(whole, checking(alloc, "check-exact"));
    let whole = with_command(whole, tolerate(alloc));
    let whole = with_command(whole, planning(alloc, "protect"));
    let whole = with_command(whole, packets(alloc));
    let whole = with_command(whole, stack(alloc));
    let whole = with_command(whole, auditing(alloc, "audit"));
    let whole = with_command(whole, outages(alloc));
    let whole = with_command(whole, planning(alloc, "bypass"));
    with_command(whole, draw(alloc))
}
