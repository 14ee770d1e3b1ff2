//! Clap tells which word belongs to which argument, and numbers are judged here, by our own definition of a number: clap's would
//! take `+1` and `007`. The texts of a command are lent by the words.
ghost use Rattle.std.specs.Prelude.{◌≡◌, ◌≤◌, ◌^◌, true, None, IfSome, option_map, option_and_then};
ghost use Rattle.std.specs.Str.Parse.{digits_value};
ghost use Rattle.wi_text.specs.Characters.{is_number};
ghost use Rattle.clap.specs.Words.{first_of, found_of, rows_of, subcommand_rows_of};
ghost use Rattle.wi_words.specs.Commands.{IsFit, Verify, asked_of, asking_in, audit_of, auditing_in, bypass_of, command_named, draw_alone, draw_of, gen_of, has_flag, most_failed, number_within, outages_of, plan_in, play_of, protect_of, seed_in, size_in, stack_of, tested_by, wanted_named};
ghost use Rattle.wi_words.specs.Shown.{asking_shown, auditing_shown, shown, wanted_shown};

use crate::{Asking, Auditing, Command, Content, Printing, Tested, Wanted};
use clap::ArgMatches;
use wi_text::is_number;

/// The most risk groups that may be failed.
const MOST_FAILED: u64 = 65_535;

/// How many routers a ring may have.
const LEAST_SIZE: u64 = 4;

const MOST_SIZE: u64 = 2_000;

// The first value of an argument.
fn value_of<'a>(matches: &ArgMatches<'a>, id: &str) -> Option<&'a str>
    ensures { option_map (λ s. s.now) result ≡ first_of id.now (rows_of (found_of matches.now)) }
{
    matches.get_str(id)
}

// Whether a flag is among the words: clap makes the text `true` of it, and `false` where it is left out.
fn has_flag(matches: &ArgMatches<'_>, name: &str) -> bool
    ensures { result ≡ has_flag name.now (rows_of (found_of matches.now)) }
{
    match value_of(matches, name) {
        Some(text) => text == "true",
        None => false,
    }
}

// The number of risk groups that a text is, from 0 to 65,535.
fn most_failed(text: &str) -> Option<u32>
    ensures { result ≡ most_failed text.now }
{
    Some(number_within(text, 0, MOST_FAILED)? as u32)
}

// The seed that a text is: any number of 64 bits.
fn seed_in(text: &str) -> Option<u64>
    ensures { result ≡ seed_in text.now }
{
    number_within(text, 0, u64::MAX)
}

// The size of a ring that a text is, from 4 to 2,000.
fn size_in(text: &str) -> Option<u32>
    ensures size { result ≡ size_in text.now }
    ensures fit { IfSome result (λ n. (4 ≤ n) × (n ≤ 2000)) }
{
    Some(number_within(text, LEAST_SIZE, MOST_SIZE)? as u32)
}

// The number that a text is, if it is one from a least to a most one.
fn number_within(text: &str, least: u64, most: u64) -> Option<u64>
    ensures number { result ≡ number_within least most text.now }
    ensures within { IfSome result (λ n. (least ≤ n) × (n ≤ most)) }
{
    if !is_number(text) {
        return None;
    }
    match number_of(text) {
        Some(number) if number >= least && number <= most => Some(number),
        _ => None,
    }
}

// The number that a text is, if it has 64 bits.
fn number_of(text: &str) -> Option<u64>
    requires { is_number text.now ≡ true }
    ensures some { IfSome result (λ n. n ≡ digits_value 10 text.now) }
    ensures none { result ≡ None → 2 ^ 64 ≤ digits_value 10 text.now }
{
    text.parse::<u64>().ok()
}

// What a subcommand's entries ask of a network.
fn asking_in<'a>(matches: &ArgMatches<'a>) -> Option<Asking<'a>>
    ensures { option_map asking_shown result ≡ asking_in (rows_of (found_of matches.now)) }
{
    Some(Asking {
        network: value_of(matches, "NETWORK")?,
        query: value_of(matches, "QUERY")?,
        weights: value_of(matches, "weights"),
    })
}

// This is to be printed, and no certificate stored.
fn without_certificate<'a>(content: Content) -> Wanted<'a>
    ensures { wanted_shown result ≡ Verify content None }
{
    Wanted::Verify {
        content,
        certificate: None,
    }
}

// What the subcommand with this name wants of it, if it is one that asks something of a network.
fn wanted_named<'a>(name: &str, matches: &ArgMatches<'a>) -> Option<Wanted<'a>>
    ensures { option_map wanted_shown result ≡ wanted_named name.now (rows_of (found_of matches.now)) }
{
    match name {
        "verify" => {
            Some(Wanted::Verify {
                content: Content::Report,
                certificate: value_of(matches, "certificate"),
            })
        }
        "check" => {
            Some(Wanted::Check {
                certificate: value_of(matches, "CERTIFICATE")?,
            })
        }
        "exact" => {
            Some(Wanted::Exact {
                certificate: value_of(matches, "certificate"),
            })
        }
        "check-exact" => {
            Some(Wanted::CheckExact {
                certificate: value_of(matches, "CERTIFICATE")?,
            })
        }
        "tolerate" => {
            let most = most_failed(value_of(matches, "LIMIT")?)?;
            let certificate = value_of(matches, "certificate");
            Some(Wanted::Tolerate { most, certificate })
        }
        "packets" => Some(without_certificate(Content::Packets)),
        "draw" => Some(without_certificate(Content::Drawing)),
        _ => None,
    }
}

fn asked_of<'a>(name: &str, matches: &ArgMatches<'a>) -> Option<Command<'a>>
    ensures command { option_map shown result ≡ asked_of name.now (rows_of (found_of matches.now)) }
    ensures fit { IfSome result (λ c. IsFit (shown c)) }
{
    let wanted = wanted_named(name, matches)?;
    let asking = asking_in(matches)?;
    Some(Command::Print(Printing::Ask { asking, wanted }))
}

fn play_of<'a>(matches: &ArgMatches<'a>) -> Option<Command<'a>>
    ensures command { option_map shown result ≡ play_of (rows_of (found_of matches.now)) }
    ensures fit { IfSome result (λ c. IsFit (shown c)) }
{
    let network = value_of(matches, "NETWORK")?;
    let script = value_of(matches, "SCRIPT")?;
    let k = most_failed(value_of(matches, "K")?)?;
    Some(Command::Print(Printing::Play { network, script, k }))
}

fn gen_of<'a>(matches: &ArgMatches<'a>) -> Option<Command<'a>>
    ensures command { option_map shown result ≡ gen_of (rows_of (found_of matches.now)) }
    ensures fit { IfSome result (λ c. IsFit (shown c)) }
{
    let seed = seed_in(value_of(matches, "SEED")?)?;
    let size = size_in(value_of(matches, "SIZE")?)?;
    Some(Command::Print(Printing::Gen { seed, size }))
}

// The name of the file that has a plan.
fn plan_in<'a>(matches: &ArgMatches<'a>) -> Option<&'a str>
    ensures { option_map (λ s. s.now) result ≡ plan_in (rows_of (found_of matches.now)) }
{
    value_of(matches, "PLAN")
}

fn protect_of<'a>(matches: &ArgMatches<'a>) -> Option<Command<'a>>
    ensures command { option_map shown result ≡ protect_of (rows_of (found_of matches.now)) }
    ensures fit { IfSome result (λ c. IsFit (shown c)) }
{
    let plan = plan_in(matches)?;
    Some(Command::Print(Printing::Protect { plan }))
}

fn bypass_of<'a>(matches: &ArgMatches<'a>) -> Option<Command<'a>>
    ensures command { option_map shown result ≡ bypass_of (rows_of (found_of matches.now)) }
    ensures fit { IfSome result (λ c. IsFit (shown c)) }
{
    let plan = plan_in(matches)?;
    Some(Command::Print(Printing::Bypass { plan }))
}

fn stack_of<'a>(matches: &ArgMatches<'a>) -> Option<Command<'a>>
    ensures command { option_map shown result ≡ stack_of (rows_of (found_of matches.now)) }
    ensures fit { IfSome result (λ c. IsFit (shown c)) }
{
    let hex = value_of(matches, "HEX")?;
    Some(Command::Print(Printing::Stack { hex }))
}

// What the outages are of: routers where the flag is among the words, and else risk groups.
fn tested_by(matches: &ArgMatches<'_>) -> Tested
    ensures { result ≡ tested_by (rows_of (found_of matches.now)) }
{
    if has_flag(matches, "routers") {
        Tested::Routers
    } else {
        Tested::RiskGroups
    }
}

// What a subcommand's entries ask policies of. Where nothing is given, the text is empty.
fn auditing_in<'a>(tested: Tested, matches: &ArgMatches<'a>) -> Option<Auditing<'a>>
    ensures { option_map auditing_shown result ≡ auditing_in tested (rows_of (found_of matches.now)) }
{
    let network = value_of(matches, "NETWORK")?;
    let policies = value_of(matches, "POLICIES")?;
    let given = value_of(matches, "given").unwrap_or("");
    Some(Auditing {
        network,
        policies,
        given,
        tested,
    })
}

fn audit_of<'a>(tested: Tested, matches: &ArgMatches<'a>) -> Option<Command<'a>>
    ensures command { option_map shown result ≡ audit_of tested (rows_of (found_of matches.now)) }
    ensures fit { IfSome result (λ c. IsFit (shown c)) }
{
    let auditing = auditing_in(tested, matches)?;
    Some(Command::Audit(auditing))
}

fn outages_of<'a>(matches: &ArgMatches<'a>) -> Option<Command<'a>>
    ensures command { option_map shown result ≡ outages_of (rows_of (found_of matches.now)) }
    ensures fit { IfSome result (λ c. IsFit (shown c)) }
{
    audit_of(tested_by(matches), matches)
}

// A network alone is drawn: there are no weights without a query.
fn draw_alone<'a>(matches: &ArgMatches<'a>) -> Option<Command<'a>>
    ensures command { option_map shown result ≡ draw_alone (rows_of (found_of matches.now)) }
    ensures fit { IfSome result (λ c. IsFit (shown c)) }
{
    match value_of(matches, "weights") {
        Some(_) => None,
        None => {
            let network = value_of(matches, "NETWORK")?;
            Some(Command::Print(Printing::Draw { network }))
        }
    }
}

fn draw_of<'a>(matches: &ArgMatches<'a>) -> Option<Command<'a>>
    ensures command { option_map shown result ≡ draw_of (rows_of (found_of matches.now)) }
    ensures fit { IfSome result (λ c. IsFit (shown c)) }
{
    match value_of(matches, "QUERY") {
        Some(_) => asked_of("draw", matches),
        None => draw_alone(matches),
    }
}

// The command of the subcommand with this name.
fn command_named<'a>(name: &str, matches: &ArgMatches<'a>) -> Option<Command<'a>>
    ensures command { option_map shown result ≡ command_named (name.now, rows_of (found_of matches.now)) }
    ensures fit { IfSome result (λ c. IsFit (shown c)) }
{
    match name {
        "play" => play_of(matches),
        "gen" => gen_of(matches),
        "protect" => protect_of(matches),
        "stack" => stack_of(matches),
        "audit" => audit_of(Tested::Policies, matches),
        "outages" => outages_of(matches),
        "bypass" => bypass_of(matches),
        "draw" => draw_of(matches),
        _ => asked_of(name, matches),
    }
}

/// The command of the subcommand that clap found, if it is one of the program's.
pub fn command_in<'a>(matches: &ArgMatches<'a>) -> Option<Command<'a>>
    ensures command { option_map shown result ≡ option_and_then command_named (subcommand_rows_of matches.now) }
    ensures fit { IfSome result (λ c. IsFit (shown c)) }
{
    match matches.subcommand() {
        Some((name, found)) => command_named(name, found),
        None => None,
    }
}
