//! What the words of the command line ask for. They are read by clap, so that what a command is has a definition that isn't
//! ours.
#![tactic(auto)]

ghost use Rattle.std.specs.Prelude.{◌≡◌, IfOk, IfSome, map, string_bytes, option_map};
ghost use Rattle.wi_words.specs.Commands.{IsFit, command_of};
ghost use Rattle.wi_words.specs.Shown.{shown};

mod builder;
mod reader;

use builder::program;
use clap::error::ErrorKind;
use reader::command_in;
use std::alloc::Global;
use wi_base::NoMemory;

/// What the program is asked to do.
#[derive(Clone, Copy)]
pub enum Command<'a> {
    /// Something is to be printed, whole.
    Print(Printing<'a>),
    /// Policies are asked of a network, by themselves or during outages, and what becomes of each test is printed as soon as it
    /// is known.
    Audit(Auditing<'a>),
}

/// What is to be printed.
#[derive(Clone, Copy)]
pub enum Printing<'a> {
    /// Something is asked of a network, and of it something is wanted.
    Ask {
        asking: Asking<'a>,
        wanted: Wanted<'a>,
    },
    /// `play NETWORK SCRIPT K`: the names of the network file and of the script, and how many risk groups may be failed.
    Play {
        network: &'a str,
        script: &'a str,
        k: u32,
    },
    /// `gen SEED SIZE`: the seed and the size of a ring, from 4 to 2,000.
    Gen {
        seed: u64,
        size: u32,
    },
    /// `protect PLAN`: the name of the network file that has the plan.
    Protect {
        plan: &'a str,
    },
    /// `bypass PLAN`: the name of the network file that has the plan.
    Bypass {
        plan: &'a str,
    },
    /// `stack HEX`: the text that is to be bytes, whatever it is.
    Stack {
        hex: &'a str,
    },
    /// `draw NETWORK`: the name of the network file that is to be drawn, and nothing is asked of it.
    Draw {
        network: &'a str,
    },
}

/// What is asked of a network: `NETWORK QUERY [--weights W]`.
#[derive(Clone, Copy)]
pub struct Asking<'a> {
    /// The name of the network file.
    pub network: &'a str,
    /// The text of the query.
    pub query: &'a str,
    /// The text of the weights.
    pub weights: Option<&'a str>,
}

/// What policies are asked of: `audit NETWORK POLICIES [--given TEXT]`, or `outages NETWORK POLICIES [--given TEXT] [--routers]`.
#[derive(Clone, Copy)]
pub struct Auditing<'a> {
    /// The name of the network file.
    pub network: &'a str,
    /// The name of the file of policies.
    pub policies: &'a str,
    /// The text of the links that are given as down and up. Without the option it is empty, which gives none.
    pub given: &'a str,
    /// What each test line is about.
    pub tested: Tested,
}

/// What each test line of an audit is about.
#[derive(Clone, Copy)]
pub enum Tested {
    /// `audit`: a policy.
    Policies,
    /// `outages`: an outage of a risk group, during which all policies are asked.
    RiskGroups,
    /// `outages --routers`: an outage of a router.
    Routers,
}

/// What is wanted of what is asked.
#[derive(Clone, Copy)]
pub enum Wanted<'a> {
    /// `verify .. [--certificate FILE]`, `packets ..` or `draw ..`: what is to be printed of the answer, whose certificate is to be
    /// stored under a name.
    Verify {
        content: Content,
        certificate: Option<&'a str>,
    },
    /// `check NETWORK QUERY CERTIFICATE ..`: whether the certificate in a file is accepted.
    Check {
        certificate: &'a str,
    },
    /// `exact .. [--certificate FILE]`: the exact answer, whose tree is to be stored under a name.
    Exact {
        certificate: Option<&'a str>,
    },
    /// `check-exact NETWORK QUERY CERTIFICATE ..`: whether the tree in a file is accepted.
    CheckExact {
        certificate: &'a str,
    },
    /// `tolerate NETWORK QUERY LIMIT .. [--certificate FILE]`: how many failures it takes, up to so many. The first tree is to be
    /// stored under a name, and the second one under that name followed by `.below`.
    Tolerate {
        most: u32,
        certificate: Option<&'a str>,
    },
}

/// What is printed of an answer.
#[derive(Clone, Copy)]
pub enum Content {
    /// Of `verify`: the report.
    Report,
    /// Of `packets`: the report, and then the packets of the run that it shows.
    Packets,
    /// Of `draw`: the drawing of the network, and of the run over it.
    Drawing,
}

/// The command that the words are, if they are one. The first word is the program's name and isn't looked at; asking for
/// help is no command.
pub fn command_of(alloc: Global, words: &[String]) -> Result<Option<Command<'_>>, NoMemory>
    ensures command { IfOk result (λ command. option_map shown command ≡ command_of (map string_bytes words.now)) }
    ensures fit { IfOk result (λ command. IfSome command (λ c. IsFit (shown c))) }
{
    match program(alloc)?.try_get_matches_from(words) {
        Ok(matches) => Ok(command_in(&matches)),
        Err(error) => match error.kind() {
            ErrorKind::OutOfMemory => Err(NoMemory::Memory),
            _ => Ok(None),
        },
    }
}
