//! Words by example. A table writes them in one text, with `|` between two of them.
use std::alloc::Global;
use std::process::Abort;
use std::test::Fail;
use wi_words::{Command, Content, Printing, Tested, Wanted, command_of};

fn words_of(alloc: Global, text: &str) -> Result<Vec<String>, Fail> {
    let mut words = Vec::new(alloc);
    for word in text.split('|') {
        words.push(word.to_string(alloc)?)?;
    }
    Ok(words)
}

fn is_verify(
    rt: &impl Abort,
    alloc: Global,
    text: &str,
    network: &str,
    query: &str,
    (weights, certificate): (Option<&str>, Option<&str>),
) -> Result<(), Fail> {
    let words = words_of(alloc, text)?;
    match command_of(alloc, words.as_slice())? {
        Some(
            Command::Print(
                Printing::Ask {
                    asking,
                    wanted: Wanted::Verify {
                        content: Content::Report,
                        certificate: c,
                    },
                },
            ),
        ) => {
            assert!(rt;
                asking.network == network && asking.query == query,
                "{text}"
            );
            assert!(rt; asking.weights == weights && c == certificate, "{text}");
        }
        _ => assert!(rt; false, "{text}"),
    }
    Ok(())
}

fn is_check(
    rt: &impl Abort,
    alloc: Global,
    text: &str,
    certificate: &str,
    weights: Option<&str>,
) -> Result<(), Fail> {
    let words = words_of(alloc, text)?;
    match command_of(alloc, words.as_slice())? {
        Some(
            Command::Print(
                Printing::Ask {
                    asking,
                    wanted: Wanted::Check { certificate: c },
                },
            ),
        ) => {
            assert!(rt; asking.network == "n" && asking.query == "q", "{text}");
            assert!(rt; asking.weights == weights && c == certificate, "{text}");
        }
        _ => assert!(rt; false, "{text}"),
    }
    Ok(())
}

fn is_play(rt: &impl Abort, alloc: Global, text: &str, most: u32) -> Result<(), Fail> {
    let words = words_of(alloc, text)?;
    match command_of(alloc, words.as_slice())? {
        Some(Command::Print(Printing::Play { network, script, k })) => {
            assert!(rt; network == "n" && script == "s" && k == most, "{text}");
        }
        _ => assert!(rt; false, "{text}"),
    }
    Ok(())
}

fn is_gen(
    rt: &impl Abort,
    alloc: Global,
    text: &str,
    (seed, size): (u64, u32),
) -> Result<(), Fail> {
    let words = words_of(alloc, text)?;
    match command_of(alloc, words.as_slice())? {
        Some(Command::Print(Printing::Gen { seed: s, size: n })) => {
            assert!(rt; s == seed && n == size, "{text}");
        }
        _ => assert!(rt; false, "{text}"),
    }
    Ok(())
}

fn is_packets(
    rt: &impl Abort,
    alloc: Global,
    text: &str,
    network: &str,
    weights: Option<&str>,
) -> Result<(), Fail> {
    let words = words_of(alloc, text)?;
    match command_of(alloc, words.as_slice())? {
        Some(
            Command::Print(
                Printing::Ask {
                    asking,
                    wanted: Wanted::Verify {
                        content: Content::Packets,
                        certificate: None,
                    },
                },
            ),
        ) => {
            assert!(rt; asking.network == network && asking.query == "q", "{text}");
            assert!(rt; asking.weights == weights, "{text}");
        }
        _ => assert!(rt; false, "{text}"),
    }
    Ok(())
}

fn is_drawing(
    rt: &impl Abort,
    alloc: Global,
    text: &str,
    weights: Option<&str>,
) -> Result<(), Fail> {
    let words = words_of(alloc, text)?;
    match command_of(alloc, words.as_slice())? {
        Some(
            Command::Print(
                Printing::Ask {
                    asking,
                    wanted: Wanted::Verify {
                        content: Content::Drawing,
                        certificate: None,
                    },
                },
            ),
        ) => {
            assert!(rt; asking.network == "n" && asking.query == "q", "{text}");
            assert!(rt; asking.weights == weights, "{text}");
        }
        _ => assert!(rt; false, "{text}"),
    }
    Ok(())
}

fn is_draw(rt: &impl Abort, alloc: Global, text: &str, network: &str) -> Result<(), Fail> {
    let words = words_of(alloc, text)?;
    match command_of(alloc, words.as_slice())? {
        Some(Command::Print(Printing::Draw { network: n })) => assert!(rt; n == network, "{text}"),
        _ => assert!(rt; false, "{text}"),
    }
    Ok(())
}

fn is_stack(rt: &impl Abort, alloc: Global, text: &str, hex: &str) -> Result<(), Fail> {
    let words = words_of(alloc, text)?;
    match command_of(alloc, words.as_slice())? {
        Some(Command::Print(Printing::Stack { hex: h })) => assert!(rt; h == hex, "{text}"),
        _ => assert!(rt; false, "{text}"),
    }
    Ok(())
}

fn is_protect(rt: &impl Abort, alloc: Global, text: &str, plan: &str) -> Result<(), Fail> {
    let words = words_of(alloc, text)?;
    match command_of(alloc, words.as_slice())? {
        Some(Command::Print(Printing::Protect { plan: p })) => assert!(rt; p == plan, "{text}"),
        _ => assert!(rt; false, "{text}"),
    }
    Ok(())
}

fn is_bypass(rt: &impl Abort, alloc: Global, text: &str, plan: &str) -> Result<(), Fail> {
    let words = words_of(alloc, text)?;
    match command_of(alloc, words.as_slice())? {
        Some(Command::Print(Printing::Bypass { plan: p })) => assert!(rt; p == plan, "{text}"),
        _ => assert!(rt; false, "{text}"),
    }
    Ok(())
}

// How the tables write what each test line is about.
fn name_of(tested: Tested) -> &'static str {
    match tested {
        Tested::Policies => "policies",
        Tested::RiskGroups => "risk groups",
        Tested::Routers => "routers",
    }
}

fn is_audit(
    rt: &impl Abort,
    alloc: Global,
    text: &str,
    (policies, given): (&str, &str),
    tested: &str,
) -> Result<(), Fail> {
    let words = words_of(alloc, text)?;
    match command_of(alloc, words.as_slice())? {
        Some(Command::Audit(auditing)) => {
            assert!(rt;
                auditing.network == "n" && auditing.policies == policies,
                "{text}"
            );
            assert!(rt;
                auditing.given == given && name_of(auditing.tested) == tested,
                "{text}"
            );
        }
        _ => assert!(rt; false, "{text}"),
    }
    Ok(())
}

fn is_no_command(rt: &impl Abort, alloc: Global, text: &str) -> Result<(), Fail> {
    let words = words_of(alloc, text)?;
    assert!(rt; command_of(alloc, words.as_slice())?.is_none(), "{text}");
    Ok(())
}

// Words with the network and the query of `verify`.
const OPERANDS: &[(&str, &str, &str)] = &[
    ("whatif|verify|n|q", "n", "q"),
    ("|verify|n|q", "n", "q"),
    ("--help|verify|n|q", "n", "q"),
    ("whatif|verify|verify|help", "verify", "help"),
    ("whatif|verify|a b|é=1", "a b", "é=1"),
    // A word without a first hyphen, the empty one too, and the single `-` are neither an option nor letters.
    ("whatif|verify|-|q", "-", "q"),
    ("whatif|verify|-|-", "-", "-"),
    ("whatif|verify||q", "", "q"),
    ("whatif|verify|n|", "n", ""),
    // Behind `--` each word is an operand, a second `--` too.
    ("whatif|verify|--|-n|--q", "-n", "--q"),
    ("whatif|verify|n|--|-q", "n", "-q"),
    ("whatif|verify|n|q|--", "n", "q"),
    ("whatif|verify|--|--|-h", "--", "-h"),
];

#[test]
fn operands_are_found(rt: HostRuntime) -> Result<(), Fail> {
    for (text, network, query) in OPERANDS {
        is_verify(&rt, rt.alloc(), text, network, query, (None, None))?;
    }
    Ok(())
}

// Words with the network and the weights of `verify`.
const WEIGHTS: &[(&str, &str, &str)] = &[
    ("whatif|verify|n|q|--weights|Hops", "n", "Hops"),
    ("whatif|verify|--weights|Hops|n|q", "n", "Hops"),
    ("whatif|verify|n|--weights|Hops|q", "n", "Hops"),
    (
        "whatif|verify|n|q|--weights=Hops, Distance+3*Tunnels",
        "n",
        "Hops, Distance+3*Tunnels",
    ),
    ("whatif|verify|n|q|--weights=a=b", "n", "a=b"),
    // An empty text is a text, and so is a single hyphen.
    ("whatif|verify|n|q|--weights=", "n", ""),
    ("whatif|verify|n|q|--weights|", "n", ""),
    ("whatif|verify|n|q|--weights|-", "n", "-"),
    ("whatif|verify|n|q|--weights=-1", "n", "-1"),
    (
        "whatif|verify|--weights|Hops|--|--weights|q",
        "--weights",
        "Hops",
    ),
];

#[test]
fn weights_are_found(rt: HostRuntime) -> Result<(), Fail> {
    for (text, network, weights) in WEIGHTS {
        is_verify(&rt, rt.alloc(), text, network, "q", (Some(*weights), None))?;
    }
    Ok(())
}

// Words with the weights of `verify`, and the name under which the certificate is to be stored.
const STORED: &[(&str, Option<&str>, &str)] = &[
    ("whatif|verify|n|q|--certificate|c", None, "c"),
    ("whatif|verify|--certificate=c|n|q", None, "c"),
    ("whatif|verify|n|q|--certificate=", None, ""),
    (
        "whatif|verify|n|--certificate|c|q|--weights|w",
        Some("w"),
        "c",
    ),
    (
        "whatif|verify|n|q|--weights=w|--certificate|-",
        Some("w"),
        "-",
    ),
];

#[test]
fn names_to_store_under_are_found(rt: HostRuntime) -> Result<(), Fail> {
    for (text, weights, certificate) in STORED {
        let options = (*weights, Some(*certificate));
        is_verify(&rt, rt.alloc(), text, "n", "q", options)?;
    }
    Ok(())
}

// Words with the certificate and the weights of `check`.
const CHECKED: &[(&str, &str, Option<&str>)] = &[
    ("whatif|check|n|q|c", "c", None),
    ("whatif|check|--weights=w|n|q|c", "c", Some("w")),
    ("whatif|check|n|q|--weights|w|-", "-", Some("w")),
    ("whatif|check|n|q|--|--weights", "--weights", None),
];

#[test]
fn certificates_are_found(rt: HostRuntime) -> Result<(), Fail> {
    for (text, certificate, weights) in CHECKED {
        is_check(&rt, rt.alloc(), text, certificate, *weights)?;
    }
    Ok(())
}

// Words with the number of `play`.
const PLAYED: &[(&str, u32)] = &[
    ("whatif|play|n|s|0", 0),
    ("whatif|play|n|s|1", 1),
    ("whatif|play|n|s|10", 10),
    ("whatif|play|n|s|65535", 65_535),
    ("whatif|play|n|--|s|2", 2),
];

#[test]
fn numbers_of_risk_groups_are_found(rt: HostRuntime) -> Result<(), Fail> {
    for (text, most) in PLAYED {
        is_play(&rt, rt.alloc(), text, *most)?;
    }
    Ok(())
}

// Words with the seed and the size of `gen`.
const GENERATED: &[(&str, (u64, u32))] = &[
    ("whatif|gen|0|4", (0, 4)),
    ("whatif|gen|7|1000", (7, 1000)),
    ("whatif|gen|18446744073709551615|5", (u64::MAX, 5)),
    ("whatif|gen|1|2000", (1, 2000)),
    ("whatif|gen|--|1|4", (1, 4)),
];

#[test]
fn seeds_and_sizes_are_found(rt: HostRuntime) -> Result<(), Fail> {
    for (text, ring) in GENERATED {
        is_gen(&rt, rt.alloc(), text, *ring)?;
    }
    Ok(())
}

// Words with the network and the weights of `packets`.
const PACKETS: &[(&str, &str, Option<&str>)] = &[
    ("whatif|packets|n|q", "n", None),
    ("whatif|packets|n|q|--weights|w", "n", Some("w")),
    ("whatif|packets|--weights=w|n|q", "n", Some("w")),
    ("whatif|packets|--|-n|q", "-n", None),
];

#[test]
fn words_of_packets_are_found(rt: HostRuntime) -> Result<(), Fail> {
    for (text, network, weights) in PACKETS {
        is_packets(&rt, rt.alloc(), text, network, *weights)?;
    }
    Ok(())
}

// Words with the weights of `draw` with a query, and those with the network alone.
const DRAWINGS: &[(&str, Option<&str>)] = &[
    ("whatif|draw|n|q", None),
    ("whatif|draw|n|q|--weights|w", Some("w")),
    ("whatif|draw|--weights=w|n|q", Some("w")),
];

const ALONE: &[(&str, &str)] = &[
    ("whatif|draw|n", "n"),
    ("whatif|draw|", ""),
    ("whatif|draw|--|-n", "-n"),
];

#[test]
fn words_of_draw_are_found(rt: HostRuntime) -> Result<(), Fail> {
    for (text, weights) in DRAWINGS {
        is_drawing(&rt, rt.alloc(), text, *weights)?;
    }
    for (text, network) in ALONE {
        is_draw(&rt, rt.alloc(), text, network)?;
    }
    Ok(())
}

// Words with the text of `stack`, which is taken whatever it is.
const STACKS: &[(&str, &str)] = &[
    ("whatif|stack|0001e040", "0001e040"),
    ("whatif|stack|", ""),
    ("whatif|stack|0g", "0g"),
    ("whatif|stack|--|-1", "-1"),
];

#[test]
fn words_of_stack_are_found(rt: HostRuntime) -> Result<(), Fail> {
    for (text, hex) in STACKS {
        is_stack(&rt, rt.alloc(), text, hex)?;
    }
    Ok(())
}

// Words with the file of `protect`.
const PLANS: &[(&str, &str)] = &[
    ("whatif|protect|n", "n"),
    ("whatif|protect|", ""),
    ("whatif|protect|--|-n", "-n"),
];

#[test]
fn words_of_protect_are_found(rt: HostRuntime) -> Result<(), Fail> {
    for (text, plan) in PLANS {
        is_protect(&rt, rt.alloc(), text, plan)?;
    }
    Ok(())
}

// Words with the file of `bypass`.
const BYPASSES: &[(&str, &str)] = &[
    ("whatif|bypass|n", "n"),
    ("whatif|bypass|", ""),
    ("whatif|bypass|--|-n", "-n"),
];

#[test]
fn words_of_bypass_are_found(rt: HostRuntime) -> Result<(), Fail> {
    for (text, plan) in BYPASSES {
        is_bypass(&rt, rt.alloc(), text, plan)?;
    }
    Ok(())
}

// Words with the files of `audit`, and the text of what is given, which is empty where there is none.
const AUDITS: &[(&str, &str, &str)] = &[
    ("whatif|audit|n|p", "p", ""),
    ("whatif|audit|n|", "", ""),
    ("whatif|audit|n|p|--given|down [a#b]", "p", "down [a#b]"),
    ("whatif|audit|--given=up [a#b]|n|p", "p", "up [a#b]"),
    ("whatif|audit|n|p|--given=", "p", ""),
    ("whatif|audit|n|p|--given|", "p", ""),
    ("whatif|audit|n|--|--given", "--given", ""),
];

#[test]
fn words_of_audit_are_found(rt: HostRuntime) -> Result<(), Fail> {
    for (text, policies, given) in AUDITS {
        is_audit(&rt, rt.alloc(), text, (policies, given), "policies")?;
    }
    Ok(())
}

// Words with the file of policies of `outages`, the text of what is given, and what goes out in turn.
const OUTAGES: &[(&str, &str, &str, &str)] = &[
    ("whatif|outages|n|p", "p", "", "risk groups"),
    ("whatif|outages|n|p|--given|x", "p", "x", "risk groups"),
    ("whatif|outages|n|p|--given=", "p", "", "risk groups"),
    ("whatif|outages|n|p|--routers", "p", "", "routers"),
    ("whatif|outages|n|--routers|p", "p", "", "routers"),
    ("whatif|outages|--routers|n|p", "p", "", "routers"),
    (
        "whatif|outages|n|p|--given|x|--routers",
        "p",
        "x",
        "routers",
    ),
    (
        "whatif|outages|n|p|--routers|--given|x",
        "p",
        "x",
        "routers",
    ),
    (
        "whatif|outages|--given=x|--routers|n|p",
        "p",
        "x",
        "routers",
    ),
    (
        "whatif|outages|--routers|--given|x|n|p",
        "p",
        "x",
        "routers",
    ),
    // A text that reads like the flag's own is no flag, and neither is a word behind `--`.
    (
        "whatif|outages|n|p|--given|true",
        "p",
        "true",
        "risk groups",
    ),
    (
        "whatif|outages|n|--|--routers",
        "--routers",
        "",
        "risk groups",
    ),
];

#[test]
fn words_of_outages_are_found(rt: HostRuntime) -> Result<(), Fail> {
    for (text, policies, given, tested) in OUTAGES {
        is_audit(&rt, rt.alloc(), text, (policies, given), tested)?;
    }
    Ok(())
}

const NO_COMMANDS: &[&str] = &[
    // No verb, or another one.
    "",
    "whatif",
    "verify|n|q",
    "whatif||verify|n|q",
    "whatif|-|verify|n|q",
    "whatif|--|verify|n|q",
    "whatif|Verify|n|q",
    "whatif|verif|n|q",
    "whatif|verify |n|q",
    "whatif|checks|n|q|c",
    "whatif|generate|1|4",
    "whatif|packet|n|q",
    "whatif|stacks|00",
    "whatif|Protect|n",
    "whatif|drawing|n",
    "whatif|audits|n|p",
    "whatif|outage|n|p",
    "whatif|Bypass|n",
    // Help.
    "whatif|--help",
    "whatif|-h",
    "whatif|help",
    "whatif|help|verify",
    "whatif|help|n|q",
    "whatif|verify|-h",
    "whatif|verify|n|q|--help",
    "whatif|play|n|s|1|-h",
    // Too few operands, and too many.
    "whatif|verify",
    "whatif|verify|n",
    "whatif|verify|n|--",
    "whatif|verify|n|q|x",
    "whatif|verify|n|q|",
    "whatif|play|n|s",
    "whatif|play|n|s|1|2",
    "whatif|check|n|q",
    "whatif|check|n|q|c|d",
    "whatif|gen|1",
    "whatif|gen|1|4|5",
    "whatif|packets|n",
    "whatif|packets|n|q|w",
    "whatif|draw",
    "whatif|draw|n|q|x",
    "whatif|audit|n",
    "whatif|audit|n|p|q",
    "whatif|outages|n",
    "whatif|outages|n|--routers",
    "whatif|outages|n|p|q",
    "whatif|outages|--routers|n|p|q",
    "whatif|stack",
    "whatif|stack|00|00",
    "whatif|protect",
    "whatif|protect|n|n",
    "whatif|bypass",
    "whatif|bypass|n|n",
    // No number from 0 to 65,535.
    "whatif|play|n|s|",
    "whatif|play|n|s|65536",
    "whatif|play|n|s|4294967296",
    "whatif|play|n|s|18446744073709551616",
    "whatif|play|n|s|007",
    "whatif|play|n|s|00",
    "whatif|play|n|s|+1",
    "whatif|play|n|s|-1",
    "whatif|play|n|s|--|-1",
    "whatif|play|n|s| 1",
    "whatif|play|n|s|1x",
    "whatif|play|n|s|1.0",
    // No seed of 64 bits, and no size from 4 to 2,000.
    "whatif|gen|18446744073709551616|4",
    "whatif|gen|-1|4",
    "whatif|gen|00|4",
    "whatif|gen||4",
    "whatif|gen|1|3",
    "whatif|gen|1|2001",
    "whatif|gen|1|04",
    "whatif|gen|1|18446744073709551620",
    // No value for the weights, or two, or one that begins like an option.
    "whatif|verify|n|q|--weights",
    "whatif|verify|n|--weights|q",
    "whatif|verify|n|q|--weights|a|--weights|b",
    "whatif|verify|n|q|--weights=a|--weights=a",
    "whatif|verify|n|q|--weights|-1",
    "whatif|verify|n|q|--weights|--|a",
    "whatif|verify|n|q|a|--weights",
    // Options that there are not.
    "whatif|verify|n|q|--weight|a",
    "whatif|verify|n|q|--WEIGHTS|a",
    "whatif|verify|n|q|-weights|a",
    "whatif|verify|n|q|-w|a",
    "whatif|play|n|s|1|--weights|a",
    "whatif|verify|n|q|--certificate",
    "whatif|verify|n|q|--certificate|c|--certificate|c",
    "whatif|verify|n|q|--certificates|c",
    "whatif|check|n|q|c|--certificate|c",
    "whatif|play|n|s|1|--certificate|c",
    "whatif|gen|1|4|--weights|a",
    "whatif|packets|n|q|--certificate|c",
    "whatif|packets|n|q|--weights|a|--weights|b",
    // Weights without a query.
    "whatif|draw|n|--weights|a",
    "whatif|draw|--weights|a|n",
    "whatif|draw|n|q|--certificate|c",
    "whatif|audit|n|p|--given",
    "whatif|audit|n|p|--given|a|--given|b",
    "whatif|audit|n|p|--weights|a",
    "whatif|verify|n|q|--given|a",
    "whatif|stack|00|--weights|a",
    "whatif|protect|n|--weights|a",
    "whatif|bypass|n|--weights|a",
    "whatif|outages|n|p|--given",
    "whatif|outages|n|p|--given|a|--given|b",
    "whatif|outages|n|p|--weights|a",
    // A flag with a value, one given twice, one for a value, one cut short, and one of another command.
    "whatif|outages|n|p|--routers=1",
    "whatif|outages|n|p|--routers=true",
    "whatif|outages|n|p|--routers=",
    "whatif|outages|n|p|--routers|--routers",
    "whatif|outages|n|p|--given|--routers",
    "whatif|outages|n|p|--router",
    "whatif|audit|n|p|--routers",
    "whatif|bypass|n|--routers",
    "whatif|stack|-1",
    "whatif|verify|n|q|--=W",
    "whatif|verify|-n|q",
    "whatif|verify|n|-1",
    "whatif|verify|n|q|-V",
    "whatif|--version",
];

#[test]
fn other_words_are_no_command(rt: HostRuntime) -> Result<(), Fail> {
    let none = Vec::new(rt.alloc());
    assert!(rt; command_of(rt.alloc(), none.as_slice())?.is_none());
    for text in NO_COMMANDS {
        is_no_command(&rt, rt.alloc(), text)?;
    }
    Ok(())
}
