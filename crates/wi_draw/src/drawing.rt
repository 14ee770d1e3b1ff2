//! A drawing is made whole before anything is printed, so that a refusal on the way puts nothing on standard output. It costs a line
//! for each router and each link, and one walk along the run.
ghost use Rattle.std.specs.Prelude.{◌≡◌, ◌++◌, ◌<◌, [], length, IfOk, OnOk, IfSome};
ghost use Rattle.std.specs.Option.{option_map_or};
ghost use Rattle.wi_report.specs.Reports.{IsKnownRun};
ghost use Rattle.wi_draw.specs.Drawings.{Picture, answer_drawn, drawn, drop_drawn, dropped_drawn, each_below, heading_drawn, label_drawn, link_drawn, link_line, network_drawn, router_drawn, stroke};
ghost use Rattle.wi_faults.specs.Shown.{link_shown};
ghost use Rattle.wi_draw.specs.Dot.{string_of};
ghost use Rattle.wi_draw.specs.private.Marks.{AreMarks, label_at};

use crate::dot::{put_escaped, put_string};
use crate::marks::{Marks, answer_marks, no_marks};
use std::alloc::Global;
use wi_base::NoMemory;
use wi_build::Problem;
use wi_faults::put_known;
use wi_net::{LinkId, Network, RouterId};
use wi_text::Text;
use wi_trace::Answer;

/// The drawing of a network: a graph in the DOT language of Graphviz, with a node for each router and an edge for each link, in the
/// order of the network's file. What a link is called is its tooltip.
pub fn network_drawing(alloc: Global, net: &Network) -> Result<Text, NoMemory>
    ensures { IfOk result (λ text. text ≡ network_drawn net.now) }
{
    let marks = no_marks(alloc);
    drawing(alloc, net, &marks)
}

/// The drawing of an answer to a problem: its network below a heading, which has the lines of the report up to the one that tells how
/// the answer was found. The links of the run are blue, and have the number of each of its places there, from 1, with the header; those
/// that the run needs to have failed are red and dashed; those that are both, as only an inconclusive answer has them, are purple and
/// dashed. A router at which the packet is dropped is red, and has the report's line on it.
pub fn answer_drawing(
    alloc: Global,
    problem: &Problem<'_>,
    answer: &Answer,
) -> Result<Text, NoMemory>
    requires { IfSome answer.now.run (IsKnownRun problem.now.net) }
    ensures { IfOk result (λ text. text ≡ answer_drawn problem.now.net problem.now.bounds (length problem.now.vector) answer.now) }
{
    let marks = answer_marks(alloc, problem, answer)?;
    drawing(alloc, problem.net(), &marks)
}

// A network below its marks.
fn drawing(alloc: Global, net: &Network, marks: &Marks) -> Result<Text, NoMemory>
    ensures { (p : Picture) → AreMarks net.now marks.now p → IfOk result (λ text. text ≡ drawn net.now p) }
{
    let mut text = Text::new(alloc);
    text.put(
        "digraph whatif {\n  node [shape=box fontsize=10]\n  edge [arrowsize=0.6 fontsize=9]\n",
    )?;
    put_heading_line(&marks.heading, &mut text)?;
    put_routers(net, &marks.dropped, &mut text)?;
    put_links(alloc, net, marks, &mut text)?;
    text.put("}\n")?;
    Ok(text)
}

// Adds the line of a heading, if there is one.
fn put_heading_line(heading: &Option<Text>, text: &mut Text) -> Result<(), NoMemory>
    ensures { OnOk result (text.new ≡ text.old ++ option_map_or heading_drawn heading.now []) }
{
    let Some(heading) = heading else {
        return Ok(());
    };
    text.put("  label=")?;
    put_string(heading.as_bytes(), text)?;
    text.put("\n")
}

// Adds a line for each router.
fn put_routers(
    net: &Network,
    dropped: &Option<(RouterId, Text)>,
    text: &mut Text,
) -> Result<(), NoMemory>
    ensures { OnOk result (text.new ≡ text.old ++ each_below (length net.now.routers) (λ n. router_drawn net.now dropped.now (record { 0 = n }))) }
{
    for n in 0..net.counts().routers {
        put_router(net, dropped, RouterId(n), text)?;
    }
    Ok(())
}

// Adds the line of a router.
fn put_router(
    net: &Network,
    dropped: &Option<(RouterId, Text)>,
    router: RouterId,
    text: &mut Text,
) -> Result<(), NoMemory>
    requires { router.0 < length net.now.routers }
    ensures { OnOk result (text.new ≡ text.old ++ router_drawn net.now dropped.now router) }
{
    let name = net.router_name(router);
    text.put("  ")?;
    put_string(name.as_bytes(), text)?;
    put_dropped(dropped, router, name, text)?;
    text.put("\n")
}

// Adds what is said of a packet that is dropped, if it is at this router, which has this name.
fn put_dropped(
    dropped: &Option<(RouterId, Text)>,
    router: RouterId,
    name: &str,
    text: &mut Text,
) -> Result<(), NoMemory>
    ensures { OnOk result (text.new ≡ text.old ++ dropped_drawn router name.now dropped.now) }
{
    match dropped {
        Some((at, words)) if at.0 == router.0 => put_drop(name, words, text),
        _ => Ok(()),
    }
}

// Adds what is said of a packet that is dropped at a router of this name.
fn put_drop(name: &str, words: &Text, text: &mut Text) -> Result<(), NoMemory>
    ensures { OnOk result (text.new ≡ text.old ++ drop_drawn name.now words.now) }
{
    text.put(" [label=\"")?;
    put_escaped(name.as_bytes(), text)?;
    text.put("\\n")?;
    put_escaped(words.as_bytes(), text)?;
    text.put("\" color=red penwidth=2]")
}

// Adds a line for each link.
fn put_links(alloc: Global, net: &Network, marks: &Marks, text: &mut Text) -> Result<(), NoMemory>
    ensures { (p : Picture) → AreMarks net.now marks.now p → OnOk result (text.new ≡ text.old ++ each_below (length net.now.links) (λ n. link_drawn net.now p (record { 0 = n }))) }
{
    for n in 0..net.counts().links {
        let link = LinkId(n);
        let label = label_at(marks.labels.as_slice(), n as usize);
        put_link(alloc, net, link, label, marks.failed.contains(link), text)?;
    }
    Ok(())
}

// What stands on the link of a number.
fn label_at(labels: &[Text], n: usize) -> &[u8]
    ensures { result.now ≡ label_at labels.now n }
{
    match labels.get(n) {
        Some(label) => label.as_bytes(),
        None => &[],
    }
}

// Adds the line of a link on which this stands, and which has failed or not.
fn put_link(
    alloc: Global,
    net: &Network,
    link: LinkId,
    label: &[u8],
    failed: bool,
    text: &mut Text,
) -> Result<(), NoMemory>
    requires { link.0 < length net.now.links }
    ensures { OnOk result (text.new ≡ text.old ++ link_line net.now link label.now failed) }
{
    let ends = *net.link(link);
    text.put("  ")?;
    put_string(net.router_name(ends.from).as_bytes(), text)?;
    text.put(" -> ")?;
    put_string(net.router_name(ends.to).as_bytes(), text)?;
    text.put(" [tooltip=")?;
    put_name(alloc, net, link, text)?;
    put_stroke(label, failed, text)?;
    text.put("]\n")
}

// Adds what a link is called, as a string.
fn put_name(alloc: Global, net: &Network, link: LinkId, text: &mut Text) -> Result<(), NoMemory>
    ensures { OnOk result (text.new ≡ text.old ++ string_of (link_shown net.now link)) }
{
    let mut name = Text::new(alloc);
    put_known(net, link, &mut name)?;
    put_string(name.as_bytes(), text)
}

// Adds how a link is drawn on which this stands, and which has failed or not.
fn put_stroke(label: &[u8], failed: bool, text: &mut Text) -> Result<(), NoMemory>
    ensures { OnOk result (text.new ≡ text.old ++ stroke label.now failed) }
{
    if label.is_empty() {
        return text.put(if failed {
            " color=red style=dashed"
        } else {
            ""
        });
    }
    put_label(label, text)?;
    text.put(if failed {
        " color=purple style=dashed penwidth=2"
    } else {
        " color=blue penwidth=2"
    })
}

// Adds what stands on a link.
fn put_label(label: &[u8], text: &mut Text) -> Result<(), NoMemory>
    ensures { OnOk result (text.new ≡ text.old ++ label_drawn label.now) }
{
    text.put(" label=\"")?;
    text.put_bytes(label)?;
    text.put("\"")
}
