//! Texts are made where they are printed and not where a fault is found, so that finding one takes no memory. A place is
//! written as the way to it in the file, since that is what whoever mends the file looks for.
ghost use Rattle.std.specs.Prelude.{◌≡◌, ◌++◌, codes, IfOk, OnOk};
ghost use Rattle.std.specs.Fmt.{decimal};
ghost use Rattle.wi_faults.specs.NetworkFaults.{fault_text, at_text, place_text, part_text, element_text, group_text, member_text, class_word, link_word, table_word, member_word};

use std::alloc::Global;
use wi_base::NoMemory;
use wi_labels::Class;
use wi_netjson::{LinkPart, MemberPart, NetFault, Place, TablePart};
use wi_text::Text;

/// What is said of a fault of a network file: its place, and what is wrong there.
pub fn network_fault_text(alloc: Global, fault: NetFault) -> Result<Text, NoMemory>
    ensures { IfOk result (λ text. text ≡ fault_text fault) }
{
    let mut text = Text::new(alloc);
    put_fault(fault, &mut text)?;
    Ok(text)
}

fn put_fault(fault: NetFault, text: &mut Text) -> Result<(), NoMemory>
    ensures { OnOk result (text.new ≡ text.old ++ fault_text fault) }
{
    match fault {
        NetFault::Memory => text.put("whatif: out of memory\n"),
        NetFault::NotJson(place) => at(place, "not JSON", text),
        NetFault::WrongShape(place) => at(place, "wrong shape", text),
        NetFault::UnknownFormat(place) => at(place, "unknown format", text),
        NetFault::BadName(place) => at(place, "bad name", text),
        NetFault::RepeatedRouter(place) => at(place, "repeated router", text),
        NetFault::RepeatedLabel(place) => at(place, "repeated label", text),
        NetFault::UnknownRouter(place) => at(place, "unknown router", text),
        NetFault::InterfaceTaken(place) => at(place, "interface taken", text),
        NetFault::UnknownInterface(place) => at(place, "unknown interface", text),
        NetFault::UnknownLabel(place) => at(place, "unknown label", text),
        NetFault::RepeatedTable(place) => at(place, "repeated table", text),
        NetFault::EmptyGroup(place) => at(place, "empty group", text),
        NetFault::BadOperation(place) => at(place, "bad operation", text),
        NetFault::OverLimit(place, limit) => over_limit(place, limit, text),
        NetFault::BadNumber(place) => at(place, "bad number", text),
    }
}

// A fault at a place.
fn at(place: Place, words: &str, text: &mut Text) -> Result<(), NoMemory>
    ensures { OnOk result (text.new ≡ text.old ++ at_text place words.now) }
{
    begin(place, text)?;
    text.put(words)?;
    text.put("\n")
}

fn over_limit(place: Place, limit: u32, text: &mut Text) -> Result<(), NoMemory>
    ensures { OnOk result (text.new ≡ text.old ++ at_text place (codes "over the limit " ++ decimal limit)) }
{
    begin(place, text)?;
    text.put("over the limit ")?;
    ended(limit, text)
}

// A number and the end of the line.
fn ended(number: u32, text: &mut Text) -> Result<(), NoMemory>
    ensures { OnOk result (text.new ≡ text.old ++ (decimal number ++ codes "\n")) }
{
    text.put_number(u128::from(number))?;
    text.put("\n")
}

// What comes before a fault's words.
fn begin(place: Place, text: &mut Text) -> Result<(), NoMemory>
    ensures { OnOk result (text.new ≡ text.old ++ (codes "network: " ++ place_text place ++ codes ": ")) }
{
    text.put("network: ")?;
    place_text(place, text)?;
    text.put(": ")
}

// A place, as the members' names with dots between and numbers in brackets.
fn place_text(place: Place, text: &mut Text) -> Result<(), NoMemory>
    ensures { OnOk result (text.new ≡ text.old ++ place_text place) }
{
    match place {
        Place::File => text.put("file"),
        Place::Format => text.put("format"),
        Place::Routers => text.put("routers"),
        Place::Router(i) => element("routers", i, text),
        Place::Labels => text.put("labels"),
        Place::LabelList(class) => part("labels", class_word(class), text),
        Place::LabelName(class, i) => {
            text.put("labels.")?;
            element(class_word(class), i, text)
        }
        Place::Links => text.put("links"),
        Place::Link(i) => element("links", i, text),
        Place::LinkPart(i, which) => {
            element("links", i, text)?;
            part("", link_word(which), text)
        }
        Place::Tables => text.put("tables"),
        Place::Table(i) => element("tables", i, text),
        Place::TablePart(i, which) => {
            element("tables", i, text)?;
            part("", table_word(which), text)
        }
        Place::Group(i, j) => group(i, j, text),
        Place::Member(i, j, m) => member(i, j, m, text),
        Place::MemberPart(i, j, m, which) => {
            member(i, j, m, text)?;
            part("", member_word(which), text)
        }
        Place::Operation(i, j, m, o) => {
            member(i, j, m, text)?;
            element(".ops", o, text)
        }
    }
}

fn part(owner: &str, word: &str, text: &mut Text) -> Result<(), NoMemory>
    ensures { OnOk result (text.new ≡ text.old ++ part_text owner.now word.now) }
{
    text.put(owner)?;
    text.put(".")?;
    text.put(word)
}

/// An element of a list, by its number from 0.
pub(crate) fn element(list: &str, number: usize, text: &mut Text) -> Result<(), NoMemory>
    ensures { OnOk result (text.new ≡ text.old ++ element_text list.now number) }
{
    text.put(list)?;
    text.put("[")?;
    text.put_number(number as u128)?;
    text.put("]")
}

fn group(i: usize, j: usize, text: &mut Text) -> Result<(), NoMemory>
    ensures { OnOk result (text.new ≡ text.old ++ group_text i j) }
{
    element("tables", i, text)?;
    element(".groups", j, text)
}

fn member(i: usize, j: usize, m: usize, text: &mut Text) -> Result<(), NoMemory>
    ensures { OnOk result (text.new ≡ text.old ++ member_text i j m) }
{
    group(i, j, text)?;
    element("", m, text)
}

fn class_word(class: Class) -> &'static str
    ensures { result.now ≡ class_word class }
{
    match class {
        Class::Mpls => "mpls",
        Class::Smpls => "smpls",
        Class::Ip => "ip",
    }
}

fn link_word(part: LinkPart) -> &'static str
    ensures { result.now ≡ link_word part }
{
    match part {
        LinkPart::From => "from",
        LinkPart::Out => "out",
        LinkPart::To => "to",
        LinkPart::In => "in",
        LinkPart::Distance => "distance",
        LinkPart::Group => "group",
    }
}

fn table_word(part: TablePart) -> &'static str
    ensures { result.now ≡ table_word part }
{
    match part {
        TablePart::At => "at",
        TablePart::In => "in",
        TablePart::Label => "label",
        TablePart::Groups => "groups",
    }
}

fn member_word(part: MemberPart) -> &'static str
    ensures { result.now ≡ member_word part }
{
    match part {
        MemberPart::Out => "out",
        MemberPart::Ops => "ops",
    }
}
