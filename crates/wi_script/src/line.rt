//! The form of a line is read before the network is asked, since a fault of form is told before an unknown name. Names and
//! numbers are lent by the line: only the list of labels of a first line takes memory.
ghost use Rattle.std.specs.Prelude.{◌≡◌, ◌<◌, ℕ, List, length, IfOk, option_map};
ghost use Rattle.std.specs.List.{prefix_len};
ghost use Rattle.wi_text.specs.Characters.{is_plain};
ghost use Rattle.wi_script.specs.Lines.{Name, Joint, is_count};
ghost use Rattle.wi_script.specs.private.Reading.{event_in, hop_in, joint_in, joint_of, label_in, labels_in, line_of, name_in, name_of, names_of, past, placed_in, plain_in, quoted_in, start_in, start_of, until, whole_in};

use std::alloc::Global;
use wi_base::NoMemory;
use wi_text::{are_name_bytes, is_number, is_plain};

/// A name as it is written.
#[derive(Clone, Copy)]
pub enum WrittenName<'a> {
    Plain(&'a str),
    /// What stands between the quotation marks.
    Quoted(&'a str),
}

impl<'a> WrittenName<'a> {
    /// The name, without quotation marks.
    pub fn text(self) -> &'a str
        ensures { result.now ≡ (name_of self.entry).text }
    {
        match self {
            WrittenName::Plain(text) => text,
            WrittenName::Quoted(text) => text,
        }
    }
}

/// The four names of a link.
#[derive(Clone, Copy)]
pub struct WrittenJoint<'a> {
    pub from: WrittenName<'a>,
    pub out: WrittenName<'a>,
    pub to: WrittenName<'a>,
    pub into: WrittenName<'a>,
}

/// The first line: where the packet is, and its labels, top first.
#[derive(Drop)]
pub struct WrittenStart<'a> {
    pub joint: WrittenJoint<'a>,
    pub labels: Vec<WrittenName<'a>>,
}

/// A line that isn't the first.
#[derive(Clone, Copy)]
pub enum WrittenEvent<'a> {
    Fail(WrittenJoint<'a>),
    Repair(WrittenJoint<'a>),
    /// The numbers of a group and of a member.
    Hop(&'a str, &'a str),
}

/// The first line that a text is, if it is of its form.
#[tactic(auto, unfolding(crate::specs::private::Reading::start_in))]
pub fn start_of<'a>(alloc: Global, text: &'a str) -> Result<Option<WrittenStart<'a>>, NoMemory>
    ensures { IfOk result (λ start. option_map start_of start ≡ start_in text.now) }
{
    let Some((joint, rest)) = placed(text) else {
        return Ok(None);
    };
    let Some(labels) = labels(alloc, rest)? else {
        return Ok(None);
    };
    if labels.is_empty() {
        return Ok(None);
    }
    Ok(Some(WrittenStart { joint, labels }))
}

// The link behind `at`, and what follows.
#[tactic(auto, unfolding(crate::specs::private::Reading::placed_in))]
fn placed<'a>(text: &'a str) -> Option<(WrittenJoint<'a>, &'a str)>
    ensures { option_map {U = Joint × List ℕ} (λ r. (joint_of r.0, r.1.now)) result ≡ placed_in text.now }
{
    next_joint(past("at ", text)?)
}

// The labels that a text is, each behind a space, if it is of that form.
fn labels<'a>(alloc: Global, text: &'a str) -> Result<Option<Vec<WrittenName<'a>>>, NoMemory>
    ensures { IfOk result (λ labels. option_map (λ v. names_of v.items) labels ≡ labels_in (length text.now) text.now) }
{
    let mut labels = Vec::new(alloc);
    let mut left = text;
    while !left.is_empty() {
        let Some((label, rest)) = next_label(left) else {
            return Ok(None);
        };
        labels.push(label)?;
        left = rest;
    }
    Ok(Some(labels))
}

// The label behind a space, and what follows.
#[tactic(auto, unfolding(crate::specs::private::Reading::label_in))]
fn next_label<'a>(text: &'a str) -> Option<(WrittenName<'a>, &'a str)>
    ensures { option_map {U = Name × List ℕ} (λ r. (name_of r.0, r.1.now)) result ≡ label_in text.now }
{
    next_name(past(" ", text)?)
}

/// The event that a text is, if it is of its form.
#[tactic(auto, unfolding(crate::specs::private::Reading::event_in))]
pub fn event_of<'a>(text: &'a str) -> Option<WrittenEvent<'a>>
    ensures { option_map line_of result ≡ event_in text.now }
{
    if let Some(rest) = past("fail ", text) {
        return Some(WrittenEvent::Fail(joint(rest)?));
    }
    if let Some(rest) = past("repair ", text) {
        return Some(WrittenEvent::Repair(joint(rest)?));
    }
    hop(past("hop ", text)?)
}

// The two numbers of a hop, with a space between.
#[tactic(auto, unfolding(crate::specs::private::Reading::hop_in))]
fn hop<'a>(text: &'a str) -> Option<WrittenEvent<'a>>
    ensures { option_map line_of result ≡ hop_in text.now }
{
    let (group, member) = until(' ', text)?;
    if is_count(group) && is_count(member) {
        Some(WrittenEvent::Hop(group, member))
    } else {
        None
    }
}

// Whether a text is a number from 1.
fn is_count(text: &str) -> bool
    ensures { result ≡ is_count text.now }
{
    is_number(text) && text != "0"
}

// The link that a text is.
#[tactic(auto, unfolding(crate::specs::private::Reading::whole_in))]
fn joint<'a>(text: &'a str) -> Option<WrittenJoint<'a>>
    ensures { option_map joint_of result ≡ whole_in text.now }
{
    let (joint, rest) = next_joint(text)?;
    if rest.is_empty() { Some(joint) } else { None }
}

// The link that a text begins with, and what follows.
#[tactic(auto, unfolding(crate::specs::private::Reading::joint_in))]
fn next_joint<'a>(text: &'a str) -> Option<(WrittenJoint<'a>, &'a str)>
    ensures { option_map {U = Joint × List ℕ} (λ r. (joint_of r.0, r.1.now)) result ≡ joint_in text.now }
{
    let (from, rest) = next_name(text)?;
    let (out, rest) = next_name(past(".", rest)?)?;
    let (to, rest) = next_name(past("#", rest)?)?;
    let (into, rest) = next_name(past(".", rest)?)?;
    let joint = WrittenJoint {
        from,
        out,
        to,
        into,
    };
    Some((joint, rest))
}

// The name that a text begins with, and what follows.
#[tactic(auto, unfolding(crate::specs::private::Reading::name_in))]
fn next_name<'a>(text: &'a str) -> Option<(WrittenName<'a>, &'a str)>
    ensures { option_map {U = Name × List ℕ} (λ r. (name_of r.0, r.1.now)) result ≡ name_in text.now }
{
    match past("\"", text) {
        Some(rest) => quoted_name(rest),
        None => plain_name(text),
    }
}

// The name up to a quotation mark, and what follows the mark.
#[tactic(auto, unfolding(crate::specs::private::Reading::quoted_in))]
fn quoted_name<'a>(text: &'a str) -> Option<(WrittenName<'a>, &'a str)>
    ensures { option_map {U = Name × List ℕ} (λ r. (name_of r.0, r.1.now)) result ≡ quoted_in text.now }
{
    let (name, rest) = until('"', text)?;
    if name.is_empty() || !are_name_bytes(name.as_bytes()) {
        return None;
    }
    Some((WrittenName::Quoted(name), rest))
}

// The plain name that a text begins with, of as many characters as are plain, and what follows.
#[tactic(auto, unfolding(crate::specs::private::Reading::plain_in))]
fn plain_name<'a>(text: &'a str) -> Option<(WrittenName<'a>, &'a str)>
    ensures { option_map {U = Name × List ℕ} (λ r. (name_of r.0, r.1.now)) result ≡ plain_in text.now }
{
    let length = plain_length(text.as_bytes());
    if length == 0 {
        return None;
    }
    let (name, rest) = text.split_at(length);
    Some((WrittenName::Plain(name), rest))
}

// How many plain characters a text begins with.
fn plain_length(bytes: &[u8]) -> usize
    ensures { result ≡ prefix_len is_plain bytes.now }
{
    bytes
        .iter()
        .take_while(|byte| is_plain(char::from(**byte)))
        .count()
}

// What follows a front, where a text begins with it.
fn past<'a>(front: &str, text: &'a str) -> Option<&'a str>
    ensures { option_map (λ rest. rest.now) result ≡ past front.now text.now }
{
    text.strip_prefix(front)
}

// What stands before the first of a character, and what stands behind it.
fn until<'a>(character: char, text: &'a str) -> Option<(&'a str, &'a str)>
    requires { character < 128 }
    ensures { option_map {U = List ℕ × List ℕ} (λ r. (r.0.now, r.1.now)) result ≡ until character text.now }
{
    text.split_once(character)
}
