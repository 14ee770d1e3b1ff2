//! First header, links and last header are read one after the other, so a spot has the state of one automaton alone, and their
//! states add up where they would multiply. Between the operations of a member there are spots, too, since a rule writes two
//! symbols at most.
use wi_labels::Label;
use wi_net::LinkId;
use wi_world::{End, Step};

/// A state of the pushdown system.
#[derive(Clone, Copy, PartialEq, Eq, Debug)]
pub enum Spot {
    Start,
    Done,
    /// The first header is made from the bottom up; its automaton, read backwards, is in this state.
    Build(u32),
    /// The last header is read from the top down; its automaton is in this state.
    Close(u32),
    /// The packet is on the link; the path's automaton is in this state.
    OnLink(LinkId, u32),
    /// Of the member of a number so many operations are done, at least one; the path's automaton is in this state.
    Mid(u32, u32, u32),
    /// The packet is dropped on the way through the member of a number, of which so many operations are done, at least one.
    Drop(u32, u32),
}

/// What a rule stands for in a run of the network.
#[derive(Clone, Copy, PartialEq, Eq, Debug)]
pub enum Origin {
    /// A label of the first header.
    Pushed(Label),
    /// The first link.
    SetOut(LinkId),
    /// A step, and the first operation of its member.
    Hop(Step),
    /// A further operation of the member of a number: its place among the member's operations, at least 1.
    Operation(u32, u32),
    /// The end, and the first operation of its member, if it has one.
    Ending(End),
    /// None of these.
    Nothing,
}
