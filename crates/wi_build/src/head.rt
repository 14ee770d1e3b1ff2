//! Rules of one step differ in the next state of an automaton alone, so what they write, weigh and stand for is made once, and
//! pushed for each state. All is `Copy`, and takes no memory.
ghost use Rattle.std.specs.Prelude.{◌≡◌, slice_get};
ghost use Rattle.wi_build.specs.private.Rows.{plain_made, spot_on, way_through};

use crate::weights::effort;
use wi_labels::{Label, Op};
use wi_net::{LinkId, Member};
use wi_pds::Word2;
use wi_quantity::Weight;
use wi_rules::{Origin, Spot};

/// A spot's number, and the symbol on top.
#[derive(Clone, Copy)]
pub(crate) struct Head {
    pub spot: u64,
    pub symbol: u32,
}

/// Where a packet is: on a link, with a label on top, the path's automaton in a state.
#[derive(Clone, Copy)]
pub(crate) struct Arrival {
    pub link: LinkId,
    pub state: u32,
    pub top: Label,
}

/// What a rule writes in the place of the top, what it weighs, and what it stands for.
#[derive(Clone, Copy)]
pub(crate) struct Made {
    pub word: Word2,
    pub weight: Weight,
    pub origin: Origin,
}

/// Where rules lead that differ in the state of an automaton alone.
#[derive(Clone, Copy)]
pub(crate) enum Way {
    Build,
    Close,
    OnLink(LinkId),
    /// So many operations of the member of a number are done.
    Amid(u32, u32),
}

/// What becomes of a packet that takes a member.
#[derive(Clone, Copy)]
pub(crate) enum Fate {
    /// It goes through.
    Travels,
    /// It is dropped, since an operation isn't defined.
    Lost,
}

impl Way {
    /// The spot with this state.
    pub fn to(self, state: u32) -> Spot
        ensures { result ≡ spot_on self state }
    {
        match self {
            Way::Build => Spot::Build(state),
            Way::Close => Spot::Close(state),
            Way::OnLink(link) => Spot::OnLink(link, state),
            Way::Amid(number, done) => Spot::Mid(number, done, state),
        }
    }

    /// Where the first operations of a member lead, so many of them.
    pub fn through(member: &Member, number: u32, done: u32) -> Way
        ensures { result ≡ way_through member.now number done }
    {
        if (done as usize) < member.ops.as_slice().len() {
            Way::Amid(number, done)
        } else {
            Way::OnLink(member.link)
        }
    }
}

/// What a rule is made of that adds to no term and stands for nothing.
pub(crate) fn plain(word: Word2) -> Made
    ensures { result ≡ plain_made word }
{
    Made {
        word,
        weight: effort(),
        origin: Origin::Nothing,
    }
}

/// The operation of a member at a place, if there is one.
pub(crate) fn operation(member: &Member, place: u32) -> Option<Op>
    ensures { result ≡ slice_get member.now.ops place }
{
    member.ops.as_slice().get(place as usize).copied()
}
