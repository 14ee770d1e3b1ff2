//! A rule has room for one number of its maker's, so what it stands for is packed into that, as a kind and up to two numbers
//! below 2^30. So a rule tells it alone, without a table beside the rules.
ghost use Rattle.std.specs.Prelude.{◌≡◌, ◌<◌};
ghost use Rattle.wi_build.specs.Tags.{tagged, tag_of, origin_of};
ghost use Rattle.wi_build.specs.private.Tags.{IsWithin};

use wi_labels::Label;
use wi_net::LinkId;
use wi_rules::Origin;
use wi_world::{End, Step};

// How many numbers have room.
const ROOM: u64 = 1 << 30;

fn tagged(kind: u64, first: u32, second: u32) -> u64
    requires kind { kind < 8 }
    requires first { first < 1073741824 }
    requires second { second < 1073741824 }
    ensures { result ≡ tagged kind first second }
{
    kind + 8 * (u64::from(second) + ROOM * u64::from(first))
}

/// The tag of a rule that stands for this.
pub(crate) fn tag_of(origin: Origin) -> u64
    requires { IsWithin origin }
    ensures { result ≡ tag_of origin }
{
    match origin {
        Origin::Nothing => 0,
        Origin::Pushed(label) => tagged(1, label.0, 0),
        Origin::SetOut(link) => tagged(2, link.0, 0),
        Origin::Hop(step) => tagged(3, step.group, step.member),
        Origin::Operation(number, done) => tagged(4, number, done),
        Origin::Ending(End::Arrives) => tagged(5, 0, 0),
        Origin::Ending(End::Inactive) => tagged(6, 0, 0),
        Origin::Ending(End::Undefined(step)) => tagged(7, step.group, step.member),
    }
}

/// What a rule with this tag stands for.
pub(crate) fn origin_of(tag: u64) -> Origin
    ensures { result ≡ origin_of tag }
{
    let first = (tag / 8 / ROOM) as u32;
    let second = (tag / 8 % ROOM) as u32;
    let step = Step {
        group: first,
        member: second,
    };
    match tag % 8 {
        1 => Origin::Pushed(Label(first)),
        2 => Origin::SetOut(LinkId(first)),
        3 => Origin::Hop(step),
        4 => Origin::Operation(first, second),
        5 => Origin::Ending(End::Arrives),
        6 => Origin::Ending(End::Inactive),
        7 => Origin::Ending(End::Undefined(step)),
        _ => Origin::Nothing,
    }
}
