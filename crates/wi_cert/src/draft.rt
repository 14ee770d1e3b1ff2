//! A certificate of which some lines were read. A piece that can't be taken in whole is undone, so lines are taken at a mark: the
//! lists only grow, and are cut to the lengths that they had there.
ghost use Rattle.std.specs.Prelude.{◌≡◌, ◌+◌, ◌^◌, ◌<◌, ◌≤◌, false, Some, None, IfOk, option_map, if◌then◌else◌};
ghost use Rattle.std.specs.Option.{option_map_or};
ghost use Rattle.wi_cert.specs.Sheets.{Sheet, sheet, blank, asked, is_done, certificates};
ghost use Rattle.wi_cert.specs.private.Marks.{rank, shown_rank, closed_rank, dropped_count, line_count, mark_of, back, IsUnread, Follows, Keeps};

use crate::certificate::{Certificate, Place};
use crate::closed::{ClosedDraft, ClosedMark, ClosedPlace};
use crate::line::is_line;
use crate::shown::{Dropped, ShownDraft, ShownMark, ShownPlace};
use crate::take_lines::TakeLines;
use std::alloc::Global;
use std::marker::Model;
use wi_base::NoMemory;

// The place of the next line, and what the lines so far say.
#[derive(Drop)]
pub(crate) struct Draft {
    place: Place,
    shown: ShownDraft,
    closed: ClosedDraft,
    // The numbers of the line that is being read.
    numbers: Vec<u64>,
}

impl Model for Draft {
    ghost use Rattle.wi_cert.specs.Sheets.{Sheet, sheet};

    ghost Value = { Sheet };

    ghost use Rattle.wi_cert.specs.private.Marks.{IsUnread};

    ghost view = { λ d. sheet d.place (record { shown = d.shown; closed = d.closed }) };

    ghost invariant = { λ d. IsUnread d.place d.shown };
}

// How far the lines had come.
#[derive(Clone, Copy)]
pub(crate) struct Mark {
    place: Place,
    shown: ShownMark,
    closed: ClosedMark,
}

impl Draft {
    // No line was read.
    pub(crate) fn new(alloc: Global) -> Draft
        ensures { result ≡ blank }
    {
        Draft {
            place: Place::Title,
            shown: ShownDraft::new(alloc),
            closed: ClosedDraft::new(alloc),
            numbers: Vec::new(alloc),
        }
    }

    pub(crate) fn is_done(&self) -> bool
        ensures { result ≡ is_done self.now.place }
    {
        matches!(self.place, Place::Done)
    }

    pub(crate) fn mark(&self) -> Mark
        ensures mark { result ≡ mark_of self.now }
        ensures few { result.shown.terms ≤ 5 }
        ensures unread { IsUnread self.now.place self.now.certificate.shown }
    {
        Mark {
            place: self.place,
            shown: self.shown.mark(),
            closed: self.closed.mark(),
        }
    }

    // Goes back to the mark.
    pub(crate) fn go_back(&mut self, mark: Mark)
        requires few { mark.shown.terms ≤ 5 }
        requires unread { IsUnread (back mark self.old).place (back mark self.old).certificate.shown }
        ensures { self.new ≡ back mark self.old }
    {
        self.place = mark.place;
        self.shown.go_back(mark.shown);
        self.closed.go_back(mark.closed);
    }

    // The certificate so far. It takes no memory.
    pub(crate) fn finish(self) -> Certificate
        ensures { result ≡ self.certificate }
    {
        let Draft {
            place: _,
            shown,
            closed,
            numbers,
        } = self;
        drop(numbers);
        Certificate {
            shown: shown.finish(),
            closed: closed.finish(),
        }
    }
}

impl TakeLines for Draft {
    type Made = Certificate;

    ghost form = { certificates };

    ghost count = { line_count };

    ghost Follows = { Follows };

    fn line_count(&self) -> u128 {
        let steps = self.shown.step_count() as u128;
        let heads = self.closed.head_count() as u128;
        let pairs = self.closed.pair_count() as u128;
        let rows = self.closed.row_count() as u128;
        u128::from(rank(self.place, self.shown.dropped())) + steps + heads + pairs + rows
    }

    fn take_line(&mut self, line: &[u8]) -> Result<bool, NoMemory> {
        let Some(next) = next_place(
            self.place,
            &mut self.shown,
            &mut self.closed,
            line,
            &mut self.numbers,
        )?
        else {
            return Ok(false);
        };
        self.place = next;
        Ok(true)
    }
}

// How many lines stand before the lists' own, at least.
fn rank(place: Place, dropped: Option<Dropped>) -> u64
    ensures rank { result ≡ rank place dropped }
    ensures small { result ≤ 11 }
{
    match place {
        Place::Title => 0,
        Place::Shown(place) => shown_rank(place),
        Place::Closed(place) => closed_rank(place) + dropped_count(dropped),
        Place::End => 9 + dropped_count(dropped),
        Place::Done => 10 + dropped_count(dropped),
    }
}

// How many lines say how the packet is dropped.
pub(crate) fn dropped_count(dropped: Option<Dropped>) -> u64
    ensures count { result ≡ dropped_count dropped }
    ensures small { result ≤ 1 }
{
    match dropped {
        Some(_) => 1,
        None => 0,
    }
}

pub(crate) fn shown_rank(place: ShownPlace) -> u64
    ensures rank { result ≡ shown_rank place }
    ensures small { result ≤ 10 }
{
    match place {
        ShownPlace::Terms => 1,
        ShownPlace::Answer => 2,
        ShownPlace::Weight => 3,
        ShownPlace::First => 4,
        ShownPlace::StepCount => 5,
        ShownPlace::Step(_) => 6,
        ShownPlace::Dropped => 6,
    }
}

pub(crate) fn closed_rank(place: ClosedPlace) -> u64
    ensures rank { result ≡ closed_rank place }
    ensures small { result ≤ 10 }
{
    match place {
        ClosedPlace::HeadCount => 6,
        ClosedPlace::Head(_) => 7,
        ClosedPlace::PairCount => 7,
        ClosedPlace::Pair(_) => 8,
        ClosedPlace::RowCount => 8,
        ClosedPlace::Row(_) => 9,
    }
}

// Takes a line of the form asked, and gives the place of the next one; None if the line isn't of that form.
fn next_place(
    place: Place,
    shown: &mut ShownDraft,
    closed: &mut ClosedDraft,
    line: &[u8],
    numbers: &mut Vec<u64>,
) -> Result<Option<Place>, NoMemory>
    ensures ok { IfOk result (λ found. option_map (λ next. sheet next (record { shown = shown.new; closed = closed.new })) found ≡ asked place (record { shown = shown.old; closed = closed.old }) line.now) }
    ensures shown { Keeps result shown.old shown.new }
    ensures closed { Keeps result closed.old closed.new }
{
    match place {
        Place::Title => Ok(if shown.take_title(b"mpls-whatif-certificate ", line) {
            Some(Place::Shown(ShownPlace::Terms))
        } else {
            None
        }),
        Place::Shown(place) => {
            let next = shown.take_line(place, line, numbers)?;
            Ok(next.map(after_shown))
        }
        Place::Closed(place) => {
            let next = closed.take_line(shown, place, line, numbers)?;
            Ok(next.map(after_closed))
        }
        Place::End => Ok(if is_line(line, b"end") {
            Some(Place::Done)
        } else {
            None
        }),
        Place::Done => Ok(None),
    }
}

fn after_shown(next: Option<ShownPlace>) -> Place
    ensures { result ≡ option_map_or (λ place. Place.Shown place) next (Place.Closed ClosedPlace.HeadCount) }
{
    match next {
        Some(place) => Place::Shown(place),
        None => Place::Closed(ClosedPlace::HeadCount),
    }
}

fn after_closed(next: Option<ClosedPlace>) -> Place
    ensures { result ≡ option_map_or (λ place. Place.Closed place) next Place.End }
{
    match next {
        Some(place) => Place::Closed(place),
        None => Place::End,
    }
}
