//! A dot may be a whole end of a link, or stand between a router and its interface: what came before tells which. So a list has
//! a place for each point at which it may go on, with what of a pair was read so far. Names move from place to place, and none
//! is copied.
ghost use Rattle.std.specs.Prelude.{◌≡◌, IfOk, option_and_then};
ghost use Rattle.wi_syntax.specs.declared.places.PairPlace.{PairPlace};
ghost use Rattle.wi_syntax.specs.declared.written.LabelAtom.{LabelAtom};
ghost use Rattle.wi_syntax.specs.declared.written.LinkAtom.{LinkAtom};
ghost use Rattle.wi_syntax.specs.private.Reading.{is_name_due, is_word_due};
ghost use Rattle.wi_syntax.specs.private.Lists.{is_end_due, no_names, no_pairs, no_known, after_pair, whole_pair, with_item, after_in_names, after_in_pairs, outcome};

use crate::name::Name;
use crate::token::{Mark, Token};
use crate::written::{End, LabelAtom, LinkAtom, Pair};
use std::alloc::Global;
use std::marker::Model;
use std::mem::replace;
use wi_base::{Listed, NoMemory};

/// A place in a list of names.
#[derive(Drop)]
pub(crate) enum NamePlace {
    /// Behind the bracket: `^` or a name is due.
    Opened,
    /// A name is due.
    Due,
    /// Behind a name.
    Whole(Name),
}

/// A place in a list of pairs.
#[derive(Drop)]
pub(crate) enum PairPlace {
    /// Behind the bracket: `^` or a pair is due.
    Opened,
    /// A pair is due.
    Due,
    /// Behind the router of the left end: an interface may come.
    FromRouter(Name),
    FromInterfaceDue(Name),
    /// Behind the left end.
    HashDue(End),
    ToDue(End),
    /// Behind the router of the right end: an interface may come, and the pair may be whole.
    ToRouter(End, Name),
    ToInterfaceDue(End, Name),
    Whole(Pair),
}

/// Where a list goes on with a token.
#[derive(Clone, Copy, PartialEq, Eq, Debug)]
pub(crate) enum Way {
    /// Further in the list.
    On,
    /// The list ends with the token.
    Ends,
    /// No list goes on so.
    Nowhere,
}

/// A list of names that is being read.
#[derive(Drop)]
pub(crate) struct NameList {
    except: bool,
    items: Vec<Name>,
    place: NamePlace,
}

impl Model for NameList {
    ghost use Rattle.wi_syntax.specs.private.Lists.{NameListing};

    ghost Value = { NameListing };

    ghost view = { λ l. record { except = l.except; items = l.items.items; place = l.place } };
}

impl NameList {
    /// One of which its bracket was read.
    pub(crate) fn new(alloc: Global) -> NameList
        ensures { result ≡ no_names }
    {
        NameList {
            except: false,
            items: Vec::new(alloc),
            place: NamePlace::Opened,
        }
    }

    /// Whether a name is due.
    pub(crate) fn is_name_due(&self) -> bool
        ensures { result ≡ is_name_due self.now.place }
    {
        !matches!(self.place, NamePlace::Whole(_))
    }

    /// The atom that the list is.
    pub(crate) fn into_atom(self) -> LabelAtom
        ensures { result ≡ LabelAtom.List self.except self.items }
    {
        drop(self.place);
        LabelAtom::List(self.except, Listed::of(self.items))
    }

    /// Goes on with a token.
    pub(crate) fn next(&mut self, token: Token) -> Result<Way, NoMemory>
        ensures { IfOk result (λ way. after_in_names self.old token ≡ outcome self.new way) }
    {
        let place = replace(&mut self.place, NamePlace::Due);
        match (place, token) {
            (NamePlace::Opened | NamePlace::Due, Token::Word(name)) => {
                self.place = NamePlace::Whole(name);
                Ok(Way::On)
            }
            (NamePlace::Opened, Token::Mark(Mark::Caret)) => {
                self.except = true;
                Ok(Way::On)
            }
            (NamePlace::Whole(name), Token::Mark(Mark::Comma)) => {
                self.items.push(name)?;
                Ok(Way::On)
            }
            (NamePlace::Whole(name), Token::Mark(Mark::CloseSquare)) => {
                self.items.push(name)?;
                Ok(Way::Ends)
            }
            (place, token) => {
                drop(place);
                drop(token);
                Ok(Way::Nowhere)
            }
        }
    }
}

impl PairPlace {
    /// The place after one more token; commas and brackets apart.
    fn after(self, token: Token) -> Option<PairPlace>
        ensures { result ≡ after_pair self token }
    {
        match (self, token) {
            (PairPlace::Opened | PairPlace::Due, token) => PairPlace::begun(token),
            (PairPlace::FromRouter(router), Token::Mark(Mark::Dot)) => {
                Some(PairPlace::FromInterfaceDue(router))
            }
            (PairPlace::FromRouter(router), Token::Mark(Mark::Hash)) => {
                Some(PairPlace::ToDue(End::Router(router)))
            }
            (PairPlace::FromInterfaceDue(router), Token::Word(interface)) => {
                Some(PairPlace::HashDue(End::Interface(router, interface)))
            }
            (PairPlace::HashDue(from), Token::Mark(Mark::Hash)) => Some(PairPlace::ToDue(from)),
            (PairPlace::ToDue(from), Token::AnyEnd(at)) => Some(PairPlace::Whole(Pair {
                from,
                to: End::Any(at),
            })),
            (PairPlace::ToDue(from), Token::Word(router)) => {
                Some(PairPlace::ToRouter(from, router))
            }
            (PairPlace::ToRouter(from, router), Token::Mark(Mark::Dot)) => {
                Some(PairPlace::ToInterfaceDue(from, router))
            }
            (PairPlace::ToInterfaceDue(from, router), Token::Word(interface)) => {
                Some(PairPlace::Whole(Pair {
                    from,
                    to: End::Interface(router, interface),
                }))
            }
            (place, token) => {
                drop(place);
                drop(token);
                None
            }
        }
    }

    // The place after the first token of a pair.
    fn begun(token: Token) -> Option<PairPlace>
        ensures { result ≡ after_pair PairPlace.Due token }
    {
        match token {
            Token::AnyEnd(at) => Some(PairPlace::HashDue(End::Any(at))),
            Token::Word(router) => Some(PairPlace::FromRouter(router)),
            Token::Mark(_) => None,
        }
    }

    // The pair, where it is whole.
    fn whole(self) -> Option<Pair>
        ensures { result ≡ whole_pair self }
    {
        match self {
            PairPlace::ToRouter(from, router) => Some(Pair {
                from,
                to: End::Router(router),
            }),
            PairPlace::Whole(pair) => Some(pair),
            place => {
                drop(place);
                None
            }
        }
    }
}

/// A list of pairs that is being read.
#[derive(Drop)]
pub(crate) struct PairList {
    except: bool,
    items: Vec<Pair>,
    place: PairPlace,
}

impl Model for PairList {
    ghost use Rattle.wi_syntax.specs.private.Lists.{PairListing};

    ghost Value = { PairListing };

    ghost view = { λ l. record { except = l.except; items = l.items.items; place = l.place } };
}

impl PairList {
    /// One of which its bracket was read. It may begin with `^`.
    pub(crate) fn new(alloc: Global) -> PairList
        ensures { result ≡ no_pairs }
    {
        PairList {
            except: false,
            items: Vec::new(alloc),
            place: PairPlace::Opened,
        }
    }

    /// The same of links that are known down or up. It begins with a pair.
    pub(crate) fn known(alloc: Global) -> PairList
        ensures { result ≡ no_known }
    {
        PairList {
            except: false,
            items: Vec::new(alloc),
            place: PairPlace::Due,
        }
    }

    /// Whether a name is due, or may come.
    pub(crate) fn is_word_due(&self) -> bool
        ensures { result ≡ is_word_due self.now.place }
    {
        matches!(
            self.place,
            PairPlace::Opened
                | PairPlace::Due
                | PairPlace::FromInterfaceDue(_)
                | PairPlace::ToDue(_)
                | PairPlace::ToInterfaceDue(_, _)
        )
    }

    /// Whether an end of a pair may begin.
    pub(crate) fn is_end_due(&self) -> bool
        ensures { result ≡ is_end_due self.now.place }
    {
        matches!(
            self.place,
            PairPlace::Opened | PairPlace::Due | PairPlace::ToDue(_)
        )
    }

    /// The atom that the list is.
    pub(crate) fn into_atom(self) -> LinkAtom
        ensures { result ≡ LinkAtom.List self.except self.items }
    {
        drop(self.place);
        LinkAtom::List(self.except, Listed::of(self.items))
    }

    /// The pairs of the list.
    pub(crate) fn into_pairs(self) -> Listed<Pair>
        ensures { result ≡ self.items }
    {
        drop(self.place);
        Listed::of(self.items)
    }

    // Adds the pair that is whole at a place, and goes that way; nowhere if there is none.
    fn push(&mut self, place: PairPlace, way: Way) -> Result<Way, NoMemory>
        ensures { IfOk result (λ went. outcome self.new went ≡ option_and_then (λ pair. outcome (with_item self.old self.old.place pair) way) (whole_pair place)) }
    {
        match place.whole() {
            Some(pair) => {
                self.items.push(pair)?;
                Ok(way)
            }
            None => Ok(Way::Nowhere),
        }
    }

    /// Goes on with a token.
    pub(crate) fn next(&mut self, token: Token) -> Result<Way, NoMemory>
        ensures { IfOk result (λ way. after_in_pairs self.old token ≡ outcome self.new way) }
    {
        let place = replace(&mut self.place, PairPlace::Due);
        match (place, token) {
            (PairPlace::Opened, Token::Mark(Mark::Caret)) => {
                self.except = true;
                Ok(Way::On)
            }
            (place, Token::Mark(Mark::Comma)) => self.push(place, Way::On),
            (place, Token::Mark(Mark::CloseSquare)) => self.push(place, Way::Ends),
            (place, token) => match place.after(token) {
                Some(place) => {
                    self.place = place;
                    Ok(Way::On)
                }
                None => Ok(Way::Nowhere),
            },
        }
    }
}
