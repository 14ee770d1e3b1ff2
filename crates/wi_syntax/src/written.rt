//! What is written is kept with its names as they stand, so that form is judged before any network is asked, and each unknown
//! name has its byte. Expressions are lists of signs and not trees, so that nesting takes no recursion. It takes a copy of all
//! names.
use crate::name::Name;
use wi_base::Listed;

/// Labels: `.`, a name, or a list.
#[derive(Drop)]
pub enum LabelAtom {
    /// `.`: any label.
    Any,
    /// A label; or without quotation marks one of the words `ip`, `mpls` and `smpls`, any label of that class.
    Name(Name),
    /// `[A, B]`: any of these, or with `^` any but these.
    List(bool, Listed<Name>),
}

/// One end of a link.
#[derive(Drop)]
pub enum End {
    /// `.`: any router. The byte where it stands.
    Any(usize),
    /// `A`: the router A.
    Router(Name),
    /// `A.i`: the router A by its interface i.
    Interface(Name, Name),
}

/// `A#B`: the links that go from one end to the other.
#[derive(Drop)]
pub struct Pair {
    pub from: End,
    pub to: End,
}

impl Pair {
    ghost use Rattle.std.specs.Prelude.{◌≡◌};
    ghost use Rattle.wi_syntax.specs.Atoms.{pair_at};

    /// The byte where it begins.
    pub fn at(&self) -> usize
        ensures { result ≡ pair_at self.now }
    {
        match &self.from {
            End::Any(at) => *at,
            End::Router(router) => router.at(),
            End::Interface(router, _) => router.at(),
        }
    }
}

/// Links: `.` or a list.
#[derive(Drop)]
pub enum LinkAtom {
    /// `.`: any link.
    Any,
    /// `[A#B, C#D]`: any of these, or with `^` any but these.
    List(bool, Listed<Pair>),
}

/// A sign of an expression.
#[derive(Drop)]
pub enum Sign<A> {
    Atom(A),
    /// `(`.
    Open,
    /// `)`.
    Close,
    /// `*`.
    Star,
    /// `+`.
    Plus,
    /// `?`.
    Maybe,
    /// `|`.
    Or,
}

/// A list of links that are known down or up, with the byte where its word starts.
#[derive(Drop)]
pub struct Known {
    pub at: usize,
    pub pairs: Listed<Pair>,
}

/// What becomes of the packet.
#[derive(Drop)]
pub enum Last {
    /// It arrives, with such a header.
    Header(Listed<Sign<LabelAtom>>),
    /// `drop`: it is dropped. The byte where the word starts.
    Dropped(usize),
}

/// A query as it is written: its expressions, its number, and the links that are known down or up.
#[derive(Drop)]
pub struct Written {
    pub first: Listed<Sign<LabelAtom>>,
    pub path: Listed<Sign<LinkAtom>>,
    pub last: Last,
    pub number: Name,
    pub down: Option<Known>,
    pub up: Option<Known>,
}
