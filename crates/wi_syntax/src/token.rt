//! Names, numbers and the words `drop`, `down` and `up` are one kind of token, since only the place tells which it is: so a
//! label may be called `30`, and a router `down`. A mark has one character, so no two of them have to be told apart by what
//! follows. A dot that is a whole end of a pair is a token of its own, since it alone of all marks is told by its byte.
use crate::name::Name;

/// A token of one character.
#[derive(Clone, Copy, PartialEq, Eq, Debug)]
pub enum Mark {
    /// `<`.
    Less,
    /// `>`.
    Greater,
    /// `(`.
    OpenRound,
    /// `)`.
    CloseRound,
    /// `[`.
    OpenSquare,
    /// `]`.
    CloseSquare,
    /// `#`.
    Hash,
    /// `.`.
    Dot,
    /// `,`.
    Comma,
    /// `^`.
    Caret,
    /// `*`.
    Star,
    /// `+`.
    Plus,
    /// `?`.
    Question,
    /// `|`.
    Bar,
}

/// A token. White space stands between tokens, and in none but quoted ones.
#[derive(Drop)]
pub enum Token {
    Mark(Mark),
    /// `.` as a whole end of a pair, any router: the byte where it stands.
    AnyEnd(usize),
    /// A name, a number, or one of the words `drop`, `down` and `up`: the place decides which.
    Word(Name),
}
