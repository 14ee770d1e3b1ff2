//! One token is taken at a time, and it is told at once whether some query goes on so: the byte where a text stops being a
//! query's then needs no look ahead. Where a text stands is one of a few stages, and nothing is called in itself, so deep texts
//! need no stack.
ghost use Rattle.std.specs.Prelude.{◌≡◌, IfOk, Some, None, if◌then◌else◌};
ghost use Rattle.std.specs.Option.{option_map};
ghost use Rattle.wi_syntax.specs.private.Parsing.{start, is_whole, stage_after, after_sign, phrase_of, with_phrase, with_atom, after_in_labels, after_behind_path, after_in_links, after_at_number, after_before_up, after_before_down, after_word, after_start, after, with_names, with_path, with_list, with_pairs, is_keyword, last_of, takes_ends, token_of, finish, goes};
ghost use Rattle.wi_syntax.specs.private.Lists.{after_in_names, after_in_pairs};
ghost use Rattle.wi_syntax.specs.private.Reading.{admits, takes_names, may_begin, begins};

use crate::name::Name;
use crate::phrase::Phrase;
use crate::places::{NameList, PairList, Way};
use crate::token::{Mark, Token};
use crate::written::{Known, LabelAtom, Last, LinkAtom, Written};
use std::alloc::Global;
use std::marker::Model;
use std::mem::replace;
use wi_base::NoMemory;
use wi_text::is_number;

/// The header that an expression over labels is of.
#[derive(Clone, Copy, PartialEq, Eq, Debug)]
pub(crate) enum Header {
    First,
    Last,
}

/// What a list of pairs belongs to.
#[derive(Clone, Copy, PartialEq, Eq, Debug)]
pub(crate) enum Owner {
    Path,
    Down,
    Up,
}

/// Where in a query a text stands.
#[derive(Clone, Copy, PartialEq, Eq, Debug)]
pub(crate) enum Stage {
    Start,
    /// In an expression over labels.
    Labels(Header),
    /// In a list of names.
    LabelList(Header),
    /// In the expression over links.
    Links,
    /// In a list of pairs.
    LinkList(Owner),
    /// The number is due.
    Number,
    BehindNumber,
    /// The list behind `down` is due.
    DownDue,
    BehindDown,
    /// The list behind `up` is due.
    UpDue,
    BehindUp,
}

/// All that was read of a query.
#[derive(Drop)]
pub(crate) struct Parser {
    stage: Stage,
    first: Phrase<LabelAtom>,
    path: Phrase<LinkAtom>,
    last: Phrase<LabelAtom>,
    // Where the word `drop` starts, if it stands in place of the last header.
    drop_at: Option<usize>,
    names: NameList,
    pairs: PairList,
    number: Option<Name>,
    // Where the last word `down` or `up` starts.
    word_at: usize,
    down: Option<Known>,
    up: Option<Known>,
}

impl Model for Parser {
    ghost use Rattle.wi_syntax.specs.private.Parsing.{Parse};

    ghost Value = { Parse };

    ghost view = { λ p. record { stage = p.stage; first = p.first; path = p.path; last = p.last; drop_at = p.drop_at; names = p.names; pairs = p.pairs; number = p.number; word_at = p.word_at; down = p.down; up = p.up } };
}

impl Parser {
    /// Nothing was read.
    pub(crate) fn new(alloc: Global) -> Parser
        ensures { result ≡ start }
    {
        Parser {
            stage: Stage::Start,
            first: Phrase::new(alloc),
            path: Phrase::new(alloc),
            last: Phrase::new(alloc),
            drop_at: None,
            names: NameList::new(alloc),
            pairs: PairList::new(alloc),
            number: None,
            word_at: 0,
            down: None,
            up: None,
        }
    }

    /// Goes on with a token. It tells whether some query goes on so.
    pub(crate) fn next(&mut self, alloc: Global, token: Token) -> Result<bool, NoMemory>
        ensures { IfOk result (λ on. after self.old token ≡ goes self.new on) }
    {
        match self.stage {
            Stage::Start => Ok(self.begin(token)),
            Stage::Labels(header) => self.in_labels(alloc, header, token),
            Stage::LabelList(header) => self.in_label_list(alloc, header, token),
            Stage::Links => self.in_links(alloc, token),
            Stage::LinkList(owner) => self.in_link_list(alloc, owner, token),
            Stage::Number => Ok(self.at_number(token)),
            Stage::BehindNumber => Ok(self.before_down(token)),
            Stage::DownDue => Ok(self.behind_word(alloc, Owner::Down, token)),
            Stage::BehindDown => Ok(self.before_up(token)),
            Stage::UpDue => Ok(self.behind_word(alloc, Owner::Up, token)),
            Stage::BehindUp => Ok(false),
        }
    }

    /// The token that a mark at a byte is here: a dot where an end of a pair may begin is that end.
    pub(crate) fn token_of(&self, mark: Mark, at: usize) -> Token
        ensures { result ≡ token_of self.now at mark }
    {
        match mark {
            Mark::Dot if self.takes_ends() => Token::AnyEnd(at),
            mark => Token::Mark(mark),
        }
    }

    // Whether an end of a pair may begin.
    fn takes_ends(&self) -> bool
        ensures { result ≡ takes_ends self.now self.now.stage }
    {
        match self.stage {
            Stage::LinkList(_) => self.pairs.is_end_due(),
            _ => false,
        }
    }

    /// Whether a name that is begun may come next, when it is finished.
    pub(crate) fn admits(&self, name: &Name) -> bool
        ensures { result ≡ admits self.now name.now }
    {
        self.takes_names() || (!name.is_quoted() && self.may_begin(name.as_str()))
    }

    // Whether any name may come next.
    fn takes_names(&self) -> bool
        ensures { result ≡ takes_names self.now self.now.stage }
    {
        match self.stage {
            Stage::Labels(_) => true,
            Stage::LabelList(_) => self.names.is_name_due(),
            Stage::LinkList(_) => self.pairs.is_word_due(),
            _ => false,
        }
    }

    // Whether plain characters begin a word that may come next where no name may.
    fn may_begin(&self, text: &str) -> bool
        ensures { result ≡ may_begin self.now self.now.stage text.now }
    {
        match self.stage {
            Stage::Links => self.path.is_whole() && begins(text, "drop"),
            Stage::Number => is_number(text),
            Stage::BehindNumber => begins(text, "down") || begins(text, "up"),
            Stage::BehindDown => begins(text, "up"),
            _ => false,
        }
    }

    fn begin(&mut self, token: Token) -> bool
        ensures { after_start self.old token ≡ goes self.new result }
    {
        match token {
            Token::Mark(Mark::Less) => {
                self.stage = Stage::Labels(Header::First);
                true
            }
            _ => false,
        }
    }

    // In an expression over labels.
    fn in_labels(&mut self, alloc: Global, header: Header, token: Token) -> Result<bool, NoMemory>
        ensures { IfOk result (λ on. after_in_labels header self.old token ≡ goes self.new on) }
    {
        match token {
            Token::Word(name) => self.push_label_atom(header, LabelAtom::Name(name)),
            Token::Mark(Mark::Dot) => self.push_label_atom(header, LabelAtom::Any),
            Token::Mark(Mark::OpenSquare) => {
                self.names = NameList::new(alloc);
                self.stage = Stage::LabelList(header);
                Ok(true)
            }
            Token::Mark(Mark::Greater) => Ok(self.end_labels(header)),
            Token::Mark(mark) => self.push_label_sign(header, mark),
            Token::AnyEnd(_) => Ok(false),
        }
    }

    fn push_label_atom(&mut self, header: Header, atom: LabelAtom) -> Result<bool, NoMemory>
        ensures { IfOk result (λ on. Some (with_phrase header self.old (with_atom (phrase_of header self.old) atom)) ≡ goes self.new on) }
    {
        self.stage = Stage::Labels(header);
        match header {
            Header::First => self.first.push_atom(atom)?,
            Header::Last => self.last.push_atom(atom)?,
        }
        Ok(true)
    }

    fn push_label_sign(&mut self, header: Header, mark: Mark) -> Result<bool, NoMemory>
        ensures { IfOk result (λ on. option_map (with_phrase header self.old) (after_sign (phrase_of header self.old) mark) ≡ goes self.new on) }
    {
        self.stage = Stage::Labels(header);
        match header {
            Header::First => self.first.next(mark),
            Header::Last => self.last.next(mark),
        }
    }

    // At the `>` behind an expression over labels.
    fn end_labels(&mut self, header: Header) -> bool
        ensures { (if is_whole (phrase_of header self.old) then Some (record self.old { stage = stage_after header }) else None) ≡ goes self.new result }
    {
        match header {
            Header::First => {
                self.stage = Stage::Links;
                self.first.is_whole()
            }
            Header::Last => {
                self.stage = Stage::Number;
                self.last.is_whole()
            }
        }
    }

    fn in_label_list(
        &mut self,
        alloc: Global,
        header: Header,
        token: Token,
    ) -> Result<bool, NoMemory>
        ensures { IfOk result (λ on. option_map (with_names header self.old) (after_in_names self.old.names token) ≡ goes self.new on) }
    {
        match self.names.next(token)? {
            Way::On => Ok(true),
            Way::Ends => {
                let list = replace(&mut self.names, NameList::new(alloc));
                self.push_label_atom(header, list.into_atom())
            }
            Way::Nowhere => Ok(false),
        }
    }

    // In the expression over links.
    fn in_links(&mut self, alloc: Global, token: Token) -> Result<bool, NoMemory>
        ensures { IfOk result (λ on. after_in_links self.old token ≡ goes self.new on) }
    {
        match token {
            Token::Word(name) => Ok(self.behind_path(name)),
            Token::Mark(Mark::Dot) => self.push_link_atom(LinkAtom::Any),
            Token::Mark(Mark::OpenSquare) => {
                self.begin_pairs(PairList::new(alloc), Owner::Path);
                Ok(true)
            }
            Token::Mark(Mark::Less) => {
                self.stage = Stage::Labels(Header::Last);
                Ok(self.path.is_whole())
            }
            Token::Mark(mark) => self.push_link_sign(mark),
            Token::AnyEnd(_) => Ok(false),
        }
    }

    // At a word behind the expression over links.
    fn behind_path(&mut self, name: Name) -> bool
        ensures { after_behind_path self.old name ≡ goes self.new result }
    {
        self.stage = Stage::Number;
        self.drop_at = Some(name.at());
        self.path.is_whole() && is_keyword(&name, "drop")
    }

    fn push_link_atom(&mut self, atom: LinkAtom) -> Result<bool, NoMemory>
        ensures { IfOk result (λ on. Some (with_path self.old (with_atom self.old.path atom)) ≡ goes self.new on) }
    {
        self.stage = Stage::Links;
        self.path.push_atom(atom)?;
        Ok(true)
    }

    fn push_link_sign(&mut self, mark: Mark) -> Result<bool, NoMemory>
        ensures { IfOk result (λ on. option_map (with_path self.old) (after_sign self.old.path mark) ≡ goes self.new on) }
    {
        self.stage = Stage::Links;
        self.path.next(mark)
    }

    fn in_link_list(&mut self, alloc: Global, owner: Owner, token: Token) -> Result<bool, NoMemory>
        ensures { IfOk result (λ on. option_map (with_pairs owner self.old) (after_in_pairs self.old.pairs token) ≡ goes self.new on) }
    {
        match self.pairs.next(token)? {
            Way::On => Ok(true),
            Way::Ends => {
                let list = replace(&mut self.pairs, PairList::new(alloc));
                self.end_list(owner, list)
            }
            Way::Nowhere => Ok(false),
        }
    }

    // At the end of a list of pairs.
    fn end_list(&mut self, owner: Owner, list: PairList) -> Result<bool, NoMemory>
        ensures { IfOk result (λ on. Some (with_list owner self.old list) ≡ goes self.new on) }
    {
        match owner {
            Owner::Path => return self.push_link_atom(list.into_atom()),
            Owner::Down => {
                self.stage = Stage::BehindDown;
                self.down = Some(self.known(list));
            }
            Owner::Up => {
                self.stage = Stage::BehindUp;
                self.up = Some(self.known(list));
            }
        }
        Ok(true)
    }

    // The links of a list behind the last word.
    fn known(&self, list: PairList) -> Known
        ensures { result ≡ record { at = self.now.word_at; pairs = list.items } }
    {
        Known {
            at: self.word_at,
            pairs: list.into_pairs(),
        }
    }

    fn at_number(&mut self, token: Token) -> bool
        ensures { after_at_number self.old token ≡ goes self.new result }
    {
        match token {
            Token::Word(name) if !name.is_quoted() && is_number(name.as_str()) => {
                self.stage = Stage::BehindNumber;
                self.number = Some(name);
                true
            }
            _ => false,
        }
    }

    // Where `down` and `up` may come.
    fn before_down(&mut self, token: Token) -> bool
        ensures { after_before_down self.old token ≡ goes self.new result }
    {
        match token {
            Token::Word(name) if is_keyword(&name, "down") => {
                self.stage = Stage::DownDue;
                self.word_at = name.at();
                true
            }
            token => self.before_up(token),
        }
    }

    // Where `up` may come.
    fn before_up(&mut self, token: Token) -> bool
        ensures { after_before_up self.old token ≡ goes self.new result }
    {
        match token {
            Token::Word(name) if is_keyword(&name, "up") => {
                self.stage = Stage::UpDue;
                self.word_at = name.at();
                true
            }
            _ => false,
        }
    }

    // Where the list behind `down` or `up` is due.
    fn behind_word(&mut self, alloc: Global, owner: Owner, token: Token) -> bool
        ensures { after_word owner self.old token ≡ goes self.new result }
    {
        match token {
            Token::Mark(Mark::OpenSquare) => {
                self.begin_pairs(PairList::known(alloc), owner);
                true
            }
            token => {
                drop(token);
                false
            }
        }
    }

    // Goes on in a list of pairs.
    fn begin_pairs(&mut self, pairs: PairList, owner: Owner)
        ensures { self.new ≡ record self.old { stage = Stage.LinkList owner; pairs = pairs } }
    {
        drop(replace(&mut self.pairs, pairs));
        self.stage = Stage::LinkList(owner);
    }

    /// The query that was read, if it may end here.
    pub(crate) fn finish(self) -> Option<Written>
        ensures { result ≡ finish self }
    {
        drop(self.names);
        drop(self.pairs);
        match (self.stage, self.number) {
            (Stage::BehindNumber | Stage::BehindDown | Stage::BehindUp, Some(number)) => {
                Some(Written {
                    first: self.first.into_signs(),
                    path: self.path.into_signs(),
                    last: last_of(self.drop_at, self.last),
                    number,
                    down: self.down,
                    up: self.up,
                })
            }
            (_, number) => {
                drop(self.first);
                drop(self.path);
                drop(self.last);
                drop(number);
                drop(self.down);
                drop(self.up);
                None
            }
        }
    }
}

// The last header that was read, or the word in its place.
fn last_of(drop_at: Option<usize>, header: Phrase<LabelAtom>) -> Last
    ensures { result ≡ last_of drop_at header }
{
    match drop_at {
        None => Last::Header(header.into_signs()),
        Some(at) => {
            drop(header);
            Last::Dropped(at)
        }
    }
}

// Whether a name is this word, without quotation marks.
fn is_keyword(name: &Name, word: &str) -> bool
    ensures { result ≡ is_keyword name.now word.now }
{
    !name.is_quoted() && name.as_str() == word
}

// Whether a text begins a word.
fn begins(text: &str, word: &str) -> bool
    ensures { result ≡ begins text.now word.now }
{
    word.as_bytes().starts_with(text.as_bytes())
}
