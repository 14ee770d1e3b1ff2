//! What the builder refuses, and what it then has, by example.
ghost use Rattle.std.specs.Prelude.{◌≡◌, true};
ghost use Rattle.std.specs.List.{list_all};
ghost use Rattle.wi_labels.specs.declared.label.Class.TheVariants.{Mpls};
ghost use Rattle.wi_net.specs.Network.{is_no_later};

use crate::common::{IP1, S10, equal, groups};
use std::alloc::Global;
use std::process::Abort;
use std::test::Fail;
use wi_base::{Listed, NoMemory};
use wi_labels::{Class, Label, Op};
use wi_net::BuildRefused::{BadName, EmptyGroup, Limit, Repeated, Taken, Unknown};
use wi_net::{
    BuildRefused, Field, Limited, Link, LinkId, NameId, NetworkBuilder, RouterId, TableRow,
};
use wi_samples::{N1, Way, fill};

// Names that are refused as a second router or label.
const REFUSED_NAMES: &[(&str, BuildRefused)] = &[
    ("", BadName(Field::Name)),
    ("a\"", BadName(Field::Name)),
    ("x", Repeated),
];

fn refuses_routers(rt: &impl Abort, builder: &mut NetworkBuilder) {
    equal(rt, builder.router("x"), Ok(RouterId(0)));
    for (name, refused) in REFUSED_NAMES {
        equal(rt, builder.router(name), Err(*refused));
    }
    equal(rt, builder.router("a"), Ok(RouterId(1)));
}

fn has_two_routers(rt: &impl Abort, builder: &NetworkBuilder) {
    equal(rt, builder.router_count(), 2);
    equal(rt, builder.find_router("a"), Some(RouterId(1)));
    equal(rt, builder.find_router("a\""), None);
}

#[test]
fn a_refused_router_is_not_added(rt: HostRuntime) {
    let mut builder = NetworkBuilder::new(rt.alloc());
    refuses_routers(&rt, &mut builder);
    has_two_routers(&rt, &builder);
    drop(builder)
}

// A builder whose labels are all of class `mpls`, so that it takes one more at any time.
#[derive(Drop)]
pub(crate) struct Stacked {
    pub(crate) builder: NetworkBuilder,
    ghost all_mpls: { list_all (λ c. is_no_later c Mpls) builder.net.classes ≡ true },
}

impl Stacked {
    pub(crate) fn new(alloc: Global) -> Stacked {
        Stacked {
            builder: NetworkBuilder::new(alloc),
        }
    }

    #[tactic(auto, using(wi_net::proofs::Classes::one_later), unfolding(wi_net::specs::Builder::add_label))]
    pub(crate) fn label(&mut self, name: &str) -> Result<Label, BuildRefused> {
        self.builder.label(Class::Mpls, name)
    }

    // Lets it go.
    pub(crate) fn close(self) {
        let Stacked { builder } = self;
        drop(builder)
    }
}

fn refuses_labels(rt: &impl Abort, stacked: &mut Stacked) {
    equal(rt, stacked.label("x"), Ok(Label(0)));
    for (name, refused) in REFUSED_NAMES {
        equal(rt, stacked.label(name), Err(*refused));
    }
    equal(rt, stacked.label("31"), Ok(Label(1)));
}

fn has_two_labels(rt: &impl Abort, builder: &NetworkBuilder) {
    equal(rt, builder.label_count(), 2);
    equal(rt, builder.find_label("31"), Some(Label(1)));
    equal(rt, builder.find_label("a\""), None);
    equal(rt, builder.class(Label(1)), Some(Class::Mpls));
    equal(rt, builder.class(Label(2)), None);
}

#[test]
fn a_refused_label_is_not_added(rt: HostRuntime) {
    let mut stacked = Stacked::new(rt.alloc());
    refuses_labels(&rt, &mut stacked);
    has_two_labels(&rt, &stacked.builder);
    stacked.close()
}

// From a router by an interface to a router by one, a risk group, and why the link is refused.
type RefusedLink<'a> = (
    (&'a str, &'a str, &'a str, &'a str),
    Option<&'a str>,
    BuildRefused,
);

// Beside the links of the sample.
const REFUSED_LINKS: &[RefusedLink] = &[
    (("q", "", "q", ""), Some(""), BadName(Field::Group)),
    (("q", "", "q", ""), Some("g"), BadName(Field::Out)),
    (("q", "n", "q", ""), None, BadName(Field::In)),
    (("q", "n", "q", "m"), None, Unknown(Field::From)),
    (("x", "o", "q", "x"), None, Unknown(Field::To)),
    (("x", "o", "a", "x"), None, Taken(Field::Out)),
    (("x", "n", "a", "x"), None, Taken(Field::In)),
];

fn refuses_link(rt: &impl Abort, builder: &mut NetworkBuilder, case: &RefusedLink) {
    let ((from, out, to, into), group, refused) = *case;
    equal(
        rt,
        builder.link(from, out, to, into, 7, group),
        Err(refused),
    );
}

fn refuses_links(rt: &impl Abort, builder: &mut NetworkBuilder) {
    for case in REFUSED_LINKS {
        refuses_link(rt, builder, case);
    }
    equal(
        rt,
        builder.link("y", "m", "a", "y", 7, Some("g")),
        Ok(LinkId(5)),
    );
}

// The interfaces o, x, b, a, c and y have numbers before m.
const SIXTH: Link = Link {
    from: RouterId(4),
    out_if: NameId(6),
    to: RouterId(1),
    in_if: NameId(5),
    distance: 7,
    risk: LinkId(5),
};

fn has_six_links(rt: &impl Abort, builder: &NetworkBuilder) {
    equal(rt, builder.link_count(), 6);
    equal(rt, builder.link_at(LinkId(5)), Some(SIXTH));
    equal(rt, builder.link_at(LinkId(6)), None);
}

fn finds_the_sixth(rt: &impl Abort, builder: &NetworkBuilder) {
    equal(rt, builder.find_out(RouterId(4), "m"), Some(LinkId(5)));
    equal(rt, builder.find_out(RouterId(4), "y"), None);
    equal(rt, builder.find_in(RouterId(1), "y"), Some(LinkId(5)));
    equal(rt, builder.find_in(RouterId(1), "m"), None);
}

// A builder with the sample in it, and what it is asked.
fn with_sample(alloc: Global, builder: &mut NetworkBuilder) -> Result<(), BuildRefused>
    requires { list_all (λ c. is_no_later c Mpls) builder.old.net.classes ≡ true }
{
    fill(alloc, builder, &N1)
}

#[test]
fn a_refused_link_is_not_added(rt: HostRuntime) {
    let mut builder = NetworkBuilder::new(rt.alloc());
    equal(&rt, with_sample(rt.alloc(), &mut builder), Ok(()));
    refuses_links(&rt, &mut builder);
    has_six_links(&rt, &builder);
    finds_the_sixth(&rt, &builder);
    drop(builder)
}

// A link and a label, groups of members, and what is answered.
type Tabled<'a> = ((u32, Label), &'a [&'a [Way<'a>]], Result<(), BuildRefused>);

const NINE: &[Op] = &[Op::Pop; 9];

const UNKNOWN: &[Op] = &[Op::Pop, Op::Push(Label(3), Class::Mpls)];

const MISPLACED: &[Op] = &[Op::Swap(S10, Class::Mpls)];

// Link 2 reaches c, which only link 3 leaves. The last but one has a good group, one without members, and one whose link isn't
// there.
const TABLED: &[Tabled] = &[
    ((5, Label(3)), &[&[(9, NINE)]], Err(Unknown(Field::In))),
    ((0, Label(3)), &[&[(9, NINE)]], Err(Unknown(Field::Name))),
    ((0, IP1), &[&[(9, NINE)]], Err(Repeated)),
    ((2, S10), &[&[(9, NINE)]], Err(Unknown(Field::Out))),
    ((2, S10), &[&[(4, NINE)]], Err(Unknown(Field::Out))),
    (
        (2, S10),
        &[&[(3, NINE)]],
        Err(Limit(Limited::Operations, 8)),
    ),
    ((2, S10), &[&[(3, UNKNOWN)]], Err(Unknown(Field::Name))),
    ((2, S10), &[&[(3, MISPLACED)]], Err(Unknown(Field::Name))),
    ((2, S10), &[&[(3, &[])], &[], &[(9, &[])]], Err(EmptyGroup)),
    ((2, S10), &[&[(3, &[]), (4, &[])]], Err(Unknown(Field::Out))),
];

const TAKEN: Tabled = ((2, S10), &[&[(3, &[Op::Pop; 8])]], Ok(()));

pub(crate) fn answers(
    rt: &impl Abort,
    alloc: Global,
    builder: &mut NetworkBuilder,
    case: &Tabled,
) -> Result<(), Fail> {
    let ((link, top), ways, answer) = *case;
    let groups = groups(alloc, ways)?;
    equal(rt, builder.table(LinkId(link), top, groups), answer);
    Ok(())
}

fn answers_each(rt: &impl Abort, alloc: Global, builder: &mut NetworkBuilder) -> Result<(), Fail> {
    for case in TABLED {
        answers(rt, alloc, builder, case)?;
    }
    Ok(())
}

fn has_rows(rt: &impl Abort, builder: &NetworkBuilder, rows: usize, members: usize, last: bool) {
    equal(rt, builder.row_count(), rows);
    equal(rt, builder.member_count(), members);
    equal(rt, builder.has_row(LinkId(2), S10), last);
}

fn refuses_and_takes(
    rt: &impl Abort,
    alloc: Global,
    builder: &mut NetworkBuilder,
) -> Result<(), Fail> {
    answers_each(rt, alloc, builder)?;
    has_rows(rt, builder, 4, 5, false);
    answers(rt, alloc, builder, &TAKEN)?;
    has_rows(rt, builder, 5, 6, true);
    Ok(())
}

#[test]
fn a_refused_row_is_not_added(rt: HostRuntime) -> Result<(), Fail> {
    let mut builder = NetworkBuilder::new(rt.alloc());
    equal(&rt, with_sample(rt.alloc(), &mut builder), Ok(()));
    let answered = refuses_and_takes(&rt, rt.alloc(), &mut builder);
    drop(builder);
    answered
}

// A row without groups, put by the call whose rules the caller checks.
#[tactic(auto, unfolding(wi_net::specs::Builder::add_table))]
fn put_bare(
    alloc: Global,
    builder: &mut NetworkBuilder,
    link: LinkId,
    label: Label,
) -> Result<bool, NoMemory> {
    if builder.row_count() >= 200000 || builder.link_at(link).is_none() {
        return Ok(false);
    }
    if label.0 as usize >= builder.label_count() || builder.has_row(link, label) {
        return Ok(false);
    }
    let row = TableRow {
        link,
        label,
        groups: Listed::of(Vec::new(alloc)),
    };
    builder.row(row, builder.member_count())?;
    Ok(true)
}

fn puts_a_row(rt: &impl Abort, alloc: Global, builder: &mut NetworkBuilder) {
    equal(rt, put_bare(alloc, builder, LinkId(2), S10), Ok(true));
    equal(rt, put_bare(alloc, builder, LinkId(2), S10), Ok(false));
}

#[test]
fn a_checked_row_is_added(rt: HostRuntime) {
    let mut builder = NetworkBuilder::new(rt.alloc());
    equal(&rt, with_sample(rt.alloc(), &mut builder), Ok(()));
    puts_a_row(&rt, rt.alloc(), &mut builder);
    has_rows(&rt, &builder, 5, 5, true);
    drop(builder)
}
