//! Each path is asked all that is asked of it before the next is looked at, as the format's order of faults has it. Where
//! paths set out is kept in a set, so a path costs one look-up more than its links, whatever the number of paths.
ghost use Rattle.std.specs.Prelude.{◌≡◌, ◌++◌, ◌∷◌, [], true, OnOk, IfOk};
ghost use Rattle.std.specs.List.{list_all, list_any};
ghost use Rattle.serde_json.specs.View.{view, items_view};
ghost use Rattle.wi_net.specs.Builder.{found_or};
ghost use Rattle.wi_net.specs.Net.{is_link};
ghost use Rattle.wi_plan.specs.Plans.{is_end, sets_out};
ghost use Rattle.wi_planjson.specs.Reading.{Gives, each};
ghost use Rattle.wi_planjson.specs.Names.{ip_of};
ghost use Rattle.wi_planjson.specs.Paths.{is_free, path_rules, path_of, path_at, paths_of};
ghost use Rattle.wi_planjson.specs.Plan.{all_end};

use crate::refused::{Place, PlanRefused};
use crate::routes::{Route, are_named, first_break, first_repeat, links_in};
use crate::shape::{list, object, text};
use indexmap::IndexSet;
use serde_json::Value;
use std::alloc::Global;
use std::marker::Model;
use wi_base::{Listed, NoMemory};
use wi_labels::{Class, Label};
use wi_net::{LinkId, Network};
use wi_plan::Path;

/// Paths, no two of which have one first link and one label.
#[derive(Drop)]
pub struct Paths {
    list: Vec<Path>,
    starts: IndexSet<(u32, u32)>,
}

impl Model for Paths {
    ghost use Rattle.std.specs.Prelude.{◌≡◌, List};
    ghost use Rattle.wi_plan.specs.declared.plan.Path.{Path};
    ghost use Rattle.wi_planjson.specs.private.Starts.{starts_of};

    ghost Value = { List Path };

    ghost view = { λ p. p.list.items };

    ghost invariant = { λ p. p.starts.keys ≡ starts_of p.list.items };
}

impl Paths {
    /// No paths.
    pub fn new(alloc: Global) -> Paths
        ensures { result ≡ [] }
    {
        Paths {
            list: Vec::new(alloc),
            starts: IndexSet::new(alloc),
        }
    }

    /// The paths, in order.
    pub fn as_slice(&self) -> &[Path]
        ensures { result.now ≡ self.now }
    {
        self.list.as_slice()
    }

    // Whether a path sets out on a link with a label.
    fn has_start(&self, link: LinkId, ip: Label) -> bool
        ensures { result ≡ list_any (sets_out link ip) self.now }
    {
        self.starts.contains(&(link.0, ip.0))
    }

    /// Whether none of the paths sets out where this one does.
    pub fn is_free(&self, path: &Path) -> bool
        ensures { result ≡ is_free self.now path.now }
    {
        match path.links.as_slice().first() {
            Some(link) => !self.has_start(*link, path.ip),
            None => true,
        }
    }

    /// Whether none of the paths sets out where this one ends.
    pub fn is_end(&self, path: &Path) -> bool
        ensures { result ≡ is_end self.now path.now }
    {
        match path.links.as_slice().last() {
            Some(link) => !self.has_start(*link, path.ip),
            None => true,
        }
    }

    /// Adds a path that sets out where none does.
    pub fn push(&mut self, path: Path) -> Result<(), NoMemory>
        requires { is_free self.old path ≡ true }
        ensures { OnOk result (self.new ≡ self.old ++ path ∷ []) }
    {
        self.list.reserve(1)?;
        if let Some(link) = path.links.as_slice().first() {
            self.starts.insert((link.0, path.ip.0))?;
        }
        self.list.push_reserved(path);
        Ok(())
    }

    /// The list of the paths.
    pub fn into_list(self) -> Listed<Path>
        ensures { result ≡ self }
    {
        let Paths { list, starts } = self;
        drop(starts);
        Listed::of(list)
    }
}

/// Adds the paths of a file.
#[tactic(auto, unfolding(crate::specs::Paths::paths_of))]
pub fn read_paths(
    alloc: Global,
    net: &Network,
    paths: &mut Paths,
    file: &Value,
) -> Result<(), PlanRefused>
    requires { paths.old ≡ [] }
    ensures { Gives (λ _. paths.new) result (paths_of net.now (view file.now)) }
{
    let values = list(Place::Paths, file.get("paths"))?;
    each_path(alloc, net, paths, values)
}

fn each_path(
    alloc: Global,
    net: &Network,
    paths: &mut Paths,
    values: &[Value],
) -> Result<(), PlanRefused>
    ensures { Gives (λ _. paths.new) result (each (path_at net.now) paths.old 0 (items_view values.now)) }
{
    for (i, value) in values.iter().enumerate() {
        add_path(alloc, net, paths, i, value)?;
    }
    Ok(())
}

#[tactic(auto, unfolding(crate::specs::Paths::path_at))]
fn add_path(
    alloc: Global,
    net: &Network,
    paths: &mut Paths,
    i: usize,
    value: &Value,
) -> Result<(), PlanRefused>
    ensures { Gives (λ _. paths.new) result (path_at net.now paths.old i (view value.now)) }
{
    let path = path_of(alloc, net, i, value)?;
    match path_rules(alloc, net, paths, i, &path) {
        Ok(()) => Ok(paths.push(path)?),
        Err(refused) => {
            drop(path);
            Err(refused)
        }
    }
}

// The path that a value names.
#[tactic(auto, unfolding(crate::specs::Paths::path_of))]
fn path_of(alloc: Global, net: &Network, i: usize, value: &Value) -> Result<Path, PlanRefused>
    ensures answer { Gives (λ path. path) result (path_of net.now i (view value.now)) }
    ensures known { IfOk result (λ path. list_all (is_link net.now) path.links ≡ true) }
{
    let object = object(Place::Path(i), value)?;
    let name = text(Place::PathIp(i), object.get("ip"))?;
    let values = list(Place::PathLinks(i), object.get("links"))?;
    are_named(Route::Path(i), values)?;
    let ip = ip_at(net, Place::PathIp(i), name)?;
    let links = links_in(alloc, net, Route::Path(i), values)?;
    Ok(Path {
        ip,
        links: Listed::of(links),
    })
}

// The label of a name, which has to be one of class ip.
fn ip_at(net: &Network, place: Place, name: &str) -> Result<Label, PlanRefused>
    ensures { Gives (λ label. label) result (found_or (PlanRefused.Unknown place) (ip_of net.now name.now)) }
{
    match net.find_label(name) {
        Some(label) => match net.class(label) {
            Class::Ip => Ok(label),
            _ => Err(PlanRefused::Unknown(place)),
        },
        None => Err(PlanRefused::Unknown(place)),
    }
}

// What is asked of a path when its links and its label are known.
#[tactic(auto, unfolding(crate::specs::Paths::path_rules))]
fn path_rules(
    alloc: Global,
    net: &Network,
    paths: &Paths,
    i: usize,
    path: &Path,
) -> Result<(), PlanRefused>
    requires { list_all (is_link net.now) path.now.links ≡ true }
    ensures answer { Gives (λ u. u) result (path_rules net.now paths.now i path.now) }
    ensures free { OnOk result (is_free paths.now path.now ≡ true) }
{
    let links = path.links.as_slice();
    if links.len() < 3 {
        return Err(PlanRefused::TooShort(Place::PathLinks(i)));
    }
    if let Some(j) = first_break(net, links) {
        return Err(PlanRefused::Broken(Place::PathLink(i, j)));
    }
    if let Some(j) = first_repeat(alloc, links)? {
        return Err(PlanRefused::Repeated(Place::PathLink(i, j)));
    }
    if !paths.is_free(path) {
        return Err(PlanRefused::Taken(Place::Path(i)));
    }
    Ok(())
}

/// Refuses the first path that ends where some path sets out.
pub fn all_end(paths: &Paths) -> Result<(), PlanRefused>
    ensures { Gives (λ u. u) result (all_end paths.now) }
{
    let list = paths.as_slice();
    for (i, path) in list.iter().enumerate() {
        if !paths.is_end(path) {
            return Err(PlanRefused::Continues(Place::Path(i)));
        }
    }
    Ok(())
}
