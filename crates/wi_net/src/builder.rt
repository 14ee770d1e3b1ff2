//! A network is built part by part by one type, so that the rules of a network stand in one place whoever builds it: a call
//! keeps them or is refused with nothing changed. Each call costs a look-up of the names that it is given; `finish` goes over
//! the links once.
ghost use Rattle.std.specs.Prelude.{◌≡◌, ◌+◌, ◌<◌, ◌≤◌, true, None, Ok, length, slice_get, position, is_some, option_map, string_bytes, vec_len, vec_capacity, IfOk, IfSome, OnOk, OnErr};
ghost use Rattle.std.specs.List.{list_all};
ghost use Rattle.wi_net.specs.Names.{is_name};
ghost use Rattle.wi_net.specs.Tables.{is_row, row_members, group_members};
ghost use Rattle.wi_net.specs.Finding.{find_router, find_label, out_place, in_place, find_out, find_in};
ghost use Rattle.wi_net.specs.Network.{IsNetwork, is_no_later};
ghost use Rattle.wi_net.specs.private.Network.{groups_of};
ghost use Rattle.wi_net.specs.Builder.{empty, links_alone, add_router, add_label, link_ends, add_link, add_table, first_in, named_with, firsts_with, with_row, is_group_name, Gives};
ghost use Rattle.wi_net.specs.private.Builder.{IsDraft};

use crate::limits::{LABEL_LIMIT, LINK_LIMIT, MEMBER_LIMIT, ROUTER_LIMIT, ROW_LIMIT};
use crate::links::Links;
use crate::names::Names;
use crate::network::Network;
use crate::parts::{Group, Link, LinkId, NameId, RouterId, TableRow};
use crate::refused::{BuildRefused, Field, Limited};
use crate::risk_groups::RiskGroups;
use crate::table::groups_total;
use crate::tables::Tables;
use std::alloc::Global;
use std::marker::Model;
use wi_base::{Listed, NoMemory};
use wi_labels::{Class, Label};
use wi_text::are_name_bytes;

/// A network that is being built, part by part. A call that is refused changes nothing.
#[derive(Drop)]
pub struct NetworkBuilder {
    routers: Names,
    labels: Names,
    classes: Vec<Class>,
    interfaces: Names,
    links: Links,
    tables: Tables,
    named: Names,
    firsts: Vec<LinkId>,
}

impl Model for NetworkBuilder {
    ghost use Rattle.wi_net.specs.Builder.{Draft};
    ghost use Rattle.wi_net.specs.private.Builder.{IsDraft};

    ghost Value = { Draft };

    ghost view = { λ b. record { net = record { routers = b.routers.0; labels = b.labels.0; classes = b.classes.items; interfaces = b.interfaces.0; links = b.links.0; rows = b.tables }; named = b.named.0; firsts = b.firsts.items } };

    ghost invariant = { λ b. IsDraft (record { net = record { routers = b.routers.0; labels = b.labels.0; classes = b.classes.items; interfaces = b.interfaces.0; links = b.links.0; rows = b.tables }; named = b.named.0; firsts = b.firsts.items }) };
}

impl NetworkBuilder {
    /// The network with nothing in it.
    pub fn new(alloc: Global) -> NetworkBuilder
        ensures { result ≡ empty }
    {
        NetworkBuilder {
            routers: Names::new(alloc),
            labels: Names::new(alloc),
            classes: Vec::new(alloc),
            interfaces: Names::new(alloc),
            links: Links::new(alloc),
            tables: Tables::new(alloc),
            named: Names::new(alloc),
            firsts: Vec::new(alloc),
        }
    }

    /// A network's routers and links, with no label and no table. Its risk groups have no names here: a link that is added
    /// joins none of them. It costs a copy of all names and links.
    pub fn over(network: &Network) -> Result<NetworkBuilder, NoMemory>
        ensures { IfOk result (λ builder. builder ≡ links_alone network.now) }
    {
        network.keeps();
        let alloc = *network.classes.allocator();
        let routers = network.routers.twin()?;
        let interfaces = network.interfaces.twin()?;
        let links = network.links.twin()?;
        Ok(NetworkBuilder {
            routers,
            labels: Names::new(alloc),
            classes: Vec::new(alloc),
            interfaces,
            links,
            tables: Tables::new(alloc),
            named: Names::new(alloc),
            firsts: Vec::new(alloc),
        })
    }

    /// The network.
    pub fn finish(self) -> Result<Network, NoMemory>
        ensures { IfOk result (λ network. network ≡ self.net) }
    {
        let alloc = *self.firsts.allocator();
        match RiskGroups::of(alloc, self.links.as_slice()) {
            Ok(risk_groups) => Ok(self.indexed(risk_groups)),
            Err(refused) => {
                drop(self);
                Err(refused)
            }
        }
    }

    // The network with the index from a risk group to its links. What only building needs is let go.
    fn indexed(self, risk_groups: RiskGroups) -> Network
        requires { risk_groups ≡ groups_of self.net.links }
        ensures { result ≡ self.net }
    {
        let NetworkBuilder {
            routers,
            labels,
            classes,
            interfaces,
            links,
            tables,
            named,
            firsts,
        } = self;
        drop(named);
        drop(firsts);
        Network {
            routers,
            labels,
            classes,
            interfaces,
            links,
            tables,
            risk_groups,
        }
    }

    /// Adds a router. It may be refused by `Limit`, `BadName`, `Repeated`: the first of them in this order.
    #[tactic(auto, unfolding(crate::specs::Builder::add_router))]
    pub fn router(&mut self, name: &str) -> Result<RouterId, BuildRefused>
        ensures answer { Gives (λ _. self.new) result (add_router self.old name.now) }
        ensures number { IfOk result (λ r. r.0 ≡ length self.old.net.routers) }
        ensures err { OnErr result (self.new ≡ self.old) }
    {
        let number = self.routers.len();
        if number >= ROUTER_LIMIT as usize {
            return Err(BuildRefused::Limit(Limited::Routers, ROUTER_LIMIT));
        }
        if !is_name(name) {
            return Err(BuildRefused::BadName(Field::Name));
        }
        if self.routers.find(name).is_some() {
            return Err(BuildRefused::Repeated);
        }
        self.routers.add(name)?;
        Ok(RouterId(number as u32))
    }

    /// Adds a label: those of class `mpls` first, then `smpls`, then `ip`. It may be refused by `Limit`, `BadName`,
    /// `Repeated`: the first of them in this order. A name is unique over all classes.
    #[tactic(auto, unfolding(crate::specs::Builder::add_label))]
    pub fn label(&mut self, class: Class, name: &str) -> Result<Label, BuildRefused>
        requires { list_all (λ c. is_no_later c class) self.old.net.classes ≡ true }
        ensures answer { Gives (λ _. self.new) result (add_label self.old class name.now) }
        ensures number { IfOk result (λ l. l.0 ≡ length self.old.net.labels) }
        ensures err { OnErr result (self.new ≡ self.old) }
    {
        let number = self.labels.len();
        if number >= LABEL_LIMIT as usize {
            return Err(BuildRefused::Limit(Limited::Labels, LABEL_LIMIT));
        }
        if !is_name(name) {
            return Err(BuildRefused::BadName(Field::Name));
        }
        if self.labels.find(name).is_some() {
            return Err(BuildRefused::Repeated);
        }
        self.classes.reserve(1)?;
        self.labels.add(name)?;
        self.classes.push_reserved(class);
        Ok(Label(number as u32))
    }

    // The routers of a new link.
    #[tactic(auto, unfolding(crate::specs::Builder::link_ends))]
    fn link_ends(
        &self,
        from: &str,
        out_if: &str,
        to: &str,
        in_if: &str,
        group: Option<&str>,
    ) -> Result<(RouterId, RouterId), BuildRefused>
        ensures answer { Gives (λ ends. ends) result (link_ends self.now from.now out_if.now to.now in_if.now (option_map (λ s. s.now) group.entry)) }
        ensures free_out { IfOk result (λ ends. out_place self.now.net ends.0 out_if.now ≡ None) }
        ensures free_in { IfOk result (λ ends. in_place self.now.net ends.1 in_if.now ≡ None) }
        ensures room { OnOk result (length self.now.net.links < LINK_LIMIT) }
    {
        if self.links.len() >= LINK_LIMIT as usize {
            return Err(BuildRefused::Limit(Limited::Links, LINK_LIMIT));
        }
        if !is_group_name(group) {
            return Err(BuildRefused::BadName(Field::Group));
        }
        if !is_name(out_if) {
            return Err(BuildRefused::BadName(Field::Out));
        }
        if !is_name(in_if) {
            return Err(BuildRefused::BadName(Field::In));
        }
        let Some(from) = self.find_router(from) else {
            return Err(BuildRefused::Unknown(Field::From));
        };
        let Some(to) = self.find_router(to) else {
            return Err(BuildRefused::Unknown(Field::To));
        };
        if self.out_place(from, out_if).is_some() {
            return Err(BuildRefused::Taken(Field::Out));
        }
        if self.in_place(to, in_if).is_some() {
            return Err(BuildRefused::Taken(Field::In));
        }
        Ok((from, to))
    }

    /// Adds a link from an out interface of a router to an in interface of one. Links that name one `group` fail together;
    /// a link that names none is alone in its risk group. It may be refused by `Limit`, by `BadName` of the group, the out
    /// or the in interface, by `Unknown` of `from` or `to`, by `Taken` of the out or the in interface: the first in this
    /// order.
    #[tactic(auto, unfolding(crate::specs::Builder::add_link))]
    pub fn link(
        &mut self,
        from: &str,
        out_if: &str,
        to: &str,
        in_if: &str,
        distance: u32,
        group: Option<&str>,
    ) -> Result<LinkId, BuildRefused>
        ensures answer { Gives (λ _. self.new) result (add_link self.old from.now out_if.now to.now in_if.now distance (option_map (λ s. s.now) group.entry)) }
        ensures number { IfOk result (λ e. e.0 ≡ length self.old.net.links) }
        ensures err { OnErr result (self.new ≡ self.old) }
    {
        let (from, to) = self.link_ends(from, out_if, to, in_if, group)?;
        let alloc = *self.firsts.allocator();
        let out_text = text_of(alloc, out_if)?;
        let in_text = text_of(alloc, in_if)?;
        let group_text = group_text_of(alloc, group)?;
        self.interfaces.reserve(2)?;
        self.links.reserve()?;
        self.named.reserve(1)?;
        self.firsts.reserve(1)?;
        let number = LinkId(self.links.len() as u32);
        let out_if = NameId(self.interfaces.put(out_text) as u32);
        let in_if = NameId(self.interfaces.put(in_text) as u32);
        let risk = put_group(&mut self.named, &mut self.firsts, group_text, number);
        self.links.put(Link {
            from,
            out_if,
            to,
            in_if,
            distance,
            risk,
        });
        Ok(number)
    }

    /// Adds what the tables say of an arrival link and a top label. It may be refused by `Limit` of rows, by `Unknown` of the
    /// link (`In`) or the label (`Name`), by `Repeated`; then group by group by `EmptyGroup`, and member by member by `Limit`
    /// of members, by `Unknown` of its link (`Out`), by `Limit` of operations, by `Unknown` of a label or its class (`Name`):
    /// the first in this order.
    #[tactic(auto, unfolding(crate::specs::Builder::add_table))]
    pub fn table(
        &mut self,
        link: LinkId,
        label: Label,
        groups: Vec<Group>,
    ) -> Result<(), BuildRefused>
        ensures answer { Gives (λ _. self.new) result (add_table self.old link label groups.items) }
        ensures err { OnErr result (self.new ≡ self.old) }
    {
        if self.row_count() >= ROW_LIMIT as usize {
            return Err(BuildRefused::Limit(Limited::Rows, ROW_LIMIT));
        }
        let Some(found) = self.link_at(link) else {
            return Err(BuildRefused::Unknown(Field::In));
        };
        if label.0 as usize >= self.label_count() {
            return Err(BuildRefused::Unknown(Field::Name));
        }
        if self.has_row(link, label) {
            return Err(BuildRefused::Repeated);
        }
        let members = groups_total(self, found.to, self.member_count(), groups.as_slice())?;
        let row = TableRow {
            link,
            label,
            groups: Listed::of(groups),
        };
        self.row(row, members)?;
        Ok(())
    }

    /// Adds a row whose rules the caller has checked, as `table` does; there are then so many members.
    pub fn row(&mut self, row: TableRow, members: usize) -> Result<(), NoMemory>
        requires rules { add_table self.old row.link row.label row.groups ≡ Ok (with_row self.old row) }
        requires counted { members ≡ row_members self.old.net.rows + group_members row.groups }
        ensures ok { OnOk result (self.new ≡ with_row self.old row) }
        ensures err { OnErr result (self.new ≡ self.old) }
    {
        self.tables.add(row, members)?;
        Ok(())
    }

    /// The router of a name.
    pub fn find_router(&self, name: &str) -> Option<RouterId>
        ensures { result ≡ find_router self.now.net name.now }
    {
        match self.routers.find(name) {
            Some(number) => Some(RouterId(number as u32)),
            None => None,
        }
    }

    /// The label of a name.
    pub fn find_label(&self, name: &str) -> Option<Label>
        ensures { result ≡ find_label self.now.net name.now }
    {
        match self.labels.find(name) {
            Some(number) => Some(Label(number as u32)),
            None => None,
        }
    }

    /// The class of a label, if it is there.
    pub fn class(&self, label: Label) -> Option<Class>
        ensures { result ≡ slice_get self.now.net.classes label.0 }
    {
        self.classes.get(label.0 as usize).copied()
    }

    /// The link of a number, if it is there.
    pub fn link_at(&self, link: LinkId) -> Option<Link>
        ensures { result ≡ slice_get self.now.net.links link.0 }
    {
        self.links.at(link.0 as usize)
    }

    // The number of the link that leaves a router by an interface.
    fn out_place(&self, router: RouterId, interface: &str) -> Option<usize>
        ensures value { result ≡ out_place self.now.net router interface.now }
        ensures few { IfSome result (λ n. n < LINK_LIMIT) }
    {
        match self.interfaces.find(interface) {
            Some(number) => self.links.find_out(router, NameId(number as u32)),
            None => None,
        }
    }

    // The number of the link that reaches a router by an interface.
    fn in_place(&self, router: RouterId, interface: &str) -> Option<usize>
        ensures value { result ≡ in_place self.now.net router interface.now }
        ensures few { IfSome result (λ n. n < LINK_LIMIT) }
    {
        match self.interfaces.find(interface) {
            Some(number) => self.links.find_in(router, NameId(number as u32)),
            None => None,
        }
    }

    /// The link that leaves a router by an interface.
    pub fn find_out(&self, router: RouterId, interface: &str) -> Option<LinkId>
        ensures { result ≡ find_out self.now.net router interface.now }
    {
        match self.out_place(router, interface) {
            Some(number) => Some(LinkId(number as u32)),
            None => None,
        }
    }

    /// The link that reaches a router by an interface.
    pub fn find_in(&self, router: RouterId, interface: &str) -> Option<LinkId>
        ensures { result ≡ find_in self.now.net router interface.now }
    {
        match self.in_place(router, interface) {
            Some(number) => Some(LinkId(number as u32)),
            None => None,
        }
    }

    /// Whether a link and a label have a row.
    pub fn has_row(&self, link: LinkId, label: Label) -> bool
        ensures { result ≡ is_some (position (is_row link label) self.now.net.rows) }
    {
        self.tables.find(link, label).is_some()
    }

    /// How many routers there are.
    pub fn router_count(&self) -> usize
        ensures count { result ≡ length self.now.net.routers }
        ensures few { result ≤ ROUTER_LIMIT }
    {
        self.routers.len()
    }

    /// How many labels there are.
    pub fn label_count(&self) -> usize
        ensures count { result ≡ length self.now.net.labels }
        ensures few { result ≤ LABEL_LIMIT }
    {
        self.labels.len()
    }

    /// How many links there are.
    pub fn link_count(&self) -> usize
        ensures count { result ≡ length self.now.net.links }
        ensures few { result ≤ LINK_LIMIT }
    {
        self.links.len()
    }

    /// How many rows there are.
    pub fn row_count(&self) -> usize
        ensures count { result ≡ length self.now.net.rows }
        ensures few { result ≤ ROW_LIMIT }
    {
        self.tables.len()
    }

    /// How many members all rows have.
    pub fn member_count(&self) -> usize
        ensures count { result ≡ row_members self.now.net.rows }
        ensures few { result ≤ MEMBER_LIMIT }
    {
        self.tables.member_count()
    }
}

fn text_of(alloc: Global, text: &str) -> Result<String, NoMemory>
    ensures { IfOk result (λ s. string_bytes s ≡ text.now) }
{
    Ok(String::from_str(alloc, text)?)
}

fn group_text_of(alloc: Global, group: Option<&str>) -> Result<Option<String>, NoMemory>
    ensures { IfOk result (λ o. option_map string_bytes o ≡ option_map (λ s. s.now) group.entry) }
{
    match group {
        Some(group) => Ok(Some(text_of(alloc, group)?)),
        None => Ok(None),
    }
}

// Puts the name of a risk group, unless it is there, and gives the group's first link.
fn put_group(
    named: &mut Names,
    firsts: &mut Vec<LinkId>,
    group: Option<String>,
    link: LinkId,
) -> LinkId
    requires room { 0 < named.old.1 }
    requires capacity { vec_len firsts.old < vec_capacity firsts.old }
    ensures first { result ≡ first_in named.old.0 firsts.old.items link (option_map string_bytes group) }
    ensures named { named.new.0 ≡ named_with named.old.0 (option_map string_bytes group) }
    ensures firsts { firsts.new.items ≡ firsts_with named.old.0 firsts.old.items link (option_map string_bytes group) }
{
    match group {
        None => link,
        Some(text) => match named.find(text.as_str()) {
            Some(i) => match firsts.get(i) {
                Some(first) => *first,
                None => link,
            },
            None => {
                let _number = named.put(text);
                firsts.push_reserved(link);
                link
            }
        },
    }
}

fn is_group_name(group: Option<&str>) -> bool
    ensures { result ≡ is_group_name (option_map (λ s. s.now) group.entry) }
{
    match group {
        Some(group) => is_name(group),
        None => true,
    }
}

/// Whether a text is a name: 1 to 32 bytes, and neither a control character nor a quotation mark.
pub fn is_name(name: &str) -> bool
    ensures { result ≡ is_name name.now }
{
    1 <= name.len() && (name.len() <= 32 && are_name_bytes(name.as_bytes()))
}
