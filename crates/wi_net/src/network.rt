//! A finished network never changes, so what is asked often is indexed: entries, ends and names are one look-up each, and a
//! union of risk groups costs in its own size, not in the number of links.
ghost use Rattle.std.specs.Prelude.{◌≡◌, ◌<◌, Some, length, slice_get, option_map, IfOk, IfSome};
ghost use Rattle.wi_net.specs.Names.{place};
ghost use Rattle.wi_net.specs.Tables.{all_members, members_before, row_members};
ghost use Rattle.wi_net.specs.Net.{is_link, risk_of, risk_count, widened, before, entry};
ghost use Rattle.wi_net.specs.Finding.{find_router, find_label, find_out, find_in};
ghost use Rattle.wi_net.specs.Network.{IsNetwork, HasEnds};

use crate::fails::FailSet;
use crate::links::Links;
use crate::names::Names;
use crate::parts::{Group, Link, LinkId, Member, NameId, RouterId};
use crate::risk_groups::{RiskGroups, count_in, risk_in, union_before, union_of};
use crate::tables::Tables;
use std::alloc::Global;
use std::marker::Model;
use wi_base::NoMemory;
use wi_labels::{Class, Label};

/// How many there are of each part of a network.
#[derive(Clone, Copy, PartialEq, Eq, Debug)]
pub struct Counts {
    pub routers: u32,
    pub links: u32,
    pub labels: u32,
    pub rows: u32,
    pub members: u32,
}

/// A network. Its parts are numbered from 0 in the order in which they were added; members over all rows.
#[derive(Drop)]
pub struct Network {
    pub(crate) routers: Names,
    pub(crate) labels: Names,
    pub(crate) classes: Vec<Class>,
    pub(crate) interfaces: Names,
    pub(crate) links: Links,
    pub(crate) tables: Tables,
    pub(crate) risk_groups: RiskGroups,
}

impl Model for Network {
    ghost use Rattle.std.specs.Prelude.{◌≡◌};
    ghost use Rattle.wi_net.specs.Net.{Net};
    ghost use Rattle.wi_net.specs.Network.{IsNetwork};
    ghost use Rattle.wi_net.specs.private.Network.{groups_of, IsIndexed};

    ghost Value = { Net };

    ghost view = { λ n. record { routers = n.routers.0; labels = n.labels.0; classes = n.classes.items; interfaces = n.interfaces.0; links = n.links.0; rows = n.tables } };

    ghost invariant = { λ n. IsIndexed (record { routers = n.routers.0; labels = n.labels.0; classes = n.classes.items; interfaces = n.interfaces.0; links = n.links.0; rows = n.tables }) n.risk_groups };
}

impl Network {
    /// What every network keeps: names that are unique, links between routers that are there, tables whose members leave
    /// the right router.
    pub fn keeps(&self)
        ensures { IsNetwork self.now }
    {
        let _links = &self.links;
    }

    /// How many there are of each part. It takes no memory.
    pub fn counts(&self) -> Counts
        ensures routers { result.routers ≡ length self.now.routers }
        ensures links { result.links ≡ length self.now.links }
        ensures labels { result.labels ≡ length self.now.labels }
        ensures rows { result.rows ≡ length self.now.rows }
        ensures members { result.members ≡ row_members self.now.rows }
    {
        Counts {
            routers: self.routers.len() as u32,
            links: self.links.len() as u32,
            labels: self.labels.len() as u32,
            rows: self.tables.len() as u32,
            members: self.tables.member_count() as u32,
        }
    }

    /// The link of a number. It takes no memory.
    pub fn link(&self, link: LinkId) -> &Link
        requires { link.0 < length self.now.links }
        ensures value { slice_get self.now.links link.0 ≡ Some result.now }
        ensures ends { HasEnds self.now result.now }
    {
        self.links.get(link.0 as usize)
    }

    /// The class of a label. It takes no memory.
    pub fn class(&self, label: Label) -> Class
        requires { label.0 < length self.now.labels }
        ensures { slice_get self.now.classes label.0 ≡ Some result }
    {
        self.classes[label.0 as usize]
    }

    /// The member of a number. It takes no memory.
    pub fn member(&self, number: u32) -> &Member
        requires { number < row_members self.now.rows }
        ensures { slice_get (all_members self.now.rows) number ≡ Some result.now }
    {
        self.tables.member(number as usize)
    }

    /// The link and the label of a row. It takes no memory.
    pub fn row(&self, row: u32) -> (LinkId, Label)
        requires { row < length self.now.rows }
        ensures { option_map (λ r. (r.link, r.label)) (slice_get self.now.rows row) ≡ Some result }
    {
        let found = self.tables.at(row as usize);
        (found.link, found.label)
    }

    /// The name of a router. It takes no memory.
    pub fn router_name(&self, router: RouterId) -> &str
        requires { router.0 < length self.now.routers }
        ensures { slice_get self.now.routers router.0 ≡ Some result.now }
    {
        self.routers.get(router.0 as usize)
    }

    /// The name of a label. It takes no memory.
    pub fn label_name(&self, label: Label) -> &str
        requires { label.0 < length self.now.labels }
        ensures { slice_get self.now.labels label.0 ≡ Some result.now }
    {
        self.labels.get(label.0 as usize)
    }

    /// The name of an interface. It takes no memory.
    pub fn interface_name(&self, interface: NameId) -> &str
        requires { interface.0 < length self.now.interfaces }
        ensures { slice_get self.now.interfaces interface.0 ≡ Some result.now }
    {
        self.interfaces.get(interface.0 as usize)
    }

    /// The router of a name. It takes no memory.
    pub fn find_router(&self, name: &str) -> Option<RouterId>
        ensures value { result ≡ find_router self.now name.now }
        ensures within { IfSome result (λ r. r.0 < length self.now.routers) }
    {
        match self.routers.find(name) {
            Some(number) => Some(RouterId(number as u32)),
            None => None,
        }
    }

    /// The label of a name. It takes no memory.
    pub fn find_label(&self, name: &str) -> Option<Label>
        ensures value { result ≡ find_label self.now name.now }
        ensures within { IfSome result (λ l. l.0 < length self.now.labels) }
    {
        match self.labels.find(name) {
            Some(number) => Some(Label(number as u32)),
            None => None,
        }
    }

    /// The link that leaves a router by an interface. It takes no memory.
    pub fn find_out(&self, router: RouterId, interface: &str) -> Option<LinkId>
        ensures value { result ≡ find_out self.now router interface.now }
        ensures within { IfSome result (λ e. e.0 < length self.now.links) }
    {
        let name = self.interfaces.find(interface)?;
        match self.links.find_out(router, NameId(name as u32)) {
            Some(number) => Some(LinkId(number as u32)),
            None => None,
        }
    }

    /// The link that reaches a router by an interface. It takes no memory.
    pub fn find_in(&self, router: RouterId, interface: &str) -> Option<LinkId>
        ensures value { result ≡ find_in self.now router interface.now }
        ensures within { IfSome result (λ e. e.0 < length self.now.links) }
    {
        let name = self.interfaces.find(interface)?;
        match self.links.find_in(router, NameId(name as u32)) {
            Some(number) => Some(LinkId(number as u32)),
            None => None,
        }
    }

    /// What the tables say of an arrival link and a top label: groups, the first of highest priority; none where there is
    /// no such row. It is one look-up, and takes no memory.
    pub fn entry(&self, link: LinkId, top: Label) -> &[Group]
        ensures { result.now ≡ entry self.now link top }
    {
        self.tables.groups(link, top)
    }

    /// The number of the first member of an entry; where there is none, the number of all members. It takes no memory.
    pub fn first_member(&self, link: LinkId, top: Label) -> u32
        ensures { result ≡ members_before self.now.rows link top }
    {
        self.tables.members_before(link, top) as u32
    }

    /// The least link of a link's risk group. A link that the network hasn't is alone in its group. It takes no memory.
    pub fn risk(&self, link: LinkId) -> LinkId
        ensures { result ≡ risk_of self.now link }
    {
        risk_in(self.links.as_slice(), link)
    }

    /// How many risk groups there are in a set that is a union of them. It takes no memory.
    pub fn count(&self, fails: &FailSet) -> usize
        ensures { result ≡ risk_count self.now fails.now }
    {
        count_in(self.links.as_slice(), fails.as_slice())
    }

    /// The least union of risk groups around a set. It costs in the size of the two sets.
    pub fn widen(&self, alloc: Global, fails: &FailSet) -> Result<FailSet, NoMemory>
        ensures { IfOk result (λ s. s ≡ widened self.now fails.now) }
    {
        union_of(
            alloc,
            &self.risk_groups,
            self.links.as_slice(),
            fails.as_slice(),
        )
    }

    /// The least union of risk groups that has the links of the groups before one: of all, where there are no more.
    pub fn links_before(
        &self,
        alloc: Global,
        groups: &[Group],
        j: usize,
    ) -> Result<FailSet, NoMemory>
        ensures { IfOk result (λ s. s ≡ before self.now groups.now j) }
    {
        union_before(alloc, &self.risk_groups, self.links.as_slice(), groups, j)
    }
}
