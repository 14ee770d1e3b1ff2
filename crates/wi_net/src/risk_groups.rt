//! From a risk group to its links there is an index, made once: without it each union of risk groups would go over all links
//! of the network, and searches ask for many. It takes a number for each link and a list for each risk group.
ghost use Rattle.std.specs.Prelude.{◌≡◌, ◌<◌, ◌^◌, ◌==◌, [], true, nat_lt, length, slice_get, slice_set, map, take, IfOk, OnOk};
ghost use Rattle.std.specs.List.{filter, list_all, list_any, range_with_len};
ghost use Rattle.wi_net.specs.LinkSet.{has, with_link, numbers_where, risk_in, same_risk_in};
ghost use Rattle.wi_net.specs.RiskGroups.{union};
ghost use Rattle.wi_net.specs.private.RiskGroups.{with_risks, with_group_risks, named_by, gathered};
ghost use Rattle.wi_net.specs.private.Network.{groups_of};

use crate::fails::FailSet;
use crate::parts::{Group, Link, LinkId, Member};
use std::alloc::{AllocError, Global};
use std::marker::Model;
use wi_base::NoMemory;

/// For each link the links of the risk group that it names: none, unless it is the least of its own group.
#[derive(Drop)]
pub struct RiskGroups {
    groups: Vec<FailSet>,
}

impl Model for RiskGroups {
    ghost use Rattle.std.specs.Prelude.{List};
    ghost use Rattle.wi_net.specs.declared.parts.LinkId.{LinkId};

    ghost Value = { List (List LinkId) };

    ghost view = { λ r. r.groups.items };
}

impl RiskGroups {
    /// The risk groups of links, each of which names one of them.
    #[tactic(auto, using(crate::proofs::IndexLemmas::index_laws))]
    pub fn of(alloc: Global, links: &[Link]) -> Result<RiskGroups, NoMemory>
        requires few { length links.now < 2 ^ 32 }
        requires within { list_all (λ l. nat_lt l.risk.0 (length links.now)) links.now ≡ true }
        ensures { IfOk result (λ groups. groups ≡ groups_of links.now) }
    {
        let mut groups = no_groups(alloc, links.len())?;
        for i in 0..links.len() {
            let link = LinkId(i as u32);
            put(&mut groups, risk_in(links, link), link)?;
        }
        Ok(RiskGroups { groups })
    }

    // Adds the links of the risk group that a link names.
    fn add_to(&self, set: &mut FailSet, risk: LinkId) -> Result<(), NoMemory>
        ensures { OnOk result (set.new ≡ union set.old (named_by self.now risk)) }
    {
        match self.groups.get(risk.0 as usize) {
            Some(group) => insert_each(set, group.as_slice()),
            None => Ok(()),
        }
    }
}

// So many empty sets.
fn no_groups(alloc: Global, count: usize) -> Result<Vec<FailSet>, AllocError>
    ensures { IfOk result (λ groups. groups.items ≡ map (λ i. []) (range_with_len 0 count)) }
{
    (0..count).map(|_| FailSet::new(alloc)).collect(alloc)
}

// Puts a link into the risk group that another names.
fn put(groups: &mut Vec<FailSet>, risk: LinkId, link: LinkId) -> Result<(), NoMemory>
    requires { risk.0 < length groups.old.items }
    ensures { OnOk result (groups.new.items ≡ slice_set groups.old.items risk.0 (with_link (named_by groups.old.items risk) link)) }
{
    let group = &mut groups[risk.0 as usize];
    group.insert(link)?;
    Ok(())
}

fn insert_each(set: &mut FailSet, links: &[LinkId]) -> Result<(), NoMemory>
    ensures { OnOk result (set.new ≡ union set.old links.now) }
{
    for link in links {
        set.insert(*link)?;
    }
    Ok(())
}

/// The least link of a link's risk group.
pub fn risk_in(links: &[Link], link: LinkId) -> LinkId
    ensures { result ≡ risk_in links.now link }
{
    match links.get(link.0 as usize).copied() {
        Some(found) => found.risk,
        None => link,
    }
}

/// How many of the listed links name their own risk groups.
pub fn count_in(links: &[Link], fails: &[LinkId]) -> usize
    ensures { result ≡ length (filter (λ e. (risk_in links.now e).0 == e.0) fails.now) }
{
    fails
        .iter()
        .filter(|e| risk_in(links, **e).0 == e.0)
        .count()
}

/// The union of the risk groups that have one of the listed links.
pub fn union_of(
    alloc: Global,
    groups: &RiskGroups,
    links: &[Link],
    fails: &[LinkId],
) -> Result<FailSet, NoMemory>
    requires index { groups.now ≡ groups_of links.now }
    requires within { list_all (λ l. nat_lt l.risk.0 (length links.now)) links.now ≡ true }
    ensures { IfOk result (λ s. s ≡ numbers_where links.now (λ e. list_any (λ d. same_risk_in links.now d e) fails.now)) }
{
    let mut risks = FailSet::new(alloc);
    add_risks(links, fails, &mut risks)?;
    union_named(alloc, groups, risks.as_slice())
}

/// The union of the risk groups that have a link of one of the first groups.
pub fn union_before(
    alloc: Global,
    groups: &RiskGroups,
    links: &[Link],
    entry: &[Group],
    j: usize,
) -> Result<FailSet, NoMemory>
    requires index { groups.now ≡ groups_of links.now }
    requires within { list_all (λ l. nat_lt l.risk.0 (length links.now)) links.now ≡ true }
    ensures { IfOk result (λ s. s ≡ numbers_where links.now (λ e. list_any (λ g. list_any (λ m. same_risk_in links.now m.link e) g) (take j entry.now))) }
{
    let risks = group_risks(alloc, links, first_groups(entry, j))?;
    union_named(alloc, groups, risks.as_slice())
}

// The union of the risk groups that these links name.
fn union_named(alloc: Global, groups: &RiskGroups, risks: &[LinkId]) -> Result<FailSet, NoMemory>
    ensures { IfOk result (λ s. s ≡ gathered groups.now [] risks.now) }
{
    let mut set = FailSet::new(alloc);
    for risk in risks {
        groups.add_to(&mut set, *risk)?;
    }
    Ok(set)
}

// Adds the risk groups of links, each by its least link.
fn add_risks(links: &[Link], fails: &[LinkId], risks: &mut FailSet) -> Result<(), NoMemory>
    ensures { OnOk result (risks.new ≡ with_risks links.now risks.old fails.now) }
{
    for e in fails {
        risks.insert(risk_in(links, *e))?;
    }
    Ok(())
}

// Adds the risk groups of a group's links.
fn add_group_risks(links: &[Link], group: &[Member], risks: &mut FailSet) -> Result<(), NoMemory>
    ensures { OnOk result (risks.new ≡ with_risks links.now risks.old (map (λ m. m.link) group.now)) }
{
    for m in group {
        risks.insert(risk_in(links, m.link))?;
    }
    Ok(())
}

// The risk groups of the links of groups, each by its least link.
fn group_risks(alloc: Global, links: &[Link], groups: &[Group]) -> Result<FailSet, NoMemory>
    ensures { IfOk result (λ s. s ≡ with_group_risks links.now [] groups.now) }
{
    let mut risks = FailSet::new(alloc);
    for group in groups {
        add_group_risks(links, group.as_slice(), &mut risks)?;
    }
    Ok(risks)
}

// The groups before one, or all where there are no more.
fn first_groups(groups: &[Group], j: usize) -> &[Group]
    ensures { result.now ≡ take j groups.now }
{
    if j < groups.len() {
        &groups[..j]
    } else {
        groups
    }
}
