//! A row is found by its link and label in one look-up, and a member by its number over all rows in halvings, since a search
//! names a choice by one number. That takes a pair and a number for each row beside the row itself.
ghost use Rattle.std.specs.Prelude.{◌≡◌, nat_le, ◌<◌, ◌≤◌, ◌+◌, ◌++◌, ◌∷◌, [], None, Some, length, position, slice_get, option_map, IfSome, OnOk, OnErr};
ghost use Rattle.wi_net.specs.Tables.{is_row, groups_in, members_of, all_members, row_members, group_members, members_before};
ghost use Rattle.wi_net.specs.private.Tables.{starts_from, begun};
ghost use Rattle.std.specs.List.Sorted.{IsPartitionedBy};

use crate::parts::{Group, LinkId, Member, TableRow};
use indexmap::IndexSet;
use std::alloc::Global;
use std::marker::Model;
use wi_base::NoMemory;
use wi_labels::Label;

/// A list of rows, of which no two have one link and one label. Members are numbered from 0 over all rows.
#[derive(Drop)]
pub struct Tables {
    rows: Vec<TableRow>,
    keys: IndexSet<(u32, u32)>,
    // The number of each row's first member.
    starts: Vec<usize>,
    members: usize,
}

impl Model for Tables {
    ghost use Rattle.std.specs.Prelude.{List};
    ghost use Rattle.wi_net.specs.declared.parts.TableRow.{TableRow};
    ghost use Rattle.wi_net.specs.private.Tables.{AreTables};

    ghost Value = { List TableRow };

    ghost view = { λ t. t.rows.items };

    ghost invariant = { λ t. AreTables t.rows.items t.keys.keys t.starts.items t.members };
}

impl Tables {
    /// No rows.
    pub fn new(alloc: Global) -> Tables
        ensures { result ≡ [] }
    {
        Tables {
            rows: Vec::new(alloc),
            keys: IndexSet::new(alloc),
            starts: Vec::new(alloc),
            members: 0,
        }
    }

    /// How many rows there are.
    pub fn len(&self) -> usize
        ensures { result ≡ length self.now }
    {
        self.rows.len()
    }

    /// How many members all rows have.
    pub fn member_count(&self) -> usize
        ensures { result ≡ row_members self.now }
    {
        self.members
    }

    /// The place of the row of a link and a label.
    pub fn find(&self, link: LinkId, label: Label) -> Option<usize>
        ensures value { result ≡ position (is_row link label) self.now }
        ensures within { IfSome result (λ i. i < length self.now) }
    {
        self.keys.get_index_of(&(link.0, label.0))
    }

    /// The row at a place.
    pub fn at(&self, i: usize) -> &TableRow
        requires { i < length self.now }
        ensures { slice_get self.now i ≡ Some result.now }
    {
        &self.rows[i]
    }

    /// What the rows say of a link and a label.
    pub fn groups(&self, link: LinkId, label: Label) -> &[Group]
        ensures { result.now ≡ groups_in self.now link label }
    {
        match self.find(link, label) {
            Some(i) => self.rows[i].groups.as_slice(),
            None => &[],
        }
    }

    /// How many members the rows before that of a link and a label have.
    pub fn members_before(&self, link: LinkId, label: Label) -> usize
        ensures { result ≡ members_before self.now link label }
    {
        match self.find(link, label) {
            Some(i) => self.starts[i],
            None => self.members,
        }
    }

    /// The member of a number.
    pub fn member(&self, number: usize) -> &Member
        requires { number < row_members self.now }
        ensures { slice_get (all_members self.now) number ≡ Some result.now }
    {
        member_at(self.rows.as_slice(), self.starts.as_slice(), number)
    }

    /// Adds a row of a link and a label that have none. There are then so many members.
    pub fn add(&mut self, row: TableRow, members: usize) -> Result<(), NoMemory>
        requires free { position (is_row row.link row.label) self.old ≡ None }
        requires counted { members ≡ row_members self.old + group_members row.groups }
        ensures ok { OnOk result (self.new ≡ self.old ++ row ∷ []) }
        ensures err { OnErr result (self.new ≡ self.old) }
    {
        self.rows.reserve(1)?;
        self.starts.reserve(1)?;
        self.keys.insert((row.link.0, row.label.0))?;
        self.starts.push_reserved(self.members);
        self.members = members;
        self.rows.push_reserved(row);
        Ok(())
    }
}

// How many rows begin with a member of no higher number.
fn begun(starts: &[usize], number: usize) -> usize
    requires { IsPartitionedBy (λ start. nat_le start number) starts.now }
    ensures { result ≡ begun number starts.now }
{
    starts.partition_point(|start| *start <= number)
}

// The member of a number: the last row that begins no later has it.
fn member_at<'a>(rows: &'a [TableRow], starts: &[usize], number: usize) -> &'a Member
    requires known { starts.now ≡ starts_from 0 rows.now }
    requires within { number < row_members rows.now }
    ensures { slice_get (all_members rows.now) number ≡ Some result.now }
{
    let place = begun(starts, number) - 1;
    member_in(rows[place].groups.as_slice(), number - starts[place])
}

// The member of a number, counted over groups.
fn member_in(groups: &[Group], number: usize) -> &Member
    requires { number < group_members groups.now }
    ensures { slice_get (members_of groups.now) number ≡ Some result.now }
{
    let mut left = number;
    for group in groups {
        let members = group.as_slice();
        if left < members.len() {
            return &members[left];
        }
        left -= members.len();
    }
    unreachable!()
}
