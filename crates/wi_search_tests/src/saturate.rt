//! Least summaries by example.
ghost use Rattle.std.specs.Prelude.{◌≡◌, ℕ, ◌+◌, ◌<◌, ◌≤◌, [], ◌∷◌, IfSome, OnOk, length};
ghost use Rattle.std.specs.List.{Contains, sum_by};
ghost use Rattle.wi_pds.specs.declared.rule.Word2.{Word2};
ghost use Rattle.wi_pds.specs.Rules.{rules_at};
ghost use Rattle.wi_pds.specs.Closed.{AreClosed};
ghost use Rattle.wi_saturate.specs.Tries.{rows_from, ways, candidates};
ghost use Rattle.wi_saturate.specs.LeastTables.{AreReady};

use crate::systems::{doubling, efforts, rule, two_ways};
use crate::tables::{stands_at, table_of};
use std::alloc::Global;
use std::marker::Brand;
use std::process::Abort;
use std::sync::ledger::{Blank, Ledger};
use std::test::Fail;
use wi_base::NoMemory;
use wi_pds::{Heads, Rule, RuleId, RuleList, System, Word2};
use wi_saturate::{Candidate, Heap, LeastRefused, Overflow, Row, Steps, Table, least_counted};
use wi_weight::{Domain, Effort, Reach};

// 2^62, 2^64 and 2^64 + 3
const QUARTER: u128 = 4_611_686_018_427_387_904;

const WHOLE: u128 = 18_446_744_073_709_551_616;

const DOUBLED: u128 = 18_446_744_073_709_551_619;

// The rows of the system of two ways up to its goal: a summary, and what it weighs.
const ROWS: [(u64, u32, u64, u128); 4] = [(2, 0, 1, 1), (3, 0, 1, 1), (2, 1, 3, 2), (0, 0, 1, 4)];

// What is taken from a heap of three candidates.
const TAKEN: [Option<u128>; 4] = [Some(1), Some(2), Some(3), None];

// A list that finds no memory for the rules of one head.
#[derive(Drop)]
struct Failing {
    list: RuleList<Effort>,
    at: (u64, u32),
}

impl System<Effort> for Failing {
    ghost use Rattle.wi_pds.specs.Rules.{rules_at};
    ghost use Rattle.wi_pds.specs.lemmas.Rules.{listed_name_heads};

    ghost start_head = { λ s. s.list.start };

    ghost rules = { λ s. rules_at s.list.rules };

    ghost may_ask = { λ s p g. Unit {0} };

    ghost names_head = { λ s. listed_name_heads s.list.rules };

    fn start(&self) -> (u64, u32) {
        self.list.start()
    }

    fn rules_of(&self, alloc: Global, p: u64, g: u32) -> Result<Vec<Rule<Effort>>, NoMemory> {
        if p == self.at.0 && g == self.at.1 {
            return Err(NoMemory::Memory);
        }
        self.list.rules_of(alloc, p, g)
    }
}

// A list that may be asked for the rules of the heads of `two_ways` alone, and finds memory for no others.
#[derive(Drop)]
struct Sparing {
    list: RuleList<Effort>,
}

impl System<Effort> for Sparing {
    ghost use Rattle.wi_pds.specs.Rules.{rules_at};
    ghost use Rattle.wi_pds.specs.lemmas.Rules.{listed_name_heads};

    ghost start_head = { λ s. s.list.start };

    ghost rules = { λ s. rules_at s.list.rules };

    ghost may_ask = { λ s p g. Contains {X = ℕ × ℕ} ((0, 0) ∷ (2, 0) ∷ (2, 1) ∷ (3, 0) ∷ []) (p, g) };

    ghost names_head = { λ s. listed_name_heads s.list.rules };

    fn start(&self) -> (u64, u32) {
        self.list.start()
    }

    fn rules_of(&self, alloc: Global, p: u64, g: u32) -> Result<Vec<Rule<Effort>>, NoMemory> {
        match (p, g) {
            (0, 0) | (2, 0) | (2, 1) | (3, 0) => self.list.rules_of(alloc, p, g),
            _ => Err(NoMemory::Memory),
        }
    }
}

// A call of this is a proof that the tries stand at the count, or below it.
fn stands_at_most<M: Ledger>(_tries: &Steps<M>, _count: usize)
    requires { _tries.now ≤ _count }
{}

// How many rows are from the state with the symbol.
fn count_from(rows: &[Row<Effort>], p: u64, g: u32) -> usize
    ensures { result ≡ rows_from rows.now p g }
{
    rows.iter().filter(|r| r.p == p && r.g == g).count()
}

// In how many ways rows stand for two symbols, from a state.
fn count_pairs(rows: &[Row<Effort>], to: u64, u: u32, v: u32) -> Option<usize>
    ensures { IfSome result (λ n. n ≡ ways rows.now to (Word2.Two u v)) }
{
    let mut total: usize = 0;
    for row in rows {
        let more = if row.p == to && row.g == u {
            count_from(rows, row.q, v)
        } else {
            0
        };
        total = total.checked_add(more)?;
    }
    Some(total)
}

// In how many ways rows stand for what a rule writes.
fn count_ways(rows: &[Row<Effort>], rule: &Rule<Effort>) -> Option<usize>
    ensures { IfSome result (λ n. n ≡ ways rows.now rule.now.to rule.now.word) }
{
    match rule.word {
        Word2::Empty => Some(1),
        Word2::One(u) => Some(count_from(rows, rule.to, u)),
        Word2::Two(u, v) => count_pairs(rows, rule.to, u, v),
    }
}

// How many candidates rules make with rows.
fn count_made(rows: &[Row<Effort>], rules: &[Rule<Effort>]) -> Option<usize>
    ensures { IfSome result (λ n. n ≡ sum_by (λ r. ways rows.now r.to r.word) rules.now) }
{
    let mut total: usize = 0;
    for rule in rules {
        total = total.checked_add(count_ways(rows, rule)?)?;
    }
    Some(total)
}

// How many candidates the rules of heads make with rows.
fn count_candidates(
    alloc: Global,
    list: &RuleList<Effort>,
    heads: &[(u64, u32)],
    rows: &[Row<Effort>],
) -> Option<usize>
    ensures { IfSome result (λ n. n ≡ candidates (rules_at list.now.rules) heads.now rows.now) }
{
    let mut total: usize = 0;
    for i in 0..heads.len() {
        let (p, g) = heads[i];
        let Ok(rules) = list.rules_of(alloc, p, g) else {
            return None;
        };
        total = total.checked_add(count_made(rows, &rules)?)?;
    }
    Some(total)
}

// How many candidates the table up to the goal has. A proof that the tries, from none on, are no more.
fn candidates_of<L: Ledger, M: Ledger>(
    alloc: Global,
    list: &RuleList<Effort>,
    heads: &Heads,
    blank: Blank,
    other: Blank,
) -> Option<usize>
    requires name { blank.name ≡ L.name }
    requires parts { blank.parts ≡ L.parts }
    requires some { 0 < blank.parts }
    requires other_name { other.name ≡ M.name }
    requires other_parts { other.parts ≡ M.parts }
    requires other_some { 0 < other.parts }
    requires closed { AreClosed (rules_at list.now.rules) list.now.start heads.now.heads heads.now.pairs }
    requires ready { AreReady ⟦<Effort as Domain>⟧.components (rules_at list.now.rules) heads.now.heads }
    requires start { list.now.start ≡ (0, 0) }
{
    let mut steps = Steps::<L>::open(blank);
    let mut tries = Steps::<M>::open(other);
    let Ok(table) = least_counted(alloc, list, heads, (0, 0, 1), None, &mut steps, &mut tries)
    else {
        return None;
    };
    let counted = count_candidates(alloc, list, heads.heads.as_slice(), table.rows());
    if let Some(count) = counted {
        stands_at_most(&tries, count);
    }
    drop(table);
    counted
}

fn candidate(count: u128) -> Candidate<Effort> {
    Candidate {
        weight: Effort { count },
        q: 0,
        rule: 0,
        left: 0,
        right: 0,
    }
}

// Three candidates are tried.
fn push_three<M: Ledger>(heap: &mut Heap<Effort>, tries: &mut Steps<M>) -> Result<(), NoMemory>
    ensures { OnOk result (tries.new ≡ tries.old + 3) }
{
    heap.push(candidate(3), tries)?;
    heap.push(candidate(1), tries)?;
    heap.push(candidate(2), tries)?;
    Ok(())
}

// The lightest candidate is taken out first.
fn are_taken(rt: &impl Abort, heap: &mut Heap<Effort>) {
    for count in TAKEN {
        assert_eq!(rt; heap.pop().map(|taken| taken.weight.count), count);
    }
}

// Three candidates are tried, and taken out again.
fn tried_and_taken<M: Ledger>(rt: &impl Abort, alloc: Global, blank: Blank) -> Result<(), NoMemory>
    requires name { blank.name ≡ M.name }
    requires parts { blank.parts ≡ M.parts }
    requires some { 0 < blank.parts }
{
    let mut tries = Steps::<M>::open(blank);
    let mut heap = Heap::new(alloc);
    let pushed = push_three(&mut heap, &mut tries);
    if pushed.is_ok() {
        stands_at(&tries, 3);
        are_taken(rt, &mut heap);
    }
    drop(heap);
    pushed
}

// The rows are the wanted ones, each once; those of equal weight may come in any order.
fn each_row_is_wanted(rt: &impl Abort, rows: &[Row<Effort>], wanted: &[(u64, u32, u64, u128)]) {
    assert_eq!(rt; rows.len(), wanted.len());
    for row in wanted {
        let is_there = rows.iter().any(|r| (r.p, r.g, r.q, r.weight.count) == *row);
        assert!(rt; is_there);
    }
}

// The place of the row of a head, where there is one.
fn find(rows: &[Row<Effort>], p: u64, g: u32) -> Option<usize>
    ensures { IfSome result (λ i. i < length rows.now) }
{
    rows.iter().position(|r| r.p == p && r.g == g)
}

// The table of the system of two ways over efforts, as far as its goal or the cut.
fn table_below(alloc: Global, cut: Option<u128>) -> Result<Table<Effort>, LeastRefused<Effort>> {
    let (list, heads) = efforts(alloc)?;
    let cut = cut.map(|count| Effort { count });
    let table = table_of(alloc, &list, &heads, (0, 0, 1), cut);
    drop(list);
    drop(heads);
    table
}

// The table has the goal's weight, where there is one, and these rows.
fn goes_as_far(
    rt: &impl Abort,
    alloc: Global,
    cut: Option<u128>,
    best: Option<u128>,
    rows: &[(u64, u32, u64, u128)],
) -> Result<(), LeastRefused<Effort>> {
    let table = table_below(alloc, cut)?;
    assert_eq!(rt; table.best().map(|w| w.count), best);
    each_row_is_wanted(rt, table.rows(), rows);
    drop(table);
    Ok(())
}

#[test]
fn rows_go_as_far_as_the_goal_or_the_cut(rt: HostRuntime) -> Result<(), Fail> {
    goes_as_far(&rt, rt.alloc(), None, Some(4), &ROWS)?;
    goes_as_far(&rt, rt.alloc(), Some(4), None, &ROWS[..3])?;
    goes_as_far(&rt, rt.alloc(), Some(5), Some(4), &ROWS)?;
    Ok(())
}

fn names_its_parts(rt: &impl Abort, rows: &[Row<Effort>]) {
    let (Some(goal), Some(upper), Some(lower)) = (rows.get(3), find(rows, 2, 1), find(rows, 3, 0))
    else {
        assert!(rt; false);
        return;
    };
    let one = Effort { count: 1 };
    assert_eq!(rt; goal.id, RuleId { p: 0, g: 0, at: 0 });
    assert_eq!(rt; goal.rule, rule(0, 0, 2, Word2::Two(1, 0), one, 0));
    assert_eq!(rt; (goal.left, goal.right), (Some(upper), Some(lower)));
    assert_eq!(rt; rows[upper].id, RuleId { p: 2, g: 1, at: 1 });
    assert_eq!(rt; (rows[upper].left, rows[upper].right), (None, None));
}

#[test]
fn the_last_row_names_its_rule_and_its_parts(rt: HostRuntime) -> Result<(), Fail> {
    let table = table_below(rt.alloc(), None)?;
    names_its_parts(&rt, table.rows());
    drop(table);
    Ok(())
}

// The weight of the goal, which ends in the state, where all runs weigh the same.
fn reach_to(alloc: Global, q: u64) -> Result<Option<Reach>, LeastRefused<Reach>> {
    let (list, heads) = two_ways(alloc, Reach, Reach, Reach)?;
    let table = table_of(alloc, &list, &heads, (0, 0, q), None);
    drop(list);
    drop(heads);
    let table = table?;
    let best = table.best();
    drop(table);
    Ok(best)
}

#[test]
fn one_weight_tells_whether_there_is_a_run(rt: HostRuntime) -> Result<(), Fail> {
    assert_eq!(rt; reach_to(rt.alloc(), 1)?, Some(Reach));
    assert_eq!(rt; reach_to(rt.alloc(), 2)?, None);
    Ok(())
}

// The table of the system that doubles, below the cut.
fn doubled(alloc: Global, cut: Option<Effort>) -> Result<Table<Effort>, LeastRefused<Effort>> {
    let (list, heads) = doubling(alloc, Effort { count: 1 }, Effort { count: QUARTER })?;
    let table = table_of(alloc, &list, &heads, (0, 3, 0), cut);
    drop(list);
    drop(heads);
    table
}

#[test]
fn the_lightest_that_does_not_fit_is_told(rt: HostRuntime) -> Result<(), Fail> {
    let told = LeastRefused::Overflow(Overflow {
        head: (0, 2),
        target: 0,
        weight: Effort { count: DOUBLED },
    });
    assert_eq!(rt; doubled(rt.alloc(), None).err(), Some(told));
    Ok(())
}

#[test]
fn what_does_not_fit_is_not_told_above_the_cut(rt: HostRuntime) -> Result<(), Fail> {
    let table = doubled(rt.alloc(), Some(Effort { count: WHOLE }))?;
    assert_eq!(rt; table.best(), None);
    let rows = [(0, 0, 0, QUARTER), (0, 1, 0, WHOLE / 2 + 1)];
    each_row_is_wanted(&rt, table.rows(), &rows);
    drop(table);
    Ok(())
}

#[test]
fn want_of_memory_for_rules_is_told(rt: HostRuntime) -> Result<(), Fail> {
    let (list, heads) = efforts(rt.alloc())?;
    let failing = Failing { list, at: (2, 1) };
    let refused = table_of(rt.alloc(), &failing, &heads, (0, 0, 1), None).err();
    drop(failing);
    drop(heads);
    assert_eq!(rt; refused, Some(LeastRefused::Memory));
    Ok(())
}

#[test]
fn rules_are_asked_for_of_listed_heads_alone(rt: HostRuntime) -> Result<(), Fail> {
    let (list, heads) = efforts(rt.alloc())?;
    let sparing = Sparing { list };
    let table = table_of(rt.alloc(), &sparing, &heads, (0, 0, 1), None);
    drop(sparing);
    drop(heads);
    let table = table?;
    each_row_is_wanted(&rt, table.rows(), &ROWS);
    drop(table);
    Ok(())
}

#[test]
fn tries_are_no_more_than_the_candidates(rt: HostRuntime) -> Result<(), Fail> {
    let (list, heads) = efforts(rt.alloc())?;
    let blank = Blank::new(1);
    let count = candidates_of::<Brand, Brand>(rt.alloc(), &list, &heads, blank, Blank::new(1));
    drop(list);
    drop(heads);
    assert_eq!(rt; count, Some(5));
    Ok(())
}

#[test]
fn the_lightest_candidate_is_taken_first(rt: HostRuntime) -> Result<(), Fail> {
    tried_and_taken::<Brand>(&rt, rt.alloc(), Blank::new(1))?;
    Ok(())
}
