//! The run is read off what the rules stand for, one after the other: the labels of the first header from the bottom up, the
//! first link, the steps, and the end. A goal run has its rules by name, so that for each of them the rules of its head are made
//! once more.
ghost use Rattle.std.specs.Prelude.{◌≡◌, ℕ, List, true, Some, IsSome, IfOk, OnOk};
ghost use Rattle.std.specs.List.{list_all, All};
ghost use Rattle.wi_witness.specs.GoalRuns.{IsNamedRun};
ghost use Rattle.wi_quantity.specs.Weighing.{components};
ghost use Rattle.wi_rules.specs.Goals.{origins_for};
ghost use Rattle.wi_rules.specs.Numbers.{origins_by};
ghost use Rattle.wi_build.specs.Problems.{IsAnswering, Problem};
ghost use Rattle.wi_decide.specs.Spelled.{origin, AreRulesFor};
ghost use Rattle.wi_build.specs.Systems.{scale};
ghost use Rattle.wi_decide.specs.private.Spelled.{unspelled, with_origin, named, with_rules, is_origin_of, is_named, IsSpelledRun};

use std::alloc::Global;
use std::marker::Model;
use wi_base::{Listed, NoMemory};
use wi_build::Layout;
use wi_labels::{Class, Header, Label};
use wi_net::{LinkId, Network};
use wi_pds::{Rule, RuleId, System};
use wi_quantity::Weight;
use wi_rules::Origin;
use wi_world::{End, Run, Step};

// A run as far as rules have told of it.
#[derive(Drop)]
struct Spelling {
    // The labels of the first header: it is made from the bottom up.
    from_bottom: Vec<(Label, Class)>,
    first: Option<LinkId>,
    steps: Vec<Step>,
    end: End,
}

impl Model for Spelling {
    ghost use Rattle.wi_decide.specs.private.Spelled.{Spelled};

    ghost Value = { Spelled };

    ghost view = { λ s. record { from_bottom = s.from_bottom.items; first = s.first; steps = s.steps.items; end = s.end } };
}

impl Spelling {
    fn new(alloc: Global) -> Spelling
        ensures { result ≡ unspelled }
    {
        Spelling {
            from_bottom: Vec::new(alloc),
            first: None,
            steps: Vec::new(alloc),
            end: End::Arrives,
        }
    }

    // Reads a rule that stands for this.
    fn read(&mut self, net: &Network, origin: Origin) -> Result<(), NoMemory>
        requires { is_origin_of net.now origin ≡ true }
        ensures { OnOk result (self.new ≡ with_origin net.now self.old origin) }
    {
        match origin {
            Origin::Pushed(label) => self.from_bottom.push((label, net.class(label)))?,
            Origin::SetOut(link) => self.first = Some(link),
            Origin::Hop(step) => self.steps.push(step)?,
            Origin::Ending(end) => self.end = end,
            Origin::Operation(_, _) | Origin::Nothing => {}
        }
        Ok(())
    }

    // The run that was told.
    fn into_run(self, alloc: Global) -> Result<Run, NoMemory>
        requires { IsSome self.first }
        ensures { IfOk result (λ run. IsSpelledRun self run) }
    {
        let Spelling {
            mut from_bottom,
            first,
            steps,
            end,
        } = self;
        from_bottom.reverse();
        Ok(Run {
            first: first.unwrap(),
            header: header_of(alloc, from_bottom.as_slice())?,
            steps: Listed::of(steps),
            end,
        })
    }
}

// The header with these labels, top first.
fn header_of(alloc: Global, labels: &[(Label, Class)]) -> Result<Header, NoMemory>
    ensures { IfOk result (λ header. header ≡ labels.now) }
{
    match Header::from_labels(alloc, labels) {
        Ok(header) => Ok(header),
        Err(wi_labels::NoMemory::Memory) => Err(NoMemory::Memory),
    }
}

// The rule that an id names.
fn named<S: System<Weight>>(alloc: Global, sys: &S, id: RuleId) -> Result<Rule<Weight>, NoMemory>
    requires names { IsSome (named (S.rules sys.now) id) }
    requires asked { S.may_ask sys.now id.p id.g }
    ensures { IfOk result (λ rule. named (S.rules sys.now) id ≡ Some rule) }
{
    let rules = sys.rules_of(alloc, id.p, id.g)?;
    Ok(rules[id.at as usize])
}

// What the rules tell that ids name.
fn spell<S: System<Weight>>(
    alloc: Global,
    net: &Network,
    layout: &Layout,
    sys: &S,
    ids: &[RuleId],
) -> Result<Spelling, NoMemory>
    requires names { list_all (is_named net.now (S.rules sys.now)) ids.now ≡ true }
    requires asked { All (λ id. S.may_ask sys.now id.p id.g) ids.now }
    ensures { IfOk result (λ s. s ≡ with_rules net.now (S.rules sys.now) unspelled ids.now) }
{
    let mut spelling = Spelling::new(alloc);
    for id in ids {
        let rule = named(alloc, sys, *id)?;
        spelling.read(net, layout.rule_origin(&rule))?;
    }
    Ok(spelling)
}

/// The run of the network that a goal run of its rules spells, by what these stand for: a matching run of the moving world that
/// weighs what the goal run does. The rules are those of a query within any bounds, from any system that has them; it is asked
/// for those of the heads that the ids name, and of no other.
pub fn run_of<S: System<Weight>>(
    alloc: Global,
    net: &Network,
    layout: &Layout,
    sys: &S,
    ids: &[RuleId],
) -> Result<Run, NoMemory>
    requires spells { (problem : Problem) × (w : List ℕ) × AreRulesFor problem net.now layout.now (S.rules sys.now) × IsNamedRun scale components (S.rules sys.now) 0 0 1 ids.now w }
    requires asked { All (λ id. S.may_ask sys.now id.p id.g) ids.now }
    ensures { IfOk result (λ run. (problem : Problem) (w : List ℕ) → AreRulesFor problem net.now layout.now (S.rules sys.now) →
        (goal : IsNamedRun scale components (S.rules sys.now) 0 0 1 ids.now w) →
        IsAnswering problem w run × (origins_by origin goal.0 ≡ origins_for run)) }
{
    let spelling = spell(alloc, net, layout, sys, ids)?;
    spelling.into_run(alloc)
}
