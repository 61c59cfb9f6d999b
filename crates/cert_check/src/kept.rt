// What a judge keeps of the lines, and how it takes a line more.
ghost use Rattle.std.specs.Prelude.{◌≡◌, ◌+◌, ◌<◌, ◌^◌, [], Some, IfOk};
ghost use Rattle.bound_cert.specs.Grammar.{after};
ghost use Rattle.bound_cert.specs.Judgements.{nothing_told, is_last};
ghost use Rattle.bound_cert.specs.Lines.{Leaf, IsLine, Title, Span, Pinned, Answered, Planned, NoPlan, Low, High, End, entry_of};
ghost use Rattle.bound_cert.specs.Documents.{bound_entry, give_entry};
ghost use Rattle.cert_check.specs.Judging.{checked_of};
ghost use Rattle.cert_check.specs.Keeping.{FitsLeaf, EndsLeaf, IsKept, KeepsTold, Takes, broken_here, branch_entry, replicated_of};

use crate::judged::{Checked, Verdict};
use crate::leaf_sums::LeafSums;
use crate::path::Path;
use bound_cert::{Answer, Give, Place, TextLine};
use cert_rules::{
    Branching, is_used, judge_bound, judge_branch, judge_high, judge_low, judge_plan,
};
use seed_model::{Mix, NoMemory, PlanSet, Range, Table};
use std::alloc::Global;

/// The rule that a give is of a class, to a user of it.
const USING: u8 = 9;

/// The bytes that a plan is said to migrate and to replicate.
#[derive(Clone, Copy)]
pub(crate) struct Sums {
    pub migrated: u64,
    pub replicated: u64,
}

/// A rule that a line breaks, and how many lines back the line stands that the failure carries.
#[derive(Clone, Copy)]
pub(crate) struct Broken {
    pub rule: u8,
    pub back: u32,
}

/// What is kept of the lines: the heading, with its plan as a set; the path to the node in work; the sums of the leaf in
/// work; and room for the mix of a branching.
#[derive(Drop)]
pub(crate) struct Kept {
    pub place: Place,
    pub range: Range,
    pub pinned: bool,
    pub answer: Answer,
    pub sums: Option<Sums>,
    pub plan: PlanSet,
    pub bound: Option<u64>,
    pub path: Path,
    pub branchings: u64,
    pub leaf: LeafSums,
    pub mix: Mix,
}

/// A rule that a line breaks, where the failure carries the line itself.
fn here(rule: Option<u8>) -> Option<Broken>
    ensures { result ≡ broken_here rule }
{
    match rule {
        Some(rule) => Some(Broken { rule, back: 0 }),
        None => None,
    }
}

/// What a plan is said to replicate, where there is one.
fn replicated_by(sums: Option<Sums>) -> Option<u64>
    ensures { result ≡ replicated_of sums }
{
    match sums {
        Some(sums) => Some(sums.replicated),
        None => None,
    }
}

/// Whether one give of a leaf is left.
fn is_last_give(place: Place) -> bool
    ensures { result ≡ is_last place }
{
    match place {
        Place::AtGive { gives, .. } => gives == 1,
        _ => false,
    }
}

impl Kept {
    /// Nothing so far, with all the memory that a table's certificates need.
    pub(crate) fn new(alloc: Global, table: &Table) -> Result<Kept, NoMemory>
        ensures kept { IfOk result (IsKept table.now) }
        ensures told { IfOk result (λ k. KeepsTold table.now k nothing_told) }
    {
        let files = table.files();
        let mix = Mix {
            first: PlanSet::empty(alloc, files)?,
            second: PlanSet::empty(alloc, files)?,
            alpha: 0,
            beta: 0,
        };
        Ok(Kept {
            place: Place::AtTitle,
            range: Range { low: 0, high: 0 },
            pinned: false,
            answer: Answer::Open,
            sums: None,
            plan: PlanSet::empty(alloc, files)?,
            bound: None,
            path: Path::new(alloc, files)?,
            branchings: 0,
            leaf: LeafSums::new(alloc, files)?,
            mix,
        })
    }

    /// Takes a title.
    fn take_title(&mut self, table: &Table, version: u8, next: Place) -> Option<Broken>
        requires kept { IsKept table.now self.old }
        requires placed { after self.old.place (Title version) ≡ Some next }
        ensures { Takes table.now self.old self.new (Title version) next result }
    {
        self.place = next;
        None
    }

    /// Takes a range.
    fn take_range(&mut self, table: &Table, low: u64, high: u64, next: Place) -> Option<Broken>
        requires kept { IsKept table.now self.old }
        requires lawful { IsLine (Span low high) }
        requires placed { after self.old.place (Span low high) ≡ Some next }
        ensures { Takes table.now self.old self.new (Span low high) next result }
    {
        self.range = Range { low, high };
        self.place = next;
        None
    }

    /// Takes an answer.
    fn take_answer(&mut self, table: &Table, answer: Answer, next: Place) -> Option<Broken>
        requires kept { IsKept table.now self.old }
        requires placed { after self.old.place (Answered answer) ≡ Some next }
        ensures { Takes table.now self.old self.new (Answered answer) next result }
    {
        self.answer = answer;
        self.place = next;
        None
    }

    /// Takes the line of no plan.
    fn take_no_plan(&mut self, table: &Table, next: Place) -> Option<Broken>
        requires kept { IsKept table.now self.old }
        requires placed { after self.old.place (NoPlan) ≡ Some next }
        ensures { Takes table.now self.old self.new (NoPlan) next result }
    {
        self.sums = None;
        self.place = next;
        None
    }

    /// Takes the last line.
    fn take_end(&mut self, table: &Table, next: Place) -> Option<Broken>
        requires kept { IsKept table.now self.old }
        requires placed { after self.old.place (End) ≡ Some next }
        ensures { Takes table.now self.old self.new (End) next result }
    {
        self.place = next;
        None
    }

    /// Takes the pins.
    fn take_pins(&mut self, table: &Table, go: &[u8], stay: &[u8], next: Place) -> Option<Broken>
        requires kept { IsKept table.now self.old }
        requires placed { after self.old.place (Pinned go.now stay.now) ≡ Some next }
        ensures { Takes table.now self.old self.new (Pinned go.now stay.now) next result }
    {
        let broken = self.path.pin(table, go, stay);
        self.pinned = true;
        self.place = next;
        here(broken)
    }

    /// Takes a plan.
    fn take_plan(
        &mut self,
        table: &Table,
        set: &[u8],
        migrated: u64,
        replicated: u64,
        next: Place,
    ) -> Option<Broken>
        requires kept { IsKept table.now self.old }
        requires placed { after self.old.place (Planned set.now migrated replicated) ≡ Some next }
        ensures { Takes table.now self.old self.new (Planned set.now migrated replicated) next result }
    {
        let broken = judge_plan(
            table,
            &self.range,
            self.path.root(),
            set,
            migrated,
            replicated,
            &mut self.plan,
        );
        self.sums = Some(Sums {
            migrated,
            replicated,
        });
        self.place = next;
        here(broken)
    }

    /// Takes a bound, or none, and begins the tree.
    fn take_bound(&mut self, table: &Table, bound: Option<u64>, next: Place) -> Option<Broken>
        requires kept { IsKept table.now self.old }
        requires lawful { IsLine (bound_entry bound) }
        requires placed { after self.old.place (bound_entry bound) ≡ Some next }
        ensures { Takes table.now self.old self.new (bound_entry bound) next result }
    {
        let replicated = replicated_by(self.sums);
        self.bound = bound;
        self.path.begin();
        self.place = next;
        here(judge_bound(self.answer, replicated, bound))
    }

    /// Takes a branching.
    fn take_branch(&mut self, table: &Table, line: &Branching<'_>, next: Place) -> Option<Broken>
        requires kept { IsKept table.now self.old }
        requires lawful { IsLine (branch_entry line.now) }
        requires few { self.old.branchings + 1 < 2 ^ 64 }
        requires placed { after self.old.place (branch_entry line.now) ≡ Some next }
        ensures { Takes table.now self.old self.new (branch_entry line.now) next result }
    {
        let node = self.path.node();
        match judge_branch(table, &self.range, self.bound, node, line, &mut self.mix) {
            None => {
                self.path.branch(line.file);
                self.branchings += 1;
                self.place = next;
                None
            }
            Some(rule) => Some(Broken { rule, back: 0 }),
        }
    }

    /// Takes a leaf `low`.
    fn take_low(&mut self, table: &Table, next: Place) -> Option<Broken>
        requires kept { IsKept table.now self.old }
        requires placed { after self.old.place (Low) ≡ Some next }
        ensures { Takes table.now self.old self.new (Low) next result }
    {
        let broken = judge_low(table, &self.range, self.path.node());
        self.path.close();
        self.place = next;
        here(broken)
    }

    /// Takes a leaf `high`.
    fn take_high(&mut self, table: &Table, next: Place) -> Option<Broken>
        requires kept { IsKept table.now self.old }
        requires placed { after self.old.place (High) ≡ Some next }
        ensures { Takes table.now self.old self.new (High) next result }
    {
        let broken = judge_high(table, &self.range, self.path.node());
        self.path.close();
        self.place = next;
        here(broken)
    }

    /// Judges the leaf in work as a whole, and closes its node.
    fn end_leaf(&mut self, table: &Table) -> Option<Broken>
        requires { FitsLeaf table.now self.old }
        ensures { EndsLeaf table.now self.old self.new result }
    {
        let rule = self
            .leaf
            .judge(table, &self.range, self.bound, self.path.node());
        self.path.close();
        match rule {
            Some(rule) => Some(Broken {
                rule,
                back: self.leaf.gives,
            }),
            None => None,
        }
    }

    /// Takes the first line of a leaf, which is judged as a whole where no give follows.
    fn take_leaf(
        &mut self,
        table: &Table,
        p: u64,
        q: u64,
        gives: u32,
        next: Place,
    ) -> Option<Broken>
        requires kept { IsKept table.now self.old }
        requires lawful { IsLine (Leaf p q gives) }
        requires placed { after self.old.place (Leaf p q gives) ≡ Some next }
        ensures { Takes table.now self.old self.new (Leaf p q gives) next result }
    {
        self.leaf.begin(p, q);
        self.place = next;
        if gives > 0 {
            return None;
        }
        self.end_leaf(table)
    }

    /// Takes a give. Behind the last one its leaf is judged as a whole.
    fn take_give(&mut self, table: &Table, give: Give, next: Place) -> Option<Broken>
        requires kept { IsKept table.now self.old }
        requires lawful { IsLine (give_entry give) }
        requires placed { after self.old.place (give_entry give) ≡ Some next }
        ensures { Takes table.now self.old self.new (give_entry give) next result }
    {
        if !is_used(table, give.class, give.file) {
            return Some(Broken {
                rule: USING,
                back: 0,
            });
        }
        let is_last = is_last_give(self.place);
        self.leaf.take(table, give);
        self.place = next;
        if !is_last {
            return None;
        }
        self.end_leaf(table)
    }

    /// Takes a line that may stand where it stands, and leads to a place.
    pub(crate) fn take(&mut self, table: &Table, line: &TextLine<'_>, next: Place) -> Option<Broken>
        requires kept { IsKept table.now self.old }
        requires lawful { IsLine (entry_of line.now) }
        requires few { self.old.branchings + 1 < 2 ^ 64 }
        requires placed { after self.old.place (entry_of line.now) ≡ Some next }
        ensures { Takes table.now self.old self.new (entry_of line.now) next result }
    {
        match *line {
            TextLine::Title { version } => self.take_title(table, version, next),
            TextLine::Span { low, high } => self.take_range(table, low, high, next),
            TextLine::Pinned { go, stay } => self.take_pins(table, go, stay, next),
            TextLine::Answered(answer) => self.take_answer(table, answer, next),
            TextLine::Planned {
                set,
                migrated,
                replicated,
            } => self.take_plan(table, set, migrated, replicated, next),
            TextLine::NoPlan => self.take_no_plan(table, next),
            TextLine::Bounded { bound } => self.take_bound(table, Some(bound), next),
            TextLine::NoBound => self.take_bound(table, None, next),
            TextLine::Branch {
                file,
                first,
                second,
                alpha,
                beta,
            } => {
                let branching = Branching {
                    file,
                    first,
                    second,
                    alpha,
                    beta,
                };
                self.take_branch(table, &branching, next)
            }
            TextLine::Low => self.take_low(table, next),
            TextLine::High => self.take_high(table, next),
            TextLine::Leaf { p, q, gives } => self.take_leaf(table, p, q, gives, next),
            TextLine::Give {
                class,
                file,
                charge,
                reward,
            } => {
                let give = Give {
                    class,
                    file,
                    charge,
                    reward,
                };
                self.take_give(table, give, next)
            }
            TextLine::End => self.take_end(table, next),
        }
    }

    /// What a valid text says.
    pub(crate) fn into_checked(self) -> Checked
        requires { self.path.waiting ≡ [] }
        ensures { result ≡ checked_of self }
    {
        let Kept {
            range,
            pinned,
            answer,
            sums,
            plan: set,
            bound,
            path,
            branchings,
            ..
        } = self;
        let root = path.into_root();
        let pins = if pinned { Some(root) } else { None };
        let (plan, migrated, replicated) = match sums {
            Some(sums) => (Some(set), sums.migrated, sums.replicated),
            None => (None, 0, 0),
        };
        Checked {
            verdict: Verdict::Yes,
            range,
            pins,
            answer,
            plan,
            migrated,
            replicated,
            bound,
            branchings,
        }
    }
}
