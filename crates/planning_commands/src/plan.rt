// The commands `plan` and `pinned`.
ghost use Rattle.std.specs.Prelude.{◌≡◌, ◌≤◌, true, length, IfOk, IfSome, None};
ghost use Rattle.fault_count.specs.Counts.{HandsOn};
ghost use Rattle.seed_io.specs.Shelf.{OthersStay};
ghost use Rattle.seed_model.specs.Nodes.{IsNode};
ghost use Rattle.seed_model.specs.Ranges.{IsRange};
ghost use Rattle.seed_model.specs.Tables.{IsTable};
ghost use Rattle.branch_bound.specs.Pinned.{pinned_node};
ghost use Rattle.goseed_words.specs.Amounts.{IsAmount};
ghost use Rattle.command_endings.specs.Creating.{LeavesOthers};
ghost use Rattle.command_endings.specs.Worlds.{Creating, ShelfEnds};
ghost use Rattle.planning_commands.specs.Best.{range_in};
ghost use Rattle.planning_commands.specs.Check.{judged_table};
ghost use Rattle.planning_commands.specs.Plan.{HasSearched, LeavesPinned, LeavesSearched, PinnedBy, PinnedEnds, PlanEnds, ReportsOutcome, answer_status};

use crate::merged_table::merged_table;
use crate::node_words::node_of;
use crate::plan_text::text_of_outcome;
use crate::ranges::range_within;
use crate::reading::recipe_named;
use bound_cert::{Answer, certificate_laws};
use branch_bound::{Outcome, PlanError, plan_to};
use chunk_merge::merge_laws;
use command_texts::{Halt, Refusal, Report, Status, or_halt, refused};
use goseed_words::Amount;
use recipe_reader::Recipe;
use seed_io::Shelf;
use seed_model::{NoMemory, Node, Range, Table};
use seed_text::set_text_laws;
use std::alloc::Global;

/// The place of the word that spells the files that must go, the command being place 1. That of those that must stay is the
/// next.
const GO_PLACE: u32 = 7;

/// What is sought, and how many branchings may be made.
#[derive(Clone, Copy)]
pub struct Aim {
    pub target: Amount,
    pub slack: Amount,
    /// 0 to 65,535.
    pub nodes: u32,
}

/// Reads a recipe by its name, searches for a plan, and writes the certificate under another name.
pub fn plan<F: Shelf>(
    alloc: Global,
    shelf: &mut F,
    name: &str,
    document: &str,
    aim: Aim,
) -> Result<Report, Halt>
    requires target { IsAmount aim.target }
    requires slack { IsAmount aim.slack }
    requires budget { aim.nodes ≤ 65535 }
    ensures report { IfOk result (λ report. ShelfEnds (F.tells shelf.old) (F.map shelf.old) (F.map shelf.new) (Creating document.now (PlanEnds name.now aim.target aim.slack aim.nodes)) report.status report.text.items) }
    ensures left { F.tells shelf.old ≡ true → LeavesOthers (F.tells shelf.old) (F.map shelf.old) (F.map shelf.new) document.now (Creating document.now (PlanEnds name.now aim.target aim.slack aim.nodes)) }
    ensures cause { HandsOn Halt.Outside (F.faults shelf.old) (F.faults shelf.new) result }
    ensures tells { F.tells shelf.new ≡ F.tells shelf.old }
{
    match recipe_named(alloc, shelf, name)? {
        Ok(recipe) => search_of(alloc, shelf, &recipe, document, aim, None),
        Err(report) => Ok(report),
    }
}

/// The same with the files that must go and those that must stay, as two words spell them.
pub fn pinned<F: Shelf>(
    alloc: Global,
    shelf: &mut F,
    name: &str,
    document: &str,
    aim: Aim,
    go: &str,
    stay: &str,
) -> Result<Report, Halt>
    requires target { IsAmount aim.target }
    requires slack { IsAmount aim.slack }
    requires budget { aim.nodes ≤ 65535 }
    ensures report { IfOk result (λ report. ShelfEnds (F.tells shelf.old) (F.map shelf.old) (F.map shelf.new) (Creating document.now (PinnedEnds name.now aim.target aim.slack aim.nodes go.now stay.now)) report.status report.text.items) }
    ensures left { F.tells shelf.old ≡ true → LeavesOthers (F.tells shelf.old) (F.map shelf.old) (F.map shelf.new) document.now (Creating document.now (PinnedEnds name.now aim.target aim.slack aim.nodes go.now stay.now)) }
    ensures cause { HandsOn Halt.Outside (F.faults shelf.old) (F.faults shelf.new) result }
    ensures tells { F.tells shelf.new ≡ F.tells shelf.old }
{
    match recipe_named(alloc, shelf, name)? {
        Ok(recipe) => pinned_of(
            alloc,
            shelf,
            &recipe,
            document,
            aim,
            go.as_bytes(),
            stay.as_bytes(),
        ),
        Err(report) => Ok(report),
    }
}

/// Searches over a recipe with the pins that two words spell.
fn pinned_of<F: Shelf>(
    alloc: Global,
    shelf: &mut F,
    recipe: &Recipe,
    document: &str,
    aim: Aim,
    go: &[u8],
    stay: &[u8],
) -> Result<Report, Halt>
    requires target { IsAmount aim.target }
    requires slack { IsAmount aim.slack }
    requires budget { aim.nodes ≤ 65535 }
    ensures report { IfOk result (λ report. PinnedBy (F.tells shelf.old) (F.map shelf.old) (F.map shelf.new) document.now recipe.now (range_in recipe.now aim.target aim.slack) aim.nodes go.now stay.now report.status report.text.items) }
    ensures left { F.tells shelf.old ≡ true → LeavesPinned recipe.now (range_in recipe.now aim.target aim.slack) aim.nodes go.now stay.now (F.map shelf.old document.now) (F.map shelf.new document.now) }
    ensures others { F.tells shelf.old ≡ true → OthersStay (F.map shelf.old) (F.map shelf.new) document.now }
    ensures cause { HandsOn Halt.Outside (F.faults shelf.old) (F.faults shelf.new) result }
    ensures tells { F.tells shelf.new ≡ F.tells shelf.old }
{
    match node_of(alloc, recipe.files(), go, stay, GO_PLACE) {
        Ok(Ok(pins)) => search_of(alloc, shelf, recipe, document, aim, Some(&pins)),
        Ok(Err(place)) => or_halt(refused(alloc, &Refusal::BadWord { place })),
        Err(NoMemory) => Err(Halt::Memory),
    }
}

/// Searches over a recipe, and writes the certificate under a name.
fn search_of<F: Shelf>(
    alloc: Global,
    shelf: &mut F,
    recipe: &Recipe,
    document: &str,
    aim: Aim,
    pins: Option<&Node>,
) -> Result<Report, Halt>
    requires target { IsAmount aim.target }
    requires slack { IsAmount aim.slack }
    requires budget { aim.nodes ≤ 65535 }
    requires pins { IfSome (pinned_node pins) (IsNode (length recipe.now.files)) }
    ensures report { IfOk result (λ report. HasSearched (F.tells shelf.old) recipe.now (range_in recipe.now aim.target aim.slack) (pinned_node pins.entry) aim.nodes report.status report.text.items (F.map shelf.new document.now)) }
    ensures left { F.tells shelf.old ≡ true → LeavesSearched recipe.now (range_in recipe.now aim.target aim.slack) (pinned_node pins.entry) aim.nodes (F.map shelf.old document.now) (F.map shelf.new document.now) }
    ensures others { F.tells shelf.old ≡ true → OthersStay (F.map shelf.old) (F.map shelf.new) document.now }
    ensures cause { HandsOn Halt.Outside (F.faults shelf.old) (F.faults shelf.new) result }
    ensures tells { F.tells shelf.new ≡ F.tells shelf.old }
{
    let range = range_within(recipe.total(), aim.target, aim.slack);
    match merged_table(alloc, recipe) {
        Ok(table) => {
            let sought = Sought {
                range,
                pins,
                nodes: aim.nodes,
            };
            search_by(alloc, shelf, recipe, &table, document, &sought)
        }
        Err(NoMemory) => Err(Halt::Memory),
    }
}

/// A range, the files that must go and those that must stay, if any, and how many branchings may be made.
#[derive(Drop)]
pub struct Sought<'a> {
    pub range: Range,
    pub pins: Option<&'a Node>,
    /// 0 to 65,535.
    pub nodes: u32,
}

/// Searches over the table of a recipe, and writes the certificate under a name. The report is what `plan` and `pinned` print
/// of the outcome. Where a call of the shelf fails or memory runs out, the name is as before or has a front of the certificate.
pub fn search_by<F: Shelf>(
    alloc: Global,
    shelf: &mut F,
    recipe: &Recipe,
    table: &Table,
    document: &str,
    sought: &Sought,
) -> Result<Report, Halt>
    requires table { table.now ≡ judged_table recipe.now }
    requires lawful { IsTable table.now }
    requires range { IsRange sought.now.range }
    requires budget { sought.now.nodes ≤ 65535 }
    requires pins { IfSome (pinned_node sought.now.pins) (IsNode (length recipe.now.files)) }
    ensures report { IfOk result (λ report. HasSearched (F.tells shelf.old) recipe.now sought.now.range (pinned_node sought.now.pins) sought.now.nodes report.status report.text.items (F.map shelf.new document.now)) }
    ensures left { F.tells shelf.old ≡ true → LeavesSearched recipe.now sought.now.range (pinned_node sought.now.pins) sought.now.nodes (F.map shelf.old document.now) (F.map shelf.new document.now) }
    ensures others { F.tells shelf.old ≡ true → OthersStay (F.map shelf.old) (F.map shelf.new) document.now }
    ensures cause { HandsOn Halt.Outside (F.faults shelf.old) (F.faults shelf.new) result }
    ensures tells { F.tells shelf.new ≡ F.tells shelf.old }
{
    certificate_laws();
    merge_laws();
    set_text_laws();
    let _files = recipe.files();
    match plan_to(
        alloc,
        table,
        &sought.range,
        sought.pins,
        sought.nodes,
        shelf,
        document,
    ) {
        Ok(outcome) => or_halt(report_on(alloc, recipe, sought.pins, &outcome)),
        Err(PlanError::Fault) => Err(Halt::Outside),
        Err(PlanError::Memory) => Err(Halt::Memory),
    }
}

/// The report on an outcome.
fn report_on(
    alloc: Global,
    recipe: &Recipe,
    pins: Option<&Node>,
    outcome: &Outcome,
) -> Result<Report, NoMemory>
    requires { IfSome outcome.now.plan (λ plan. length plan ≡ length recipe.now.files) }
    ensures { IfOk result (λ report. ReportsOutcome recipe.now (pinned_node pins.entry) outcome.now report.status report.text.items) }
{
    Ok(Report {
        status: status_of(outcome.answer),
        text: text_of_outcome(alloc, recipe, pins, outcome)?,
    })
}

/// How a command ends by an answer.
fn status_of(answer: Answer) -> Status
    ensures { result ≡ answer_status answer }
{
    match answer {
        Answer::Optimal => Status::Done,
        Answer::Infeasible => Status::No,
        Answer::Open => Status::Unfinished,
    }
}
