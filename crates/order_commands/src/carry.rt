// The command `carry`.
ghost use Rattle.std.specs.Prelude.{◌≡◌, true, Some, length, IfOk, IfSome, IsNone, IsSome};
ghost use Rattle.fault_count.specs.Counts.{HandsOn};
ghost use Rattle.seed_io.specs.Shelf.{OthersStay};
ghost use Rattle.seed_model.specs.Files.{holds};
ghost use Rattle.seed_model.specs.Nodes.{IsNode};
ghost use Rattle.seed_model.specs.Ranges.{InRange, IsRange};
ghost use Rattle.seed_model.specs.Tables.{IsTable};
ghost use Rattle.cert_check.specs.Checking.{IsSound};
ghost use Rattle.recipe_reader.specs.Recipes.{table_of};
ghost use Rattle.recipe_order.specs.Reordered.{IsReordered};
ghost use Rattle.command_endings.specs.Creating.{LeavesOthers};
ghost use Rattle.command_endings.specs.Worlds.{Creating};
ghost use Rattle.planning_commands.specs.Check.{failure_text, judged_table};
ghost use Rattle.planning_commands.specs.Plan.{HasSearched, LeavesSearched};
ghost use Rattle.order_commands.specs.Carry.{CarriedBy, CarriedOver, CarriedTo, CarryEnds, CarryOf, CarryOver, HasCarried, HeardCarry, IsPinned, IsUnchanged, IsWithin, LeavesCarried, LeavesCarry, LeavesChecked, LeavesTo, ReportsCarried};

use cert_check::{CheckError, Checked, Verdict, check_text};
use chunk_merge::merge_laws;
use command_texts::{Halt, Refusal, Report, Status, or_halt, refused};
use planning_commands::checked_text::text_of_failure;
use planning_commands::merged_table::merged_table;
use planning_commands::plan::{Sought, search_by};
use planning_commands::reading::recipe_named;
use recipe_order::{carried, matches, order_laws, pins_laws, pins_of};
use recipe_reader::Recipe;
use seed_io::Shelf;
use seed_model::{NoMemory, Node, PlanSet, Range, Table};
use std::alloc::Global;

/// Reads a recipe by its name, judges by it the certificate of another name as `check` does, and reads a further recipe, which
/// must be the same but for the order of its files and chunks. Writes under a last name the certificate by which that recipe's
/// files with the names of the plan must go and all its others must stay, for the same range.
pub fn carry<F: Shelf>(
    alloc: Global,
    shelf: &mut F,
    name: &str,
    document: &str,
    other: &str,
    out: &str,
) -> Result<Report, Halt>
    ensures report { IfOk result (λ report. CarryOver (F.tells shelf.old) (F.map shelf.old) (F.map shelf.new) name.now document.now other.now out.now report.status report.text.items) }
    ensures left { F.tells shelf.old ≡ true → LeavesOthers (F.tells shelf.old) (F.map shelf.old) (F.map shelf.new) out.now (Creating out.now (CarryEnds name.now document.now other.now out.now)) }
    ensures cause { HandsOn Halt.Outside (F.faults shelf.old) (F.faults shelf.new) result }
    ensures tells { F.tells shelf.new ≡ F.tells shelf.old }
{
    match recipe_named(alloc, shelf, name)? {
        Ok(first) => carry_from(alloc, shelf, &first, document, other, out),
        Err(report) => Ok(report),
    }
}

/// Carries the plan of the certificate of a name from a recipe.
fn carry_from<F: Shelf>(
    alloc: Global,
    shelf: &mut F,
    first: &Recipe,
    document: &str,
    other: &str,
    out: &str,
) -> Result<Report, Halt>
    ensures told { F.tells shelf.old ≡ true → IfOk result (λ report. CarryOf (F.map shelf.old) document.now other.now out.now report.status report.text.items (F.map shelf.new out.now) first.now) }
    ensures heard { IfOk result (λ report. HeardCarry (F.tells shelf.old) (F.map shelf.old) document.now other.now report.status report.text.items first.now) }
    ensures left { F.tells shelf.old ≡ true → LeavesCarry (F.map shelf.old) document.now other.now first.now (F.map shelf.old out.now) (F.map shelf.new out.now) }
    ensures refused { IfOk result (λ report. IsUnchanged (F.map shelf.old) (F.map shelf.new) report.status) }
    ensures others { F.tells shelf.old ≡ true → OthersStay (F.map shelf.old) (F.map shelf.new) out.now }
    ensures cause { HandsOn Halt.Outside (F.faults shelf.old) (F.faults shelf.new) result }
    ensures tells { F.tells shelf.new ≡ F.tells shelf.old }
{
    let _files = first.files();
    match merged_table(alloc, first) {
        Ok(table) => judge(alloc, shelf, first, &table, document, other, out),
        Err(NoMemory) => Err(Halt::Memory),
    }
}

/// Judges the certificate of a name by the table of a recipe, and carries its plan.
fn judge<F: Shelf>(
    alloc: Global,
    shelf: &mut F,
    first: &Recipe,
    table: &Table,
    document: &str,
    other: &str,
    out: &str,
) -> Result<Report, Halt>
    requires table { table.now ≡ judged_table first.now }
    requires lawful { IsTable table.now }
    ensures told { F.tells shelf.old ≡ true → IfOk result (λ report. CarryOf (F.map shelf.old) document.now other.now out.now report.status report.text.items (F.map shelf.new out.now) first.now) }
    ensures heard { IfOk result (λ report. HeardCarry (F.tells shelf.old) (F.map shelf.old) document.now other.now report.status report.text.items first.now) }
    ensures left { F.tells shelf.old ≡ true → LeavesCarry (F.map shelf.old) document.now other.now first.now (F.map shelf.old out.now) (F.map shelf.new out.now) }
    ensures refused { IfOk result (λ report. IsUnchanged (F.map shelf.old) (F.map shelf.new) report.status) }
    ensures others { F.tells shelf.old ≡ true → OthersStay (F.map shelf.old) (F.map shelf.new) out.now }
    ensures cause { HandsOn Halt.Outside (F.faults shelf.old) (F.faults shelf.new) result }
    ensures tells { F.tells shelf.new ≡ F.tells shelf.old }
{
    merge_laws();
    match check_text(alloc, table, shelf, document) {
        Ok(checked) => carry_checked(alloc, shelf, first, &checked, other, out),
        Err(CheckError::NotThere) => {
            or_halt(refused(alloc, &Refusal::NotThere { name: document }))
        }
        Err(CheckError::TooLong) => or_halt(refused(alloc, &Refusal::TooLong { name: document })),
        Err(CheckError::Fault) => Err(Halt::Outside),
        Err(CheckError::Memory) => Err(Halt::Memory),
    }
}

/// Carries the plan of a certificate that was checked, or reports on the judgement of it that failed.
fn carry_checked<F: Shelf>(
    alloc: Global,
    shelf: &mut F,
    first: &Recipe,
    checked: &Checked,
    other: &str,
    out: &str,
) -> Result<Report, Halt>
    requires sound { IsSound (judged_table first.now) checked.now }
    ensures report { IfOk result (λ report. ReportsCarried checked.now.verdict (F.tells shelf.old) (F.map shelf.old) other.now first.now checked.now report.status report.text.items (F.map shelf.new out.now)) }
    ensures left { F.tells shelf.old ≡ true → LeavesChecked (F.map shelf.old) other.now first.now checked.now (F.map shelf.old out.now) (F.map shelf.new out.now) }
    ensures refused { IfOk result (λ report. IsUnchanged (F.map shelf.old) (F.map shelf.new) report.status) }
    ensures others { F.tells shelf.old ≡ true → OthersStay (F.map shelf.old) (F.map shelf.new) out.now }
    ensures cause { HandsOn Halt.Outside (F.faults shelf.old) (F.faults shelf.new) result }
    ensures tells { F.tells shelf.new ≡ F.tells shelf.old }
{
    match checked.verdict {
        Verdict::Yes => carry_plan(alloc, shelf, first, checked, other, out),
        Verdict::No { line, rule } => or_halt(report_failure(alloc, line, rule)),
    }
}

/// Carries the plan of a valid certificate, if it has one.
fn carry_plan<F: Shelf>(
    alloc: Global,
    shelf: &mut F,
    first: &Recipe,
    checked: &Checked,
    other: &str,
    out: &str,
) -> Result<Report, Halt>
    requires sound { IsSound (judged_table first.now) checked.now }
    requires valid { checked.now.verdict ≡ Verdict.Yes }
    ensures report { IfOk result (λ report. CarriedBy (F.tells shelf.old) (F.map shelf.old) other.now first.now checked.now.range checked.now.plan report.status report.text.items (F.map shelf.new out.now)) }
    ensures left { F.tells shelf.old ≡ true → LeavesChecked (F.map shelf.old) other.now first.now checked.now (F.map shelf.old out.now) (F.map shelf.new out.now) }
    ensures refused { IfOk result (λ report. IsUnchanged (F.map shelf.old) (F.map shelf.new) report.status) }
    ensures others { F.tells shelf.old ≡ true → OthersStay (F.map shelf.old) (F.map shelf.new) out.now }
    ensures cause { HandsOn Halt.Outside (F.faults shelf.old) (F.faults shelf.new) result }
    ensures tells { F.tells shelf.new ≡ F.tells shelf.old }
{
    merge_laws();
    match plan_within(checked) {
        Some(plan) => carry_to(alloc, shelf, first, plan, &checked.range, other, out),
        None => or_halt(refused(alloc, &Refusal::NoPlan)),
    }
}

/// The plan of a certificate, where what it says that the plan migrates is in its range. Of a valid certificate it always is;
/// a checker says of what it read no more than that the plan has these sums.
fn plan_within(checked: &Checked) -> Option<&PlanSet>
    ensures plan { IfSome result (λ plan. checked.now.plan ≡ Some plan.now) }
    ensures within { IsSome result → IsWithin checked.now.range checked.now.migrated }
    ensures none { IsNone result → IsSome checked.now.plan → ¬ IsWithin checked.now.range checked.now.migrated }
{
    match &checked.plan {
        Some(plan)
            if checked.range.low <= checked.migrated && checked.migrated <= checked.range.high => {
            Some(plan)
        }
        _ => None,
    }
}

/// Carries a plan in range of a recipe to the recipe of a name.
fn carry_to<F: Shelf>(
    alloc: Global,
    shelf: &mut F,
    first: &Recipe,
    plan: &PlanSet,
    range: &Range,
    other: &str,
    out: &str,
) -> Result<Report, Halt>
    requires width { length plan.now ≡ length first.now.files }
    requires range { IsRange range.now }
    requires within { InRange (table_of first.now) range.now (holds plan.now) }
    ensures report { IfOk result (λ report. CarriedOver (F.tells shelf.old) (F.map shelf.old) other.now first.now range.now plan.now report.status report.text.items (F.map shelf.new out.now)) }
    ensures left { F.tells shelf.old ≡ true → LeavesTo (F.map shelf.old) other.now first.now range.now plan.now (F.map shelf.old out.now) (F.map shelf.new out.now) }
    ensures refused { IfOk result (λ report. IsUnchanged (F.map shelf.old) (F.map shelf.new) report.status) }
    ensures others { F.tells shelf.old ≡ true → OthersStay (F.map shelf.old) (F.map shelf.new) out.now }
    ensures cause { HandsOn Halt.Outside (F.faults shelf.old) (F.faults shelf.new) result }
    ensures tells { F.tells shelf.new ≡ F.tells shelf.old }
{
    match recipe_named(alloc, shelf, other)? {
        Ok(second) => carry_between(alloc, shelf, first, &second, plan, range, out),
        Err(report) => Ok(report),
    }
}

/// Carries a plan in range of one recipe to another.
fn carry_between<F: Shelf>(
    alloc: Global,
    shelf: &mut F,
    first: &Recipe,
    second: &Recipe,
    plan: &PlanSet,
    range: &Range,
    out: &str,
) -> Result<Report, Halt>
    requires width { length plan.now ≡ length first.now.files }
    requires range { IsRange range.now }
    requires within { InRange (table_of first.now) range.now (holds plan.now) }
    ensures report { IfOk result (λ report. CarriedTo (F.tells shelf.old) first.now range.now plan.now report.status report.text.items (F.map shelf.new out.now) second.now) }
    ensures left { F.tells shelf.old ≡ true → LeavesCarried first.now second.now range.now plan.now (F.map shelf.old out.now) (F.map shelf.new out.now) }
    ensures refused { IfOk result (λ report. IsUnchanged (F.map shelf.old) (F.map shelf.new) report.status) }
    ensures others { F.tells shelf.old ≡ true → OthersStay (F.map shelf.old) (F.map shelf.new) out.now }
    ensures cause { HandsOn Halt.Outside (F.faults shelf.old) (F.faults shelf.new) result }
    ensures tells { F.tells shelf.new ≡ F.tells shelf.old }
{
    match matches(alloc, first, second) {
        Ok(true) => write_carried(alloc, shelf, first, second, plan, range, out),
        Ok(false) => or_halt(refused(alloc, &Refusal::OtherRecipe)),
        Err(NoMemory) => Err(Halt::Memory),
    }
}

/// Carries a plan in range of one recipe to another that is the same but for its order, and writes the certificate under a
/// name.
fn write_carried<F: Shelf>(
    alloc: Global,
    shelf: &mut F,
    first: &Recipe,
    second: &Recipe,
    plan: &PlanSet,
    range: &Range,
    out: &str,
) -> Result<Report, Halt>
    requires width { length plan.now ≡ length first.now.files }
    requires range { IsRange range.now }
    requires within { InRange (table_of first.now) range.now (holds plan.now) }
    requires same { IsReordered first.now second.now }
    ensures report { IfOk result (λ report. HasCarried (F.tells shelf.old) first.now second.now range.now plan.now report.status report.text.items (F.map shelf.new out.now)) }
    ensures left { F.tells shelf.old ≡ true → LeavesCarried first.now second.now range.now plan.now (F.map shelf.old out.now) (F.map shelf.new out.now) }
    ensures others { F.tells shelf.old ≡ true → OthersStay (F.map shelf.old) (F.map shelf.new) out.now }
    ensures cause { HandsOn Halt.Outside (F.faults shelf.old) (F.faults shelf.new) result }
    ensures tells { F.tells shelf.new ≡ F.tells shelf.old }
{
    order_laws();
    pins_laws();
    let _files = first.files();
    let _others = second.files();
    match pins_by(alloc, first, second, plan) {
        Ok(pins) => search_pinned(alloc, shelf, second, &pins, range, out),
        Err(NoMemory) => Err(Halt::Memory),
    }
}

/// The node whose only member is the set of a recipe that has the names of another recipe's plan.
fn pins_by(alloc: Global, first: &Recipe, second: &Recipe, plan: &PlanSet) -> Result<Node, NoMemory>
    requires width { length plan.now ≡ length first.now.files }
    requires same { IsReordered first.now second.now }
    ensures { IfOk result (IsPinned first.now second.now plan.now) }
{
    let set = carried(alloc, first, second, plan)?;
    pins_of(alloc, &set)
}

/// Searches over a recipe with pins and no branching, and writes the certificate under a name.
fn search_pinned<F: Shelf>(
    alloc: Global,
    shelf: &mut F,
    recipe: &Recipe,
    pins: &Node,
    range: &Range,
    out: &str,
) -> Result<Report, Halt>
    requires pins { IsNode (length recipe.now.files) pins.now }
    requires range { IsRange range.now }
    ensures report { IfOk result (λ report. HasSearched (F.tells shelf.old) recipe.now range.now (Some pins.now) 0 report.status report.text.items (F.map shelf.new out.now)) }
    ensures left { F.tells shelf.old ≡ true → LeavesSearched recipe.now range.now (Some pins.now) 0 (F.map shelf.old out.now) (F.map shelf.new out.now) }
    ensures others { F.tells shelf.old ≡ true → OthersStay (F.map shelf.old) (F.map shelf.new) out.now }
    ensures cause { HandsOn Halt.Outside (F.faults shelf.old) (F.faults shelf.new) result }
    ensures tells { F.tells shelf.new ≡ F.tells shelf.old }
{
    let _files = recipe.files();
    match merged_table(alloc, recipe) {
        Ok(table) => {
            let sought = Sought {
                range: *range,
                pins: Some(pins),
                nodes: 0,
            };
            search_by(alloc, shelf, recipe, &table, out, &sought)
        }
        Err(NoMemory) => Err(Halt::Memory),
    }
}

/// The report on a certificate of which a judgement failed.
fn report_failure(alloc: Global, line: u64, rule: u8) -> Result<Report, NoMemory>
    ensures { IfOk result (λ report. (report.status ≡ Status.No) × (report.text.items ≡ failure_text line rule)) }
{
    Ok(Report {
        status: Status::No,
        text: text_of_failure(alloc, line, rule)?,
    })
}
