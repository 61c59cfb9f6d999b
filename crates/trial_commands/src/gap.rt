// The command `gap`.
ghost use Rattle.std.specs.Prelude.{◌≡◌, true, length, IfOk};
ghost use Rattle.fault_count.specs.Counts.{HandsOn};
ghost use Rattle.seed_model.specs.Tables.{IsTable};
ghost use Rattle.recipe_reader.specs.Recipes.{table_of};
ghost use Rattle.cert_check.specs.Checking.{IsSound, root_checked};
ghost use Rattle.planning_commands.specs.Check.{judged_table};
ghost use Rattle.planning_commands.specs.Tables.{HasSumsOf};
ghost use Rattle.trial_commands.specs.Gap.{GapOf, GapOver, HeardGap, PrintsBeside, PrintsBetween, ReportsBeside};
ghost use Rattle.trial_commands.specs.Greedy.{IsFound, TriesSet};

use crate::gap_text::{text_of_gap, text_of_no_set};
use crate::seeking::seek;
use cert_check::{CheckError, Checked, Verdict, check_text};
use chunk_merge::merge_laws;
use command_texts::{Halt, Refusal, Report, Status, or_halt, refused};
use greedy_seed::Tried;
use planning_commands::checked_text::text_of_failure;
use planning_commands::merged_table::merged_table;
use planning_commands::reading::recipe_named;
use recipe_reader::Recipe;
use seed_io::Shelf;
use seed_model::{NoMemory, PlanSet, Table};
use std::alloc::Global;

/// Reads a recipe by its name, judges by it the certificate of another name as `check` does, and seeks a set of files greedily
/// with the certificate's range and pins: the least that any plan replicates lies between the certificate's bound and what that
/// set replicates.
pub fn gap<F: Shelf>(
    alloc: Global,
    shelf: &mut F,
    name: &str,
    certificate: &str,
) -> Result<Report, Halt>
    ensures report { IfOk result (λ report. GapOver (F.tells shelf.old) (F.map shelf.old) name.now certificate.now report.status report.text.items) }
    ensures cause { HandsOn Halt.Outside (F.faults shelf.old) (F.faults shelf.new) result }
    ensures tells { F.tells shelf.new ≡ F.tells shelf.old }
    ensures same { F.map shelf.new ≡ F.map shelf.old }
{
    match recipe_named(alloc, shelf, name)? {
        Ok(recipe) => gap_by(alloc, shelf, &recipe, certificate),
        Err(report) => Ok(report),
    }
}

/// The gap of the certificate of a name by a recipe.
fn gap_by<F: Shelf>(
    alloc: Global,
    shelf: &mut F,
    recipe: &Recipe,
    name: &str,
) -> Result<Report, Halt>
    ensures told { F.tells shelf.old ≡ true → IfOk result (λ report. GapOf (F.map shelf.old) name.now report.status report.text.items recipe.now) }
    ensures heard { IfOk result (λ report. HeardGap name.now report.status report.text.items recipe.now) }
    ensures cause { HandsOn Halt.Outside (F.faults shelf.old) (F.faults shelf.new) result }
    ensures tells { F.tells shelf.new ≡ F.tells shelf.old }
    ensures same { F.map shelf.new ≡ F.map shelf.old }
{
    let _files = recipe.files();
    match merged_table(alloc, recipe) {
        Ok(table) => judge(alloc, shelf, recipe, &table, name),
        Err(NoMemory) => Err(Halt::Memory),
    }
}

/// Judges the certificate of a name by the table of a recipe, and seeks a set beside it.
fn judge<F: Shelf>(
    alloc: Global,
    shelf: &mut F,
    recipe: &Recipe,
    table: &Table,
    name: &str,
) -> Result<Report, Halt>
    requires table { table.now ≡ judged_table recipe.now }
    requires lawful { IsTable table.now }
    requires sums { HasSumsOf (table_of recipe.now) table.now }
    ensures told { F.tells shelf.old ≡ true → IfOk result (λ report. GapOf (F.map shelf.old) name.now report.status report.text.items recipe.now) }
    ensures heard { IfOk result (λ report. HeardGap name.now report.status report.text.items recipe.now) }
    ensures cause { HandsOn Halt.Outside (F.faults shelf.old) (F.faults shelf.new) result }
    ensures tells { F.tells shelf.new ≡ F.tells shelf.old }
    ensures same { F.map shelf.new ≡ F.map shelf.old }
{
    merge_laws();
    match check_text(alloc, table, shelf, name) {
        Ok(checked) => or_halt(report_on(alloc, recipe, table, &checked)),
        Err(CheckError::NotThere) => or_halt(refused(alloc, &Refusal::NotThere { name })),
        Err(CheckError::TooLong) => or_halt(refused(alloc, &Refusal::TooLong { name })),
        Err(CheckError::Fault) => Err(Halt::Outside),
        Err(CheckError::Memory) => Err(Halt::Memory),
    }
}

/// The report on a checked certificate.
fn report_on(
    alloc: Global,
    recipe: &Recipe,
    table: &Table,
    checked: &Checked,
) -> Result<Report, NoMemory>
    requires table { table.now ≡ judged_table recipe.now }
    requires lawful { IsTable table.now }
    requires sums { HasSumsOf (table_of recipe.now) table.now }
    requires sound { IsSound table.now checked.now }
    ensures { IfOk result (λ report. ReportsBeside checked.now.verdict recipe.now checked.now report.status report.text.items) }
{
    match checked.verdict {
        Verdict::Yes => seek_beside(alloc, recipe, table, checked),
        Verdict::No { line, rule } => Ok(Report {
            status: Status::No,
            text: text_of_failure(alloc, line, rule)?,
        }),
    }
}

/// Seeks a set beside a certificate that is valid. Where a set is found, the certificate has a bound.
fn seek_beside(
    alloc: Global,
    recipe: &Recipe,
    table: &Table,
    checked: &Checked,
) -> Result<Report, NoMemory>
    requires table { table.now ≡ judged_table recipe.now }
    requires lawful { IsTable table.now }
    requires sums { HasSumsOf (table_of recipe.now) table.now }
    requires sound { IsSound table.now checked.now }
    requires valid { checked.now.verdict ≡ Verdict.Yes }
    ensures { IfOk result (λ report. PrintsBeside recipe.now checked.now.range (root_checked (length recipe.now.files) checked.now.pins) checked.now.bound report.status report.text.items) }
{
    let tried = seek(alloc, recipe, table, &checked.range, checked.pins.as_ref())?;
    report_beside(alloc, recipe, table, checked, &tried)
}

/// The report on what was tried beside a certificate that is valid.
fn report_beside(
    alloc: Global,
    recipe: &Recipe,
    table: &Table,
    checked: &Checked,
    tried: &Tried,
) -> Result<Report, NoMemory>
    requires table { table.now ≡ judged_table recipe.now }
    requires lawful { IsTable table.now }
    requires sums { HasSumsOf (table_of recipe.now) table.now }
    requires sound { IsSound table.now checked.now }
    requires valid { checked.now.verdict ≡ Verdict.Yes }
    requires tried { TriesSet recipe.now checked.now.range (root_checked (length recipe.now.files) checked.now.pins) tried.now }
    ensures { IfOk result (λ report. PrintsBeside recipe.now checked.now.range (root_checked (length recipe.now.files) checked.now.pins) checked.now.bound report.status report.text.items) }
{
    match &tried.set {
        Some(set) => report_between(alloc, recipe, table, checked, set),
        None => Ok(Report {
            status: Status::No,
            text: text_of_no_set(alloc)?,
        }),
    }
}

/// The report on a set that was found beside a certificate that is valid: the certificate has a bound.
fn report_between(
    alloc: Global,
    recipe: &Recipe,
    table: &Table,
    checked: &Checked,
    set: &PlanSet,
) -> Result<Report, NoMemory>
    requires table { table.now ≡ judged_table recipe.now }
    requires lawful { IsTable table.now }
    requires sums { HasSumsOf (table_of recipe.now) table.now }
    requires sound { IsSound table.now checked.now }
    requires valid { checked.now.verdict ≡ Verdict.Yes }
    requires found { IsFound recipe.now checked.now.range (root_checked (length recipe.now.files) checked.now.pins) set.now }
    ensures { IfOk result (λ report. PrintsBetween recipe.now checked.now.range (root_checked (length recipe.now.files) checked.now.pins) checked.now.bound report.status report.text.items) }
{
    merge_laws();
    let Some(bound) = checked.bound else {
        unreachable!()
    };
    Ok(Report {
        status: Status::Done,
        text: text_of_gap(alloc, recipe, table, set, bound)?,
    })
}
