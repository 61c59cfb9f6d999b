// The command `check`.
ghost use Rattle.std.specs.Prelude.{◌≡◌, true, length, IfOk, IfSome};
ghost use Rattle.fault_count.specs.Counts.{HandsOn};
ghost use Rattle.planning_commands.specs.Check.{CheckOf, CheckOver, HeardOf, ReportsOn, judged_table, verdict_status};

use crate::checked_text::text_of_checked;
use crate::merged_table::merged_table;
use crate::reading::recipe_named;
use cert_check::{CheckError, Checked, Verdict, check_text};
use chunk_merge::merge_laws;
use command_texts::{Halt, Refusal, Report, Status, or_halt, refused};
use recipe_reader::Recipe;
use seed_io::Shelf;
use seed_model::{NoMemory, Table};
use std::alloc::Global;

/// Reads a recipe by its name, and judges by it the certificate of another name: whether it is valid, and what it then
/// shows, or the first judgement that fails. The certificate is read by pieces, and no more of it is kept than a piece
/// and a line.
pub fn check<F: Shelf>(
    alloc: Global,
    shelf: &mut F,
    name: &str,
    certificate: &str,
) -> Result<Report, Halt>
    ensures report { IfOk result (λ report. CheckOver (F.tells shelf.old) (F.map shelf.old) name.now certificate.now report.status report.text.items) }
    ensures cause { HandsOn Halt.Outside (F.faults shelf.old) (F.faults shelf.new) result }
    ensures tells { F.tells shelf.new ≡ F.tells shelf.old }
    ensures same { F.map shelf.new ≡ F.map shelf.old }
{
    match recipe_named(alloc, shelf, name)? {
        Ok(recipe) => check_by(alloc, shelf, &recipe, certificate),
        Err(report) => Ok(report),
    }
}

/// Judges the certificate of a name by a recipe.
fn check_by<F: Shelf>(
    alloc: Global,
    shelf: &mut F,
    recipe: &Recipe,
    name: &str,
) -> Result<Report, Halt>
    ensures told { F.tells shelf.old ≡ true → IfOk result (λ report. CheckOf (F.map shelf.old) name.now report.status report.text.items recipe.now) }
    ensures heard { IfOk result (λ report. HeardOf name.now report.status report.text.items recipe.now) }
    ensures cause { HandsOn Halt.Outside (F.faults shelf.old) (F.faults shelf.new) result }
    ensures tells { F.tells shelf.new ≡ F.tells shelf.old }
    ensures same { F.map shelf.new ≡ F.map shelf.old }
{
    let _files = recipe.files();
    match merged_table(alloc, recipe) {
        Ok(table) => judge(alloc, shelf, recipe, &table, name),
        Err(NoMemory) => Err(Halt::Memory),
    }
}

/// Judges the certificate of a name by the table of a recipe.
fn judge<F: Shelf>(
    alloc: Global,
    shelf: &mut F,
    recipe: &Recipe,
    table: &Table,
    name: &str,
) -> Result<Report, Halt>
    requires { table.now ≡ judged_table recipe.now }
    ensures told { F.tells shelf.old ≡ true → IfOk result (λ report. CheckOf (F.map shelf.old) name.now report.status report.text.items recipe.now) }
    ensures heard { IfOk result (λ report. HeardOf name.now report.status report.text.items recipe.now) }
    ensures cause { HandsOn Halt.Outside (F.faults shelf.old) (F.faults shelf.new) result }
    ensures tells { F.tells shelf.new ≡ F.tells shelf.old }
    ensures same { F.map shelf.new ≡ F.map shelf.old }
{
    merge_laws();
    match check_text(alloc, table, shelf, name) {
        Ok(checked) => or_halt(report_on(alloc, recipe, &checked)),
        Err(CheckError::NotThere) => or_halt(refused(alloc, &Refusal::NotThere { name })),
        Err(CheckError::TooLong) => or_halt(refused(alloc, &Refusal::TooLong { name })),
        Err(CheckError::Fault) => Err(Halt::Outside),
        Err(CheckError::Memory) => Err(Halt::Memory),
    }
}

/// The report on a checked certificate.
fn report_on(alloc: Global, recipe: &Recipe, checked: &Checked) -> Result<Report, NoMemory>
    requires { IfSome checked.now.plan (λ plan. length plan ≡ length recipe.now.files) }
    ensures { IfOk result (λ report. ReportsOn recipe.now checked.now report.status report.text.items) }
{
    Ok(Report {
        status: status_of(checked.verdict),
        text: text_of_checked(alloc, recipe, checked)?,
    })
}

/// How a command ends by a verdict.
fn status_of(verdict: Verdict) -> Status
    ensures { result ≡ verdict_status verdict }
{
    match verdict {
        Verdict::Yes => Status::Done,
        Verdict::No { .. } => Status::No,
    }
}
