// The command `gen`.
ghost use Rattle.std.specs.Prelude.{◌≡◌, ◌≤◌, true, IfOk};
ghost use Rattle.csv_rows.specs.Rows.{rows_of};
ghost use Rattle.fault_count.specs.Counts.{HandsOn};
ghost use Rattle.seed_io.specs.Shelf.{OthersStay};
ghost use Rattle.seed_model.specs.declared.limits.TheConstants.{MOST_FILES};
ghost use Rattle.seed_model.specs.Tables.{IsTable};
ghost use Rattle.recipe_reader.specs.Reading.{Leads};
ghost use Rattle.recipe_reader.specs.Recipes.{RecipeValue, empty_recipe};
ghost use Rattle.planning_commands.specs.Check.{judged_table};
ghost use Rattle.trial_commands.specs.Gen.{DrawnBy, GenOver, GivesBoth, HoldsValid, IsPassed, JudgesDrawn, LeavesBoth, LeavesDocument, LeavesDrawn, SearchedOver, document_name, judged_lines, judged_status};
ghost use Rattle.trial_commands.specs.Texts.{gen_text};

use crate::drawing_text::text_of_gen;
use bound_cert::certificate_laws;
use cert_check::{CheckError, Verdict, check_text};
use command_endings::create_with;
use command_texts::{Halt, Refusal, Report, Status, or_halt, refused};
use goseed_words::Amount;
use load_gen::generate;
use planning_commands::merged_table::merged_table;
use planning_commands::plan::{Sought, search_by};
use planning_commands::ranges::range_within;
use recipe_reader::{Recipe, RecipeError, read_recipe, recipe_laws, write_recipe};
use seed_io::Shelf;
use seed_model::{NoMemory, Table};
use std::alloc::Global;

/// The name of the recipe's text.
const RECIPE_NAME: &str = "gen.csv";

/// The name of the certificate.
const DOCUMENT_NAME: &str = "gen.doc";

/// The most branchings of the search.
const MOST_BRANCHINGS: u32 = 200;

/// The text of a recipe, and the recipe that it gives.
#[derive(Drop)]
struct Drawn {
    text: Vec<u8>,
    recipe: Recipe,
}

/// Draws a recipe of so many files from a number, writes its text under `gen.csv`, searches over the recipe that this text
/// gives for a plan of 30% of its bytes, 2% more or less, with at most 200 branchings, writes the certificate under `gen.doc`,
/// and judges the certificate that the shelf then gives back. The answer is the search's; or no, where the certificate that
/// the shelf gives back is not valid, as no shelf does that tells its bytes.
pub fn draw<F: Shelf>(alloc: Global, shelf: &mut F, number: u32, files: u32) -> Result<Report, Halt>
    requires number { number ≤ 65535 }
    requires some { 1 ≤ files }
    requires few { files ≤ MOST_FILES }
    ensures report { IfOk result (λ report. GenOver (F.tells shelf.old) (F.map shelf.old) (F.map shelf.new) number files report.status report.text.items) }
    ensures left { F.tells shelf.old ≡ true → LeavesDrawn number files (F.map shelf.old) (F.map shelf.new) }
    ensures cause { HandsOn Halt.Outside (F.faults shelf.old) (F.faults shelf.new) result }
    ensures tells { F.tells shelf.new ≡ F.tells shelf.old }
{
    match read_drawn(alloc, number, files) {
        Ok(drawn) => plan_drawn(alloc, shelf, &drawn),
        Err(NoMemory) => Err(Halt::Memory),
    }
}

/// The text of the recipe that is drawn, and the recipe that it gives.
fn read_drawn(alloc: Global, number: u32, files: u32) -> Result<Drawn, NoMemory>
    requires number { number ≤ 65535 }
    requires some { 1 ≤ files }
    requires few { files ≤ MOST_FILES }
    ensures { IfOk result (DrawnBy number files) }
{
    recipe_laws();
    let made = generate(alloc, number, files)?;
    let text = write_recipe(alloc, &made)?;
    let recipe = read_back(alloc, &text)?;
    Ok(Drawn { text, recipe })
}

/// The recipe that a text gives, which is that of a recipe.
fn read_back(alloc: Global, text: &[u8]) -> Result<Recipe, NoMemory>
    requires { (recipe : RecipeValue) × Leads empty_recipe (rows_of text.now) recipe }
    ensures { IfOk result (λ recipe. Leads empty_recipe (rows_of text.now) recipe) }
{
    recipe_laws();
    match read_recipe(alloc, text) {
        Ok(recipe) => Ok(recipe),
        Err(RecipeError::Memory) => Err(NoMemory),
        Err(_) => unreachable!(),
    }
}

/// Writes the text of a recipe, and searches over the recipe.
fn plan_drawn<F: Shelf>(alloc: Global, shelf: &mut F, drawn: &Drawn) -> Result<Report, Halt>
    ensures report { IfOk result (λ report. GivesBoth (F.tells shelf.old) drawn.now.text.items drawn.now.recipe (F.map shelf.old) (F.map shelf.new) report.status report.text.items) }
    ensures left { F.tells shelf.old ≡ true → LeavesBoth drawn.now.text.items drawn.now.recipe (F.map shelf.old) (F.map shelf.new) }
    ensures cause { HandsOn Halt.Outside (F.faults shelf.old) (F.faults shelf.new) result }
    ensures tells { F.tells shelf.new ≡ F.tells shelf.old }
{
    let _files = drawn.recipe.files();
    match merged_table(alloc, &drawn.recipe) {
        Ok(table) => write_drawn(alloc, shelf, drawn, &table),
        Err(NoMemory) => Err(Halt::Memory),
    }
}

/// Writes the text of a recipe, and searches over the table of the recipe.
fn write_drawn<F: Shelf>(
    alloc: Global,
    shelf: &mut F,
    drawn: &Drawn,
    table: &Table,
) -> Result<Report, Halt>
    requires table { table.now ≡ judged_table drawn.now.recipe }
    requires lawful { IsTable table.now }
    ensures report { IfOk result (λ report. GivesBoth (F.tells shelf.old) drawn.now.text.items drawn.now.recipe (F.map shelf.old) (F.map shelf.new) report.status report.text.items) }
    ensures left { F.tells shelf.old ≡ true → LeavesBoth drawn.now.text.items drawn.now.recipe (F.map shelf.old) (F.map shelf.new) }
    ensures cause { HandsOn Halt.Outside (F.faults shelf.old) (F.faults shelf.new) result }
    ensures tells { F.tells shelf.new ≡ F.tells shelf.old }
{
    match create_with(shelf, RECIPE_NAME, &drawn.text) {
        Ok(()) => search_drawn(alloc, shelf, &drawn.recipe, table),
        Err(halt) => Err(halt),
    }
}

/// Searches over the table of a recipe, writes the certificate, and judges what the shelf then gives back.
fn search_drawn<F: Shelf>(
    alloc: Global,
    shelf: &mut F,
    recipe: &Recipe,
    table: &Table,
) -> Result<Report, Halt>
    requires table { table.now ≡ judged_table recipe.now }
    requires lawful { IsTable table.now }
    ensures report { IfOk result (λ report. SearchedOver (F.tells shelf.old) recipe.now report.status report.text.items (F.map shelf.new document_name)) }
    ensures left { F.tells shelf.old ≡ true → LeavesDocument recipe.now (F.map shelf.old document_name) (F.map shelf.new document_name) }
    ensures others { F.tells shelf.old ≡ true → OthersStay (F.map shelf.old) (F.map shelf.new) document_name }
    ensures cause { HandsOn Halt.Outside (F.faults shelf.old) (F.faults shelf.new) result }
    ensures tells { F.tells shelf.new ≡ F.tells shelf.old }
{
    let range = range_within(recipe.total(), Amount::Percent(30), Amount::Percent(2));
    let sought = Sought {
        range,
        pins: None,
        nodes: MOST_BRANCHINGS,
    };
    match search_by(alloc, shelf, recipe, table, DOCUMENT_NAME, &sought) {
        Ok(planned) => judge(alloc, shelf, recipe, table, &planned),
        Err(halt) => Err(halt),
    }
}

/// Judges what the shelf gives back as the certificate of a search.
fn judge<F: Shelf>(
    alloc: Global,
    shelf: &mut F,
    recipe: &Recipe,
    table: &Table,
    planned: &Report,
) -> Result<Report, Halt>
    requires table { table.now ≡ judged_table recipe.now }
    ensures told { F.tells shelf.old ≡ true → HoldsValid (F.map shelf.old) recipe.now → IfOk result (λ report. IsPassed recipe.now planned.now.status planned.now.text.items report.status report.text.items) }
    ensures heard { IfOk result (λ report. JudgesDrawn recipe.now planned.now.status planned.now.text.items report.status report.text.items) }
    ensures cause { HandsOn Halt.Outside (F.faults shelf.old) (F.faults shelf.new) result }
    ensures tells { F.tells shelf.new ≡ F.tells shelf.old }
    ensures same { F.map shelf.new ≡ F.map shelf.old }
{
    certificate_laws();
    let name = DOCUMENT_NAME;
    match check_text(alloc, table, shelf, name) {
        Ok(checked) => or_halt(report_on(alloc, recipe, table, planned, checked.verdict)),
        Err(CheckError::NotThere) => or_halt(refused(alloc, &Refusal::NotThere { name })),
        Err(CheckError::TooLong) => or_halt(refused(alloc, &Refusal::TooLong { name })),
        Err(CheckError::Fault) => Err(Halt::Outside),
        Err(CheckError::Memory) => Err(Halt::Memory),
    }
}

/// The report on a search by the verdict on its certificate.
fn report_on(
    alloc: Global,
    recipe: &Recipe,
    table: &Table,
    planned: &Report,
    verdict: Verdict,
) -> Result<Report, NoMemory>
    requires table { table.now ≡ judged_table recipe.now }
    ensures status { IfOk result (λ report. report.status ≡ judged_status verdict planned.now.status) }
    ensures text { IfOk result (λ report. report.text.items ≡ gen_text recipe.now planned.now.text.items (judged_lines verdict)) }
{
    let text = text_of_gen(alloc, recipe, table, &planned.text, verdict)?;
    Ok(Report {
        status: status_by(verdict, planned.status),
        text,
    })
}

/// How the command ends by the verdict on the certificate of a search that ended so.
fn status_by(verdict: Verdict, planned: Status) -> Status
    ensures { result ≡ judged_status verdict planned }
{
    match verdict {
        Verdict::Yes => planned,
        Verdict::No { .. } => Status::No,
    }
}
