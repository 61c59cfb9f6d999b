// The lines of an answer.
ghost use Rattle.std.specs.Prelude.{◌≡◌, ◌++◌, length, IfSome, OnOk, option_map};
ghost use Rattle.seed_model.specs.Files.{holds};
ghost use Rattle.planning_commands.specs.Texts.{answer_line, answer_lines, bound_line, planned_files, planned_lines};
ghost use Rattle.planning_commands.specs.Findings.{plan_of};

use crate::best_text::{add_files, add_plan};
use bound_cert::Answer;
use command_texts::lines::{add, add_line, add_number};
use recipe_reader::Recipe;
use seed_model::{NoMemory, PlanSet};
use seed_text::write_set;
use std::alloc::Global;

/// What a search found, or what a valid certificate shows.
#[derive(Drop)]
pub struct Findings<'a> {
    pub answer: Answer,
    /// A plan, with the bytes that it migrates and replicates; without one these are of no meaning.
    pub plan: Option<&'a PlanSet>,
    pub migrated: u64,
    pub replicated: u64,
    /// What every plan replicates at least, in bytes.
    pub bound: Option<u64>,
    pub branchings: u64,
}

/// Puts the lines of an answer behind a text.
pub fn add_answer(
    alloc: Global,
    text: &mut Vec<u8>,
    recipe: &Recipe,
    findings: &Findings,
) -> Result<(), NoMemory>
    requires { IfSome (plan_of findings.now) (λ plan. length plan ≡ length recipe.now.files) }
    ensures { OnOk result (text.new.items ≡ text.old.items ++ answer_lines recipe.now.files findings.now.answer (plan_of findings.now) findings.now.migrated findings.now.replicated findings.now.bound findings.now.branchings) }
{
    add_answer_line(text, findings.answer)?;
    add_planned(
        alloc,
        text,
        findings.plan,
        findings.migrated,
        findings.replicated,
    )?;
    add_bound(text, findings.bound)?;
    add_number(text, b"branchings", findings.branchings)?;
    match findings.plan {
        Some(plan) => add_files(text, recipe, plan),
        None => Ok(()),
    }
}

/// Puts the line of what is shown behind a text.
fn add_answer_line(text: &mut Vec<u8>, answer: Answer) -> Result<(), NoMemory>
    ensures { OnOk result (text.new.items ≡ text.old.items ++ answer_line answer) }
{
    match answer {
        Answer::Optimal => add(text, b"answer optimal\n"),
        Answer::Infeasible => add(text, b"answer infeasible\n"),
        Answer::Open => add(text, b"answer open\n"),
    }
}

/// Puts the lines of a plan and its sums behind a text, or that there is none.
fn add_planned(
    alloc: Global,
    text: &mut Vec<u8>,
    plan: Option<&PlanSet>,
    migrated: u64,
    replicated: u64,
) -> Result<(), NoMemory>
    ensures { OnOk result (text.new.items ≡ text.old.items ++ planned_lines (option_map (λ plan. plan.now) plan.entry) migrated replicated) }
{
    match plan {
        Some(plan) => {
            let set = write_set(alloc, plan)?;
            add_plan(text, &set, migrated, replicated)
        }
        None => add(text, b"plan none\n"),
    }
}

/// Puts the line of a bound behind a text, or that there is none.
fn add_bound(text: &mut Vec<u8>, bound: Option<u64>) -> Result<(), NoMemory>
    ensures { OnOk result (text.new.items ≡ text.old.items ++ bound_line bound) }
{
    match bound {
        Some(bound) => add_number(text, b"bound", bound),
        None => add(text, b"bound none\n"),
    }
}
