// What a command is to print.
ghost use Rattle.std.specs.Prelude.{◌≡◌, Ok, IfOk, IfErr};
ghost use Rattle.command_texts.specs.Refusals.{Refuses};
ghost use Rattle.command_texts.specs.Refused.{refusal_of};

use crate::refusal::{Refusal, number_of, text_of};
use crate::status::Status;
use seed_model::NoMemory;
use std::alloc::Global;

/// What a command is to print, and how it then ends.
#[derive(Drop)]
pub struct Report {
    pub status: Status,
    pub text: Vec<u8>,
}

/// Why a command has nothing to print.
#[derive(Clone, Copy, Debug, PartialEq, Eq)]
pub enum Halt {
    /// A call of the shelf failed.
    Outside,
    /// Memory ran out.
    Memory,
}

/// The report of a refused command.
pub fn refused(alloc: Global, refusal: &Refusal) -> Result<Report, NoMemory>
    ensures { IfOk result (λ report. Refuses (refusal_of refusal.now) report.status report.text.items) }
{
    let text = text_of(alloc, refusal)?;
    Ok(Report {
        status: Status::Refused(number_of(refusal)),
        text: text.into_bytes(),
    })
}

/// What was made, or the halt for want of memory.
pub fn or_halt<T: Drop>(made: Result<T, NoMemory>) -> Result<T, Halt>
    ensures ok { IfOk result (λ value. made ≡ Ok value) }
    ensures err { IfErr result (λ halt. halt ≡ Halt.Memory) }
{
    match made {
        Ok(value) => Ok(value),
        Err(NoMemory) => Err(Halt::Memory),
    }
}
