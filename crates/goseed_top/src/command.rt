// The top call: words to what is printed, answered and left.
ghost use Rattle.std.specs.Prelude.{◌≡◌, ◌≢◌, ◌<◌, ◌≤◌, ◌⊎◌, ℕ, List, true, false, IfOk};
ghost use Rattle.fault_count.specs.Counts.{Rose};
ghost use Rattle.goseed_words.specs.Asked.{IsCreated, IsLawful, UsesSite};
ghost use Rattle.goseed_words.specs.Commands.{row};
ghost use Rattle.goseed_words.specs.Orders.{asked_of, texts, MeansNoOrder};
ghost use Rattle.command_endings.specs.Worlds.{seen};
ghost use Rattle.goseed_top.specs.Causes.{CauseOver};
ghost use Rattle.goseed_top.specs.Endings.{Answers, LeavesPart, Prints, PrintsPart};
ghost use Rattle.goseed_top.specs.Faults.{HandsOnBoth, faults};
ghost use Rattle.goseed_top.specs.Planning.{Draws, Plans};
ghost use Rattle.goseed_top.specs.Reports.{OrderAnswers, OrderKeeps, OrderLeaves};

use crate::groups::{Group, group_of};
use crate::laws::command_laws;
use crate::reports::{report_of_ordering, report_of_reading, report_of_search, report_of_trial};
use command_texts::{Halt, Refusal, Report, Status, or_halt, refused};
use goseed_words::{Order, WordError, order_of, word_laws};
use planning_commands::planning_laws;
use seed_io::{Shelf, Sink, SinkError};
use std::alloc::Global;
use volume_disk::Rack;

/// Carries out the command of these words: reads what it needs from the shelf and the rack, leaves there what it creates,
/// prints its text into the sink, and answers how it ended. The whole text is made before any of it is printed.
#[tactic(auto, using(crate::proofs::RunLemmas::leaves_others))]
pub fn run<F: Shelf, K: Sink, R: Rack>(
    alloc: Global,
    words: &[String],
    shelf: &mut F,
    out: &mut K,
    rack: &mut R,
) -> Status
    // What a command prints, answers and leaves, where it was not stopped.
    ensures answer { result ≢ Status.Outside → result ≢ Status.Memory
        → Prints (seen (F.tells shelf.old) (F.map shelf.old) (R.honest rack.old) (R.disk rack.old)) (seen (F.tells shelf.old) (F.map shelf.new) (R.honest rack.old) (R.disk rack.new)) (texts words.now) result (K.tells out.old) (K.taken out.old) (K.taken out.new) }

    // Why it answered so.
    ensures cause { result ≢ Status.Outside → result ≢ Status.Memory
        → CauseOver (seen (F.tells shelf.old) (F.map shelf.old) (R.honest rack.old) (R.disk rack.old)) (texts words.now) result }

    // The headline of planning: where the shelf tells its bytes, the status, the text and the bytes behind the certificate's name
    // are one outcome of the search that the words ask for.
    ensures planned { F.tells shelf.old ≡ true → result ≢ Status.Outside → result ≢ Status.Memory
        → Plans (F.map shelf.old) (F.map shelf.new) (texts words.now) result (K.tells out.old) (K.taken out.old) (K.taken out.new) }

    // The same of a recipe that is drawn: its text and the certificate stand behind their names, and `check` says yes to it.
    ensures drawn { F.tells shelf.old ≡ true → result ≢ Status.Outside → result ≢ Status.Memory
        → Draws (F.map shelf.old) (F.map shelf.new) (texts words.now) result (K.tells out.old) (K.taken out.old) (K.taken out.new) }

    // Why it was stopped: a call of the shelf, of the sink, or of the rack failed, or memory ran out.
    ensures outside { result ≡ Status.Outside → Rose (F.faults shelf.old) (F.faults shelf.new) ⊎ (Rose (K.faults out.old) (K.faults out.new) ⊎ (UsesSite (texts words.now) × Rose (R.faults rack.old) (R.faults rack.new))) }
    ensures shelf_fault { F.faults shelf.old < F.faults shelf.new → result ≡ Status.Outside }
    ensures sink_fault { K.faults out.old < K.faults out.new → result ≡ Status.Outside }
    ensures rack_fault { R.faults rack.old < R.faults rack.new → result ≡ Status.Outside }

    // What a stopped command printed and left.
    ensures part { K.tells out.old ≡ true → (result ≡ Status.Outside) ⊎ (result ≡ Status.Memory)
        → PrintsPart (seen (F.tells shelf.old) (F.map shelf.old) (R.honest rack.old) (R.disk rack.old)) (texts words.now) (K.taken out.old) (K.taken out.new) }
    ensures nothing { F.faults shelf.old < F.faults shelf.new → K.tells out.old ≡ true → K.taken out.new ≡ K.taken out.old }
    ensures rack_nothing { R.faults rack.old < R.faults rack.new → K.tells out.old ≡ true → K.taken out.new ≡ K.taken out.old }
    ensures left { F.tells shelf.old ≡ true → LeavesPart (seen (F.tells shelf.old) (F.map shelf.old) (R.honest rack.old) (R.disk rack.old)) (F.map shelf.new) (texts words.now) }

    // What stays, whatever it answered.
    ensures shelf_same { ((name : List ℕ) → ¬ IsCreated (texts words.now) name) → F.map shelf.new ≡ F.map shelf.old }
    ensures others { F.tells shelf.old ≡ true → (name : List ℕ) → ¬ IsCreated (texts words.now) name → F.map shelf.new name ≡ F.map shelf.old name }
    ensures untouched { MeansNoOrder (texts words.now) → shelf.new ≡ shelf.old }
    ensures site_untouched { MeansNoOrder (texts words.now) → rack.new ≡ rack.old }
    ensures off_site { ¬ UsesSite (texts words.now) → rack.new ≡ rack.old }
    ensures shelf_tells { F.tells shelf.new ≡ F.tells shelf.old }
    ensures sink_tells { K.tells out.new ≡ K.tells out.old }
    ensures rack_honest { R.honest rack.new ≡ R.honest rack.old }
    ensures shelf_later { F.faults shelf.old ≤ F.faults shelf.new }
    ensures sink_later { K.faults out.old ≤ K.faults out.new }
    ensures rack_later { R.faults rack.old ≤ R.faults rack.new }
{
    command_laws();
    planning_laws();
    let report = match report_of(alloc, words, shelf, rack) {
        Ok(report) => report,
        Err(Halt::Outside) => return Status::Outside,
        Err(Halt::Memory) => return Status::Memory,
    };
    match out.push(&report.text) {
        Ok(()) => report.status,
        Err(SinkError::Fault) => Status::Outside,
        Err(SinkError::Memory) => Status::Memory,
    }
}

/// What the command of these words is to print, and how it then ends.
#[tactic(auto, using(crate::proofs::RunLemmas::leaves_same))]
fn report_of<F: Shelf, R: Rack>(
    alloc: Global,
    words: &[String],
    shelf: &mut F,
    rack: &mut R,
) -> Result<Report, Halt>
    ensures report { IfOk result (λ report. Answers (seen (F.tells shelf.old) (F.map shelf.old) (R.honest rack.old) (R.disk rack.old)) (seen (F.tells shelf.old) (F.map shelf.new) (R.honest rack.old) (R.disk rack.new)) (texts words.now) report.status report.text.items) }
    ensures left { F.tells shelf.old ≡ true → LeavesPart (seen (F.tells shelf.old) (F.map shelf.old) (R.honest rack.old) (R.disk rack.old)) (F.map shelf.new) (texts words.now) }
    ensures same { ((name : List ℕ) → ¬ IsCreated (texts words.now) name) → F.map shelf.new ≡ F.map shelf.old }
    ensures untouched { MeansNoOrder (texts words.now) → shelf.new ≡ shelf.old }
    ensures site_untouched { MeansNoOrder (texts words.now) → rack.new ≡ rack.old }
    ensures off_site { ¬ UsesSite (texts words.now) → rack.new ≡ rack.old }
    ensures cause { HandsOnBoth (UsesSite (texts words.now)) (faults (F.faults shelf.old) (R.faults rack.old)) (faults (F.faults shelf.new) (R.faults rack.new)) result }
    ensures tells { F.tells shelf.new ≡ F.tells shelf.old }
    ensures honest { R.honest rack.new ≡ R.honest rack.old }
{
    word_laws();
    match order_of(words) {
        Ok(order) => report_of_order(alloc, order, shelf, rack),
        Err(WordError::Usage) => or_halt(refused(alloc, &Refusal::Usage)),
        Err(WordError::BadWord { place }) => or_halt(refused(alloc, &Refusal::BadWord { place })),
    }
}

/// What the command of an order is to print, and how it then ends.
fn report_of_order<F: Shelf, R: Rack>(
    alloc: Global,
    order: Order,
    shelf: &mut F,
    rack: &mut R,
) -> Result<Report, Halt>
    requires { IsLawful (asked_of order) }
    ensures report { IfOk result (λ report. OrderAnswers (seen (F.tells shelf.old) (F.map shelf.old) (R.honest rack.old) (R.disk rack.old)) (seen (F.tells shelf.old) (F.map shelf.new) (R.honest rack.old) (R.disk rack.new)) order.entry report.status report.text.items) }
    ensures left { F.tells shelf.old ≡ true → OrderLeaves (seen (F.tells shelf.old) (F.map shelf.old) (R.honest rack.old) (R.disk rack.old)) (F.map shelf.new) order.entry }
    ensures same { OrderKeeps (F.map shelf.old) (F.map shelf.new) order.entry }
    ensures off_site { (row (asked_of order.entry).command).uses_site ≡ false → rack.new ≡ rack.old }
    ensures cause { HandsOnBoth ((row (asked_of order.entry).command).uses_site ≡ true) (faults (F.faults shelf.old) (R.faults rack.old)) (faults (F.faults shelf.new) (R.faults rack.new)) result }
    ensures tells { F.tells shelf.new ≡ F.tells shelf.old }
    ensures honest { R.honest rack.new ≡ R.honest rack.old }
{
    match group_of(&order) {
        Group::Reading => report_of_reading(alloc, order, shelf),
        Group::Searching => report_of_search(alloc, order, shelf),
        Group::Trying => report_of_trial(alloc, order, shelf),
        Group::Ordering => report_of_ordering(alloc, order, shelf),
    }
}
