// The next action of a migration.
ghost use Rattle.std.specs.Prelude.{◌≡◌};
ghost use Rattle.site_core.specs.Cursors.{GoesOn, IsCursor, IsCursorOf, MovesCursor};
ghost use Rattle.site_core.specs.Steps.{next_of, next_step as step_of};

use crate::action::Action;
use crate::cursor::Cursor;
use crate::search::{first_held, first_lacked, first_to_copy};
use crate::state::SiteState;
use crate::step::{Step, back, forth};
use site_forms::{Names, Phase};
use volume_index::Holding;

/// The next action; none exactly in Idle and Moved. It takes no memory, and goes over all names and all chunks of their
/// files: `next_from` goes on from where it was.
pub fn next_action(state: &SiteState) -> Option<Action>
    ensures { result ≡ next_of state.now.a.now.shape state.now.b.now.shape state.now.phase.now }
{
    let mut cursor = Cursor::start();
    next_from(state, &mut cursor)
}

/// The next action, sought from where a cursor stands, which then stands where it was found. None exactly in Idle and
/// Moved. It takes no memory.
pub fn next_from(state: &SiteState, cursor: &mut Cursor) -> Option<Action>
    requires { IsCursorOf state.now.a.now.shape state.now.b.now.shape state.now.phase.now cursor.old }
    ensures next { result ≡ next_of state.now.a.now.shape state.now.b.now.shape state.now.phase.now }
    ensures cursor { IsCursorOf state.now.a.now.shape state.now.b.now.shape state.now.phase.now cursor.new }
    ensures moves { MovesCursor state.now.a.now.shape state.now.b.now.shape state.now.phase.now cursor.old cursor.new }
{
    match state.phase {
        Phase::Idle => None,
        Phase::Moving(names) => Some(forth(next_step(state.a, state.b, names, cursor))),
        Phase::Moved(_) => None,
        Phase::Undoing(names) => Some(back(next_step(state.b, state.a, names, cursor))),
    }
}

// The next action from a source to a target.
fn next_step(source: &Holding, target: &Holding, names: &Names, cursor: &mut Cursor) -> Step
    requires { IsCursor source.now.shape target.now.shape names.now cursor.old }
    ensures step { result ≡ step_of source.now.shape target.now.shape names.now }
    ensures cursor { IsCursor source.now.shape target.now.shape names.now cursor.new }
    ensures moves { GoesOn source.now.shape names.now cursor.old cursor.new result }
{
    let spot = first_to_copy(source, target, names, cursor.name, cursor.chunk);
    cursor.name = spot.name;
    cursor.chunk = spot.place;
    if let Some(chunk) = spot.chunk {
        return Step::Copy(chunk);
    }
    cursor.added = first_lacked(target, names, cursor.added);
    if cursor.added < names.len() {
        return Step::Add(cursor.added);
    }
    cursor.dropped = first_held(source, names, cursor.dropped);
    if cursor.dropped < names.len() {
        return Step::Drop(cursor.dropped);
    }
    match source.first_orphan() {
        Some(chunk) => Step::DropChunk(chunk),
        None => Step::Finish,
    }
}
