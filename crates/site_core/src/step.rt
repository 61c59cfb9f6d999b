// Actions, whichever way a migration goes.
ghost use Rattle.std.specs.Prelude.{◌≡◌};
ghost use Rattle.site_core.specs.Steps.{forth as forth_of, back as back_of};

use crate::action::Action;

/// One action, from a source to a target.
#[derive(Clone, Copy)]
pub(crate) enum Step {
    /// Copies a chunk of the source to the target.
    Copy([u8; 32]),
    /// Adds the file of this name's place to the target.
    Add(u32),
    /// Drops the file of this name's place from the source.
    Drop(u32),
    /// Drops a chunk from the source.
    DropChunk([u8; 32]),
    /// Records the end.
    Finish,
}

/// From A to B.
pub(crate) fn forth(step: Step) -> Action
    ensures { result ≡ forth_of step }
{
    match step {
        Step::Copy(chunk) => Action::CopyToB(chunk),
        Step::Add(place) => Action::AddToB(place),
        Step::Drop(place) => Action::DropFromA(place),
        Step::DropChunk(chunk) => Action::DropChunkA(chunk),
        Step::Finish => Action::Moved,
    }
}

/// And back.
pub(crate) fn back(step: Step) -> Action
    ensures { result ≡ back_of step }
{
    match step {
        Step::Copy(chunk) => Action::CopyToA(chunk),
        Step::Add(place) => Action::AddToA(place),
        Step::Drop(place) => Action::DropFromB(place),
        Step::DropChunk(chunk) => Action::DropChunkB(chunk),
        Step::Finish => Action::Undone,
    }
}
