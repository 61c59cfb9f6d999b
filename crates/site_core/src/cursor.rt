// Places of a search that only go on.
ghost use Rattle.site_forms.specs.declared.phase.Phase.{Phase};
ghost use Rattle.site_forms.specs.Volumes.{Shape};
ghost use Rattle.site_core.specs.Cursors.{IsCursorOf};

/// How far the search for the next action has come. As long as nothing but next actions is done, it stays right, and the
/// search never goes over a name or a chunk twice.
#[derive(Clone, Copy, Debug, PartialEq, Eq)]
pub struct Cursor {
    /// Nothing is to be copied of the names before this place.
    pub name: u32,
    /// Nor of the chunks before this one of the name at that place.
    pub chunk: u32,
    /// The target holds the names before this place.
    pub added: u32,
    /// The source lacks the names before this place.
    pub dropped: u32,
}

impl Cursor {
    /// The beginning of a search, which is right for every site.
    pub fn start() -> Cursor
        ensures { (a b : Shape) (phase : Phase) → IsCursorOf a b phase result }
    {
        Cursor {
            name: 0,
            chunk: 0,
            added: 0,
            dropped: 0,
        }
    }
}
