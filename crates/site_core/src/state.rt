// What is judged of a site.
use site_forms::Phase;
use volume_index::Holding;

/// What two volumes hold, and the phase of the journal.
pub struct SiteState<'s> {
    /// What A holds.
    pub a: &'s Holding,
    /// What B holds.
    pub b: &'s Holding,
    /// The phase of the journal.
    pub phase: &'s Phase,
}
