// What a run works on.
use crate::amounts::Filling;
use crate::scratch::Scratch;

/// The amounts so far, and the lists that searches and walks write.
#[derive(Drop)]
pub(crate) struct Run {
    pub filling: Filling,
    pub scratch: Scratch,
}
