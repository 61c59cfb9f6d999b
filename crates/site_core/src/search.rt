// The searches for the next action.
ghost use Rattle.std.specs.Prelude.{◌≡◌, ℕ, ◌<◌, ◌≤◌, false, List, [], not, length, slice_get, slice_index_or, Option, IfSome};
ghost use Rattle.std.specs.FinMap as fin_map;
ghost use Rattle.site_forms.specs.Sites.{HoldsFile, HoldsChunk};
ghost use Rattle.site_core.specs.Cursors.{CopiedBefore, HoldsBefore, FindsLacking, HeldBefore, IsPast, LackedBefore, StandsThere};
ghost use Rattle.site_core.specs.Steps.{list_of, chunks_to_copy};

use site_forms::Names;
use volume_index::Holding;

/// A chunk that is to be copied, and its place in the list of its file.
#[derive(Clone, Copy)]
pub(crate) struct Lacking {
    pub(crate) place: u32,
    pub(crate) chunk: [u8; 32],
}

/// The first chunk to copy, and where it was found: the place of the file's name, and that in its list.
#[derive(Clone, Copy)]
pub(crate) struct Spot {
    pub(crate) name: u32,
    pub(crate) place: u32,
    pub(crate) chunk: Option<[u8; 32]>,
}

/// The first place of a list from one on whose chunk a volume lacks; the length where there is none.
pub(crate) fn first_lacking(target: &Holding, list: &[[u8; 32]], from: usize) -> usize
    requires { from ≤ length list.now }
    ensures within { result ≤ length list.now }
    ensures from { from ≤ result }
    ensures held { (j : ℕ) → from ≤ j → j < result → HoldsChunk target.now.shape (slice_index_or list.now j []) }
    ensures lacks { result < length list.now → fin_map.contains_key target.now.shape.chunks (slice_index_or list.now result []) ≡ false }
{
    for place in from..list.len() {
        if target.chunk_len(&list[place]).is_none() {
            return place;
        }
    }
    list.len()
}

/// The first chunk of a file that is to be copied, where those before a place of its list are held.
pub(crate) fn lacking_of(
    source: &Holding,
    target: &Holding,
    name: &str,
    from: u32,
) -> Option<Lacking>
    requires { HoldsBefore target.now.shape (list_of source.now.shape name.now) from }
    ensures finds { FindsLacking source.now.shape target.now.shape name.now result }
    ensures from { IfSome result (λ found. from ≤ found.place) }
{
    if target.find(name).is_some() {
        return None;
    }
    let Some(file) = source.find(name) else {
        return None;
    };
    let _files = source.file_count();
    let list = source.file_chunks(file);
    let begin = (from as usize).min(list.len());
    let place = first_lacking(target, list, begin);
    if place < list.len() {
        return Some(Lacking {
            place: place as u32,
            chunk: list[place],
        });
    }
    None
}

/// The first chunk to copy, where nothing is to be copied before a place.
pub(crate) fn first_to_copy(
    source: &Holding,
    target: &Holding,
    names: &Names,
    name: u32,
    chunk: u32,
) -> Spot
    requires { CopiedBefore source.now.shape target.now.shape names.now name chunk }
    ensures chunk { result.chunk ≡ slice_get (chunks_to_copy source.now.shape target.now.shape names.now) 0 }
    ensures before { CopiedBefore source.now.shape target.now.shape names.now result.name result.place }
    ensures past { IsPast name chunk result.name result.place }
    ensures there { StandsThere source.now.shape names.now result.name result.place result.chunk }
{
    let count = names.len();
    let mut from = chunk;
    for place in name..count {
        if let Some(found) = lacking_of(source, target, names.get(place), from) {
            return Spot {
                name: place,
                place: found.place,
                chunk: Some(found.chunk),
            };
        }
        from = 0;
    }
    Spot {
        name: count,
        place: from,
        chunk: None,
    }
}

/// The first name that a volume lacks, where it holds those before a place; the number of names where there is none.
pub(crate) fn first_lacked(target: &Holding, names: &Names, from: u32) -> u32
    requires within { from ≤ length names.now }
    requires held { HeldBefore target.now.shape names.now from }
    ensures within { result ≤ length names.now }
    ensures from { from ≤ result }
    ensures held { HeldBefore target.now.shape names.now result }
    ensures lacks { result < length names.now → fin_map.contains_key target.now.shape.files (slice_index_or names.now result []) ≡ false }
{
    let count = names.len();
    for place in from..count {
        if target.find(names.get(place)).is_none() {
            return place;
        }
    }
    count
}

/// The first name that a volume holds, where it lacks those before a place; the number of names where there is none.
pub(crate) fn first_held(source: &Holding, names: &Names, from: u32) -> u32
    requires within { from ≤ length names.now }
    requires lacked { LackedBefore source.now.shape names.now from }
    ensures within { result ≤ length names.now }
    ensures from { from ≤ result }
    ensures lacked { LackedBefore source.now.shape names.now result }
    ensures holds { result < length names.now → HoldsFile source.now.shape (slice_index_or names.now result []) }
{
    let count = names.len();
    for place in from..count {
        if source.find(names.get(place)).is_some() {
            return place;
        }
    }
    count
}
