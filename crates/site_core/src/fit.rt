// Whether a journal fits its volumes.
ghost use Rattle.std.specs.Prelude.{◌≡◌, ◌↔◌, ℕ, List, true, false, ◌&&◌, IfOk};
ghost use Rattle.std.specs.FinMap as fin_map;
ghost use Rattle.site_forms.specs.Names.{is_distinct, is_listed};
ghost use Rattle.site_forms.specs.Phases.{names_of};
ghost use Rattle.site_forms.specs.Sites.{Fits, IsUnderway, FitsMoving, FitsMoved, HoldsFile, HoldsChunk, IsTidy, IsNamed};
ghost use Rattle.site_forms.specs.Views.{joined_files};
ghost use Rattle.site_forms.specs.Volumes.{used};
ghost use Rattle.site_core.specs.Fitting.{counts_keep, AddsNamed};
ghost use Rattle.volume_index.specs.HoldingValues.{KeepsShape};

use crate::merged::{add_chunks, add_named, merge};
use crate::search::{first_held, first_lacked};
use crate::state::SiteState;
use seed_model::NoMemory;
use site_forms::{Names, Phase};
use std::alloc::Global;
use volume_index::{Holding, Index};

/// Whether no name is a file of both volumes.
pub(crate) fn are_apart(a: &Holding, b: &Holding) -> bool
    ensures { (result ≡ true) ↔ ((name : List ℕ) → (fin_map.contains_key a.now.shape.files name && fin_map.contains_key b.now.shape.files name) ≡ false) }
{
    for place in 0..a.file_count() {
        if b.find(a.file_name(place)).is_some() {
            return false;
        }
    }
    true
}

/// Whether a file under one name in both volumes has one list.
pub(crate) fn have_one_list(a: &Holding, b: &Holding) -> bool
    ensures { (result ≡ true) ↔ ((name : List ℕ) → HoldsFile a.now.shape name → HoldsFile b.now.shape name → fin_map.get a.now.shape.files name ≡ fin_map.get b.now.shape.files name) }
{
    'files: for place in 0..b.file_count() {
        if let Some(other) = a.find(b.file_name(place)) {
            if a.file_chunks(other) != b.file_chunks(place) {
                return false;
            }
        }
    }
    true
}

/// Whether each file of a volume is in an index.
pub(crate) fn are_files_in(volume: &Holding, index: &Index) -> bool
    ensures { (result ≡ true) ↔ ((name : List ℕ) → HoldsFile volume.now.shape name → HoldsFile index.now.shape name) }
{
    for place in 0..volume.file_count() {
        if index.find(volume.file_name(place)).is_none() {
            return false;
        }
    }
    true
}

/// Whether each chunk of a volume is used by a file of an index.
pub(crate) fn are_chunks_used(volume: &Holding, index: &Index) -> bool
    ensures { (result ≡ true) ↔ ((chunk : List ℕ) → HoldsChunk volume.now.shape chunk → fin_map.contains_key (used index.now.shape.files) chunk ≡ true) }
{
    for place in 0..volume.chunk_count() {
        if !index.is_used(volume.chunk_name(place)) {
            return false;
        }
    }
    true
}

/// Whether a volume holds all names.
pub(crate) fn holds_all_names(volume: &Holding, names: &Names) -> bool
    ensures { (result ≡ true) ↔ ((name : List ℕ) → IsNamed names.now name → HoldsFile volume.now.shape name) }
{
    first_lacked(volume, names, 0) == names.len()
}

/// Whether a volume holds none of the names.
pub(crate) fn holds_no_name(volume: &Holding, names: &Names) -> bool
    ensures { (result ≡ true) ↔ ((name : List ℕ) → IsNamed names.now name → fin_map.contains_key volume.now.shape.files name ≡ false) }
{
    first_held(volume, names, 0) == names.len()
}

/// Whether a volume is tidy.
pub(crate) fn is_tidy(volume: &Holding) -> bool
    ensures { (result ≡ true) ↔ IsTidy volume.now.shape }
{
    let _files = volume.file_count();
    volume.first_orphan().is_none()
}

// Whether files are on the way, from both volumes, their files together and the named ones of them.
fn are_underway(a: &Holding, b: &Holding, whole: &Index, named: &Index, names: &Names) -> bool
    requires merged { whole.now.shape.files ≡ joined_files a.now.shape.files b.now.shape.files }
    requires keeps { counts_keep (joined_files a.now.shape.files b.now.shape.files) ≡ true }
    requires named { AddsNamed whole.now.shape names.now named.now.shape true }
    ensures { (result ≡ true) ↔ IsUnderway a.now.shape b.now.shape names.now }
{
    let _files = a.file_count();
    let _others = b.file_count();
    if !are_files_in(b, named) {
        return false;
    }
    if !have_one_list(a, b) {
        return false;
    }
    if !are_chunks_used(b, named) {
        return false;
    }
    are_chunks_used(a, whole)
}

// Whether files are on the way, forth or back, from both volumes and their files together.
fn is_underway_over(
    alloc: Global,
    a: &Holding,
    b: &Holding,
    whole: &Index,
    names: &Names,
) -> Result<bool, NoMemory>
    requires distinct { is_distinct names.now ≡ true }
    requires merged { whole.now.shape.files ≡ joined_files a.now.shape.files b.now.shape.files }
    requires keeps { counts_keep (joined_files a.now.shape.files b.now.shape.files) ≡ true }
    ensures { IfOk result (λ is. (is ≡ true) ↔ IsUnderway a.now.shape b.now.shape names.now) }
{
    let _files = a.file_count();
    let _others = b.file_count();
    let mut named = Index::new(alloc);
    add_chunks(&mut named, a)?;
    add_chunks(&mut named, b)?;
    if !add_named(alloc, &mut named, whole, names)? {
        return Ok(false);
    }
    Ok(are_underway(a, b, whole, &named, names))
}

// Whether files are on the way, forth or back.
fn is_underway(alloc: Global, a: &Holding, b: &Holding, names: &Names) -> Result<bool, NoMemory>
    requires { is_distinct names.now ≡ true }
    ensures { IfOk result (λ is. (is ≡ true) ↔ IsUnderway a.now.shape b.now.shape names.now) }
{
    let _files = a.file_count();
    let _others = b.file_count();
    let mut whole = Index::new(alloc);
    if !merge(alloc, &mut whole, a, b)? {
        return Ok(false);
    }
    let _whole = whole.file_count();
    is_underway_over(alloc, a, b, &whole, names)
}

// Whether files move from A to B.
fn fits_moving(alloc: Global, a: &Holding, b: &Holding, names: &Names) -> Result<bool, NoMemory>
    requires { is_distinct names.now ≡ true }
    ensures { IfOk result (λ is. (is ≡ true) ↔ FitsMoving a.now.shape b.now.shape names.now) }
{
    if !is_underway(alloc, a, b, names)? {
        return Ok(false);
    }
    if holds_all_names(b, names) {
        return Ok(true);
    }
    if !holds_all_names(a, names) {
        return Ok(false);
    }
    Ok(is_tidy(a))
}

// Whether files have moved from A to B.
fn fits_moved(alloc: Global, a: &Holding, b: &Holding, names: &Names) -> Result<bool, NoMemory>
    requires { is_distinct names.now ≡ true }
    ensures { IfOk result (λ is. (is ≡ true) ↔ FitsMoved a.now.shape b.now.shape names.now) }
{
    if !is_underway(alloc, a, b, names)? {
        return Ok(false);
    }
    if !holds_no_name(a, names) {
        return Ok(false);
    }
    if !holds_all_names(b, names) {
        return Ok(false);
    }
    if !is_tidy(a) {
        return Ok(false);
    }
    Ok(is_tidy(b))
}

/// Whether the phase of a journal fits the volumes. Its names stand once each, as every journal keeps them.
pub fn fits(alloc: Global, state: &SiteState) -> Result<bool, NoMemory>
    requires { is_distinct (names_of state.now.phase.now) ≡ true }
    ensures { IfOk result (λ is. (is ≡ true) ↔ Fits state.now.a.now.shape state.now.b.now.shape state.now.phase.now) }
{
    match state.phase {
        Phase::Idle => Ok(are_apart(state.a, state.b)),
        Phase::Moving(names) => fits_moving(alloc, state.a, state.b, names),
        Phase::Moved(names) => fits_moved(alloc, state.a, state.b, names),
        Phase::Undoing(names) => is_underway(alloc, state.a, state.b, names),
    }
}
