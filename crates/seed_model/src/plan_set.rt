// Sets of files, one bit a file.
ghost use Rattle.std.specs.Prelude.{◌≡◌, ◌≢◌, ◌+◌, ◌*◌, ◌<◌, ◌↔◌, IfNone, IfOk, IfSome, IsTrue, slice_set, replicate, length, true, false};
ghost use Rattle.seed_model.specs.Files.{holds};
ghost use Rattle.seed_model.specs.Differences.{AgreesWithin, AreApart, ClearsWithin, IsFirstDifference};
ghost use Rattle.seed_model.specs.SumLaws.{IsWithin};

use crate::memory::NoMemory;
use std::alloc::Global;
use std::marker::Model;

/// A set of the files below a number: those that a plan moves, say.
#[derive(Drop)]
pub struct PlanSet {
    files: u32,
    words: Vec<u64>,
}

impl Model for PlanSet {
    ghost use Rattle.std.specs.Prelude.{List, Bool};
    ghost use Rattle.seed_model.specs.Bits.{bits_of, HasWords};

    ghost Value = { List Bool };

    ghost view = { λ s. bits_of s.files s.words.items };

    ghost invariant = { λ s. HasWords s.files s.words.items };
}

impl PlanSet {
    /// No file of `files` files.
    ///
    /// # Errors
    ///
    /// `NoMemory` where memory runs out.
    pub fn empty(alloc: Global, files: u32) -> Result<Self, NoMemory>
        ensures empty { IfOk result (λ s. s ≡ replicate files false) }
    {
        let count = files.div_ceil(64) as usize;
        match vec![in alloc; 0u64; count] {
            Ok(words) => Ok(PlanSet { files, words }),
            Err(_) => Err(NoMemory),
        }
    }

    /// The same set once more.
    ///
    /// # Errors
    ///
    /// `NoMemory` where memory runs out.
    pub fn copy(&self) -> Result<Self, NoMemory>
        ensures same { IfOk result (λ s. s ≡ self.now) }
    {
        let files = self.files;
        match self.words.clone() {
            Ok(words) => Ok(PlanSet { files, words }),
            Err(_) => Err(NoMemory),
        }
    }

    /// The number of files of which this is a set, in the set or not.
    pub fn files(&self) -> u32
        ensures { result ≡ length self.now }
    {
        self.files
    }

    /// Whether the file, a number from 0, is in the set.
    pub fn contains(&self, file: u32) -> bool
        requires { file < length self.now }
        ensures { result ≡ holds self.now file }
    {
        let word = self.words[(file / 64) as usize];
        word >> (file % 64) & 1 == 1
    }

    /// Adds the file; one that is in the set stays.
    pub fn insert(&mut self, file: u32)
        requires { file < length self.old }
        ensures { self.new ≡ slice_set self.old file true }
    {
        self.words[(file / 64) as usize] |= 1 << (file % 64);
    }

    /// Takes the file out; nothing changes where it is not in the set.
    pub fn remove(&mut self, file: u32)
        requires { file < length self.old }
        ensures { self.new ≡ slice_set self.old file false }
    {
        self.words[(file / 64) as usize] &= !(1 << (file % 64));
    }

    /// Whether this set and another of as many files have the same of the 64 files of a word.
    fn shares_word(&self, other: &PlanSet, word: u32) -> bool
        requires same { length self.now ≡ length other.now }
        requires within { 64 * word < length self.now }
        ensures { result ≡ true → AgreesWithin (64 * word) (64 * word + 64) self.now other.now }
    {
        self.words[word as usize] == other.words[word as usize]
    }

    /// Whether no bit of a word is in this set and, where `inside`, also in another of as many files, else outside it.
    fn clears_word(&self, other: &PlanSet, word: u32, inside: bool) -> bool
        requires same { length self.now ≡ length other.now }
        requires within { 64 * word < length self.now }
        ensures { result ≡ true → ClearsWithin (64 * word) (64 * word + 64) inside self.now other.now }
    {
        let mine = self.words[word as usize];
        let theirs = other.words[word as usize];
        if inside {
            mine & theirs == 0
        } else {
            mine & theirs == mine
        }
    }
}

/// Whether no file is in both of two sets of the same number of files.
pub fn are_apart(one: &PlanSet, other: &PlanSet) -> bool
    requires { length one.now ≡ length other.now }
    ensures { IsTrue result ↔ AreApart (length one.now) (holds one.now) (holds other.now) }
{
    clears(one, other, true)
}

/// Whether each file of a set is in another of the same number of files.
pub fn is_within(inner: &PlanSet, outer: &PlanSet) -> bool
    requires { length inner.now ≡ length outer.now }
    ensures { IsTrue result ↔ IsWithin (length inner.now) (holds inner.now) (holds outer.now) }
{
    clears(inner, outer, false)
}

/// Whether no file is in the one set and, where `inside`, also in the other, else outside it.
fn clears(one: &PlanSet, other: &PlanSet, inside: bool) -> bool
    requires { length one.now ≡ length other.now }
    ensures { IsTrue result ↔ ClearsWithin 0 (length one.now) inside one.now other.now }
{
    for word in 0..one.files().div_ceil(64) {
        if !one.clears_word(other, word, inside) && !clears_files(one, other, word, inside) {
            return false;
        }
    }
    true
}

/// The same of the files of one word.
fn clears_files(one: &PlanSet, other: &PlanSet, word: u32, inside: bool) -> bool
    requires same { length one.now ≡ length other.now }
    requires within { 64 * word < length one.now }
    ensures clear { result ≡ true → ClearsWithin (64 * word) (64 * word + 64) inside one.now other.now }
    ensures met { result ≡ false → ClearsWithin 0 (length one.now) inside one.now other.now → ⊥ }
{
    let files = one.files();
    let first = 64 * word;
    let count = (files - first).min(64);
    for place in 0..count {
        let file = first + place;
        if one.contains(file) && other.contains(file) == inside {
            return false;
        }
    }
    true
}

/// The first file that is in exactly one of two sets of the same number of files; None where the sets are equal.
pub fn first_difference(one: &PlanSet, other: &PlanSet) -> Option<u32>
    requires { length one.now ≡ length other.now }
    ensures found { IfSome result (IsFirstDifference one.now other.now) }
    ensures none { IfNone result (one.now ≡ other.now) }
{
    for word in 0..one.files().div_ceil(64) {
        if !one.shares_word(other, word) {
            let difference = difference_in_word(one, other, word);
            if difference.is_some() {
                return difference;
            }
        }
    }
    None
}

/// The first of the 64 files of a word that is in exactly one of the sets.
fn difference_in_word(one: &PlanSet, other: &PlanSet, word: u32) -> Option<u32>
    requires same { length one.now ≡ length other.now }
    requires within { 64 * word < length one.now }
    ensures found { IfSome result (λ file. (file < length one.now) × (holds one.now file ≢ holds other.now file) × AgreesWithin (64 * word) file one.now other.now) }
    ensures none { IfNone result (AgreesWithin (64 * word) (64 * word + 64) one.now other.now) }
{
    let files = one.files();
    let first = 64 * word;
    let count = (files - first).min(64);
    for place in 0..count {
        let file = first + place;
        if one.contains(file) != other.contains(file) {
            return Some(file);
        }
    }
    None
}
