// One device in memory.
ghost use Rattle.std.specs.Prelude.{◌≡◌, ◌+◌, ◌-◌, ◌<◌, ◌≤◌, ℕ, [], ◌++◌, true, false, ◌||◌, length, take, min, max, replicate, slice_index, slice_index_or, vec_capacity, IfOk, if◌then◌else◌};
ghost use Rattle.volume_disk.specs.Medium.{Medium, is_within, overwritten, written, wrote, trimmed, flushed, at_rest};
ghost use Rattle.volume_disk.specs.Picks.{IsPicked, size_picked, free_byte};
ghost use Rattle.volume_disk.specs.Device.{room_of, Mirrors};

use crate::Pick;
use std::alloc::{AllocError, Global};
use std::marker::Model;

/// The bytes of a device, those that a crash may bring back, and the places that it may spoil.
#[derive(Drop)]
pub struct Device {
    base: Vec<u8>,
    image: Vec<u8>,
    synced: Vec<u8>,
    least: usize,
    greatest: usize,
    touched: Vec<bool>,
    newest: Vec<u8>,
}

impl Model for Device {
    ghost use Rattle.std.specs.Prelude.{length};
    ghost use Rattle.volume_disk.specs.Device.{DeviceState, FitsRoom};

    ghost Value = { DeviceState };

    ghost view = { λ d. record {
      base = d.base.items;
      image = d.image.items;
      synced = d.synced.items;
      least = d.least;
      greatest = d.greatest;
      touched = d.touched.items;
      newest = d.newest.items;
    } };

    ghost invariant = { λ d. FitsRoom (length d.touched.items) d.base d.image d.synced d.newest d.least d.greatest };
}

/// Gives a list other bytes, for which it has room.
fn assign(to: &mut Vec<u8>, from: &[u8])
    requires { length from.now ≤ vec_capacity to.old }
    ensures items { to.new.items ≡ from.now }
    ensures capacity { vec_capacity to.old ≤ vec_capacity to.new }
{
    to.clear();
    let _ = to.extend_from_slice(from);
}

/// Lengthens an image with zeros, where it is shorter and there is room.
fn lengthen(image: &mut Vec<u8>, end: usize)
    requires { end ≤ vec_capacity image.old }
    ensures items { image.new.items ≡ image.old.items ++ replicate (end - length image.old.items) 0 }
    ensures capacity { vec_capacity image.old ≤ vec_capacity image.new }
{
    if image.len() < end {
        let _ = image.resize(end, 0);
    }
}

/// Replaces bytes from a place on.
fn put(image: &mut [u8], at: usize, bytes: &[u8])
    requires { at + length bytes.now ≤ length image.old }
    ensures { image.new ≡ overwritten image.old at bytes.now }
{
    image[at..at + bytes.len()].copy_from_slice(bytes);
}

/// Writes bytes into an image that has room for them.
fn overwrite(image: &mut Vec<u8>, at: usize, bytes: &[u8])
    requires { at + length bytes.now ≤ vec_capacity image.old }
    ensures items { image.new.items ≡ written image.old.items at bytes.now }
    ensures capacity { vec_capacity image.old ≤ vec_capacity image.new }
{
    lengthen(image, at + bytes.len());
    put(image, at, bytes);
}

/// Marks a range of places.
fn mark(touched: &mut [bool], start: usize, end: usize)
    requires order { start ≤ end }
    requires within { end ≤ length touched.old }
    ensures { (i : ℕ) → i < length touched.old → slice_index_or touched.new i false ≡ (is_within start (end - start) i || slice_index_or touched.old i false) }
{
    touched[start..end].fill(true);
}

/// Copies a range of places.
fn copy_range(to: &mut [u8], from: &[u8], start: usize, end: usize)
    requires order { start ≤ end }
    requires within { end ≤ length to.old }
    requires held { end ≤ length from.now }
    ensures { (i : ℕ) → i < length to.old → slice_index to.new i ≡ (if is_within start (end - start) i then slice_index from.now i else slice_index to.old i) }
{
    to[start..end].copy_from_slice(&from[start..end]);
}

/// How long the crash image of a pick is.
fn size_after(pick: Pick, least: usize, greatest: usize) -> usize
    ensures size { result ≡ size_picked pick least greatest }
    ensures bound { result ≤ max least greatest }
{
    match pick {
        Pick::Old => least,
        Pick::New | Pick::Junk(_) => greatest,
    }
}

/// The byte that a pick wants at a free place.
fn byte_after(pick: Pick, synced: u8, newest: u8) -> u8
    ensures { result ≡ free_byte pick synced newest }
{
    match pick {
        Pick::Old => synced,
        Pick::New => newest,
        Pick::Junk(byte) => byte,
    }
}

/// Puts the byte that a pick leaves at each place in place of the newest one.
fn choose(pick: Pick, touched: &[bool], synced: &[u8], newest: &mut [u8])
    requires { length touched.now ≡ length newest.old }
    ensures { (i : ℕ) → i < length newest.old → slice_index newest.new i ≡ (if slice_index_or touched.now i false
        then free_byte pick (slice_index synced.now i) (slice_index newest.old i) else slice_index synced.now i) }
{
    for i in 0..newest.len() {
        let kept = synced.get(i).copied().unwrap_or(0);
        newest[i] = if touched[i] {
            byte_after(pick, kept, newest[i])
        } else {
            kept
        };
    }
}

impl Device {
    /// An empty device with room for so many bytes.
    pub fn new(alloc: Global, room: usize) -> Result<Self, AllocError>
        ensures base { IfOk result (λ d. d.base ≡ []) }
        ensures room { IfOk result (λ d. room_of d ≡ room) }
        ensures rest { IfOk result (λ d. Mirrors d (at_rest [])) }
    {
        Ok(Device {
            base: Vec::with_capacity(alloc, room)?,
            image: Vec::with_capacity(alloc, room)?,
            synced: Vec::with_capacity(alloc, room)?,
            least: 0,
            greatest: 0,
            touched: vec![in alloc; false; room]?,
            newest: vec![in alloc; 0u8; room]?,
        })
    }

    /// What a read gives.
    pub fn image(&self) -> &[u8]
        ensures { result.now ≡ self.now.image }
    {
        &self.image
    }

    /// Writes bytes for which there is room.
    pub fn write(&mut self, at: usize, bytes: &[u8])
        requires { at + length bytes.now ≤ room_of self.old }
        ensures base { self.new.base ≡ self.old.base }
        ensures room { room_of self.new ≡ room_of self.old }
        ensures done { (m : Medium) → Mirrors self.old m → Mirrors self.new (wrote at bytes.now m) }
    {
        let start = at.min(self.image.len());
        let end = at + bytes.len();
        overwrite(&mut self.image, at, bytes);
        self.greatest = self.greatest.max(self.image.len());
        mark(&mut self.touched, start, end);
        copy_range(&mut self.newest, &self.image, start, end);
    }

    /// Drops the bytes from a length on.
    pub fn cut(&mut self, len: u64)
        ensures base { self.new.base ≡ self.old.base }
        ensures room { room_of self.new ≡ room_of self.old }
        ensures done { (m : Medium) → Mirrors self.old m → Mirrors self.new (trimmed len m) }
    {
        let len = len as usize;
        self.image.truncate(len);
        self.least = self.least.min(self.image.len());
        let room = self.touched.len();
        mark(&mut self.touched, len.min(room), room);
    }

    /// Nothing is pending any more.
    pub fn sync(&mut self)
        ensures base { self.new.base ≡ self.old.base }
        ensures room { room_of self.new ≡ room_of self.old }
        ensures rest { Mirrors self.new (at_rest self.old.image) }
    {
        assign(&mut self.synced, &self.image);
        self.least = self.image.len();
        self.greatest = self.image.len();
        self.touched.fill(false);
        self.newest.fill(0);
    }

    /// Begins anew with an image for which there is room, and nothing pending.
    pub fn set(&mut self, image: &[u8])
        requires { length image.now ≤ room_of self.old }
        ensures base { self.new.base ≡ image.now }
        ensures room { room_of self.new ≡ room_of self.old }
        ensures rest { Mirrors self.new (at_rest image.now) }
    {
        assign(&mut self.base, image);
        assign(&mut self.image, image);
        self.sync();
    }

    /// Begins anew with the crash image of a pick, and nothing pending.
    pub fn crash(&mut self, pick: Pick)
        ensures room { room_of self.new ≡ room_of self.old }
        ensures picked { (m : Medium) → Mirrors self.old m → IsPicked pick m self.new.base }
        ensures rest { Mirrors self.new (at_rest self.new.base) }
    {
        let size = size_after(pick, self.least, self.greatest);
        choose(pick, &self.touched, &self.synced, &mut self.newest);
        assign(&mut self.base, &self.newest[..size]);
        assign(&mut self.image, &self.newest[..size]);
        self.sync();
    }
}
