// The list, as callers see it.
ghost use Rattle.std.specs.Prelude.{◌≡◌, ◌+◌, ◌<◌, ◌≤◌, ◌^◌, [], ◌∷◌, ◌++◌, IsOk, OnErr, OnOk, length, slice_index, slice_set};
ghost use Rattle.std.specs.List.{insert, remove};
ghost use Rattle.tiered_list.specs.Inside.{width};
ghost use Rattle.tiered_list.specs.Tiers.{IsSameList};

use crate::block::{Block, WIDTH};
use crate::shifts::{put_in, take_from};
use seed_model::NoMemory;
use std::alloc::Global;
use std::marker::Model;

// The most blocks, so that the places in them can be counted.
const MOST_BLOCKS: usize = 4_294_967_296;

/// A list of numbers of 32 bits. Clauses see the numbers, and how many more can be put in without memory.
#[derive(Drop)]
pub struct TieredList {
    blocks: Vec<Block>,
    len: usize,
}

impl Model for TieredList {
    ghost use Rattle.std.specs.List.{concat};
    ghost use Rattle.tiered_list.specs.Inside.{KeepsTiers, room_of};
    ghost use Rattle.tiered_list.specs.Tiers.{TieredValue, tiered_code};

    ghost Value = { TieredValue };

    ghost coded = { tiered_code };

    ghost view = { λ t. record { items = concat t.blocks.items; room = room_of t.blocks.items } };

    ghost invariant = { λ t. KeepsTiers t.blocks.items t.len };
}

impl TieredList {
    /// No numbers. Takes no memory.
    pub fn new(alloc: Global) -> Self
        ensures { result.items ≡ [] }
    {
        TieredList {
            blocks: Vec::new(alloc),
            len: 0,
        }
    }

    /// The allocator.
    pub fn allocator(&self) -> Global {
        *self.blocks.allocator()
    }

    /// How many numbers there are.
    pub fn len(&self) -> usize
        ensures len { result ≡ length self.now.items }
        ensures few { result ≤ 2 ^ 44 }
    {
        self.len
    }

    /// The number at a place, counted from 0.
    pub fn get(&self, place: usize) -> u32
        requires { place < length self.now.items }
        ensures { result ≡ slice_index self.now.items place }
    {
        self.blocks[place / WIDTH].get(place % WIDTH)
    }

    /// Puts a number in the place of another.
    pub fn set(&mut self, place: usize, number: u32)
        requires { place < length self.old.items }
        ensures items { self.new.items ≡ slice_set self.old.items place number }
        ensures room { self.new.room ≡ self.old.room }
    {
        self.blocks[place / WIDTH].set(place % WIDTH, number);
    }

    /// Puts a number in before the one at a place, or last. Takes no memory.
    pub fn insert(&mut self, place: usize, number: u32)
        requires place { place ≤ length self.old.items }
        requires room { 1 ≤ self.old.room }
        ensures items { self.new.items ≡ insert self.old.items place number }
        ensures room { self.new.room + 1 ≡ self.old.room }
    {
        put_in(&mut self.blocks, place, number);
        self.len += 1;
    }

    /// Takes the number at a place out.
    pub fn remove(&mut self, place: usize) -> u32
        requires { place < length self.old.items }
        ensures items { self.new.items ≡ remove self.old.items place }
        ensures number { result ≡ slice_index self.old.items place }
        ensures room { self.new.room ≡ self.old.room + 1 }
    {
        let end = (self.len - 1) / WIDTH + 1;
        let number = take_from(&mut self.blocks, place, end);
        self.len -= 1;
        number
    }

    /// Puts a number last.
    ///
    /// # Errors
    ///
    /// `NoMemory` where memory runs out.
    pub fn push(&mut self, number: u32) -> Result<(), NoMemory>
        ensures items { OnOk result (self.new.items ≡ self.old.items ++ number ∷ []) }
        ensures room { OnOk result (self.old.room ≤ self.new.room + 1) }
        ensures err { OnErr result (IsSameList self.old self.new) }
        ensures succeeds { 1 ≤ self.old.room → IsOk result }
    {
        self.reserve(1)?;
        self.insert(self.len(), number);
        Ok(())
    }

    /// Makes room for so many more numbers.
    ///
    /// # Errors
    ///
    /// `NoMemory` where memory runs out.
    pub fn reserve(&mut self, additional: usize) -> Result<(), NoMemory>
        ensures same { IsSameList self.old self.new }
        ensures room { OnOk result (additional ≤ self.new.room) }
        ensures succeeds { additional ≤ self.old.room → IsOk result }
    {
        while self.room() < additional {
            self.add_block()?;
        }
        Ok(())
    }

    // How many more numbers fit.
    fn room(&self) -> usize
        ensures { result ≡ self.now.room }
    {
        self.blocks.len() * WIDTH - self.len
    }

    // Adds a block.
    fn add_block(&mut self) -> Result<(), NoMemory>
        ensures same { IsSameList self.old self.new }
        ensures more { OnOk result (self.new.room ≡ self.old.room + width) }
    {
        if MOST_BLOCKS <= self.blocks.len() {
            return Err(NoMemory);
        }
        let block = Block::new(self.allocator())?;
        self.blocks.push(block)?;
        Ok(())
    }
}
