// A block of a list: a ring of numbers.
ghost use Rattle.std.specs.Prelude.{◌≡◌, ◌+◌, ◌<◌, ◌≤◌, [], ◌∷◌, ◌++◌, IfOk, drop, length, slice_index, slice_set, take};
ghost use Rattle.std.specs.List.{insert, remove};
ghost use Rattle.std.specs.Option.{option_to_list};
ghost use Rattle.tiered_list.specs.Inside.{width};

use seed_model::NoMemory;
use std::alloc::Global;
use std::collections::VecDeque;
use std::marker::Model;

// How many numbers a block holds at most.
pub(crate) const WIDTH: usize = 4096;

// Some numbers, at most `WIDTH`, and room for as many.
#[derive(Drop)]
pub(crate) struct Block {
    numbers: VecDeque<u32>,
}

impl Model for Block {
    ghost use Rattle.std.specs.Prelude.{List, ℕ, length, ◌≤◌};
    ghost use Rattle.std.specs.VecDeque.{deque_capacity};
    ghost use Rattle.tiered_list.specs.Inside.{width};

    ghost Value = { List ℕ };

    ghost view = { λ b. b.numbers.items };

    ghost invariant = { λ b. (length b.numbers.items ≤ width) × (width ≤ deque_capacity b.numbers) };
}

impl Block {
    // A block without numbers.
    pub(crate) fn new(alloc: Global) -> Result<Self, NoMemory>
        ensures { IfOk result (λ block. block ≡ []) }
    {
        let numbers = VecDeque::with_capacity(alloc, WIDTH)?;
        Ok(Block { numbers })
    }

    // The number at a place.
    pub(crate) fn get(&self, place: usize) -> u32
        requires { place < length self.now }
        ensures { result ≡ slice_index self.now place }
    {
        self.numbers[place]
    }

    // Puts a number in the place of another.
    pub(crate) fn set(&mut self, place: usize, number: u32)
        requires { place < length self.old }
        ensures { self.new ≡ slice_set self.old place number }
    {
        self.numbers[place] = number;
    }

    // Puts a number in at a place. The last number of a full block comes out.
    pub(crate) fn put(&mut self, place: usize, number: u32) -> Option<u32>
        requires place { place ≤ length self.old }
        requires within { place < width }
        ensures block { self.new ≡ take width (insert self.old place number) }
        ensures out { option_to_list result ≡ drop width (insert self.old place number) }
    {
        if self.numbers.len() < WIDTH {
            self.numbers.insert(place, number).unwrap();
            return None;
        }
        let last = self.numbers.pop_back().unwrap();
        self.numbers.insert(place, number).unwrap();
        Some(last)
    }

    // Takes the number at a place out, and puts the next one, if there is any, last.
    pub(crate) fn take_out(&mut self, place: usize, next: Option<u32>) -> u32
        requires { place < length self.old }
        ensures block { self.new ≡ remove self.old place ++ option_to_list next }
        ensures out { result ≡ slice_index self.old place }
    {
        let number = self.numbers.remove(place).unwrap();
        if let Some(next) = next {
            self.numbers.push_back_reserved(next);
        }
        number
    }
}
