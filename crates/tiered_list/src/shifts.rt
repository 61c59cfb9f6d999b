// Numbers put into blocks and taken out of them: each full block passes one number on.
ghost use Rattle.std.specs.Prelude.{◌≡◌, ℕ, ◌+◌, ◌*◌, ◌<◌, ◌≤◌, [], drop, length, slice_index, slice_index_or, take};
ghost use Rattle.std.specs.List.{concat, insert, remove};
ghost use Rattle.std.specs.Option.{option_to_list};
ghost use Rattle.tiered_list.specs.Inside.{AreTiers, width};

use crate::block::{Block, WIDTH};

// Puts a number in at a place; the last number of each full block goes to the front of the next one.
pub(crate) fn put_in(blocks: &mut [Block], place: usize, number: u32)
    requires tiers { AreTiers blocks.old }
    requires place { place ≤ length (concat blocks.old) }
    requires room { length (concat blocks.old) < length blocks.old * width }
    ensures tiers { AreTiers blocks.new }
    ensures items { concat blocks.new ≡ insert (concat blocks.old) place number }
{
    let mut at = place % WIDTH;
    let mut carried = number;
    for index in place / WIDTH..blocks.len() {
        match blocks[index].put(at, carried) {
            None => return,
            Some(last) => carried = last,
        }
        at = 0;
    }
}

// Takes the number at a place out; the first number of each block behind it goes to the end of the one before. Blocks
// from `end` on are empty.
pub(crate) fn take_from(blocks: &mut [Block], place: usize, end: usize) -> u32
    requires tiers { AreTiers blocks.old }
    requires place { place < length (concat blocks.old) }
    requires end { length (concat blocks.old) ≤ end * width }
    requires tight { end * width < length (concat blocks.old) + width }
    requires within { end ≤ length blocks.old }
    ensures tiers { AreTiers blocks.new }
    ensures items { concat blocks.new ≡ remove (concat blocks.old) place }
    ensures number { result ≡ slice_index (concat blocks.old) place }
{
    let first = place / WIDTH;
    let next = shift_behind(blocks, first + 1, end);
    blocks[first].take_out(place % WIDTH, next)
}

// Passes the first number of each block from `first` on to the end of the one before, and answers that of `first`.
fn shift_behind(blocks: &mut [Block], first: usize, end: usize) -> Option<u32>
    requires tiers { AreTiers blocks.old }
    requires order { first ≤ end }
    requires end { length (concat blocks.old) ≤ end * width }
    requires tight { end * width < length (concat blocks.old) + width }
    requires within { end ≤ length blocks.old }
    ensures before { (j : ℕ) → j < first → slice_index_or blocks.new j [] ≡ slice_index_or blocks.old j [] }
    ensures behind { (j : ℕ) → first ≤ j → j < length blocks.old → slice_index_or blocks.new j [] ≡ take width (drop (j * width + 1) (concat blocks.old)) }
    ensures first { option_to_list result ≡ take 1 (drop (first * width) (concat blocks.old)) }
{
    let mut next = None;
    let mut index = end;
    while first < index {
        index -= 1;
        next = Some(blocks[index].take_out(0, next));
    }
    next
}
