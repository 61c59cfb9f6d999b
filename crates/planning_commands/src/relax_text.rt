// The lines that `relax` prints of a value.
ghost use Rattle.std.specs.Prelude.{◌≡◌, ◌++◌, ◌<◌, ◌^◌, length, IfOk, OnOk};
ghost use Rattle.seed_model.specs.Nodes.{weight_of};
ghost use Rattle.planning_commands.specs.Relax.{PrintsBound, mix_line, value_line};

use command_texts::lines::{add, add_numbers};
use hull_bound::{Mix, Multipliers, value_of};
use seed_model::{NoMemory, Table, write_number};
use seed_text::write_set;
use std::alloc::Global;

/// What `relax` prints of a value: that of a mix, with the slope of multipliers, and the mix.
pub(crate) fn text_of_bound(
    alloc: Global,
    table: &Table,
    multipliers: &Multipliers,
    mix: &Mix,
) -> Result<Vec<u8>, NoMemory>
    requires first { length mix.now.first ≡ table.now.files }
    requires second { length mix.now.second ≡ table.now.files }
    requires alpha { mix.now.alpha < 2 ^ 51 }
    requires beta { mix.now.beta < 2 ^ 51 }
    requires weighed { 0 < weight_of mix.now }
    ensures { IfOk result (λ text. PrintsBound table.now multipliers.now.p multipliers.now.q mix.now text.items) }
{
    let (over, under) = value_of(table, mix);
    let mut text = Vec::new(alloc);
    add_value(&mut text, over, under)?;
    add_numbers(&mut text, b"multipliers", &[multipliers.p, multipliers.q])?;
    add_mix(alloc, &mut text, mix)?;
    Ok(text)
}

/// Puts the line of a value behind a text.
fn add_value(text: &mut Vec<u8>, over: u128, under: u128) -> Result<(), NoMemory>
    ensures { OnOk result (text.new.items ≡ text.old.items ++ value_line over under) }
{
    add(text, b"value ")?;
    write_number(over, text)?;
    add(text, b" ")?;
    write_number(under, text)?;
    add(text, b"\n")
}

/// Puts the line of a mix behind a text.
fn add_mix(alloc: Global, text: &mut Vec<u8>, mix: &Mix) -> Result<(), NoMemory>
    ensures { OnOk result (text.new.items ≡ text.old.items ++ mix_line mix.now) }
{
    let first = write_set(alloc, &mix.first)?;
    let second = write_set(alloc, &mix.second)?;
    add(text, b"mix ")?;
    add(text, &first)?;
    add(text, b" ")?;
    add(text, &second)?;
    add(text, b" ")?;
    write_number(mix.alpha as u128, text)?;
    add(text, b" ")?;
    write_number(mix.beta as u128, text)?;
    add(text, b"\n")
}
