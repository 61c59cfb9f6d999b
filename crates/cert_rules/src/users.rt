// The rule on the user of a give.
ghost use Rattle.std.specs.Prelude.{◌≡◌, ℕ, ◌↔◌, IsTrue};
ghost use Rattle.bound_cert.specs.Judgements.{Told, Using, Keeps};
ghost use Rattle.bound_cert.specs.Lines.{Give};

use seed_model::Table;

/// Whether a give is of a class of the table, to a user of it: rule 9.
pub fn is_used(table: &Table, class: u32, file: u32) -> bool
    ensures { (told : Told) (charge reward : ℕ) → IsTrue result ↔ Keeps table.now told (Give class file charge reward) Using }
{
    class < table.classes() && table.users(class).binary_search(&file).is_ok()
}
