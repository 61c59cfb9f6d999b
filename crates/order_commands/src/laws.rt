// What is proved of how each command ends.
ghost use Rattle.goseed_words.specs.Commands.{Carry, Sort};
ghost use Rattle.command_endings.specs.Laws.{IsLawfulCommand};
ghost use Rattle.order_commands.specs.Causes.{OrderCause};
ghost use Rattle.order_commands.specs.Endings.{carry_common, carry_ends, sort_common, sort_ends};

use bound_cert::certificate_laws;
use chunk_merge::merge_laws;
use recipe_order::{one_order_laws, order_laws};
use recipe_reader::recipe_laws;
use seed_text::set_text_laws;

/// How each of these commands ends is determined by its words and the byte strings that it finds, and has a cause. Of `carry`,
/// how the certificate that it leaves shows its bound is not determined.
pub fn order_command_laws()
    ensures sorting { IsLawfulCommand OrderCause Sort sort_ends sort_common }
    ensures carrying { IsLawfulCommand OrderCause Carry carry_ends carry_common }
{
    certificate_laws();
    merge_laws();
    order_laws();
    one_order_laws();
    recipe_laws();
    set_text_laws();
}
