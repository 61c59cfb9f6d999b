// What is proved of how each command ends.
ghost use Rattle.goseed_words.specs.Commands.{Gap, Gen, Greedy};
ghost use Rattle.command_endings.specs.Laws.{IsLawfulCommand};
ghost use Rattle.trial_commands.specs.Causes.{TrialCause};
ghost use Rattle.trial_commands.specs.Endings.{gap_common, gap_ends, gen_common, gen_ends, greedy_common, greedy_ends};

use bound_cert::certificate_laws;
use chunk_merge::merge_laws;
use recipe_reader::recipe_laws;
use seed_text::set_text_laws;

/// How each of these commands ends is determined by its words and the byte strings that it finds, and has a cause. Of `gen` it
/// is determined which answers exclude one another, how many bytes a best plan replicates, and the text where one certificate is
/// left.
pub fn trial_laws()
    ensures drawing { IsLawfulCommand TrialCause Gen gen_ends gen_common }
    ensures greedy { IsLawfulCommand TrialCause Greedy greedy_ends greedy_common }
    ensures gap { IsLawfulCommand TrialCause Gap gap_ends gap_common }
{
    certificate_laws();
    merge_laws();
    recipe_laws();
    set_text_laws();
}
