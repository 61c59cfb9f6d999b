// What words and the world determine.
ghost use Rattle.goseed_top.specs.Determined.{OneEnding};
ghost use Rattle.goseed_top.specs.Laws.{AllLawful};

use goseed_words::word_laws;
use order_commands::order_command_laws;
use planning_commands::planning_laws;
use trial_commands::trial_laws;

/// How a command ends is determined: over the same byte strings by name and the same devices the same words have one
/// status and one text, and leave one thing. Of a text of `relax` with a value, the value is determined: more than one slope
/// and mix may fit. Of a search, that of `gen` too, it is determined which answers exclude one another and how many bytes a best
/// plan replicates; and the text of `gen`, where one certificate is left. Of `carry` only how the certificate shows its bound is
/// not determined.
pub fn ending_laws()
    ensures { OneEnding }
{
    word_laws();
    command_laws();
}

/// How each command ends is determined, as far as is said, and has a cause.
pub(crate) fn command_laws()
    ensures { AllLawful }
{
    planning_laws();
    trial_laws();
    order_command_laws();
}
