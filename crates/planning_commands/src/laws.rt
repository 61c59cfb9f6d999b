// What is proved of how each command ends.
ghost use Rattle.goseed_words.specs.Commands.{Best, Weigh, Check, Relax, Plan, Pinned};
ghost use Rattle.command_endings.specs.Laws.{IsLawfulCommand};
ghost use Rattle.planning_commands.specs.Causes.{PlanningCause};
ghost use Rattle.planning_commands.specs.Laws.{GiveOne};
ghost use Rattle.planning_commands.specs.Endings.{best_common, best_ends, weigh_common, weigh_ends, check_common, check_ends, relax_common, relax_ends, plan_common, plan_ends, pinned_common, pinned_ends};

use bound_cert::certificate_laws;
use chunk_merge::merge_laws;
use incidence::incidence_laws;
use recipe_reader::recipe_laws;
use seed_text::set_text_laws;

/// How a command on plans ends is determined by its words and the byte strings that it finds, and has a cause. Of the text
/// of a value that `relax` prints, the value is determined, and of a search, which answers exclude one another and how many bytes a
/// best plan replicates.
pub fn planning_laws()
    ensures best { IsLawfulCommand PlanningCause Best best_ends best_common }
    ensures weigh { IsLawfulCommand PlanningCause Weigh weigh_ends weigh_common }
    ensures check { IsLawfulCommand PlanningCause Check check_ends check_common }
    ensures relax { IsLawfulCommand PlanningCause Relax relax_ends relax_common }
    ensures plan { IsLawfulCommand PlanningCause Plan plan_ends plan_common }
    ensures one { GiveOne }
    ensures pinned { IsLawfulCommand PlanningCause Pinned pinned_ends pinned_common }
{
    certificate_laws();
    incidence_laws();
    merge_laws();
    recipe_laws();
    set_text_laws();
}
