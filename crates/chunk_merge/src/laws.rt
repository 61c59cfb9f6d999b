// What merging keeps.
ghost use Rattle.chunk_merge.specs.Merged.{HasEachOnce, KeepsBest, KeepsNone, KeepsSums, KeepsTables, KeepsTotal, MergesRecipes};

/// Merging keeps the bytes by any test of users, so every sum of every set of files; and with them which sets of files are
/// best.
pub fn merge_laws()
    ensures sums { KeepsSums }
    ensures total { KeepsTotal }
    ensures once { HasEachOnce }
    ensures tables { KeepsTables }
    ensures recipes { MergesRecipes }
    ensures best { KeepsBest }
    ensures none { KeepsNone }
{}
