// What recipes that are one but for the order of their files and chunks have in common.
ghost use Rattle.recipe_order.specs.Laws.{CarriesBest, CarriesRange, CarriesSums, HasOneOrder, HasOneSorted, HoldsOfSame, IsReflexive, IsSymmetric, IsTransitive, KeepsBest, KeepsBytes, KeepsNone, KeepsRange, KeepsSums};

/// Of two lawful recipes that are one but for the order of their files and chunks: they have the same bytes, and every set
/// of file names has the same three sums in both. So it is in range, or best, in the one exactly where it is in the other;
/// and no set is in range of the one exactly where none is of the other. The same holds of a set of files of the one and the
/// set of the other's files that have the same names.
pub fn order_laws()
    ensures sums { KeepsSums }
    ensures bytes { KeepsBytes }
    ensures range { KeepsRange }
    ensures best { KeepsBest }
    ensures none { KeepsNone }
    ensures carried_sums { CarriesSums }
    ensures carried_range { CarriesRange }
    ensures carried_best { CarriesBest }
{}

/// A recipe is one with itself but for the order; if it is so with a second one, the second is with it, and with a third
/// where the second is. A recipe is so with what its text reads to.
pub fn likeness_laws()
    ensures reflexive { IsReflexive }
    ensures symmetric { IsSymmetric }
    ensures transitive { IsTransitive }
    ensures same { HoldsOfSame }
{}

/// A recipe has one order by falling shared bytes, and so is sorted in one way.
pub fn one_order_laws()
    ensures order { HasOneOrder }
    ensures sorted { HasOneSorted }
{}
