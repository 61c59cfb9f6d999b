// What every incidence of a recipe keeps to.
ghost use Rattle.incidence.specs.Incidences.{OfRecipes, UsersAreExact, ChunksAreExact};

/// Users and chunks hold exactly the pairs of the recipe, both strictly rising; and the incidence of a recipe has the sums of
/// its chunks.
pub fn incidence_laws()
    ensures users { UsersAreExact }
    ensures chunks { ChunksAreExact }
    ensures recipes { OfRecipes }
{}
