// What multipliers of one slope have in common.
ghost use Rattle.hull_bound.specs.Laws.{OneBound};

/// Multipliers of a node for one slope prove one bound. So the slope of a node's relaxation, with which `multipliers_at` is
/// called again, gives the bound of the relaxation.
pub fn relaxation_laws()
    ensures { OneBound }
{}
