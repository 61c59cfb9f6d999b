// What a greedy set is worth.
ghost use Rattle.greedy_seed.specs.Admitted.{FoundIsAdmitted, KeepsBound};

/// The laws of greedy sets, for every table that keeps to the limits: a set that is found is one that may be chosen. Beside
/// a valid certificate of the same range and pins none is found where the certificate says that there is none, and else
/// the set replicates at least the bound; so the least replicated bytes lie between the two.
pub fn greedy_laws()
    ensures admitted { FoundIsAdmitted }
    ensures bound { KeepsBound }
{}
