// The waiting nodes: a heap from which the one of least value comes first.
ghost use Rattle.std.specs.Prelude.{◌≡◌, ◌∷◌, [], All, IfNone, IfSome, OnOk};
ghost use Rattle.std.specs.Ordering.{nat_cmp, on, as_partial_cmp, eq_by_cmp, then_cmp, flip_args};
ghost use Rattle.std.specs.Cmp.{partial_order_from_total, partial_equiv_from_equiv};
ghost use Rattle.std.specs.List.Sorted.{IsPermutation};
ghost use Rattle.std.proofs.Common.{refl};
ghost use Rattle.std.proofs.lemmas.Cmp.{eq_by_cmp_equiv};
ghost use Rattle.branch_bound.specs.Orders.{candidate_cmp, GoesFirst};
ghost use Rattle.branch_bound.specs.OrderLaws.{candidate_total};

use crate::candidate::Candidate;
use seed_model::NoMemory;
use seed_ratio::compare;
use std::alloc::Global;
use std::cmp::Ordering;
use std::collections::BinaryHeap;
use std::marker::Model;

impl PartialEq for Candidate {
    ghost eq = { eq_by_cmp candidate_cmp };

    ghost laws = { partial_equiv_from_equiv (eq_by_cmp_equiv candidate_total) };

    fn eq(&self, other: &Candidate) -> bool {
        self.cmp(other).is_eq()
    }
}

impl Eq for Candidate {
    ghost laws = { eq_by_cmp_equiv candidate_total };
}

impl PartialOrd for Candidate {
    ghost partial_cmp = { as_partial_cmp candidate_cmp };

    ghost laws = { partial_order_from_total candidate_total };

    fn partial_cmp(&self, other: &Candidate) -> Option<Ordering> {
        Some(self.cmp(other))
    }
}

impl Ord for Candidate {
    ghost cmp = { candidate_cmp };

    ghost total = { candidate_total };

    ghost matches_partial_cmp = { λ x y. refl };

    ghost matches_eq = { λ x y. refl };

    /// The greater one is taken first: that of less value, and among equals the one made earlier.
    fn cmp(&self, other: &Candidate) -> Ordering {
        let by_value = compare(
            other.worth,
            other.weight as u128,
            self.worth,
            self.weight as u128,
        );
        by_value.then(other.number.cmp(&self.number))
    }
}

/// The nodes that wait, in no order that matters but for the one that is taken first.
#[derive(Drop)]
pub(crate) struct Waiting {
    heap: BinaryHeap<Candidate, Global>,
}

impl Model for Waiting {
    ghost use Rattle.std.specs.Prelude.{List};
    ghost use Rattle.std.specs.BinaryHeap.{heap_items, IsHeap};
    ghost use Rattle.branch_bound.specs.declared.candidate.Candidate.{Candidate};
    ghost use Rattle.branch_bound.specs.Orders.{candidate_cmp};

    ghost Value = { List Candidate };

    ghost view = { λ w. heap_items w.heap };

    ghost invariant = { λ w. IsHeap candidate_cmp (heap_items w.heap) };
}

impl Waiting {
    /// No node.
    pub(crate) fn new(alloc: Global) -> Self
        ensures { result ≡ [] }
    {
        Waiting {
            heap: BinaryHeap::new(alloc),
        }
    }

    /// One more.
    pub(crate) fn push(&mut self, candidate: Candidate) -> Result<(), NoMemory>
        ensures { OnOk result (IsPermutation (candidate ∷ self.old) self.new) }
    {
        Ok(self.heap.push(candidate)?)
    }

    /// Takes the one that is taken first.
    pub(crate) fn take_first(&mut self) -> Option<Candidate>
        ensures taken { IfSome result (λ c. IsPermutation self.old (c ∷ self.new)) }
        ensures first { IfSome result (λ c. All (GoesFirst c) self.old) }
        ensures none { IfNone result (self.old ≡ []) }
    {
        self.heap.pop()
    }
}
