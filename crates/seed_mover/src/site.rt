// Sites in memory.
ghost use Rattle.std.specs.Prelude.{◌≡◌};
ghost use Rattle.site_core.specs.Lasting.{IsKept};
ghost use Rattle.site_runs.specs.SiteValues.{shapes_in};

use chunk_volume::Volume;
use move_journal::{Journal, Phase};
use site_core::{Cursor, SiteState};
use std::alloc::Global;
use std::marker::Model;

/// Two volumes, A and B, and the journal of a migration from A to B.
#[derive(Drop)]
pub struct Site {
    pub(crate) alloc: Global,
    pub(crate) a: Volume,
    pub(crate) b: Volume,
    pub(crate) journal: Journal,
    pub(crate) cursor: Cursor,
    pub(crate) spent: bool,
}

impl Model for Site {
    ghost use Rattle.std.specs.Coded.{codes};
    ghost use Rattle.chunk_volume.specs.VolumeValues.{volume_code};
    ghost use Rattle.site_runs.specs.SiteValues.{SiteValue};
    ghost use Rattle.seed_mover.specs.SiteInside.{view_of, KeepsSite};

    ghost Value = { SiteValue };

    ghost coded = { Prim.hlevel (codes, volume_code) };

    ghost view = { view_of };

    ghost invariant = { KeepsSite };
}

impl Site {
    /// How far the migration has come.
    pub fn phase(&self) -> &Phase
        ensures { result.now ≡ self.now.journal.phase }
    {
        self.journal.phase()
    }

    /// What A and B hold, and the phase.
    pub fn state(&self) -> SiteState<'_>
        ensures a { result.a.now.shape ≡ self.now.a.shape }
        ensures b { result.b.now.shape ≡ self.now.b.shape }
        ensures phase { result.phase.now ≡ self.now.journal.phase }
        ensures kept { IsKept (shapes_in self.now) }
    {
        SiteState {
            a: self.a.holding(),
            b: self.b.holding(),
            phase: self.journal.phase(),
        }
    }

    /// Volume A.
    pub fn a(&self) -> &Volume
        ensures { result.now ≡ self.now.a }
    {
        &self.a
    }

    /// Volume B.
    pub fn b(&self) -> &Volume
        ensures { result.now ≡ self.now.b }
    {
        &self.b
    }

    /// Whether a call of the rack has failed in a call that takes the site by `&mut`: then every call that writes answers
    /// `Spent`.
    pub fn is_spent(&self) -> bool
        ensures { result ≡ self.now.spent }
    {
        self.spent
    }
}
