// Sites that are opened.
ghost use Rattle.std.specs.Prelude.{◌≡◌, ◌↔◌, ◌^◌, ◌≤◌, true, false, IfOk};
ghost use Rattle.fault_count.specs.Counts.{HandsOn};
ghost use Rattle.seed_mover.specs.declared.errors.SiteError.TheVariants.{RackFault};
ghost use Rattle.site_forms.specs.Names.{is_name_list};
ghost use Rattle.site_forms.specs.Phases.{names_of};
ghost use Rattle.site_forms.specs.Sites.{Fits};
ghost use Rattle.volume_index.specs.HoldingValues.{KeepsShape};
ghost use Rattle.seed_mover.specs.Opening.{AnswersSite, OpensSite};
ghost use Rattle.seed_mover.specs.Parts.{AnswersParts, AnswersVolumes, FitsNamed, IsJudged, OpensParts, OpensVolumes};

use crate::errors::SiteError;
use crate::site::Site;
use chunk_volume::{Holding, Volume};
use move_journal::{Journal, Names, Phase};
use seed_model::NoMemory;
use site_core::{Cursor, SiteState, fits};
use std::alloc::Global;
use volume_disk::Rack;

/// The volumes of a site.
#[derive(Drop)]
struct Volumes {
    a: Volume,
    b: Volume,
}

/// The volumes of a site and its journal, of which it is not known whether they fit.
#[derive(Drop)]
struct Parts {
    volumes: Volumes,
    journal: Journal,
}

// Opens both volumes.
fn open_volumes<R: Rack>(alloc: Global, rack: &mut R, limit: u64) -> Result<Volumes, SiteError>
    requires { limit ≤ 2 ^ 40 }
    ensures cause { HandsOn RackFault (R.faults rack.old) (R.faults rack.new) result }
    ensures honest { R.honest rack.new ≡ R.honest rack.old }
    ensures answers { AnswersVolumes limit result }
    ensures opened { R.honest rack.old ≡ true → OpensVolumes R.moment R.left_since rack.old rack.new (R.disk rack.old) (R.disk rack.new) result }
{
    let a = match Volume::open(alloc, rack, 0, limit) {
        Ok(a) => a,
        Err(error) => return Err(SiteError::from(error)),
    };
    match Volume::open(alloc, rack, 1, limit) {
        Ok(b) => Ok(Volumes { a, b }),
        Err(error) => Err(SiteError::from(error)),
    }
}

// Opens both volumes and the journal.
fn open_parts<R: Rack>(alloc: Global, rack: &mut R, limit: u64) -> Result<Parts, SiteError>
    requires { limit ≤ 2 ^ 40 }
    ensures cause { HandsOn RackFault (R.faults rack.old) (R.faults rack.new) result }
    ensures honest { R.honest rack.new ≡ R.honest rack.old }
    ensures answers { AnswersParts limit result }
    ensures opened { R.honest rack.old ≡ true → OpensParts R.moment R.left_since rack.old rack.new (R.disk rack.old) (R.disk rack.new) result }
{
    let volumes = match open_volumes(alloc, rack, limit) {
        Ok(volumes) => volumes,
        Err(error) => return Err(error),
    };
    match Journal::open(alloc, rack, limit) {
        Ok(journal) => Ok(Parts { volumes, journal }),
        Err(error) => Err(SiteError::from(error)),
    }
}

impl Parts {
    // The site, where the phase fits the volumes.
    fn judged(self, alloc: Global) -> Result<Site, SiteError>
        requires a { self.volumes.a.log.spent ≡ false }
        requires b { self.volumes.b.log.spent ≡ false }
        requires journal { self.journal.log.spent ≡ false }
        ensures { IsJudged self result }
    {
        match self.fit(alloc) {
            Ok(true) => Ok(Site {
                alloc,
                a: self.volumes.a,
                b: self.volumes.b,
                journal: self.journal,
                cursor: Cursor::start(),
                spent: false,
            }),
            Ok(false) => Err(SiteError::Damage {
                device: self.journal.device(),
                at: self.journal.last_gate(),
            }),
            Err(NoMemory) => Err(SiteError::Memory),
        }
    }

    // Whether the phase has lawful names, and fits the volumes.
    fn fit(&self, alloc: Global) -> Result<bool, NoMemory>
        ensures fits { IfOk result (λ is. (is ≡ true) ↔ FitsNamed self.now) }
        ensures kept { KeepsShape self.now.volumes.a.shape × KeepsShape self.now.volumes.b.shape }
    {
        let a = self.volumes.a.holding();
        let b = self.volumes.b.holding();
        match has_lawful_names(self.journal.phase()) {
            Ok(true) => fits_volumes(alloc, a, b, self.journal.phase()),
            Ok(false) => Ok(false),
            Err(NoMemory) => Err(NoMemory),
        }
    }
}

// Whether a phase names no file twice.
fn has_lawful_names(phase: &Phase) -> Result<bool, NoMemory>
    ensures { IfOk result (λ is. is ≡ is_name_list (names_of phase.now)) }
{
    match phase {
        Phase::Idle => Ok(true),
        Phase::Moving(names) => are_lawful(names),
        Phase::Moved(names) => are_lawful(names),
        Phase::Undoing(names) => are_lawful(names),
    }
}

// Whether no name stands twice.
fn are_lawful(names: &Names) -> Result<bool, NoMemory>
    ensures { IfOk result (λ is. is ≡ is_name_list names.now) }
{
    let _count = names.len();
    names.are_distinct()
}

// Whether a phase with lawful names fits the volumes.
fn fits_volumes(alloc: Global, a: &Holding, b: &Holding, phase: &Phase) -> Result<bool, NoMemory>
    requires { is_name_list (names_of phase.now) ≡ true }
    ensures { IfOk result (λ is. (is ≡ true) ↔ Fits a.now.shape b.now.shape phase.now) }
{
    let state = SiteState { a, b, phase };
    let answer = fits(alloc, &state);
    let SiteState {
        a: _,
        b: _,
        phase: _,
    } = state;
    answer
}

impl Site {
    /// Opens a site whose devices may grow to `limit` bytes: A on the devices 0 and 3, B on 1 and 4, and the journal on 2 and
    /// 5, in this order. A journal that does not fit the volumes is damaged at its last record.
    pub fn open<R: Rack>(alloc: Global, rack: &mut R, limit: u64) -> Result<Site, SiteError>
        requires { limit ≤ 2 ^ 40 }
        ensures cause { HandsOn RackFault (R.faults rack.old) (R.faults rack.new) result }
        ensures honest { R.honest rack.new ≡ R.honest rack.old }
        ensures answers { AnswersSite limit result }
        ensures opened { R.honest rack.old ≡ true → OpensSite R.moment R.left_since rack.old rack.new (R.disk rack.old) (R.disk rack.new) result }
    {
        match open_parts(alloc, rack, limit) {
            Ok(parts) => parts.judged(alloc),
            Err(error) => Err(error),
        }
    }
}
