// The laws of sites that stand for a disk, and of what plans lead to.
ghost use Rattle.std.specs.Prelude.{◌≡◌, ℕ, List, Some};
ghost use Rattle.volume_disk.specs.Disk.{Disk, Images, Crash, SameDisk};
ghost use Rattle.site_forms.specs.Sites.{IsFolded, IsSiteAt, state_of};
ghost use Rattle.site_forms.specs.Views.{State, view};
ghost use Rattle.site_core.specs.Events.{Append, AreAllowed, shapes_of};
ghost use Rattle.site_core.specs.Lasting.{IsFoldedSite};
ghost use Rattle.site_core.specs.Plans.{AreActions, IsFrontOf, Led, events_of};
ghost use Rattle.site_runs.specs.SiteValues.{SiteValue, SiteStands, shapes_in};

/// The laws of sites that stand for a disk, and of what plans lead to.
pub fn run_laws()
    // whatever a crash leaves, it says this state
    ensures settled { (t : SiteValue) (s : State) (d : Disk) (c : Images) → SiteStands t d s → Crash d c → state_of c ≡ Some s }
    // calls that change no device change nothing here
    ensures same_disk { (t : SiteValue) (s : State) (d e : Disk) → SameDisk d e → SiteStands t d s → SiteStands t e s }
    // in memory stand the shapes of the state
    ensures shapes { (t : SiteValue) (s : State) (d : Disk) → SiteStands t d s → shapes_in t ≡ shapes_of s }
    // records fold to it
    ensures folded { (t : SiteValue) (s : State) (d : Disk) → SiteStands t d s → IsFolded s }
    // images to which a front of a plan leads are a site, where the plan is allowed
    ensures front { (s : State) (whole : List Append) (c : Images) → IsFoldedSite s → AreAllowed s (events_of whole) → Led (IsFrontOf whole) s c → IsSiteAt c }
    // and so are those to which next actions lead, with the view that was there
    ensures acts { (s : State) (c : Images) → IsFoldedSite s → Led (AreActions s) s c → IsSiteAt c }
    ensures views { (s now : State) (c : Images) (name : List ℕ) → IsFoldedSite s → Led (AreActions s) s c → state_of c ≡ Some now → view now name ≡ view s name }
{}
