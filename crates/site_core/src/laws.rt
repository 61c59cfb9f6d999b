// The laws of sites.
ghost use Rattle.std.specs.Prelude.{◌≡◌, ◌≢◌, ℕ, ◌+◌, ◌^◌, ◌<◌, List, ◌++◌, Some};
ghost use Rattle.site_forms.specs.declared.phase.Phase.TheVariants.{Idle, Moved};
ghost use Rattle.std.specs.Option.{option_map};
ghost use Rattle.site_forms.specs.JournalRecords.{JournalRecord};
ghost use Rattle.site_forms.specs.JournalRecords.JournalRecord.{BeginRecord, UndoneRecord};
ghost use Rattle.site_forms.specs.Views.{State, view, origin};
ghost use Rattle.site_core.specs.declared.action.Action.{Action};
ghost use Rattle.site_core.specs.declared.cursor.Cursor.{Cursor};
ghost use Rattle.site_core.specs.Cursors.{IsCursorOf};
ghost use Rattle.site_core.specs.Events.{Append, Event, Shapes, shapes_of, append_of, append_with, next_action_of, happens, happens_to, CopiesChunk, MayAppend, MayAppendTo, Allowed, AreAllowed, after, after_all};
ghost use Rattle.site_core.specs.Events.Append.{ToJournal};
ghost use Rattle.site_core.specs.Events.Event.{Appends};
ghost use Rattle.site_core.specs.Lasting.{AllSpare, AreStill, HasValues, IsBack, IsFoldedSite, IsKept, IsRestored, IsSplit, IsUndone, KeepsWith, LeavesOne, SameVolumes, StaysOpen, begun, reading, value_in, view_after, remaining_of};
ghost use Rattle.site_core.specs.Plans.{AreActions, after_plan, events_of};
ghost use Rattle.site_core.specs.Steps.{next_of, remaining};

/// The laws of sites, over every list of events that are allowed one after the other.
pub fn site_laws()
    // each state is a site
    ensures sites { (s : State) (events : List Event) → IsFoldedSite s → AreAllowed s events → IsFoldedSite (after_all s events) }
    // each append that is allowed folds
    ensures folds { (s : State) (x : Append) → IsFoldedSite s → MayAppend s x → happens s x ≡ Some (after s (Appends x)) }
    // a read finds each chunk with its digest, and answers the view
    ensures reads { (s : State) (name : List ℕ) → IsFoldedSite s → reading s name ≡ view s name }
    // the view changes while no migration is open, at a File record and a DropFile, by that one name
    ensures views { (s : State) (e : Event) (name : List ℕ) → IsFoldedSite s → Allowed s e → view (after s e) name ≡ view_after s e name }
    // so over events that add and drop no file but while a migration is open, it is the same
    ensures still { (s : State) (events : List Event) (name : List ℕ) → IsFoldedSite s → AreAllowed s events → AreStill s events → view (after_all s events) name ≡ view s name }
    ensures busy { (s : State) (events : List Event) → StaysOpen s events → AreStill s events }
    // and under one name over events that do not add and drop this one
    ensures spared { (s : State) (events : List Event) (name : List ℕ) → IsFoldedSite s → AreAllowed s events → AllSpare name s events → view (after_all s events) name ≡ view s name }
    // the origin is constant until the phase is Idle
    ensures origin { (s : State) (events : List Event) → IsFoldedSite s → AreAllowed s events → StaysOpen s events → origin (after_all s events) ≡ origin s }
    // which begins as A's files
    ensures begins { (s : State) (names : List (List ℕ)) → IsFoldedSite s → MayAppend s (ToJournal (BeginRecord names)) → origin (after s (Appends (ToJournal (BeginRecord names)))) ≡ s.a.files }
    // and so long the chunks under one name have the same bytes, in both volumes
    ensures values { (s : State) (events : List Event) → IsFoldedSite s → s.phase ≢ Idle → AreAllowed s events → StaysOpen s events → HasValues (value_in s) (after_all s events) }
    // once all has moved, the named files are in B and the others in A
    ensures moved { (s : State) (names : List (List ℕ)) → IsFoldedSite s → s.phase ≡ Moved names → IsSplit s names }
    // a record of the journal changes no volume, an accepted end among them
    ensures marks { (s : State) (r : JournalRecord) → SameVolumes s (after s (Appends (ToJournal r))) }
    // an undo ends where the migration began
    ensures undone { (s : State) → IsFoldedSite s → MayAppend s (ToJournal UndoneRecord) → IsRestored s }
    // with the very files and chunks that A held then, byte for byte, before the record of the end and behind it
    ensures restored { (s : State) (names : List (List ℕ)) (events : List Event) → IsFoldedSite s → MayAppend s (ToJournal (BeginRecord names)) → AreAllowed (begun s names) events → StaysOpen (begun s names) events
        → MayAppend (after_all (begun s names) events) (ToJournal UndoneRecord) → IsBack s (after_all (begun s names) events) }
    ensures finished { (s : State) (names : List (List ℕ)) (events : List Event) → IsFoldedSite s → MayAppend s (ToJournal (BeginRecord names)) → AreAllowed (begun s names) events → StaysOpen (begun s names) events
        → MayAppend (after_all (begun s names) events) (ToJournal UndoneRecord) → IsBack s (after (after_all (begun s names) events) (Appends (ToJournal UndoneRecord))) }
    // next actions that end with no migration open have undone it, wherever they began
    ensures undo { (s : State) (plan : List Append) → IsFoldedSite s → s.phase ≢ Idle → AreActions s plan → (after_plan s plan).phase ≡ Idle → IsUndone s (after_plan s plan) }
    // next actions, one after the other, are events that are allowed, and a migration is open whenever one comes
    ensures actions { (s : State) (plan : List Append) → AreActions s plan → AreAllowed s (events_of plan) × StaysOpen s (events_of plan) }
    // events in two parts
    ensures all_joined { (s : State) (front rest : List Event) → after_all s (front ++ rest) ≡ after_all (after_all s front) rest }
    ensures allowed_front { (s : State) (front rest : List Event) → AreAllowed s (front ++ rest) → AreAllowed s front × AreAllowed (after_all s front) rest }
    ensures allowed_joined { (s : State) (front rest : List Event) → AreAllowed s front → AreAllowed (after_all s front) rest → AreAllowed s (front ++ rest) }
    // each next action leaves one action less, of fewer than 2^22
    ensures next { (s : State) (action : Action) → IsFoldedSite s → next_action_of s ≡ Some action → remaining_of (after s (Appends (append_of s action))) + 1 ≡ remaining_of s }
    ensures few { (s : State) → IsFoldedSite s → remaining_of s < 2 ^ 22 }
{}

/// The laws of two volumes in memory and a phase, whatever the devices say.
pub fn memory_laws()
    // each append that is allowed folds, and keeps the fit
    ensures keeps { (t : Shapes) (x : Append) → IsKept t → MayAppendTo t x → KeepsWith t x }
    // each next action leaves one action less, of fewer than 2^22
    ensures next { (t : Shapes) (action : Action) (bytes : List ℕ) → IsKept t → next_of t.a t.b t.phase ≡ Some action → CopiesChunk action bytes → LeavesOne t (append_with t.a t.b t.phase bytes action) }
    ensures few { (t : Shapes) → IsKept t → remaining t.a t.b t.phase < 2 ^ 22 }
    // over which a cursor stays right
    ensures cursor { (t next : Shapes) (c : Cursor) (action : Action) (bytes : List ℕ) → next_of t.a t.b t.phase ≡ Some action → happens_to t (append_with t.a t.b t.phase bytes action) ≡ Some next
        → IsCursorOf t.a t.b t.phase c → IsCursorOf next.a next.b next.phase c }
    // records do to volumes in memory what they do to those of a state
    ensures step { (s : State) (x : Append) → happens_to (shapes_of s) x ≡ option_map shapes_of (happens s x) }
    ensures kept { (s : State) → IsFoldedSite s → IsKept (shapes_of s) }
{}
