// Laws of the forms: of logs and halves, of records, and of what they fold to.
ghost use Rattle.std.specs.Prelude.{◌≡◌, ◌≢◌, ◌+◌, ◌^◌, ◌<◌, ◌≤◌, ℕ, List, [], ◌∷◌, ◌++◌, length, take, drop, slice_index, slice_index_or, All, Option, Some, None, ◌↔◌, true};
ghost use Rattle.site_forms.specs.Logs.{parse, framed, blocks, log_size, IsBody, HasBodyAt};
ghost use Rattle.site_forms.specs.Logs.Parsed.{Good, Bad};
ghost use Rattle.site_forms.specs.Halves.{half_record, half_number, generation, stronger, in_force, without_half, IsBelow, IsClosed, SameRecords};
ghost use Rattle.site_forms.specs.Halves.Half.{First, Second};
ghost use Rattle.std.specs.Option.{option_and_then};
ghost use Rattle.file_names.specs.FileNames.{IsFileName};
ghost use Rattle.site_forms.specs.Names.{is_name};
ghost use Rattle.site_forms.specs.VolumeRecords.{VolumeRecord, IsVolumeRecord, volume_body, volume_record};
ghost use Rattle.site_forms.specs.JournalRecords.{JournalRecord, journal_body, journal_record};
ghost use Rattle.site_forms.specs.Volumes.{Volume, volume_of, volume_step};
ghost use Rattle.site_forms.specs.Phases.{phase_of, phase_step};
ghost use Rattle.site_forms.specs.Sites.{volume_at, phase_at, state_of, IsFolded, IsSiteAt};
ghost use Rattle.site_forms.specs.Views.{State};

/// The laws of gated logs.
pub fn log_laws()
    ensures blank { (image : List ℕ) → length image ≤ 1 → parse image ≡ Good [] 0 }
    // the bytes behind a closed gate say nothing
    ensures agree { (image other : List ℕ) (bodies : List (List ℕ)) (gate : ℕ) → parse image ≡ Good bodies gate
        → gate < length other → take gate other ≡ take gate image → slice_index other gate ≢ 1 → parse other ≡ Good bodies gate }
    // a block behind the bodies is one body more
    ensures extend { (image other : List ℕ) (bodies : List (List ℕ)) (gate : ℕ) (body junk : List ℕ) → parse image ≡ Good bodies gate
        → take gate other ≡ take gate image → drop gate other ≡ 1 ∷ (framed body ++ junk) → 1 ≤ length body → length body ≤ 2 ^ 24
        → gate + 6 + length body ≤ 2 ^ 40 → parse other ≡ Good (bodies ++ body ∷ []) (gate + 5 + length body) }
    ensures ends { (image : List ℕ) (bodies : List (List ℕ)) (gate : ℕ) → parse image ≡ Good bodies gate → gate ≡ log_size bodies }
    ensures lawful { (image : List ℕ) (bodies : List (List ℕ)) (gate : ℕ) → parse image ≡ Good bodies gate → All IsBody bodies }
    ensures within { (image : List ℕ) (bodies : List (List ℕ)) (gate i : ℕ) → parse image ≡ Good bodies gate → i < length bodies
        → HasBodyAt image (log_size (take i bodies)) (slice_index_or bodies i []) }
    // the blocks of bodies behind one another, and a closed gate
    ensures whole { (bodies : List (List ℕ)) (gate : ℕ) (junk : List ℕ) → All IsBody bodies → gate ≢ 1 → log_size bodies < 2 ^ 40
        → parse (blocks bodies ++ gate ∷ junk) ≡ Good bodies (log_size bodies) }
{}

/// The laws of halves.
pub fn half_laws()
    ensures kept { (n : ℕ) → n < 2 ^ 64 → half_number (half_record n) ≡ n }
    ensures closed { (image : List ℕ) → IsClosed image → generation image ≡ None }
    ensures first_stays { (g h : Option ℕ) → IsBelow h g → stronger g h ≡ Some First }
    ensures second_stays { (g h : Option ℕ) (n : ℕ) → h ≡ Some n → IsBelow g h → stronger g h ≡ Some Second }
    // a body that is no Half record joins the records
    ensures joins { (bodies : List (List ℕ)) (body : List ℕ) → half_number body ≡ 0
        → without_half (bodies ++ body ∷ []) ≡ without_half bodies ++ body ∷ [] }
{}

/// The laws of records and their bodies: a body spells at most one record, and each record is spelled by one body.
pub fn record_laws()
    ensures volume_read { (r : VolumeRecord) → IsVolumeRecord r → volume_record (volume_body r) ≡ Some r }
    ensures volume_spelled { (body : List ℕ) (r : VolumeRecord) → volume_record body ≡ Some r → volume_body r ≡ body }
    ensures volume_lawful { (body : List ℕ) (r : VolumeRecord) → volume_record body ≡ Some r → IsVolumeRecord r }
    ensures journal_read { (r : JournalRecord) → journal_record (journal_body r) ≡ Some r }
    ensures journal_spelled { (body : List ℕ) (r : JournalRecord) → journal_record body ≡ Some r → journal_body r ≡ body }
    ensures names { (name : List ℕ) → (is_name name ≡ true) ↔ IsFileName name }
{}

/// The laws of folds: one body more is one step more.
pub fn fold_laws()
    ensures volume { (bodies : List (List ℕ)) (body : List ℕ) → volume_of (bodies ++ body ∷ []) ≡ option_and_then (λ volume. volume_step volume body) (volume_of bodies) }
    ensures phase { (bodies : List (List ℕ)) (body : List ℕ) → phase_of (bodies ++ body ∷ []) ≡ option_and_then (λ phase. phase_step phase body) (phase_of bodies) }
    // blank devices are a site
    ensures blank { (c : ℕ → List ℕ) → ((dev : ℕ) → dev ≤ 5 → length (c dev) ≤ 1) → IsSiteAt c }
{}

/// The laws of states: what six images say.
pub fn state_laws()
    // what each of the three places says
    ensures parts { (c : ℕ → List ℕ) (s : State) → (state_of c ≡ Some s) ↔ ((volume_at c 0 ≡ Some s.a) × (volume_at c 1 ≡ Some s.b) × (phase_at c ≡ Some s.phase)) }
    // with the same records at every place they say the same
    ensures same_state { (b c : ℕ → List ℕ) → SameRecords b c → state_of c ≡ state_of b }
    // what they say is what records fold to
    ensures folded { (c : ℕ → List ℕ) (s : State) → state_of c ≡ Some s → IsFolded s }
{}
