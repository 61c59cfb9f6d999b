// What the definitions say of a few images.
ghost use Rattle.std.specs.Prelude.{◌≡◌, ◌≤◌, ◌<◌, ℕ, List, [], ◌∷◌, ◌++◌, length, take, Option, Some, None};
ghost use Rattle.site_forms.specs.Logs.{parse};
ghost use Rattle.site_forms.specs.Logs.Parsed.{Good, Bad};
ghost use Rattle.site_forms.specs.VolumeRecords.{volume_record};
ghost use Rattle.site_forms.specs.VolumeRecords.VolumeRecord.{ChunkRecord, FileRecord};
ghost use Rattle.site_forms.specs.Volumes.{volume_of, empty_volume};
ghost use Rattle.site_forms.specs.Phases.{phase_of};
ghost use Rattle.site_forms.specs.Views.{State, view};
ghost use Rattle.site_forms.specs.Sites.{state_of, Fits};
ghost use Rattle.site_forms.specs.Examples.{abc_name, chunk_body, file_body, small_log, abc, bbc};
ghost use Rattle.site_forms.specs.declared.phase.Phase.TheVariants.{Idle, Moving};

/// A log of a chunk and a file, and the same with one byte changed.
pub fn small_log_examples()
    ensures size { length (small_log abc 1 0) ≡ 82 }
    ensures whole { parse (small_log abc 1 0) ≡ Good (chunk_body abc ∷ file_body ∷ []) 81 }
    ensures chunk { volume_record (chunk_body abc) ≡ Some (ChunkRecord abc_name abc) }
    ensures file { volume_record file_body ≡ Some (FileRecord (0x6e ∷ []) (abc_name ∷ [])) }
    ensures cut_short { parse (take 81 (small_log abc 1 0)) ≡ Bad 41 }
    ensures torn_gate { parse (small_log abc 1 0x7f) ≡ Good (chunk_body abc ∷ file_body ∷ []) 81 }
    ensures closed_gate { parse (small_log abc 0 0) ≡ Good (chunk_body abc ∷ []) 41 }
    ensures other_bytes { parse (small_log bbc 1 0) ≡ Good (chunk_body bbc ∷ file_body ∷ []) 81 }
{}

/// Blank and short logs, and bodies that do not fold.
pub fn short_log_examples()
    ensures blank { parse (1 ∷ []) ≡ Good [] 0 }
    ensures no_length { parse (1 ∷ 0 ∷ 0 ∷ 0 ∷ 0 ∷ []) ≡ Bad 0 }
    ensures no_kind { parse (1 ∷ 0 ∷ 0 ∷ 0 ∷ 1 ∷ 5 ∷ 0 ∷ []) ≡ Good ((5 ∷ []) ∷ []) 6 }
    ensures unfolded { volume_of ((5 ∷ []) ∷ []) ≡ None }
    ensures moved_alone { phase_of ((17 ∷ []) ∷ []) ≡ None }
    ensures begin_none { phase_of ((16 ∷ []) ∷ []) ≡ Some (Moving []) }
    ensures begin_one { phase_of ((16 ∷ 1 ∷ 0x6e ∷ []) ∷ []) ≡ Some (Moving ((0x6e ∷ []) ∷ [])) }
    // no volume holds the file
    ensures unfit { ¬ Fits empty_volume empty_volume (Moving ((0x6e ∷ []) ∷ [])) }
{}

/// What six images show that are blank but for the small log on device 0.
pub fn small_site_example()
    ensures { (c : ℕ → List ℕ) → c 0 ≡ small_log abc 1 0 → ((dev : ℕ) → 0 < dev → dev ≤ 5 → length (c dev) ≤ 1)
        → (s : State) × (state_of c ≡ Some s) × (s.phase ≡ Idle) × (view s (0x6e ∷ []) ≡ Some abc) }
{}
