// What the definitions say of a small volume: a chunk with the bytes of `abc`, and a file `n` of this chunk.
ghost use Rattle.std.specs.Prelude.{◌≡◌, [], ◌∷◌, ◌++◌, length, false, Some};
ghost use Rattle.std.specs.FinMap as fin_map;
ghost use Rattle.site_forms.specs.Examples.{abc_name, file_body, small_log, abc, bbc};
ghost use Rattle.site_forms.specs.VolumeRecords.{volume_body};
ghost use Rattle.site_forms.specs.VolumeRecords.VolumeRecord.{ChunkRecord, FileRecord};
ghost use Rattle.site_forms.specs.Volumes.{empty_volume, with_chunk};
ghost use Rattle.chunk_log.specs.Appending.{IsFull};
ghost use Rattle.chunk_volume.specs.Adding.{places_after};
ghost use Rattle.chunk_volume.specs.Standing.{Keeps};

/// Where the bytes of the small volume stand, and when it is full.
pub fn small_volume_examples()
    ensures place { places_after 0 fin_map.empty (ChunkRecord abc_name abc) ≡ fin_map.insert fin_map.empty abc_name 38 }
    ensures kept { Keeps (fin_map.insert fin_map.empty abc_name 38) (small_log abc 1 0) 81 (with_chunk empty_volume abc_name abc) }
    // not where another byte stands there, nor a place off by one
    ensures changed { ¬ Keeps (fin_map.insert fin_map.empty abc_name 38) (small_log bbc 1 0) 81 (with_chunk empty_volume abc_name abc) }
    ensures beside { ¬ Keeps (fin_map.insert fin_map.empty abc_name 37) (small_log abc 1 0) 81 (with_chunk empty_volume abc_name abc) }
    ensures file { volume_body (FileRecord (0x6e ∷ []) (abc_name ∷ [])) ≡ file_body }
    // the record of the file does not fit where 81 bytes are the limit, and does where 82 are
    ensures full { IsFull (record { device = 0; limit = 81; end = 41; spent = false }) (length file_body) }
    ensures fits { ¬ IsFull (record { device = 0; limit = 82; end = 41; spent = false }) (length file_body) }
{}
