// Laws of volumes that stand for places.
ghost use Rattle.std.specs.Prelude.{◌≡◌, ◌≢◌, ◌⊎◌, ◌<◌, ◌≤◌, ◌++◌, ◌∷◌, [], ℕ, List, Some, length};
ghost use Rattle.std.specs.Option.{option_map};
ghost use Rattle.volume_disk.specs.Disk.{Disk, Images, Crash, SameDisk, SameElsewhere};
ghost use Rattle.volume_disk.specs.Medium.{IsAtRest};
ghost use Rattle.site_forms.specs.Halves.{OneMoreAt};
ghost use Rattle.site_forms.specs.Sites.{shape_of, volume_at};
ghost use Rattle.site_forms.specs.VolumeRecords.{VolumeRecord, IsVolumeRecord, volume_body};
ghost use Rattle.site_forms.specs.Volumes.{Volume, shape_after, volume_after};
ghost use Rattle.chunk_log.specs.LogValues.{LogValue};
ghost use Rattle.chunk_log.specs.PlaceHalves.{SameOutside};
ghost use Rattle.chunk_log.specs.Standing.{LogStands};
ghost use Rattle.chunk_volume.specs.Standing.{VolumeStands};
ghost use Rattle.chunk_volume.specs.VolumeValues.{VolumeValue};

/// The laws of volumes that stand for places.
pub fn volume_laws()
    // a record does to the shape what it does to the volume
    ensures shape { (volume : Volume) (r : VolumeRecord) → shape_after (shape_of volume) r ≡ option_map shape_of (volume_after volume r) }
    // whatever a crash leaves of the place, it says this volume
    ensures settled { (place : ℕ) (v : VolumeValue) (volume : Volume) (d : Disk) (c : Images) → VolumeStands place v d volume → Crash d c → volume_at c place ≡ Some volume }
    // nothing is pending on the device of its log
    ensures rest { (place : ℕ) (v : VolumeValue) (volume : Volume) (d : Disk) → VolumeStands place v d volume → IsAtRest (d v.log.device) }
    // calls on the devices of another place change nothing here
    ensures outside { (place other : ℕ) (v : VolumeValue) (volume : Volume) (d e : Disk) → place ≤ 2 → other ≢ place → SameOutside place d e → VolumeStands other v d volume → VolumeStands other v e volume }
    // nor do calls on the device of its log
    ensures beside { (place other : ℕ) (log : LogValue) (records : List (List ℕ)) (v : VolumeValue) (volume : Volume) (d e : Disk) → other ≢ place → LogStands place records log d → VolumeStands other v d volume
        → SameElsewhere log.device d e → VolumeStands other v e volume }
    // nor do calls that change no device
    ensures same_disk { (place : ℕ) (v : VolumeValue) (volume : Volume) (d e : Disk) → SameDisk d e → VolumeStands place v d volume → VolumeStands place v e volume }
    // where a crash leaves one record more or none, the place says this volume or the one with the record
    ensures steps { (place : ℕ) (v : VolumeValue) (volume next : Volume) (r : VolumeRecord) (d : Disk) (b c : Images) → IsVolumeRecord r → volume_after volume r ≡ Some next → VolumeStands place v d volume → Crash d b
        → OneMoreAt place (volume_body r) b c → (volume_at c place ≡ Some volume) ⊎ (volume_at c place ≡ Some next) }
{}
