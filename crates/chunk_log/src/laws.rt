// Laws of logs that stand for places.
ghost use Rattle.std.specs.Prelude.{◌≡◌, ◌≢◌, ◌⊎◌, ◌≤◌, ◌++◌, ◌∷◌, [], ℕ, List, Some};
ghost use Rattle.volume_disk.specs.Disk.{Disk, Images, Crash, SameDisk, SameElsewhere};
ghost use Rattle.volume_disk.specs.Medium.{IsAtRest};
ghost use Rattle.site_forms.specs.Halves.{records_at, OneMoreAt};
ghost use Rattle.chunk_log.specs.LogValues.{LogValue};
ghost use Rattle.chunk_log.specs.PlaceHalves.{SameOutside};
ghost use Rattle.chunk_log.specs.Standing.{LogStands};

/// The laws of logs that stand for places.
pub fn place_laws()
    // whatever a crash leaves of the place, it says these records
    ensures settled { (place : ℕ) (records : List (List ℕ)) (log : LogValue) (d : Disk) (c : Images) → LogStands place records log d → Crash d c → records_at c place ≡ Some records }
    // nothing is pending on the device of its log
    ensures rest { (place : ℕ) (records : List (List ℕ)) (log : LogValue) (d : Disk) → LogStands place records log d → IsAtRest (d log.device) }
    // calls on the devices of another place change nothing here
    ensures outside { (place other : ℕ) (records : List (List ℕ)) (log : LogValue) (d e : Disk) → place ≤ 2 → other ≢ place → SameOutside place d e → LogStands other records log d → LogStands other records log e }
    // nor do calls on the device of its log
    ensures beside { (place other : ℕ) (log mine : LogValue) (records others : List (List ℕ)) (d e : Disk) → other ≢ place → LogStands place records log d → LogStands other others mine d
        → SameElsewhere log.device d e → LogStands other others mine e }
    // nor do calls that change no device
    ensures same_disk { (place : ℕ) (records : List (List ℕ)) (log : LogValue) (d e : Disk) → SameDisk d e → LogStands place records log d → LogStands place records log e }
    // where a crash leaves one record more or none, the place says these records or one more
    ensures steps { (place : ℕ) (records : List (List ℕ)) (body : List ℕ) (log : LogValue) (d : Disk) (b c : Images) → LogStands place records log d → Crash d b → OneMoreAt place body b c
        → (records_at c place ≡ Some records) ⊎ (records_at c place ≡ Some (records ++ body ∷ [])) }
{}
