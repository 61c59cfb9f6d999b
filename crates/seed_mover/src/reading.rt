// Files that are read.
ghost use Rattle.std.specs.Prelude.{◌≡◌, true};
ghost use Rattle.fault_count.specs.Counts.{HandsOn};
ghost use Rattle.device_pieces.specs.Quiet.{Quiet};
ghost use Rattle.seed_mover.specs.declared.errors.SiteError.TheVariants.{RackFault};
ghost use Rattle.seed_mover.specs.Getting.{Gets, GetsFrom, holder};

use crate::errors::SiteError;
use crate::site::Site;
use chunk_volume::Volume;
use volume_disk::Rack;

impl Site {
    /// The bytes of a file, in every phase: those of A where A holds it, else those of B.
    pub fn get<R: Rack>(&self, rack: &mut R, name: &str) -> Result<Vec<u8>, SiteError>
        ensures cause { HandsOn RackFault (R.faults rack.old) (R.faults rack.new) result }
        ensures honest { R.honest rack.new ≡ R.honest rack.old }
        ensures gets { Gets self.now name.now result }
        ensures quiet { R.honest rack.old ≡ true → Quiet R.moment R.left_since rack.old rack.new (R.disk rack.old) (R.disk rack.new) }
        ensures view { R.honest rack.old ≡ true → GetsFrom (R.disk rack.old) self.now name.now result }
    {
        match self.holder(name).read_file(rack, name) {
            Ok(bytes) => Ok(bytes),
            Err(error) => Err(SiteError::from(error)),
        }
    }

    // The volume that a file is read from.
    fn holder(&self, name: &str) -> &Volume
        ensures { result.now ≡ holder self.now name.now }
    {
        if self.a.holding().find(name).is_some() {
            return &self.a;
        }
        &self.b
    }
}
