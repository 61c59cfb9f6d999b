// Whether the records of a file that is dropped have room.
ghost use Rattle.std.specs.Prelude.{◌≡◌};
ghost use Rattle.site_forms.specs.Sites.{HoldsFile};
ghost use Rattle.seed_mover.specs.DropParts.{JudgesRoom};

use crate::errors::SiteError;
use chunk_volume::Volume;

/// Whether all records have room that drop a file of a volume and then the chunks that no other file uses: its own record
/// has 6 bytes and its name, that of a chunk 38 bytes. Takes no memory.
pub(crate) fn judge_room(volume: &mut Volume, name: &str) -> Result<(), SiteError>
    requires { HoldsFile volume.old.shape name.now }
    ensures same { volume.new ≡ volume.old }
    ensures room { JudgesRoom volume.old name.now result }
{
    let holding = volume.holding();
    let Some(place) = holding.find(name) else {
        return Ok(());
    };
    let len = 1 + name.len() as u32;
    let behind = volume.end() + 5 + u64::from(len);
    if volume.limit() <= behind {
        return Err(SiteError::DeviceFull {
            device: volume.device(),
            end: volume.end(),
            len,
        });
    }
    let most = (volume.limit() - behind - 1) / 38;
    if most < volume.freed_by(place) {
        return Err(SiteError::DeviceFull {
            device: volume.device(),
            end: behind + 38 * most,
            len: 33,
        });
    }
    Ok(())
}
