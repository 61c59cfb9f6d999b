// The devices as the files 0 to 5 of a folder.
ghost use Rattle.std.specs.Prelude.{◌≡◌, ◌<◌, false, [], ⊤, IfOk};
ghost use Rattle.fault_count.specs.Counts.{HasCause, last_count};
ghost use Rattle.volume_disk.specs.Medium.{at_rest};
ghost use Rattle.volume_disk.specs.declared.rack.RackError.TheVariants.{Fault};

use crate::site_folder::SiteFolder;
use crate::{Rack, RackError};
use fault_count::FaultTally;
use std::io;

/// The devices as the files `0` to `5` in the folder `goseed.site` of the current folder. The folder, and the file of a
/// device, are made and opened at the first call on that device, and stay open. From its first call on the rack holds
/// the folder's advisory lock: while another rack holds it, also one of another program, each call is a fault that
/// changes nothing. It tells nothing: that the machine's disk is an honest rack is trusted. Whatever the host refuses,
/// for want of memory too, is a fault.
#[derive(Drop)]
pub struct FolderRack<'r> {
    rt: &'r HostRuntime,
    site: SiteFolder,
    tally: FaultTally,
}

impl<'r> FolderRack<'r> {
    ghost use Rattle.volume_disk.specs.Folder.{rack_faults};

    /// A rack with no fault yet. It touches nothing outside.
    pub fn new(rt: &'r HostRuntime) -> Self
        ensures { rack_faults result ≡ 0 }
    {
        FolderRack {
            rt,
            site: SiteFolder::new(),
            tally: FaultTally::new(),
        }
    }

    /// What the host answered, with its refusal counted.
    fn counted<T: Drop>(&mut self, answer: io::Result<T>) -> Result<T, RackError>
        requires { self.old.tally < last_count }
        ensures cause { HasCause Fault self.old.tally self.new.tally result }
        ensures value { IfOk result (λ v. answer ≡ Ok v) }
    {
        match answer {
            Ok(value) => Ok(value),
            Err(_) => {
                self.tally.raise();
                Err(RackError::Fault)
            }
        }
    }
}

impl<'r> Rack for FolderRack<'r> {
    ghost use Rattle.std.proofs.lemmas.Bool.{false≢true};
    ghost use Rattle.volume_disk.specs.Folder.{rack_faults};

    ghost honest = { λ s. false };

    ghost faults = { rack_faults };

    ghost calls = { λ s. 0 };

    ghost disk = { λ s device. at_rest [] };

    ghost moment = { λ s. 0 };

    ghost left_since = { λ s t c. ⊤ };

    ghost counts_now = { λ s t c honest le left. tt };

    ghost only_now = { λ s c honest left. absurd (false≢true honest) };

    ghost reads_alike = { λ s device honest. absurd (false≢true honest) };

    fn size(&mut self, device: u8) -> Result<u64, RackError> {
        if self.tally.is_over() {
            return Err(RackError::Fault);
        }
        let answer = self.site.size(self.rt, device);
        self.counted(answer)
    }

    fn read(&mut self, device: u8, at: u64, into: &mut [u8]) -> Result<usize, RackError> {
        if self.tally.is_over() {
            return Err(RackError::Fault);
        }
        let answer = self.site.read(self.rt, device, at, into);
        self.counted(answer)
    }

    fn write(&mut self, device: u8, at: u64, bytes: &[u8]) -> Result<(), RackError> {
        if self.tally.is_over() {
            return Err(RackError::Fault);
        }
        let answer = self.site.write(self.rt, device, at, bytes);
        self.counted(answer)
    }

    fn cut(&mut self, device: u8, len: u64) -> Result<(), RackError> {
        if self.tally.is_over() {
            return Err(RackError::Fault);
        }
        let answer = self.site.cut(self.rt, device, len);
        self.counted(answer)
    }

    fn sync(&mut self, device: u8) -> Result<(), RackError> {
        if self.tally.is_over() {
            return Err(RackError::Fault);
        }
        let answer = self.site.sync(self.rt, device);
        self.counted(answer)
    }
}
