// The folder of the devices' files.
ghost use Rattle.std.specs.Prelude.{◌≤◌};
ghost use Rattle.std.specs.Io.{ReadsAtMost};

use crate::device_file::DeviceFile;
use std::fs::File;
use std::io::ErrorKind;
use std::{fs, io};

/// The folder, in the current folder.
const FOLDER: &str = "goseed.site";

/// The files that are open, and the folder, which is open and locked once one of them is.
#[derive(Drop)]
pub struct SiteFolder {
    folder: Option<File>,
    /// Whether the name of the folder is known to outlast a crash.
    is_named: bool,
    files: [Option<DeviceFile>; 6],
}

/// The path of a device's file.
fn path_of(device: u8) -> &'static str {
    match device {
        0 => "goseed.site/0",
        1 => "goseed.site/1",
        2 => "goseed.site/2",
        3 => "goseed.site/3",
        4 => "goseed.site/4",
        _ => "goseed.site/5",
    }
}

/// Makes the folder where it is lacking.
fn make_folder(rt: &HostRuntime) -> io::Result<()> {
    match fs::create_dir(rt, FOLDER) {
        Err(error) if error.kind() == ErrorKind::AlreadyExists => Ok(()),
        answer => answer,
    }
}

/// Opens the folder, and locks it for this program alone, without waiting.
fn lock_folder(rt: &HostRuntime) -> io::Result<File> {
    make_folder(rt)?;
    let folder = File::open(rt, FOLDER)?;
    folder.try_lock()?;
    Ok(folder)
}

impl SiteFolder {
    /// Nothing is open.
    pub fn new() -> Self {
        SiteFolder {
            folder: None,
            is_named: false,
            files: [None, None, None, None, None, None],
        }
    }

    /// The folder, locked at the first call.
    fn folder(&mut self, rt: &HostRuntime) -> io::Result<&mut File> {
        let folder = match self.folder.take() {
            Some(folder) => folder,
            None => lock_folder(rt)?,
        };
        Ok(self.folder.insert(folder))
    }

    /// The file of a device, opened at the first call on it.
    fn file(&mut self, rt: &HostRuntime, device: u8) -> io::Result<&mut DeviceFile>
        requires { device ≤ 5 }
    {
        self.folder(rt)?;
        let slot = &mut self.files[device as usize];
        let file = match slot.take() {
            Some(file) => file,
            None => DeviceFile::open(rt, path_of(device))?,
        };
        Ok(slot.insert(file))
    }

    /// Makes the names of the files last, and that of the folder.
    fn sync_names(&mut self, rt: &HostRuntime) -> io::Result<()> {
        self.folder(rt)?.sync_all()?;
        if !self.is_named {
            File::open(rt, ".")?.sync_all()?;
            self.is_named = true;
        }
        Ok(())
    }

    /// Makes the name of a device's file last, before it is first written to.
    fn name(&mut self, rt: &HostRuntime, device: u8) -> io::Result<()>
        requires { device ≤ 5 }
    {
        if self.file(rt, device)?.is_named {
            return Ok(());
        }
        self.sync_names(rt)?;
        self.file(rt, device)?.is_named = true;
        Ok(())
    }

    /// How many bytes a device has.
    pub fn size(&mut self, rt: &HostRuntime, device: u8) -> io::Result<u64>
        requires { device ≤ 5 }
    {
        self.file(rt, device)?.size()
    }

    /// Copies the bytes of a device from a place on, and answers how many.
    pub fn read(
        &mut self,
        rt: &HostRuntime,
        device: u8,
        at: u64,
        into: &mut [u8],
    ) -> io::Result<usize>
        requires { device ≤ 5 }
        ensures { ReadsAtMost result into.new }
    {
        self.file(rt, device)?.read(at, into)
    }

    /// Replaces the bytes of a device from a place on.
    pub fn write(&mut self, rt: &HostRuntime, device: u8, at: u64, bytes: &[u8]) -> io::Result<()>
        requires { device ≤ 5 }
    {
        self.name(rt, device)?;
        self.file(rt, device)?.write(at, bytes)
    }

    /// Drops the bytes of a device from a length on.
    pub fn cut(&mut self, rt: &HostRuntime, device: u8, len: u64) -> io::Result<()>
        requires { device ≤ 5 }
    {
        self.file(rt, device)?.cut(len)
    }

    /// Makes all that was written to a device last.
    pub fn sync(&mut self, rt: &HostRuntime, device: u8) -> io::Result<()>
        requires { device ≤ 5 }
    {
        self.file(rt, device)?.sync()
    }
}
