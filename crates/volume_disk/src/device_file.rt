// The file of one device.
ghost use Rattle.std.specs.Prelude.{◌≡◌, ◌≢◌, ◌<◌, ◌≤◌, true, length, take, IsErr, IfOk, IfErr, OnErr};
ghost use Rattle.std.specs.IoError.{error_kind};
ghost use Rattle.std.specs.Io.{ReadsAtMost};
ghost use Rattle.std.specs.Io.KnownBytes.{Consumes, IsAtEnd, Keeps};

use std::fs::{File, OpenOptions};
use std::io;
use std::io::{ErrorKind, Read};
use std::os::unix::fs::FileExt;

/// An open file that holds the bytes of a device.
#[derive(Drop)]
pub struct DeviceFile {
    file: File,
    /// Whether the name of the file is known to outlast a crash.
    pub is_named: bool,
    /// Whether the host refused a sync. What was written before may then be lost, whatever a later sync answers.
    is_doubtful: bool,
}

/// The bytes of a file from a place on.
#[derive(Drop)]
struct FileFrom<'f> {
    file: &'f File,
    at: u64,
}

impl<'f> Read for FileFrom<'f> {
    fn read(&mut self, into: &mut [u8]) -> io::Result<usize> {
        let count = self.file.read_at(into, self.at)?;
        self.at = self.at.saturating_add(count as u64);
        Ok(count)
    }
}

/// One read, tried again where a signal interrupts it.
fn read_once<F: Read>(file: &mut F, into: &mut [u8]) -> io::Result<usize>
    ensures bound { ReadsAtMost result into.new }
    ensures bytes { IfOk result (λ n. Consumes (F.remaining file.old) (F.remaining file.new) (take n into.new)) }
    ensures end { IfOk result (λ n. n ≡ 0 → 0 < length into.old → IsAtEnd (F.remaining file.new)) }
    ensures kept { OnErr result (Keeps (F.remaining file.old) (F.remaining file.new)) }
    ensures tried { IfErr result (λ e. error_kind e ≢ ErrorKind.Interrupted) }
{
    for _try in 0..u64::MAX {
        match file.read(into) {
            Err(error) if error.kind() == ErrorKind::Interrupted => {}
            answer => return answer,
        }
    }
    Err(ErrorKind::TimedOut.into())
}

/// Reads until there is no room left, or until no more bytes come. Answers how many came.
fn fill<F: Read>(file: &mut F, into: &mut [u8]) -> io::Result<usize>
    ensures bound { ReadsAtMost result into.new }
    ensures bytes { IfOk result (λ n. Consumes (F.remaining file.old) (F.remaining file.new) (take n into.new)) }
    ensures end { IfOk result (λ n. n < length into.new → IsAtEnd (F.remaining file.new)) }
    ensures tried { IfErr result (λ e. error_kind e ≢ ErrorKind.Interrupted) }
{
    let mut done = 0usize;
    while done < into.len() {
        let count = read_once(file, &mut into[done..])?;
        if count == 0 {
            return Ok(done);
        }
        done += count;
    }
    Ok(done)
}

impl DeviceFile {
    /// Opens the file of this path, and makes it where it is lacking. A file that holds bytes was named before they were
    /// written, so its name lasts.
    pub fn open(rt: &HostRuntime, path: &str) -> io::Result<DeviceFile> {
        let file = OpenOptions::new()
            .read(true)
            .write(true)
            .create(true)
            .open(rt, path)?;
        let is_named = file.metadata()?.len() > 0;
        Ok(DeviceFile {
            file,
            is_named,
            is_doubtful: false,
        })
    }

    /// How many bytes the file has.
    pub fn size(&self) -> io::Result<u64> {
        let about = self.file.metadata()?;
        Ok(about.len())
    }

    /// Copies bytes from a place on, as many as there is room for; fewer only at the end. Answers how many.
    pub fn read(&self, at: u64, into: &mut [u8]) -> io::Result<usize>
        ensures { ReadsAtMost result into.new }
    {
        fill(
            &mut FileFrom {
                file: &self.file,
                at,
            },
            into,
        )
    }

    /// Replaces bytes from a place on. A gap before them, and before none of them, is filled with zeros.
    pub fn write(&self, at: u64, bytes: &[u8]) -> io::Result<()> {
        if !bytes.is_empty() {
            return self.file.write_all_at(bytes, at);
        }
        if self.size()? < at {
            self.file.set_len(at)?;
        }
        Ok(())
    }

    /// Drops the bytes from a length on.
    pub fn cut(&self, len: u64) -> io::Result<()> {
        if len < self.size()? {
            self.file.set_len(len)?;
        }
        Ok(())
    }

    /// Makes the bytes and the size last. Once the host refused that, it is never answered again.
    pub fn sync(&mut self) -> io::Result<()>
        ensures { self.old.is_doubtful ≡ true → IsErr result × (self.new.is_doubtful ≡ true) }
    {
        if self.is_doubtful {
            return Err(ErrorKind::Other.into());
        }
        let answer = self.file.sync_data();
        self.is_doubtful = answer.is_err();
        answer
    }
}
