// Reads and writes of the machine, tried again where the host interrupted them.
ghost use Rattle.std.specs.Prelude.{◌≡◌, ◌≢◌, ◌<◌, ◌≤◌, length, take, IfOk, IfErr, OnErr};
ghost use Rattle.std.specs.Io.{ReadsAtMost};
ghost use Rattle.std.specs.Io.KnownBytes.{Appends, Consumes, Keeps};
ghost use Rattle.std.specs.IoError.{error_kind};

use std::io;
use std::io::{Error, ErrorKind, Read, Write};

/// One read that no signal interrupts.
pub(crate) fn read_some<F: Read>(from: &mut F, into: &mut [u8]) -> io::Result<usize>
    ensures bound { ReadsAtMost result into.new }
    ensures bytes { IfOk result (λ n. Consumes (F.remaining from.old) (F.remaining from.new) (take n into.new)) }
    ensures err { OnErr result (Keeps (F.remaining from.old) (F.remaining from.new)) }
    ensures kind { IfErr result (λ e. error_kind e ≢ ErrorKind.Interrupted) }
{
    for _turn in 0..u64::MAX {
        match from.read(into) {
            Err(e) if e.kind() == ErrorKind::Interrupted => {}
            answer => return answer,
        }
    }
    Err(Error::from(ErrorKind::TimedOut))
}

/// Writes bytes until all are taken, a write fails or one takes nothing, and answers how many were taken.
pub(crate) fn write_front<W: Write>(to: &mut W, bytes: &[u8]) -> usize
    ensures within { result ≤ length bytes.now }
    ensures front { Appends (W.contents to.old) (W.contents to.new) (take result bytes.now) }
{
    let mut taken = 0usize;
    for _turn in 0..u64::MAX {
        if taken == bytes.len() {
            return taken;
        }
        match to.write(&bytes[taken..]) {
            Ok(0) => return taken,
            Ok(count) => taken += count,
            Err(e) if e.kind() == ErrorKind::Interrupted => {}
            Err(_) => return taken,
        }
    }
    taken
}
