//! `goseed`: plans the migration of files from a deduplicated volume to an empty one.
#![tactic(auto)]

ghost use Rattle.std.specs.Prelude.{◌≡◌, ◌⊎◌, IfOk, IfErr, IsErr};
ghost use Rattle.std.specs.IoError.{error_kind};
ghost use Rattle.fault_count.specs.Counts.{Rose};
ghost use Rattle.goseed_words.specs.Asked.{UsesSite};
ghost use Rattle.goseed_words.specs.Orders.{texts};
ghost use Rattle.command_endings.specs.Worlds.{seen};
ghost use Rattle.goseed_cli.specs.ExitCodes.{exit_code};
ghost use Rattle.goseed_cli.specs.Exits.{Exits, unread_status};

use goseed_top::{Status, run};
use seed_io::{FolderShelf, Shelf, Sink, StdSink};
use std::alloc::Global;
use std::env;
use std::io::{self, ErrorKind};
use std::process::ExitCode;
use std::rt::Env;
use volume_disk::{FolderRack, Rack};

fn main(rt: HostRuntime) -> ExitCode {
    let words = words_of(&rt);
    let mut shelf = FolderShelf::new(&rt);
    let mut out = StdSink::new(&rt);
    let mut rack = FolderRack::new(&rt);
    ExitCode::from(exit_of(rt.alloc(), words, &mut shelf, &mut out, &mut rack))
}

/// The words behind the program's name.
fn words_of(rt: &(impl Env + AllocGlobal)) -> io::Result<Vec<String>> {
    let mut words = Vec::new(rt.alloc());
    for word in env::args(rt)?.skip(1) {
        words.push(word)?;
    }
    Ok(words)
}

/// Carries out the command of these words, and answers the program's exit code. Where the words could not be read, no
/// command is carried out.
fn exit_of<F: Shelf, K: Sink, R: Rack>(
    alloc: Global,
    words: io::Result<Vec<String>>,
    shelf: &mut F,
    out: &mut K,
    rack: &mut R,
) -> u8
    ensures ended { IfOk words (λ words. Exits
        (seen (F.tells shelf.old) (F.map shelf.old) (R.honest rack.old) (R.disk rack.old)) (seen (F.tells shelf.old) (F.map shelf.new) (R.honest rack.old) (R.disk rack.new))
        (texts words.items) (K.tells out.old) (K.taken out.old) (K.taken out.new)
        (Rose (F.faults shelf.old) (F.faults shelf.new) ⊎ (Rose (K.faults out.old) (K.faults out.new) ⊎ (UsesSite (texts words.items) × Rose (R.faults rack.old) (R.faults rack.new)))) result) }
    ensures unread { IfErr words (λ error. result ≡ exit_code (unread_status (error_kind error))) }
    ensures shelf_untouched { IsErr words → shelf.new ≡ shelf.old }
    ensures sink_untouched { IsErr words → out.new ≡ out.old }
    ensures rack_untouched { IsErr words → rack.new ≡ rack.old }
{
    match words {
        Ok(words) => code_of(run(alloc, &words, shelf, out, rack)),
        Err(error) => code_of(status_of_unread(error.kind())),
    }
}

/// How the program ends whose words could not be read.
fn status_of_unread(kind: ErrorKind) -> Status
    ensures { result ≡ unread_status kind }
{
    match kind {
        ErrorKind::OutOfMemory => Status::Memory,
        _ => Status::Outside,
    }
}

/// The exit code for how a command ended.
fn code_of(status: Status) -> u8
    ensures { result ≡ exit_code status }
{
    match status {
        Status::Done => 0,
        Status::No => 1,
        Status::Unfinished => 2,
        Status::Refused(_) => 3,
        Status::Outside => 4,
        Status::Memory => 5,
    }
}
