// Lines of a shelf's bytes, and a caller that reads them all.
ghost use Rattle.std.specs.Prelude.{◌≡◌, ◌<◌, ◌^◌, ℕ, List, true, Some, IfOk};
ghost use Rattle.moving_tests.specs.LineBytes.{bytes_of_lines, size_of_line};
ghost use Rattle.seed_io.specs.Answered.{line_text};
ghost use Rattle.seed_io.specs.Lines.{StandsIn, lines_left};

use seed_io::{Line, LineError, Lines, MemShelf, Shelf, SureShelf};
use std::alloc::{AllocError, Global};
use std::test::Fail;

/// Reads all lines that are left, and answers how many bytes the whole ones have. Where the shelf tells its bytes, the
/// number is that of the name's own lines: each call says so of the reader whose bytes it lent.
fn bytes_in_lines<F: Shelf>(lines: &mut Lines, shelf: &mut F) -> Result<u64, LineError>
    requires { lines.old.limit < 2 ^ 64 }
    ensures { F.tells shelf.old ≡ true → (file : List ℕ) → F.map shelf.old lines.old.name ≡ Some file → StandsIn file lines.old → IfOk result (λ n. n ≡ bytes_of_lines (lines_left file lines.old)) }
{
    let mut total = 0u64;
    'each: loop {
        match lines.next_line(shelf)? {
            Some(line) => total += whole_bytes(line),
            None => return Ok(total),
        }
    }
}

/// How many bytes a whole line has, and 0 of any other.
fn whole_bytes(line: Line<'_>) -> u64
    ensures { result ≡ size_of_line (line_text line.entry) }
{
    match line {
        Line::Whole(bytes) => bytes.len() as u64,
        Line::Wide | Line::Unended => 0,
    }
}

/// The bytes of a whole line, and the name in brackets of any other answer.
fn told<'a>(answer: Result<Option<Line<'a>>, LineError>) -> &'a [u8] {
    match answer {
        Ok(Some(Line::Whole(line))) => line,
        Ok(Some(Line::Wide)) => b"<wide>",
        Ok(Some(Line::Unended)) => b"<unended>",
        Ok(None) => b"<none>",
        Err(LineError::Fault) => b"<fault>",
        Err(LineError::NotThere) => b"<not there>",
        Err(LineError::TooLong) => b"<too long>",
        Err(LineError::Memory) => b"<memory>",
    }
}

/// Whether the next answers are these.
fn gives<F: Shelf>(lines: &mut Lines, shelf: &mut F, answers: &[&[u8]]) -> bool {
    let mut as_told = true;
    for answer in answers {
        as_told &= told(lines.next_line(shelf)) == *answer;
    }
    as_told
}

/// Whether a name with these bytes gives these answers, where at most `limit` bytes are taken.
fn are_lines_of(alloc: Global, bytes: &[u8], limit: u64, answers: &[&[u8]]) -> Result<bool, Fail> {
    let mut shelf = SureShelf::new(alloc);
    shelf.set("a", bytes)?;
    let mut lines = Lines::new(alloc, "a", limit)?;
    Ok(gives(&mut lines, &mut shelf, answers))
}

#[test]
fn whole_lines_come_one_by_one(rt: HostRuntime) -> Result<(), Fail> {
    let cases: [(&[u8], u64, &[&[u8]]); 4] = [
        (b"ab\n\ncd\n", 7, &[b"ab", b"", b"cd", b"<none>", b"<none>"]),
        (b"xx\ny", 9, &[b"xx", b"<unended>", b"<none>"]),
        (b"", 9, &[b"<none>", b"<none>"]),
        (b"", 0, &[b"<none>"]),
    ];
    for (bytes, limit, answers) in cases {
        assert!(rt; are_lines_of(rt.alloc(), bytes, limit, answers)?);
    }
    Ok(())
}

#[test]
fn no_byte_beyond_the_limit_is_taken(rt: HostRuntime) -> Result<(), Fail> {
    let text = b"xx\nyy\n".as_slice();
    assert!(rt; are_lines_of(rt.alloc(), text, 6, &[b"xx", b"yy", b"<none>"])?);
    for limit in 3..6u64 {
        assert!(rt; are_lines_of(rt.alloc(), text, limit, &[b"xx", b"<too long>", b"<none>"])?);
    }
    assert!(rt; are_lines_of(rt.alloc(), text, 2, &[b"<too long>", b"<none>"])?);
    Ok(())
}

/// A line with its LF, so many times.
fn repeated(alloc: Global, line: &[u8], times: u32) -> Result<Vec<u8>, AllocError> {
    let mut bytes = Vec::new(alloc);
    for _ in 0..times {
        bytes.extend_from_slice(line)?;
        bytes.push(b'\n')?;
    }
    Ok(bytes)
}

#[test]
fn longest_lines(rt: HostRuntime) -> Result<(), Fail> {
    let line = vec![in rt.alloc(); b'x'; 16384]?;
    assert!(rt; are_lines_of(rt.alloc(), &line, 99_999, &[b"<unended>", b"<none>"])?);
    let ended = repeated(rt.alloc(), &line, 1)?;
    assert!(rt; are_lines_of(rt.alloc(), &ended, 99_999, &[&line, b"<none>"])?);
    Ok(())
}

#[test]
fn wider_lines(rt: HostRuntime) -> Result<(), Fail> {
    let line = vec![in rt.alloc(); b'x'; 16385]?;
    assert!(rt; are_lines_of(rt.alloc(), &line, 99_999, &[b"<wide>", b"<none>"])?);
    let ended = repeated(rt.alloc(), &line, 1)?;
    assert!(rt; are_lines_of(rt.alloc(), &ended, 99_999, &[b"<wide>", b"<none>"])?);
    Ok(())
}

#[test]
fn no_lines_of_a_lacking_name(rt: HostRuntime) -> Result<(), Fail> {
    let mut shelf = SureShelf::new(rt.alloc());
    let mut lines = Lines::new(rt.alloc(), "lacking", 9)?;
    assert!(rt; gives(&mut lines, &mut shelf, &[b"<not there>", b"<none>"]));
    Ok(())
}

/// Whether each of four lines of 16 KiB is given, which one read brings, and then the fault of the second read.
fn faults_behind(alloc: Global, line: &[u8], bytes: &[u8]) -> Result<bool, Fail> {
    let mut shelf = MemShelf::new(alloc, vec![in alloc; 2u64]?);
    shelf.set("a", bytes)?;
    let mut lines = Lines::new(alloc, "a", 100_000)?;
    let answers = [line, line, line, line, b"<fault>".as_slice(), b"<none>"];
    Ok(gives(&mut lines, &mut shelf, &answers))
}

#[test]
fn fault_in_mid_stream(rt: HostRuntime) -> Result<(), Fail> {
    let line = vec![in rt.alloc(); b'x'; 16383]?;
    let bytes = repeated(rt.alloc(), &line, 5)?;
    assert!(rt; faults_behind(rt.alloc(), &line, &bytes)?);
    Ok(())
}

/// Whether the lines of a shelf's bytes are counted so, where at most `limit` bytes are taken.
fn counts(alloc: Global, limit: u64, want: Result<u64, LineError>) -> Result<bool, Fail> {
    let mut shelf = MemShelf::new(alloc, Vec::new(alloc));
    shelf.set("a", b"ab\n\ncde\nf")?;
    let mut lines = Lines::new(alloc, "a", limit)?;
    Ok(bytes_in_lines(&mut lines, &mut shelf) == want)
}

#[test]
fn counts_the_bytes_of_all_lines(rt: HostRuntime) -> Result<(), Fail> {
    assert!(rt; counts(rt.alloc(), 9, Ok(5))?);
    assert!(rt; counts(rt.alloc(), 8, Err(LineError::TooLong))?);
    Ok(())
}
