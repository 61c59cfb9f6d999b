// Rows that are told by their commas and line feeds alone, with no quote and no CR.
ghost use Rattle.std.specs.Prelude.{◌≡◌, ◌≢◌, ◌∷◌, ◌<◌, ◌≤◌, [], ℕ, length, drop, slice_index, true, Some, IfOk, IfSome};
ghost use Rattle.csv.specs.Reading.{strip_bom};
ghost use Rattle.csv.specs.Records.{fields_of};
ghost use Rattle.csv.specs.declared.parser.State.TheVariants.{StartRecord};
ghost use Rattle.csv_rows.specs.Left.{rows_from};
ghost use Rattle.csv_rows.specs.Plain.{IsPlainFront, is_special};
ghost use Rattle.csv_rows.specs.Rows.{rows_of};

use csv::ByteRecord;
use seed_model::NoMemory;

/// The text behind one byte order mark at its start.
pub(crate) fn without_mark(text: &[u8]) -> &[u8]
    ensures { result.now ≡ strip_bom text.now }
{
    if text.len() >= 3 && text[0] == 0xEF && text[1] == 0xBB && text[2] == 0xBF {
        return &text[3..];
    }
    text
}

/// The text behind the line feeds at its start, which end no row.
pub(crate) fn skip_line_feeds(text: &[u8]) -> &[u8]
    ensures rows { rows_from StartRecord (Some result.now) ≡ rows_from StartRecord (Some text.now) }
    ensures begun { 0 < length result.now → slice_index result.now 0 ≢ 10 }
{
    let mut rest = text;
    'feeds: while !rest.is_empty() && rest[0] == b'\n' {
        rest = &rest[1..];
    }
    rest
}

/// Takes the fields of the row at the start of a text, in place of those that `row` held, and answers the text from the
/// line feed at its end on. None where the row has a quote or a CR.
pub(crate) fn take_fields<'t>(
    text: &'t [u8],
    row: &mut ByteRecord,
) -> Result<Option<&'t [u8]>, NoMemory>
    requires some { 0 < length text.now }
    requires begun { slice_index text.now 0 ≢ 10 }
    ensures { IfOk result (λ o. IfSome o (λ behind. rows_from StartRecord (Some text.now) ≡ fields_of row.new ∷ rows_of behind.now)) }
{
    row.clear();
    let mut left = text;
    'fields: loop {
        let count = plain_front(left);
        row.push_field(&left[..count])?;
        let behind = &left[count..];
        if behind.is_empty() {
            return Ok(Some(behind));
        }
        match behind[0] {
            b'\n' => return Ok(Some(behind)),
            b',' => left = &behind[1..],
            _ => return Ok(None),
        }
    }
}

// How many bytes stand before the first special one, or the end. It goes by eights, since a loop over so many as are known
// ahead is quicker.
fn plain_front(text: &[u8]) -> usize
    ensures within { result ≤ length text.now }
    ensures plain { IsPlainFront text.now result }
{
    let mut place = 0;
    'eights: while text.len() - place >= 8 {
        let count = plain_bytes(&text[place..place + 8]);
        place += count;
        if count < 8 {
            return place;
        }
    }
    place + plain_bytes(&text[place..])
}

// The same, byte by byte.
fn plain_bytes(text: &[u8]) -> usize
    ensures within { result ≤ length text.now }
    ensures plain { IsPlainFront text.now result }
{
    for (place, byte) in text.iter().enumerate() {
        if is_special_byte(*byte) {
            return place;
        }
    }
    text.len()
}

// Whether a byte may mean more than itself in a row.
fn is_special_byte(byte: u8) -> bool
    ensures { result ≡ is_special byte }
{
    byte == b',' || byte == b'"' || byte == b'\r' || byte == b'\n'
}
