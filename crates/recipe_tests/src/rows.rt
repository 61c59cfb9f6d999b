// Rows of several lengths, written and read.
use csv::ByteRecord;
use csv_rows::{RowReader, RowWriter};
use seed_model::NoMemory;
use std::alloc::Global;

/// The text of some rows.
fn written(alloc: Global, rows: &[&[&[u8]]]) -> Result<Vec<u8>, NoMemory> {
    let mut writer = RowWriter::new(alloc);
    for row in rows {
        writer.row(row)?;
    }
    writer.finish()
}

/// Whether some rows have this text.
fn are_written_as(alloc: Global, rows: &[&[&[u8]]], want: &[u8]) -> bool {
    match written(alloc, rows) {
        Ok(text) => text.as_slice() == want,
        Err(_) => false,
    }
}

#[test]
fn rows_of_any_lengths_are_written(rt: HostRuntime) {
    let rows: [&[&[u8]]; 4] = [&[b"a", b"b,c"], &[b"d"], &[], &[b"", b"e", b""]];
    assert!(rt; are_written_as(rt.alloc(), &rows, b"a,\"b,c\"\nd\n\"\"\n,e,\n"));
}

/// Whether a row has these fields, and no others.
fn has_fields(row: &ByteRecord, fields: &[&[u8]]) -> bool {
    let mut as_told = row.len() == fields.len();
    for (place, field) in fields.iter().enumerate() {
        as_told &= row.get(place) == Some(*field);
    }
    as_told
}

/// Whether the next row has these fields.
fn is_next(reader: &mut RowReader<'_>, row: &mut ByteRecord, fields: &[&[u8]]) -> bool {
    match reader.next_row(row) {
        Ok(true) => has_fields(row, fields),
        _ => false,
    }
}

#[test]
fn rows_of_any_lengths_are_read(rt: HostRuntime) {
    let mut reader = RowReader::new(rt.alloc(), b"a,\"b,c\"\n\nd\n\"\"\n");
    let mut row = ByteRecord::new(rt.alloc());
    let rows: [&[&[u8]]; 3] = [&[b"a", b"b,c"], &[b"d"], &[b""]];
    for fields in rows {
        assert!(rt; is_next(&mut reader, &mut row, fields));
    }
    for _ in 0..2u32 {
        assert!(rt; reader.next_row(&mut row) == Ok(false));
    }
}
