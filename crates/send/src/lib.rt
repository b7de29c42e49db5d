// Sending a table: what goes with it and its cells, written as a table file.
#![tactic(auto)]

ghost use Rattle.std.specs.Prelude.{◌≡◌, ◌++◌, ◌+◌, ◌*◌, ◌<◌, ◌≤◌, length};
ghost use Rattle.std.proofs.Math.Option.{none};
ghost use Rattle.std.proofs.lemmas.List.Edits.{sets};
ghost use Rattle.lists.specs.Checks.{first};
ghost use Rattle.paper.specs.Limits.{greatest_height, most_thickness};
ghost use Rattle.plate.specs.Call.{Does};
ghost use Rattle.plate.specs.Head.{held_in, SettingsFor};
ghost use Rattle.plate.specs.Refusal.{told};
ghost use Rattle.plate.specs.Settings.{Sound};
ghost use Rattle.record.specs.Written.{bytes16, quad_bytes_of, framed};
ghost use Rattle.sent.specs.File.{row_place};
ghost use Rattle.sent.specs.Kinds.{row_kind};
ghost use Rattle.sent.specs.Written.{head_record, row_records, end_record, table_bytes, file_size};
ghost use Rattle.table.specs.Table.{table_checks};
ghost use Rattle.send.specs.Sending.{sending};

use plate::head::Head;
use plate::refusal::{Reason, Refusal, refusal_at};
use plate::settings::Settings;
use record::{write_all, write_numbers};
use sent::{Kind, start_bits};
use table::check_table;

// The record of a row, by the 16 bits of its start.
fn write_row(out: &mut [u8], at: usize, start: u16, row: &[u32])
    requires row_len_bound { length row.now ≤ most_thickness }
    requires row_in_bounds { at + 6 + 4 * length row.now ≤ length out.old }
    ensures { out.new ≡ sets out.old at (framed row_kind (bytes16 start ++ quad_bytes_of row.now)) }
{
    let begun = [2 + 4 * row.len() as u16, Kind::Row.number(), start];
    write_numbers(out, at, &begun);
    write_all(out, at + 6, row);
}

// The records of all rows.
fn write_rows(out: &mut [u8], table: &[u32], s: Settings)
    requires sound { Sound s }
    requires cells_in_bounds { s.cells ≤ length table.now }
    requires rows_in_bounds { row_place s.members s.rows ≤ length out.old }
    ensures { out.new ≡ sets out.old 14 (row_records s.members s.rows 0 table.now) }
{
    let mut next: usize = 14;
    let mut base: usize = 0;
    for row in 0..s.rows {
        let end = base + s.tmax;
        write_row(out, next, start_bits(s.tmax, row), &table[base..end]);
        next += 6 + 4 * s.tmax;
        base = end;
    }
}

// The first record. A number of four bytes is written as two of two, the lower first.
fn write_head(out: &mut [u8], head: Head)
    requires { (head.height ≤ greatest_height) × (14 ≤ length out.old) }
    ensures { out.new ≡ sets out.old 0 (head_record head) }
{
    let numbers = [
        10,
        Kind::Head.number(),
        head.height as u16,
        (head.members % 65536) as u16,
        (head.members / 65536) as u16,
        (head.columns % 65536) as u16,
        (head.columns / 65536) as u16,
    ];
    write_numbers(out, 0, &numbers);
}

// The last record.
fn write_end(out: &mut [u8], at: usize, rows: usize)
    requires { (rows < 65536) × (at + 6 ≤ length out.old) }
    ensures { out.new ≡ sets out.old at (end_record rows) }
{
    let numbers = [2, Kind::End.number(), rows as u16];
    write_numbers(out, at, &numbers);
}

// The whole file, whose length is `size`.
fn write_file(out: &mut [u8], table: &[u32], head: Head, s: Settings, size: usize)
    requires settings_for { SettingsFor head s }
    requires cells_in_bounds { s.cells ≤ length table.now }
    requires size_value { (size ≡ file_size head) × (size ≤ length out.old) }
    ensures { out.new ≡ sets out.old 0 (table_bytes head table.now) }
{
    write_head(out, head);
    write_rows(out, table, s);
    write_end(out, size - 6, s.rows);
}

// The file's length: 14 bytes of the head, 6 and the cells of each row, and 6 of the end.
fn size_of(s: Settings) -> usize
    requires { Sound s }
    ensures { result ≡ row_place s.members s.rows + 6 }
{
    20 + s.rows * (6 + 4 * s.tmax)
}

// The table is in order: 3 for the output; or the file, and its length.
fn write_checked(table: &[u32], head: Head, s: Settings, out: &mut [u8]) -> Result<u64, Refusal>
    requires settings_for { SettingsFor head s }
    requires none_value { none ≡ first (table_checks (held_in head table.now)) }
    ensures { Does (sending (held_in head table.now) out.old) (told result) out.new }
{
    let size = size_of(s);
    if out.len() < size {
        return Err(refusal_at(Reason::ShortBuffer, 2));
    }
    write_file(out, table, head, s, size);
    Ok(size as u64)
}

// Document 02 c), the writer of table files: 1, 2, 3 for the table, 7, 6, 3 for the output.
pub fn write_table(table: &[u32], head: Head, out: &mut [u8]) -> Result<u64, Refusal>
    ensures { Does (sending (held_in head table.now) out.old) (told result) out.new }
{
    let s = check_table(table, head)?;
    write_checked(table, head, s, out)
}
