// Receiving a table: a table file read into a lent table. The file is judged whole before the table is written.
#![tactic(auto)]

ghost use Rattle.std.specs.Prelude.{◌≡◌, true, [], ◌∷◌, ◌+◌, ◌-◌, ◌*◌, ◌<◌, ◌≤◌, length};
ghost use Rattle.std.proofs.Math.Option.{none};
ghost use Rattle.std.proofs.lemmas.List.Edits.{sets};
ghost use Rattle.lists.specs.Checks.{first};
ghost use Rattle.lists.specs.Search.{some_below};
ghost use Rattle.paper.specs.Limits.{most_thickness};
ghost use Rattle.plate.specs.Call.{Does};
ghost use Rattle.plate.specs.Refusal.{said_by, check, told};
ghost use Rattle.plate.specs.Head.{SettingsFor};
ghost use Rattle.plate.specs.Settings.{Sound, Judges};
ghost use Rattle.record.specs.Bytes.{le16, le32, quads};
ghost use Rattle.sent.specs.Kinds.{allowed_after, fits as Kind·fits};
ghost use Rattle.sent.specs.File.{head_in, opening_checks, row_place, row_checks, end_checks, record_checks, rows_checks, cells_from};
ghost use Rattle.table.specs.Limits.{Limits};
ghost use Rattle.receive.specs.Receiving.{receiving};
ghost use Rattle.receive.specs.Rows.{over_at, RowStands};

use plate::head::Head;
use plate::refusal::{Reason, Refusal, refusal_at};
use plate::settings::Settings;
use record::{Fault, bytes_left, check_frame, check_tail, kind_at, length_at, quad, word};
use sent::{Kind, start_bits};
use table::{limits_of, row_end};

// What goes with the table, as the first record has it.
fn head_in(file: &[u8]) -> Head
    ensures { result ≡ head_in file.now }
{
    Head {
        height: u32::from(word(file, 4)),
        members: quad(file, 6),
        columns: quad(file, 10),
    }
}

// The first record: its frame, then 1, 2, 7.
fn check_opening(file: &[u8]) -> Result<Settings, Refusal>
    ensures { Judges result (opening_checks file.now) (head_in file.now).height (head_in file.now).members }
{
    let allowed = kind_at(file, 0) == Kind::Head.number();
    let right = length_at(file, 0) == 10;
    check_frame(file, 0, allowed, right)?;
    let head = head_in(file);
    let s = Settings::new(head.height, head.members)?;
    if head.is_over() {
        return Err(refusal_at(Reason::Columns, 0));
    }
    Ok(s)
}

// The cell that stands at a place.
#[tactic(auto, unfolding(record::specs::Bytes::le32, record::specs::Bytes::le16))]
fn cell_at(file: &[u8], at: usize) -> u32
    requires { at + 4 ≤ length file.now }
    ensures { result ≡ le32 file.now at }
{
    u32::from_le_bytes([file[at], file[at + 1], file[at + 2], file[at + 3]])
}

// Whether one of the cells that stand from a place on is above its limit. The loop has no way out, so that it is quick where there is none, as
// is mostly so.
fn any_over(file: &[u8], limits: &[u32; 32], at: usize, width: usize) -> bool
    requires { (width ≤ most_thickness) × (at + 4 * width ≤ length file.now) }
    ensures { result ≡ some_below (over_at limits.now file.now at) width }
{
    let end = row_end(width);
    let mut found = false;
    for j in 0..end {
        found |= limits[j] < cell_at(file, at + 4 * j);
    }
    found
}

// 6 of the row that begins at a place and stands whole in the file.
fn check_cells(file: &[u8], limits: &[u32; 32], at: usize, width: usize) -> Result<(), Refusal>
    requires { (width ≤ most_thickness) × (at + 6 + 4 * width ≤ length file.now) }
    ensures { said_by result ≡ first (check 6 (some_below (over_at limits.now file.now (at + 6)) width) at ∷ []) }
{
    if any_over(file, limits, at + 6, width) {
        return Err(refusal_at(Reason::Cell, at));
    }
    Ok(())
}

// Two bytes that are there, the lower first.
#[tactic(auto, unfolding(record::specs::Bytes::le16))]
fn word_at(file: &[u8], at: usize) -> u16
    requires { at + 2 ≤ length file.now }
    ensures { result ≡ le16 file.now at }
{
    u16::from_le_bytes([file[at], file[at + 1]])
}

// Whether a whole row with this start stands at a place. It mostly does, and so it is asked first, by the six bytes that a row begins with.
fn stands(file: &[u8], at: usize, width: usize, start: u16) -> bool
    requires { width ≤ most_thickness }
    ensures { result ≡ true → RowStands file.now at width start }
{
    let length = 2 + 4 * width;
    4 + length <= bytes_left(file, at)
        && usize::from(word_at(file, at)) == length
        && word_at(file, at + 2) == Kind::Row.number()
        && word_at(file, at + 4) == start
}

// A row whose frame was judged: its start is the next one, and then 6.
fn check_row(
    file: &[u8],
    limits: &[u32; 32],
    s: Settings,
    row: usize,
    at: usize,
) -> Result<(), Refusal>
    requires settings_for { SettingsFor (head_in file.now) s × Limits (head_in file.now) limits.now }
    requires row_le_rows { (row ≤ s.rows) × (at ≡ row_place (head_in file.now).members row) }
    requires row_in_bounds { row_place (head_in file.now).members (row + 1) ≤ length file.now }
    ensures { said_by result ≡ first (row_checks file.now (head_in file.now) (s.rows - row) row) }
{
    if s.rows <= row {
        return Err(Fault::Disagrees.at(at));
    }
    if word(file, at + 4) != start_bits(s.tmax, row) {
        return Err(Fault::Disagrees.at(at));
    }
    check_cells(file, limits, at, s.tmax)
}

// The end: no row is missing, their number is right, and nothing stands behind it.
fn check_end(file: &[u8], s: Settings, row: usize, at: usize) -> Result<(), Refusal>
    requires settings_for { SettingsFor (head_in file.now) s }
    requires row_le_rows { (row ≤ s.rows) × (at ≡ row_place (head_in file.now).members row) }
    ensures { said_by result ≡ first (end_checks file.now (head_in file.now) (s.rows - row) row) }
{
    let is_missing = row != s.rows;
    if is_missing {
        return Err(Fault::Disagrees.at(at));
    }
    if usize::from(word(file, at + 4)) != s.rows {
        return Err(Fault::Disagrees.at(at));
    }
    check_tail(file, at + 6)
}

// Whether a record of this kind may come after the first and so many rows.
// The kind stays a number: with a match on an optional kind the proof didn't close, as a nested default arm doesn't say which kind it isn't.
fn allowed_after(row: usize, kind: u16) -> bool
    ensures { result ≡ allowed_after row kind }
{
    if kind == Kind::End.number() {
        return 0 < row;
    }
    kind == Kind::Row.number()
}

// Whether a body of this length is right for the kind.
fn fits(s: Settings, kind: u16, length: usize) -> bool
    requires { Sound s }
    ensures { result ≡ Kind·fits s.members kind length }
{
    if kind == Kind::End.number() {
        return length == 2;
    }
    length == 2 + 4 * s.tmax
}

// The record that stands where a row goes: its frame, and then what it is by its kind.
fn check_by_kind(
    file: &[u8],
    limits: &[u32; 32],
    s: Settings,
    row: usize,
    at: usize,
) -> Result<(), Refusal>
    requires settings_for { SettingsFor (head_in file.now) s × Limits (head_in file.now) limits.now }
    requires row_le_rows { (row ≤ s.rows) × (at ≡ row_place (head_in file.now).members row) }
    ensures { said_by result ≡ first (record_checks file.now (head_in file.now) (s.rows - row) row) }
{
    let kind = kind_at(file, at);
    let allowed = allowed_after(row, kind);
    let right = fits(s, kind, length_at(file, at));
    check_frame(file, at, allowed, right)?;
    if kind == Kind::End.number() {
        return check_end(file, s, row, at);
    }
    check_row(file, limits, s, row, at)
}

// The same: a row that is due and stands there is left to its cells.
fn check_record(
    file: &[u8],
    limits: &[u32; 32],
    s: Settings,
    row: usize,
    at: usize,
) -> Result<(), Refusal>
    requires settings_for { SettingsFor (head_in file.now) s × Limits (head_in file.now) limits.now }
    requires row_le_rows { (row ≤ s.rows) × (at ≡ row_place (head_in file.now).members row) }
    ensures { said_by result ≡ first (record_checks file.now (head_in file.now) (s.rows - row) row) }
{
    if row < s.rows && stands(file, at, s.tmax, start_bits(s.tmax, row)) {
        return check_cells(file, limits, at, s.tmax);
    }
    check_by_kind(file, limits, s, row, at)
}

// All records behind the first.
fn check_records(file: &[u8], limits: &[u32; 32], s: Settings) -> Result<(), Refusal>
    requires { SettingsFor (head_in file.now) s × Limits (head_in file.now) limits.now }
    ensures { said_by result ≡ first (rows_checks file.now (head_in file.now) s.rows 0) }
{
    let mut at: usize = 14;
    for row in 0..s.rows {
        check_record(file, limits, s, row, at)?;
        at += 6 + 4 * s.tmax;
    }
    check_record(file, limits, s, s.rows, at)
}

// The cells of a row, which stand from a place on, into its part of the table.
// It isn't `record::read_words` over another width: that one promises a 0 for bytes past the end, and these cells were judged to be there.
fn fill_row(file: &[u8], at: usize, cells: &mut [u32])
    requires { at + 4 * length cells.old ≤ length file.now }
    ensures { cells.new ≡ quads file.now at (length cells.old) }
{
    for (j, cell) in cells.iter_mut().enumerate() {
        *cell = cell_at(file, at + 4 * j);
    }
}

// The cells of all rows.
fn fill_rows(file: &[u8], s: Settings, table: &mut [u32])
    requires settings_for { SettingsFor (head_in file.now) s }
    requires rows_in_bounds { row_place (head_in file.now).members s.rows ≤ length file.now }
    requires cells_in_bounds { s.cells ≤ length table.old }
    ensures { table.new ≡ sets table.old 0 (cells_from file.now (head_in file.now).members s.rows 0) }
{
    let mut at: usize = 14;
    for row in 0..s.rows {
        let base = row * s.tmax;
        fill_row(file, at + 6, &mut table[base..base + s.tmax]);
        at += 6 + 4 * s.tmax;
    }
}

// Behind the first record: the others, then 3; or the table.
fn read_records(file: &[u8], s: Settings, table: &mut [u32]) -> Result<Head, Refusal>
    requires none_value { none ≡ first (opening_checks file.now) }
    requires settings_for { SettingsFor (head_in file.now) s }
    ensures { Does (receiving file.now table.old) (told result) table.new }
{
    let head = head_in(file);
    let limits = limits_of(head);
    check_records(file, &limits, s)?;
    if table.len() < s.cells {
        return Err(refusal_at(Reason::ShortBuffer, 1));
    }
    fill_rows(file, s, table);
    Ok(head)
}

// Document 02 c), the reader of table files: the file's faults by record, with 1, 2, 7 and 6 as they apply; after the whole file 3.
pub fn read_table(file: &[u8], table: &mut [u32]) -> Result<Head, Refusal>
    ensures { Does (receiving file.now table.old) (told result) table.new }
{
    let s = check_opening(file)?;
    read_records(file, s, table)
}
