// Adding a column to a table.
#![tactic(auto)]

ghost use Rattle.std.specs.Prelude.{◌≡◌, false, ℕ, ◌+◌, ◌-◌, ◌*◌, ◌<◌, ◌≤◌, length, get_or, MatchOption};
ghost use Rattle.lists.specs.Search.{lowest, IsLowest};
ghost use Rattle.lists.specs.Rewrite.{Span};
ghost use Rattle.paper.specs.Layer.{column_of, IsColumn};
ghost use Rattle.paper.specs.Limits.{most_thickness};
ghost use Rattle.plate.specs.Call.{Does};
ghost use Rattle.plate.specs.Head.{held_in, is_full, SettingsFor};
ghost use Rattle.plate.specs.Settings.{Sound, Judges};
ghost use Rattle.table.specs.Limits.{above};
ghost use Rattle.near.specs.Caps.{Allowing};
ghost use Rattle.near.specs.Carried.{States};
ghost use Rattle.near.specs.Facing.{Facing, Near};
ghost use Rattle.adding.specs.Adding.{addend, adding};
ghost use Rattle.adding.specs.Heaped.{heaped, heaped_at, NoneHeaped};
ghost use Rattle.adding.specs.Ordered.{order_rest, order_checks, adding_ordered};
ghost use Rattle.plate.specs.Refusal.{told};

use column::check_column;
use near::{boundary_at, fill_caps, fill_states, inside_among, later, lesser};
use plate::head::Head;
use plate::refusal::{Reason, Refusal, refusal_at};
use plate::settings::Settings;
use table::row_end;

// Whether a cell of a row, from a place on, is above its cap. The loop has no way out, so that it is quick where there is none, as is mostly so.
fn any_above_cap(table: &[u32], caps: &[u32; 32], base: usize, first: usize, width: usize) -> bool
    requires { (first ≤ width) × ((width ≤ most_thickness) × (base + width ≤ length table.now)) }
    ensures { result ≡ false → (j : ℕ) → j < width → first ≤ j → above caps.now table.now base j ≡ false }
{
    let mut found = false;
    for j in first..row_end(width) {
        found |= caps[j] < table[base + j];
    }
    found
}

// The rows of a table where a column is added: the column, the caps of a row's thicknesses, and the table's settings.
#[derive(Clone, Copy)]
struct Rows<'a> {
    column: &'a [u16],
    caps: &'a [u32; 32],
    s: Settings,
    ghost sound: { Sound s },
    ghost is_column: { IsColumn s.height (column_of column.now) },
    ghost allowing: { Allowing s.members s.tmax caps.now },
}

// The first cell of a row to which the column adds and which is above its limit, by its place in the row. The column adds to cells from the
// first boundary above the row's start on, which is so many voxels above it: whether a share is above 0 shows without counting.
fn heaped_row(table: &[u32], rows: Rows, row: usize, k: usize, first: usize) -> Option<usize>
    requires row_lt_rows { (row < rows.s.rows) × (rows.s.cells ≤ length table.now) }
    requires facing { Facing rows.column.now rows.s.tmax row k first }
    ensures { IsLowest result (heaped rows.entry.s.members rows.entry.caps.now table.now (column_of rows.entry.column.now) (row * rows.entry.s.tmax)) rows.entry.s.tmax }
{
    let base = row * rows.s.tmax;
    if !any_above_cap(table, rows.caps, base, first, rows.s.tmax) {
        return None;
    }
    (first..rows.s.tmax).find(|j| rows.caps[*j] < table[base + *j])
}

// The lowest cell of all that is above its limit and that the column adds to, looked for in the rows near boundary k: from a row on up to the one
// that starts at the boundary. No row before them has one.
fn heaped_near(table: &[u32], rows: Rows, from: usize, to: usize, k: usize) -> Option<usize>
    requires to_le_rows { (to ≤ rows.s.rows) × (rows.s.cells ≤ length table.now) }
    requires near { Near rows.column.now rows.s.tmax from to k }
    requires before { NoneHeaped rows.s.members rows.caps.now table.now (column_of rows.column.now) rows.s.tmax from }
    ensures { MatchOption result (NoneHeaped rows.entry.s.members rows.entry.caps.now table.now (column_of rows.entry.column.now) rows.entry.s.tmax to) (λ i. (lowest (heaped_at rows.entry.s.members rows.entry.caps.now table.now (column_of rows.entry.column.now) rows.entry.s.tmax) rows.entry.s.cells ≡ i) × (i < rows.entry.s.cells)) }
{
    for row in from..to {
        if let Some(j) = heaped_row(table, rows, row, k, to - row) {
            return Some(row * rows.s.tmax + j);
        }
    }
    None
}

// The lowest cell of all that is above its limit and that the column adds to. Rows with no boundary near are passed over: boundary k is near the rows from its own number on up to the one
// that starts at it.
fn first_heaped(table: &[u32], rows: Rows) -> Option<usize>
    requires { rows.s.cells ≤ length table.now }
    ensures { IsLowest result (heaped_at rows.entry.s.members rows.entry.caps.now table.now (column_of rows.entry.column.now) rows.entry.s.tmax) rows.entry.s.cells }
{
    let mut row: usize = 0;
    for k in 0..rows.column.len() {
        let boundary = boundary_at(rows.column, k);
        let to = boundary + rows.s.tmax - 1;
        let from = later(row, boundary);
        if let Some(at) = heaped_near(table, rows, from, to, k) {
            return Some(at);
        }
        row = to;
    }
    None
}

// The column added in one row, from the first boundary above its start on. The inside count is carried from one thickness to the next: one
// voxel more is looked at.
fn add_row(table: &mut [u32], rows: Rows, states: &[u32; 32], row: usize, k: usize, first: usize)
    requires row_lt_rows { (row < rows.s.rows) × (rows.s.cells ≤ length table.old) }
    requires facing { Facing rows.column.now rows.s.tmax row k first }
    requires states { States rows.column.now k (rows.s.tmax - 1) states.now }
    requires by_index { (j : ℕ) → j < rows.s.tmax → get_or table.old (row * rows.s.tmax + j) 0 + addend rows.s.members (column_of rows.column.now) (row * rows.s.tmax + j) < 4294967296 }
    ensures { Span 0 (row * rows.entry.s.tmax) rows.entry.s.tmax (λ j x. x + addend rows.entry.s.members (column_of rows.entry.column.now) (row * rows.entry.s.tmax + j)) table.old table.new }
{
    let mut inside = inside_among(k, first as u32);
    for j in first..row_end(rows.s.tmax) {
        let at = row * rows.s.tmax + j;
        inside += states[j - first];
        if rows.caps[j] < u32::MAX {
            table[at] += lesser(inside, (j + 1) as u32 - inside);
        }
    }
}

// The column added in the rows near boundary k, from a row on up to the one that starts at the boundary.
fn add_near(table: &mut [u32], rows: Rows, states: &[u32; 32], from: usize, to: usize, k: usize)
    requires to_le_rows { (to ≤ rows.s.rows) × (rows.s.cells ≤ length table.old) }
    requires near { Near rows.column.now rows.s.tmax from to k }
    requires states { States rows.column.now k (rows.s.tmax - 1) states.now }
    requires by_index { (i : ℕ) → from * rows.s.tmax ≤ i → i < rows.s.cells → get_or table.old i 0 + addend rows.s.members (column_of rows.column.now) i < 4294967296 }
    ensures { Span 0 (from * rows.entry.s.tmax) (to * rows.entry.s.tmax - from * rows.entry.s.tmax) (λ i x. x + addend rows.entry.s.members (column_of rows.entry.column.now) (from * rows.entry.s.tmax + i)) table.old table.new }
{
    for row in from..to {
        add_row(table, rows, states, row, k, to - row);
    }
}

// The column added in every row that has a boundary near; the voxels' states are found once for each boundary.
fn add_rows(table: &mut [u32], rows: Rows)
    requires cells_in_bounds { rows.s.cells ≤ length table.old }
    requires by_index { (i : ℕ) → i < rows.s.cells → get_or table.old i 0 + addend rows.s.members (column_of rows.column.now) i < 4294967296 }
    ensures { Span 0 0 rows.entry.s.cells (λ i x. x + addend rows.entry.s.members (column_of rows.entry.column.now) i) table.old table.new }
{
    let mut states = [0u32; 32];
    let mut row: usize = 0;
    for passed in 0..rows.column.len() {
        let boundary = boundary_at(rows.column, passed);
        let to = boundary + rows.s.tmax - 1;
        fill_states(&mut states, rows.column, passed, rows.s.tmax - 1);
        let from = later(row, boundary);
        add_near(table, rows, &states, from, to, passed);
        row = to;
    }
}

// Where all but 6 is in order: 6, or the column added.
fn add_ordered(table: &mut [u32], head: Head, column: &[u16], s: Settings) -> Result<Head, Refusal>
    requires settings_for { SettingsFor head s }
    requires head_value { (is_full head ≡ false) × (s.cells ≤ length table.old) }
    requires column { IsColumn s.height (column_of column.now) }
    ensures { Does (adding_ordered (held_in head table.old) (column_of column.now)) (told result) table.new }
{
    if column.is_empty() {
        return Ok(head.with_column());
    }
    let mut caps = [0u32; 32];
    fill_caps(&mut caps, head, s.tmax);
    let rows = Rows {
        column,
        caps: &caps,
        s,
    };
    if let Some(over) = first_heaped(table, rows) {
        return Err(refusal_at(Reason::Cell, over));
    }
    add_rows(table, rows);
    Ok(head.with_column())
}

// Where the settings are in order: 3, 7, 4, 5.
fn check_rest(table: &[u32], head: Head, column: &[u16], s: Settings) -> Result<Settings, Refusal>
    requires { SettingsFor head s }
    ensures { Judges result (order_rest (held_in head table.now) (column_of column.now)) head.height head.members }
{
    if table.len() < s.cells {
        return Err(refusal_at(Reason::ShortBuffer, 1));
    }
    if head.is_full() {
        return Err(refusal_at(Reason::Columns, 0));
    }
    check_column(column, s.height)?;
    Ok(s)
}

// 1, 2, 3, 7, 4, 5.
fn check_adding(table: &[u32], head: Head, column: &[u16]) -> Result<Settings, Refusal>
    ensures { Judges result (order_checks (held_in head table.now) (column_of column.now)) head.height head.members }
{
    let s = Settings::new(head.height, head.members)?;
    check_rest(table, head, column, s)
}

// Document 01, 'Add a column': 1, 2, 3, 7, 4, 5, 6.
pub fn add_column(table: &mut [u32], head: Head, column: &[u16]) -> Result<Head, Refusal>
    ensures { Does (adding (held_in head table.old) (column_of column.now)) (told result) table.new }
{
    let s = check_adding(table, head, column)?;
    add_ordered(table, head, column, s)
}
