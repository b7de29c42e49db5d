// The table of a plate: what asks whether it is in order, and clearing it. Adding a column, joining and taking off are crates of their own.
#![tactic(auto)]

ghost use Rattle.std.specs.Prelude.{◌≡◌, false, ℕ, ◌+◌, ◌*◌, ◌<◌, ◌≤◌, min, length, get_or};
ghost use Rattle.paper.specs.Limits.{most_thickness};
ghost use Rattle.paper.specs.Table.{cell_index};
ghost use Rattle.plate.specs.Call.{Does};
ghost use Rattle.plate.specs.Head.{held_in, capped, is_over, cells_of, limit_of, SettingsFor};
ghost use Rattle.plate.specs.Settings.{Sound, Judges};
ghost use Rattle.table.specs.Cells.{out_of_bounds};
ghost use Rattle.lists.specs.Search.{IsLowest};
ghost use Rattle.table.specs.Limits.{Limits, NoneAbove, above, above_at};
ghost use Rattle.table.specs.Table.{table_rest, table_checks, clearing};
ghost use Rattle.plate.specs.Refusal.{told};

use plate::head::Head;
use plate::refusal::{Reason, Refusal, refusal_at};
use plate::settings::{Settings, is_allowed};

// The cell of a row and a thickness from 1 on; 0 past the buffer's end.
pub fn cell_of(table: &[u32], greatest: u32, row: u32, t: u32) -> u32
    ensures { result ≡ get_or table.now (cell_index greatest row t) 0 }
{
    let first = row as usize * greatest as usize;
    let place = (t as usize).saturating_sub(1);
    table.get(first + place).copied().unwrap_or(0)
}

// The most that a cell of thickness t can hold.
#[tactic(auto, unfolding(plate::specs::Head::limit_of, paper::specs::Table::limit))]
fn limit_of(head: Head, t: usize) -> u32
    requires head_value { is_over head ≡ false }
    requires t_le_most_thickness { t ≤ most_thickness }
    ensures { result ≡ limit_of head t }
{
    if is_allowed(head.members, t) {
        head.columns * ((t / 2) as u32)
    } else {
        0
    }
}

// The limits of all 32 thicknesses, for no more columns than a table can have.
pub fn limits_of(head: Head) -> [u32; 32]
    ensures { Limits (capped head) result }
{
    let within = head.capped();
    let mut limits = [0u32; 32];
    for (j, limit) in limits.iter_mut().enumerate() {
        *limit = limit_of(within, j + 1);
    }
    limits
}

// The width of a row as it is, which is at most 32. The compiler, which does not know that, then unrolls a loop over the row and reads the
// limits once for all rows.
pub fn row_end(width: usize) -> usize
    ensures { result ≡ min width most_thickness }
{
    width.min(32)
}

// Whether a cell of two rows is above its limit. The loop has no way out, so that it is quick where there is none, as is mostly so.
fn any_above(table: &[u32], limits: &[u32; 32], base: usize, next: usize, width: usize) -> bool
    requires { (width ≤ most_thickness) × ((base + width ≤ length table.now) × (next + width ≤ length table.now)) }
    ensures { result ≡ false → NoneAbove limits.now table.now base width × NoneAbove limits.now table.now next width }
{
    let end = row_end(width);
    let mut found = false;
    for j in 0..end {
        let limit = limits[j];
        found |= (limit < table[base + j]) | (limit < table[next + j]);
    }
    found
}

// The first cell of a row to look through beside a row: of the next one, where there is one.
fn partner_of(s: Settings, row: usize) -> usize
    requires sound { Sound s }
    requires row_lt_rows { row < s.rows }
    ensures { (result + s.tmax ≤ s.cells) × (row + 1 < s.rows → result ≡ (row + 1) * s.tmax) }
{
    let base = row * s.tmax;
    if row + 1 < s.rows {
        return base + s.tmax;
    }
    base
}

// Whether a cell of any row is above its limit, two rows at a time.
fn any_out(table: &[u32], limits: &[u32; 32], s: Settings) -> bool
    requires sound { Sound s }
    requires cells_in_bounds { s.cells ≤ length table.now }
    ensures { result ≡ false → (row : ℕ) → row < s.rows → NoneAbove limits.now table.now (row * s.tmax) s.tmax }
{
    let mut found = false;
    for pair in 0..s.rows.div_ceil(2) {
        let row = 2 * pair;
        found |= any_above(table, limits, row * s.tmax, partner_of(s, row), s.tmax);
    }
    found
}

// The first cell of a row that is above its limit, by its place in the row, cell by cell.
fn search_above(table: &[u32], limits: &[u32; 32], base: usize, width: usize) -> Option<usize>
    requires { (width ≤ most_thickness) × (base + width ≤ length table.now) }
    ensures { IsLowest result (above limits.now table.now base) width }
{
    (0..width).find(|j| limits[*j] < table[base + *j])
}

// The lowest cell above its limit. Mostly there is none, which `any_out` tells sooner than a search.
fn first_above(table: &[u32], limits: &[u32; 32], s: Settings) -> Option<usize>
    requires sound { Sound s }
    requires cells_in_bounds { s.cells ≤ length table.now }
    ensures { IsLowest result (above_at limits.now table.now s.tmax) s.cells }
{
    if !any_out(table, limits, s) {
        return None;
    }
    for row in 0..s.rows {
        let base = row * s.tmax;
        if let Some(j) = search_above(table, limits, base, s.tmax) {
            return Some(base + j);
        }
    }
    None
}

// The lowest cell out of bounds.
fn first_out(table: &[u32], head: Head, s: Settings) -> Option<usize>
    requires settings_for { SettingsFor head s }
    requires head_value { is_over head ≡ false }
    requires cells_in_bounds { s.cells ≤ length table.now }
    ensures { IsLowest result (out_of_bounds head table.now) (cells_of head) }
{
    let limits = limits_of(head);
    first_above(table, &limits, s)
}

// Where the settings are in order: 3, 7, 6.
#[tactic(auto, unfolding(crate::specs::Table::table_rest, crate::specs::Table::short, crate::specs::Table::bound_checks, crate::specs::Table::out_cell, crate::specs::Cells::first_out))]
fn check_rest(table: &[u32], head: Head, s: Settings) -> Result<Settings, Refusal>
    requires { SettingsFor head s }
    ensures { Judges result (table_rest (held_in head table.now)) head.height head.members }
{
    if table.len() < s.cells {
        return Err(refusal_at(Reason::ShortBuffer, 1));
    }
    if head.is_over() {
        return Err(refusal_at(Reason::Columns, 0));
    }
    if let Some(out) = first_out(table, head, s) {
        return Err(refusal_at(Reason::Cell, out));
    }
    Ok(s)
}

// Whether a table that was handed over is in order: 1, 2, 3, 7, 6.
pub fn check_table(table: &[u32], head: Head) -> Result<Settings, Refusal>
    ensures { Judges result (table_checks (held_in head table.now)) head.height head.members }
{
    let s = Settings::new(head.height, head.members)?;
    check_rest(table, head, s)
}

// 1, 2, 3 of a buffer for a table.
fn check_room(table: &[u32], height: u32, members: u32) -> Result<Settings, Refusal>
    ensures { Judges result (clearing height members table.now).checks height members }
{
    let s = Settings::new(height, members)?;
    if table.len() < s.cells {
        return Err(refusal_at(Reason::ShortBuffer, 1));
    }
    Ok(s)
}

// Document 01, 'Clear a table': 1, 2, 3.
pub fn clear_table(table: &mut [u32], height: u32, members: u32) -> Result<Head, Refusal>
    ensures { Does (clearing height members table.old) (told result) table.new }
{
    let s = check_room(table, height, members)?;
    table[..s.cells].fill(0);
    Ok(Head::cleared(height, members))
}
