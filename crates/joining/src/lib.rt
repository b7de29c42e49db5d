// Joining a second table into a first one, and taking it off.
#![tactic(auto)]

ghost use Rattle.std.specs.Prelude.{◌≡◌, ℕ, ◌+◌, ◌<◌, ◌≤◌, false, length, slice_index};
ghost use Rattle.lists.specs.Checks.{first};
ghost use Rattle.paper.specs.Limits.{most_thickness};
ghost use Rattle.plate.specs.Call.{Does};
ghost use Rattle.plate.specs.Refusal.{said_by, told};
ghost use Rattle.plate.specs.Head.{held_in, less, either_over, cells_of, SettingsFor};
ghost use Rattle.plate.specs.Settings.{Sound, Judges};
ghost use Rattle.lists.specs.Search.{IsLowest};
ghost use Rattle.table.specs.Limits.{greatest_limit, UnderGreatest};
ghost use Rattle.joining.specs.Parts.{is_apart, not_part, apart, apart_at};
ghost use Rattle.joining.specs.Joining.{pair_checks, out_checks, rest_checks, both_checks, Whole, PairInOrder, Combined, part_checks, joining, taking};
ghost use Rattle.joining.specs.Handed.{seen};

use plate::head::Head;
use plate::refusal::{Reason, Refusal, refusal_at};
use plate::settings::Settings;
use table::{check_table, limits_of, row_end};

// A table that a call is handed, and what goes with it.
#[derive(Clone, Copy)]
struct Held<'a> {
    head: Head,
    buffer: &'a [u32],
}

// Whether a difference is negative or above its limit: a negative one wraps to beyond every limit.
fn is_apart(limit: u32, cell: u32, other: u32) -> bool
    requires { (limit ≤ greatest_limit) × (other ≤ greatest_limit) }
    ensures { result ≡ is_apart limit cell other }
{
    limit < cell.wrapping_sub(other)
}

// Whether a difference of a row is negative or above its limit.
fn any_apart(table: &[u32], other: &[u32], limits: &[u32; 32], base: usize, width: usize) -> bool
    requires width_le_most_thickness { (width ≤ most_thickness) × ((base + width ≤ length table.now) × (base + width ≤ length other.now)) }
    requires under_greatest { UnderGreatest 32 limits.now × UnderGreatest (base + width) other.now }
    ensures { result ≡ false → (j : ℕ) → j < width → apart limits.now table.now other.now base j ≡ false }
{
    let mut found = false;
    for j in 0..row_end(width) {
        found |= is_apart(limits[j], table[base + j], other[base + j]);
    }
    found
}

// The first cell of a row where the difference of two tables is negative or above its limit, by its place in the row. Mostly there is none, which
// `any_apart` tells sooner than a search.
fn apart_row(
    table: &[u32],
    other: &[u32],
    limits: &[u32; 32],
    base: usize,
    width: usize,
) -> Option<usize>
    requires width_le_most_thickness { (width ≤ most_thickness) × ((base + width ≤ length table.now) × (base + width ≤ length other.now)) }
    requires under_greatest { UnderGreatest 32 limits.now × UnderGreatest (base + width) other.now }
    ensures { IsLowest result (apart limits.now table.now other.now base) width }
{
    if !any_apart(table, other, limits, base, width) {
        return None;
    }
    (0..width).find(|j| is_apart(limits[*j], table[base + *j], other[base + *j]))
}

// The lowest cell where the difference of two tables is negative or above its limit.
fn first_apart(table: &[u32], other: &[u32], limits: &[u32; 32], s: Settings) -> Option<usize>
    requires sound { Sound s }
    requires cells_in_bounds { (s.cells ≤ length table.now) × (s.cells ≤ length other.now) }
    requires under_greatest { UnderGreatest 32 limits.now × UnderGreatest s.cells other.now }
    ensures { IsLowest result (apart_at limits.now table.now other.now s.tmax) s.cells }
{
    for row in 0..s.rows {
        let base = row * s.tmax;
        if let Some(j) = apart_row(table, other, limits, base, s.tmax) {
            return Some(base + j);
        }
    }
    None
}

// The lowest cell of the second table that is no part of the first's.
fn first_not_part(held: Held, other: Held, s: Settings) -> Option<usize>
    requires settings_for { SettingsFor held.head s }
    requires pair_in_order { PairInOrder (seen held) (seen other) s }
    ensures { IsLowest result (not_part (less held.entry.head other.entry.head) held.entry.buffer.now other.entry.buffer.now) (cells_of held.entry.head) }
{
    let limits = limits_of(held.head.without(other.head));
    first_apart(held.buffer, other.buffer, &limits, s)
}

// So many cells of a table, each made anew from it and the other table's cell at its place.
fn combine<F: Fn(u32, u32) -> u32>(table: &mut [u32], other: &[u32], cells: usize, f: F)
    requires cells_in_bounds { (cells ≤ length table.old) × (cells ≤ length other.now) }
    requires by_index { (i : ℕ) → i < cells → F.pre f (slice_index table.old i) (slice_index other.now i) }
    ensures { Combined (λ x y z. F.post f x y z) cells other.now table.old table.new }
{
    for i in 0..cells {
        table[i] = f(table[i], other[i]);
    }
}

// 1 and 2 for the first table's settings, then for the second's; 8; or the settings that both have.
fn pair_of(head: Head, other: Head) -> Result<Settings, Refusal>
    ensures { Judges result (pair_checks head other) head.height head.members }
{
    let s = Settings::new(head.height, head.members)?;
    Settings::new(other.height, other.members)?;
    if head.height != other.height || head.members != other.members {
        return Err(refusal_at(Reason::Settings, 0));
    }
    Ok(s)
}

// 6 in the first table, then the second, where all before it passed.
fn check_cells(held: Held, other: Held) -> Result<(), Refusal>
    requires { Whole (seen held) × Whole (seen other) }
    ensures { said_by result ≡ first (out_checks (seen held.entry) (seen other.entry)) }
{
    check_table(held.buffer, held.head)?;
    check_table(other.buffer, other.head)?;
    Ok(())
}

// Where the settings are in order and the same: 3, 7 by the test handed in, 6.
fn check_rest(held: Held, other: Held, beyond: bool, s: Settings) -> Result<Settings, Refusal>
    requires settings_for { SettingsFor held.head s × SettingsFor other.head s }
    requires other_head_value { beyond ≡ false → either_over held.head other.head ≡ false }
    ensures { Judges result (rest_checks beyond (seen held.entry) (seen other.entry)) held.entry.head.height held.entry.head.members }
{
    if held.buffer.len() < s.cells {
        return Err(refusal_at(Reason::ShortBuffer, 1));
    }
    if other.buffer.len() < s.cells {
        return Err(refusal_at(Reason::ShortBuffer, 2));
    }
    if beyond {
        return Err(refusal_at(Reason::Columns, 0));
    }
    check_cells(held, other)?;
    Ok(s)
}

// 1 and 2 for the first, then the second; 8; 3; 7 by the test handed in; 6 in the first, then the second.
fn check_both(held: Held, other: Held, beyond: bool) -> Result<Settings, Refusal>
    requires { beyond ≡ false → either_over held.head other.head ≡ false }
    ensures { Judges result (both_checks beyond (seen held.entry) (seen other.entry)) held.entry.head.height held.entry.head.members }
{
    let s = pair_of(held.head, other.head)?;
    check_rest(held, other, beyond, s)
}

// Document 01, 'Join the second into the first': 1 and 2 for the first, then the second; 8; 3; 7; 6 in the first, then the second.
pub fn join_tables(
    table: &mut [u32],
    head: Head,
    other: &[u32],
    other_head: Head,
) -> Result<Head, Refusal>
    ensures { Does (joining (held_in head table.old) (held_in other_head other.now)) (told result) table.new }
{
    let beyond = head.is_over() | other_head.is_over() | head.is_over_with(other_head);
    let held = Held {
        head,
        buffer: table,
    };
    let second = Held {
        head: other_head,
        buffer: other,
    };
    let s = check_both(held, second, beyond)?;
    combine(table, other, s.cells, |x, y| x + y);
    Ok(head.joined_with(other_head))
}

// 9, where all else is in order.
fn check_part(held: Held, other: Held, s: Settings) -> Result<Settings, Refusal>
    requires settings_for { SettingsFor held.head s }
    requires pair_in_order { PairInOrder (seen held) (seen other) s }
    ensures { Judges result (part_checks (seen held.entry) (seen other.entry)) held.entry.head.height held.entry.head.members }
{
    if held.head.is_less(other.head) {
        return Err(refusal_at(Reason::NotAPart, 0));
    }
    if let Some(at) = first_not_part(held, other, s) {
        return Err(refusal_at(Reason::NotAPart, at));
    }
    Ok(s)
}

// The order of joining, 7 for either count only, then 9.
fn check_taking(held: Held, other: Held) -> Result<Settings, Refusal>
    ensures { Judges result (taking (seen held.entry) (seen other.entry)).checks held.entry.head.height held.entry.head.members }
{
    let beyond = held.head.is_over() | other.head.is_over();
    let s = check_both(held, other, beyond)?;
    check_part(held, other, s)
}

// Document 01, 'Take the second off the first': the order of joining, 7 for either count only, then 9.
pub fn take_off(
    table: &mut [u32],
    head: Head,
    other: &[u32],
    other_head: Head,
) -> Result<Head, Refusal>
    ensures { Does (taking (held_in head table.old) (held_in other_head other.now)) (told result) table.new }
{
    let held = Held {
        head,
        buffer: table,
    };
    let second = Held {
        head: other_head,
        buffer: other,
    };
    let s = check_taking(held, second)?;
    combine(table, other, s.cells, |x, y| x - y);
    Ok(head.without(other_head))
}
