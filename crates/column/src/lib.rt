// A column: its order, and one column in one layer.
#![tactic(auto)]

ghost use Rattle.std.specs.Prelude.{false, ◌≡◌, ℕ, ◌+◌, ◌-◌, ◌%◌, ◌<◌, ◌≤◌, min, leb, ltb, pos, ◌-ℤ◌, length, ◌++◌};
ghost use Rattle.lists.specs.Checks.{first};
ghost use Rattle.lists.specs.Search.{IsLowest};
ghost use Rattle.paper.specs.Layer.{inside_count};
ghost use Rattle.paper.specs.Limits.{most_thickness};
ghost use Rattle.plate.specs.Refusal.{said_by, decided, told};
ghost use Rattle.plate.specs.Settings.{Sound};
ghost use Rattle.plate.specs.Datum.{height_of};
ghost use Rattle.column.specs.Order.{misplaced, wrong_count, column_checks};
ghost use Rattle.column.specs.Inside.{passed, inside};
ghost use Rattle.column.specs.Picture.{layer_checks, judgement, picture_answer};

use plate::height::datum_of;
use plate::refusal::{Reason, Refusal, refusal_at};
use plate::settings::{Settings, is_allowed};

// The most boundaries that a column may have.
pub const MOST_BOUNDARIES: usize = 64;

// One column in one layer: whether the picture fills it, its share, and by how much it leans: inside voxels less outside ones, -32 to 32.
#[derive(Clone, Copy)]
pub struct Judged {
    pub filled: bool,
    pub share: u32,
    pub difference: i32,
}

// Whether boundary i is above the height, or not above the one before.
#[tactic(auto, unfolding(crate::specs::Order::misplaced))]
fn is_misplaced(column: &[u16], height: usize, i: usize) -> bool
    requires { i < length column.now }
    ensures { result ≡ misplaced height column.now i }
{
    height < usize::from(column[i]) || i != 0 && column[i] <= column[i - 1]
}

// The first such boundary.
fn first_misplaced(column: &[u16], height: usize) -> Option<usize>
    ensures { IsLowest result (misplaced height column.now) (length column.now) }
{
    (0..column.len()).find(|i| is_misplaced(column, height, *i))
}

// Whether a boundary is misplaced. All are looked at, with no way out on the way, which is quick where none is, as is mostly so; and where each is
// above the one before, the last is the highest. The loop goes by index: a pair of `windows(2)` would be indexed as well, and what a `zip` yields says nothing of places.
fn any_misplaced(column: &[u16], height: usize) -> bool
    ensures { result ≡ false → (i : ℕ) → i < length column.now → misplaced height column.now i ≡ false }
{
    let Some(last) = column.last() else {
        return false;
    };
    let mut found = false;
    for i in 1..column.len() {
        found |= column[i] <= column[i - 1];
    }
    found | (height < usize::from(*last))
}

// Whether a column can't have so many boundaries.
pub fn is_wrong_count(count: usize) -> bool
    ensures { result ≡ wrong_count count }
{
    count % 2 == 1 || MOST_BOUNDARIES < count
}

// Refusals 4 and 5.
pub fn check_column(column: &[u16], height: usize) -> Result<(), Refusal>
    ensures { said_by result ≡ first (column_checks height column.now) }
{
    if is_wrong_count(column.len()) {
        return Err(refusal_at(Reason::BoundaryCount, column.len()));
    }
    if !any_misplaced(column, height) {
        return Ok(());
    }
    match first_misplaced(column, height) {
        Some(at) => Err(refusal_at(Reason::Boundary, at)),
        None => Ok(()),
    }
}

// Whether the boundary b is at or below the voxel h.
fn is_reached(b: u16, h: u32) -> bool
    ensures { result ≡ leb (b + 32) h }
{
    u32::from(b) + 32 <= h
}

// How many boundaries are at or below the voxel h.
// With `filter` and `count` in place of the loop a picture over 64 boundaries took four times as long: the compiler takes many at a time only so.
fn passed_at(column: &[u16], h: u32) -> usize
    ensures { result ≡ passed column.now h }
{
    let mut n = 0;
    for b in column {
        n += usize::from(is_reached(*b, h));
    }
    n
}

// The inside voxels among the thickness voxels from start on.
fn inside_of(column: &[u16], start: u32, thickness: u32) -> u32
    requires { start + thickness < 4294967296 }
    ensures { (result ≡ inside column.now start thickness) × (result ≤ thickness) }
{
    let mut n: u32 = 0;
    for h in start..start + thickness {
        n += u32::from(passed_at(column, h) % 2 == 1);
    }
    n
}

// One column in the layer from the datum height start: its inside voxels. Whether it is filled, its share and its difference are derived from them.
pub fn judge(column: &[u16], start: u16, thickness: u16) -> u32
    ensures { (result ≡ inside_count column.now (height_of start) thickness) × (result ≤ thickness) }
{
    inside_of(column, u32::from(start), u32::from(thickness))
}

// Whether the picture fills t voxels of which so many are inside; a tie is left unfilled.
fn fills(inside: u32, t: u32) -> bool
    requires { inside ≤ t }
    ensures { result ≡ ltb (t - inside) inside }
{
    t - inside < inside
}

// The share of t voxels of which so many are inside.
fn share_of(inside: u32, t: u32) -> u32
    requires { inside ≤ t }
    ensures { result ≡ min inside (t - inside) }
{
    inside.min(t - inside)
}

// One count of voxels minus another, which may be below 0.
fn minus(a: u32, b: u32) -> i32
    requires { (a ≤ most_thickness) × (b ≤ most_thickness) }
    ensures { result ≡ pos a -ℤ pos b }
{
    a as i32 - b as i32
}

// Inside minus outside, of t voxels of which so many are inside.
fn difference_of(inside: u32, t: u32) -> i32
    requires { (inside ≤ t) × (t ≤ most_thickness) }
    ensures { result ≡ pos inside -ℤ pos (t - inside) }
{
    minus(inside, t - inside)
}

// Where the settings are in order: 4, 5, 13.
fn picture_of(column: &[u16], s: Settings, start: i32, thickness: u32) -> Result<Judged, Refusal>
    requires { Sound s }
    ensures { told result ≡ decided (column_checks s.height column.now ++ layer_checks s.height s.members start thickness) (judgement column.now start thickness) }
{
    check_column(column, s.height)?;
    let h = datum_of(start);
    if h + s.tmax < 33 {
        return Err(refusal_at(Reason::NotAdmissible, 0));
    }
    if s.height + s.tmax + 30 < h {
        return Err(refusal_at(Reason::NotAdmissible, 0));
    }
    if !is_allowed(s.members, thickness as usize) {
        return Err(refusal_at(Reason::NotAdmissible, 1));
    }
    let inside = judge(column, h as u16, thickness as u16);
    Ok(Judged {
        filled: fills(inside, thickness),
        share: share_of(inside, thickness),
        difference: difference_of(inside, thickness),
    })
}

// Document 01, 'Picture of a column in a layer', with document 02 g)'s difference: 1, 2, 4, 5, 13.
pub fn picture(
    column: &[u16],
    height: u32,
    members: u32,
    start: i32,
    thickness: u32,
) -> Result<Judged, Refusal>
    ensures { told result ≡ picture_answer height members column.now start thickness }
{
    let s = Settings::new(height, members)?;
    picture_of(column, s, start, thickness)
}
