// What adding a column asks in the rows near a boundary: how much a cell may hold before, and the voxels from the boundary up, of which each
// is looked at once.
#![tactic(auto)]

ghost use Rattle.std.specs.Prelude.{◌≡◌, false, ◌+◌, ◌*◌, ◌%◌, ◌<◌, ◌≤◌, min, max, length, get_or};
ghost use Rattle.lists.specs.Rewrite.{Span};
ghost use Rattle.paper.specs.Limits.{most_thickness};
ghost use Rattle.plate.specs.Head.{capped, is_over};
ghost use Rattle.near.specs.Caps.{cap_of};
ghost use Rattle.near.specs.Carried.{stepped, state_at};

use plate::head::Head;
use plate::settings::is_allowed;
use table::row_end;

// The lesser of two counts.
pub fn lesser(a: u32, b: u32) -> u32
    ensures { result ≡ min a b }
{
    a.min(b)
}

// The later of two rows.
pub fn later(a: usize, b: usize) -> usize
    ensures { result ≡ max a b }
{
    a.max(b)
}

// What a cell of thickness t may hold for a column to be added to it; all that a cell can hold where t is not allowed, since nothing is added
// there.
#[tactic(auto, using(crate::proofs::Caps::cap_barred))]
fn cap_of(head: Head, t: usize) -> u32
    requires head_value { is_over head ≡ false }
    requires t_le_most_thickness { t ≤ most_thickness }
    ensures { result ≡ cap_of head t }
{
    if is_allowed(head.members, t) {
        head.columns * ((t / 2) as u32)
    } else {
        u32::MAX
    }
}

// The caps of a row's thicknesses into a buffer, for no more columns than a table can have: so many of them, or as many as it holds.
pub fn fill_caps(caps: &mut [u32], head: Head, width: usize)
    ensures { Span 0 0 (min (min width most_thickness) (length caps.old)) (λ j x. cap_of (capped head) (j + 1)) caps.old caps.new }
{
    let within = head.capped();
    let end = row_end(width).min(caps.len());
    for j in 0..end {
        caps[j] = cap_of(within, j + 1);
    }
}

// The boundary k of a column; 0 past its last.
pub fn boundary_at(column: &[u16], k: usize) -> usize
    ensures { (result ≡ get_or column.now k 0) × (result < 65536) }
{
    column.get(k).map_or(0, |boundary| usize::from(*boundary))
}

// How many boundaries are passed at a voxel, where so many are passed below it: the next one too, if it is the voxel's.
#[tactic(auto, unfolding(crate::specs::Carried::stepped))]
fn passed_at(column: &[u16], passed: usize, voxel: usize) -> usize
    ensures { result ≡ stepped column.now passed voxel }
{
    match column.get(passed) {
        Some(boundary) if usize::from(*boundary) == voxel => passed + 1,
        _ => passed,
    }
}

// The voxels from boundary k up into a buffer, 1 inside and 0 outside, where k boundaries are passed below it: so many of them, or as many as
// it holds.
pub fn fill_states(states: &mut [u32], column: &[u16], k: usize, width: usize)
    ensures { Span 0 0 (min width (length states.old)) (λ i x. state_at column.now k i) states.old states.new }
{
    let from = boundary_at(column, k);
    let mut passed = k;
    for i in 0..width.min(states.len()) {
        passed = passed_at(column, passed, from + i);
        states[i] = (passed % 2) as u32;
    }
}

// The inside voxels among so many with so many boundaries passed at each.
pub fn inside_among(passed: usize, voxels: u32) -> u32
    ensures { result ≡ passed % 2 * voxels }
{
    if passed % 2 == 1 { voxels } else { 0 }
}
