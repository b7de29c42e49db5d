// The settings of a plate: a height and a thickness set, with the sizes that follow from them.
ghost use Rattle.std.specs.Prelude.{◌≡◌, ◌≤◌};
ghost use Rattle.paper.specs.Layer.{allowed, tmin, tmax, Settings as PaperSettings};
ghost use Rattle.paper.specs.Sequence.{M};
ghost use Rattle.plate.specs.Settings.{most_counts, settings_checks, Judges};

use crate::refusal::{Reason, Refusal, refusal_at};

#[derive(Clone, Copy)]
pub struct Settings {
    pub height: usize,
    pub members: u32,
    pub tmin: usize,
    pub tmax: usize,
    // Starts of a table, and its cells.
    pub rows: usize,
    pub cells: usize,
    // The greatest count M, and the entries of a sheet.
    pub counts: usize,
    pub entries: usize,
}

// Whether the thickness t is in the set.
#[tactic(auto, unfolding(paper::specs::Layer::allowed))]
pub fn is_allowed(members: u32, t: usize) -> bool
    ensures { result ≡ allowed members t }
{
    match t {
        1..=32 => (members >> (t - 1)) % 2 == 1,
        _ => false,
    }
}

// The least member of the set, and 0 where it has none.
pub fn least_of(members: u32) -> usize
    ensures { result ≡ tmin members }
{
    for t in 1..33 {
        if is_allowed(members, t) {
            return t;
        }
    }
    0
}

// The greatest member of the set, and 0 where it has none.
pub fn greatest_of(members: u32) -> usize
    ensures { result ≡ tmax members }
{
    for t in (1..33).rev() {
        if is_allowed(members, t) {
            return t;
        }
    }
    0
}

// The greatest count M of settings in order. A plate one unit high has nothing to take 2 from.
fn greatest_count(height: usize, members: u32, least: usize) -> usize
    requires paper_settings { PaperSettings height members }
    requires least_value { least ≡ tmin members }
    ensures { (result ≡ M height members) × (result ≤ most_counts) }
{
    if height == 1 {
        return 1;
    }
    (height - 2) / least + 2
}

impl Settings {
    pub const LEAST_HEIGHT: u32 = 1;

    pub const GREATEST_HEIGHT: u32 = 512;

    // Refusals 1 and 2, or the settings.
    pub fn new(height: u32, members: u32) -> Result<Settings, Refusal>
        ensures { Judges result (settings_checks height members) height members }
    {
        if height < Settings::LEAST_HEIGHT {
            return Err(refusal_at(Reason::Height, 0));
        }
        if Settings::GREATEST_HEIGHT < height {
            return Err(refusal_at(Reason::Height, 0));
        }
        if members == 0 {
            return Err(refusal_at(Reason::NoThickness, 0));
        }
        let n = height as usize;
        let least = least_of(members);
        let greatest = greatest_of(members);
        let rows = n + 2 * greatest - 2;
        let counts = greatest_count(n, members, least);
        Ok(Settings {
            height: n,
            members,
            tmin: least,
            tmax: greatest,
            rows,
            cells: rows * greatest,
            counts,
            entries: (rows + 1) * (counts + 1),
        })
    }
}
