// Reading a sequence back from two sheets, which may hold anything.
#![tactic(auto)]

ghost use Rattle.std.specs.Prelude.{◌≡◌, not, ◌||◌, ◌++◌, ◌+◌, ◌<◌, ◌≤◌, ltb, eqb, length, map, drop};
ghost use Rattle.std.proofs.Math.Option.{none};
ghost use Rattle.lists.specs.Checks.{first};
ghost use Rattle.plate.specs.Call.{Does};
ghost use Rattle.plate.specs.Datum.{at_row, height_of};
ghost use Rattle.plate.specs.Refusal.{told};
ghost use Rattle.plate.specs.Settings.{Sound, Judges};
ghost use Rattle.sequence.specs.Sequence.{lowest_end};
ghost use Rattle.sequence.specs.Sheets.{entry, reads_back};
ghost use Rattle.sheets.specs.Entries.{least_end};
ghost use Rattle.sheets.specs.Least.{IsLeast};
ghost use Rattle.readback.specs.Reading.{room_checks, reading};
ghost use Rattle.readback.specs.Walking.{Walked};

use plate::height::height_of;
use plate::refusal::{Reason, Refusal, refusal_at};
use plate::settings::{Settings, is_allowed};
use sheets::{Least, at_row, entry_index, is_start, least_end};

// Two sheets, which may hold anything, and the count of layers of the sequence that is read back from them.
#[derive(Clone, Copy)]
struct Sheets<'a> {
    settings: Settings,
    errors: &'a [u64],
    thicknesses: &'a [u8],
    layers: usize,
    ghost sound: { Sound settings },
    ghost errors_whole: { settings.entries ≤ length errors.now },
    ghost thicknesses_whole: { settings.entries ≤ length thicknesses.now },
    ghost few: { layers ≤ settings.counts },
}

impl<'a> Sheets<'a> {
    // The thickness that the sheet holds at a row and the count m.
    fn thickness_at(&self, row: u32, m: usize) -> u32
        requires { (row ≤ self.now.settings.rows) × (m ≤ self.now.settings.counts) }
        ensures { result ≡ entry self.now.settings.height self.now.settings.members self.now.thicknesses.now m (at_row self.now.settings.tmax row) }
    {
        let at = entry_index(self.settings.counts as u32, row, m as u32);
        u32::from(self.thicknesses[at])
    }

    // Whether layer k may start at a row: the topmost, the first that is met, only below N.
    fn may_start(&self, k: usize, row: u32) -> bool
        ensures { result ≡ not (eqb k self.now.layers) || ltb (at_row self.now.settings.tmax row) (lowest_end self.now.settings.height) }
    {
        k != self.layers || row as usize + 1 < self.settings.height + self.settings.tmax
    }

    // Whether layer k may end at a row: layer 1, the last that is met, only above 0.
    fn may_end(&self, k: usize, row: u32) -> bool
        ensures { result ≡ not (eqb k 1) || ltb 32 (at_row self.now.settings.tmax row) }
    {
        k != 1 || self.settings.tmax <= row as usize
    }

    // Whether layer k, of thickness t and with its end at a row, reads back.
    fn reads_back(&self, k: usize, row: u32, t: u32) -> bool
        ensures { result ≡ reads_back self.now.settings.height self.now.settings.members self.now.layers k (at_row self.now.settings.tmax row) t }
    {
        if !is_allowed(self.settings.members, t as usize) || row < t {
            return false;
        }
        self.may_start(k, row - t) && self.may_end(k, row)
    }

    // Walks down from the row `top` through the layers, notes each boundary's height, and answers the layer at fault where there is one. Each step
    // waits for the one before, so that a second walk, to write what the first one found, would take as long again.
    fn walk_down(&self, top: u32, heights: &mut [u16]) -> Result<(), usize>
        requires in_sheet { top ≤ self.now.settings.rows }
        requires has_room { self.now.layers < length heights.old }
        ensures { Walked (entry self.now.settings.height self.now.settings.members self.now.thicknesses.now) self.now.settings.height self.now.settings.members self.now.layers (at_row self.now.settings.tmax top) result heights.new }
    {
        let tmax = self.settings.tmax;
        let mut row = top;
        for k in (1..self.layers + 1).rev() {
            heights[k] = at_row(tmax as u32, row) as u16;
            let t = self.thickness_at(row, k);
            if !self.reads_back(k, row, t) {
                return Err(k);
            }
            row -= t;
        }
        let lowest = at_row(tmax as u32, row);
        if !is_start(tmax, lowest) {
            return Err(0);
        }
        heights[0] = lowest as u16;
        Ok(())
    }

    // The least entry of the count at the end heights.
    fn end(&self) -> Option<Least>
        ensures { IsLeast result (least_end self.now.errors.now self.now.settings.height self.now.settings.tmax self.now.settings.counts self.now.layers) }
    {
        let s = self.settings;
        least_end(
            self.errors,
            s.height as u16,
            s.tmax as u16,
            s.counts as u16,
            self.layers as u16,
        )
    }

    // 11, 12, or the sequence. Nothing is written before the walk has ended without a fault. A count is at most 512, so that there are at most 513
    // boundaries.
    fn read_entries(&self, out: &mut [i32]) -> Result<u64, Refusal>
        requires { none ≡ first (room_checks self.now.settings.height self.now.settings.members (length self.now.errors.now) (length self.now.thicknesses.now) self.now.layers (length out.old)) }
        ensures { Does (reading self.now.settings.height self.now.settings.members self.now.errors.now self.now.thicknesses.now self.now.layers out.old) (told result) out.new }
    {
        let Some(end) = self.end() else {
            return Err(refusal_at(Reason::NoSequence, 0));
        };
        let mut heights = [0u16; 513];
        let top = self.settings.height + self.settings.tmax - 1 + end.place;
        self.walk_down(top as u32, &mut heights)
            .map_err(|layer| refusal_at(Reason::Unreadable, layer))?;
        write_heights(&heights[..self.layers + 1], out);
        Ok(end.error)
    }
}

// Writes the heights that a walk noted, as whole numbers, from the lowest boundary up.
fn write_heights(heights: &[u16], out: &mut [i32])
    requires { length heights.now ≤ length out.old }
    ensures { out.new ≡ map height_of heights.now ++ drop (length heights.now) out.old }
{
    for (k, height) in heights.iter().enumerate() {
        out[k] = height_of(*height);
    }
}

// 1, 2, 3, 10 and 3, by the lengths of the error sheet, the thickness sheet and the output.
fn check_room(
    height: u32,
    members: u32,
    errors: usize,
    thicknesses: usize,
    n: u32,
    room: usize,
) -> Result<Settings, Refusal>
    ensures { Judges result (room_checks height members errors thicknesses n room) height members }
{
    let s = Settings::new(height, members)?;
    if errors < s.entries {
        return Err(refusal_at(Reason::ShortBuffer, 1));
    }
    if thicknesses < s.entries {
        return Err(refusal_at(Reason::ShortBuffer, 2));
    }
    if n == 0 || s.counts < n as usize {
        return Err(refusal_at(Reason::Count, 0));
    }
    if room < n as usize + 1 {
        return Err(refusal_at(Reason::ShortBuffer, 3));
    }
    Ok(s)
}

// Document 01, 'Read a sequence back from two sheets': 1, 2, 3, 10, 3, 11, 12.
pub fn read_back(
    height: u32,
    members: u32,
    errors: &[u64],
    thicknesses: &[u8],
    count: u32,
    out: &mut [i32],
) -> Result<u64, Refusal>
    ensures { Does (reading height members errors.now thicknesses.now count out.old) (told result) out.new }
{
    let settings = check_room(
        height,
        members,
        errors.len(),
        thicknesses.len(),
        count,
        out.len(),
    )?;
    let sheets = Sheets {
        settings,
        errors,
        thicknesses,
        layers: count as usize,
    };
    sheets.read_entries(out)
}
