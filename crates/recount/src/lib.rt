// Recounting a given sequence over a table.
#![tactic(auto)]

ghost use Rattle.std.specs.Prelude.{◌≡◌, ◌++◌, ◌+◌, ◌<◌, length};
ghost use Rattle.paper.specs.Sequence.{◌!◌};
ghost use Rattle.plate.specs.Call.{Does};
ghost use Rattle.plate.specs.Datum.{datum};
ghost use Rattle.plate.specs.Head.{held_in};
ghost use Rattle.plate.specs.Refusal.{told};
ghost use Rattle.plate.specs.Settings.{Sound, settings_checks, Judges};
ghost use Rattle.recount.specs.Layers.{Looked, Started, sequence_answer};
ghost use Rattle.recount.specs.Recount.{unbounded_checks, recounting};

use plate::head::Head;
use plate::height::datum_of;
use plate::refusal::{Reason, Refusal, refusal_at};
use plate::settings::{Settings, is_allowed};
use sheets::{is_start, row_of};
use table::{cell_of, check_table};

// The datum height of boundary k.
fn datum_at(sequence: &[i32], k: usize) -> usize
    requires { k < length sequence.now }
    ensures { (result ≡ datum (sequence.now ! k)) × (result < 4294967296) }
{
    datum_of(sequence[k])
}

// What a sequence is recounted over: a table in order, or none, its settings, and the bound on a layer's error.
#[derive(Clone, Copy)]
struct Bounded<'a> {
    table: &'a [u32],
    settings: Settings,
    bound: u32,
    ghost sound: { Sound settings },
}

impl<'a> Bounded<'a> {
    // The layer from the datum height below up to above.
    fn look(&self, below: usize, above: usize) -> Option<u64>
        requires { (32 < below + self.now.settings.tmax) × (below < self.now.settings.height + self.now.settings.tmax + 32) }
        ensures { Looked result self.now.settings.height self.now.settings.members self.now.table.now self.now.bound below above }
    {
        let s = self.settings;
        if above <= below {
            return None;
        }
        let t = above - below;
        if !is_allowed(s.members, t) {
            return None;
        }
        if s.height + s.tmax + 31 < above {
            return None;
        }
        let row = row_of(s.tmax as u32, below as u32);
        let error = cell_of(self.table, s.tmax as u32, row as u32, t as u32);
        if self.bound < error {
            return None;
        }
        Some(u64::from(error))
    }

    // Where the start and z1 are in order: the layers from the lowest up, then z(n - 1) and the end. That z(n - 1) is below N is asked last,
    // since it is a fault of index n, and not of the first layer that starts at N or above.
    fn recount_layers(&self, sequence: &[i32]) -> Result<u64, Refusal>
        requires { Started self.now.settings sequence.now }
        ensures { told result ≡ sequence_answer self.now.settings.height self.now.settings.members self.now.table.now self.now.bound sequence.now }
    {
        let count = sequence.len() - 1;
        let mut below = datum_at(sequence, 0);
        let mut sum: u64 = 0;
        for k in 0..count {
            let above = datum_at(sequence, k + 1);
            let Some(error) = self.look(below, above) else {
                return Err(refusal_at(Reason::NotAdmissible, k + 1));
            };
            sum += error;
            below = above;
        }
        let end = self.settings.height + 32;
        if end <= datum_at(sequence, count - 1) || below < end {
            return Err(refusal_at(Reason::NotAdmissible, count));
        }
        Ok(sum)
    }

    // Where the table is in order: 13.
    fn recount_sequence(&self, sequence: &[i32]) -> Result<u64, Refusal>
        ensures { told result ≡ sequence_answer self.now.settings.height self.now.settings.members self.now.table.now self.now.bound sequence.now }
    {
        if sequence.len() < 2 {
            return Err(refusal_at(Reason::NotAdmissible, 0));
        }
        let start = datum_at(sequence, 0);
        if !is_start(self.settings.tmax, start) {
            return Err(refusal_at(Reason::NotAdmissible, 0));
        }
        if datum_at(sequence, 1) <= 32 {
            return Err(refusal_at(Reason::NotAdmissible, 1));
        }
        self.recount_layers(sequence)
    }
}

// A sequence by itself, without a bound: 1, 2, 13. There is no table, and so no layer has an error.
pub fn check_sequence(height: u32, members: u32, sequence: &[i32]) -> Result<Settings, Refusal>
    ensures { Judges result (settings_checks height members ++ unbounded_checks height members sequence.now) height members }
{
    let settings = Settings::new(height, members)?;
    let unbounded = Bounded {
        table: &[],
        settings,
        bound: u32::MAX,
    };
    unbounded.recount_sequence(sequence)?;
    Ok(settings)
}

// Document 01, 'Recount a sequence over a table': 1, 2, 3, 7, 6, 13.
pub fn recount(table: &[u32], head: Head, bound: u32, sequence: &[i32]) -> Result<u64, Refusal>
    ensures { Does (recounting (held_in head table.now) bound sequence.now) (told result) tt }
{
    let settings = check_table(table, head)?;
    let bounded = Bounded {
        table,
        settings,
        bound,
    };
    bounded.recount_sequence(sequence)
}
