// Plans: filling the two sheets and the list.
#![tactic(auto)]

ghost use Rattle.std.specs.Prelude.{◌≡◌, ℕ, ◌+◌, ◌-◌, ◌*◌, ◌/◌, ◌<◌, ◌≤◌, length};
ghost use Rattle.lists.specs.Grid.{flat};
ghost use Rattle.lists.specs.Rewrite.{Span};
ghost use Rattle.paper.specs.Sheets.{row_start, entry_index, missing};
ghost use Rattle.plate.specs.Call.{Does};
ghost use Rattle.plate.specs.Datum.{at_row};
ghost use Rattle.plate.specs.Head.{held_in, SettingsFor};
ghost use Rattle.plate.specs.Refusal.{told};
ghost use Rattle.plate.specs.Settings.{Judges};
ghost use Rattle.sequence.specs.Least.{least_of};
ghost use Rattle.sequence.specs.Sheets.{mark};
ghost use Rattle.table.specs.Cells.{cell_from};
ghost use Rattle.plan.specs.Plan.{plan_rest, plan_checks, planning, sheets_in};
ghost use Rattle.plan.specs.Planning.{Ready, planned_errors, planned_thicknesses, planned_list};
ghost use Rattle.plan.specs.Rows.{least_at, RowTo, Under, Permitted, Planned};

use plate::head::Head;
use plate::refusal::{Reason, Refusal, refusal_at};
use plate::settings::Settings;
use putting::put_all;
use sheets::{NONE, is_layer, least_end};
use table::{cell_of, check_table};

// What a plan is made from: a table that is whole, whose cells are small enough that no sum leaves an entry, its settings, and the bound on a layer's
// error.
#[derive(Clone, Copy)]
struct Work<'a> {
    table: &'a [u32],
    settings: Settings,
    bound: u32,
    ghost ready: { Ready settings table.now },
}

impl<'a> Work<'a> {
    ghost use Rattle.plan.specs.Working.{rules_of};

    // Where the entry of the row q and the count m stands. It is reckoned here, where settings are sound, and not by `sheets`, which asks nothing and
    // so takes narrower numbers: across a narrowing the compiler does not go from row to row by an addition.
    fn entry_of(&self, q: usize, m: usize) -> usize
        requires { (q ≤ self.now.settings.rows) × (m ≤ self.now.settings.counts) }
        ensures { (result ≡ entry_index self.now.settings.counts q m) × (result < self.now.settings.entries) }
    {
        q * (self.settings.counts + 1) + m
    }

    // The cell of the layer from row `start` of thickness t.
    fn layer_cell(&self, start: usize, t: usize) -> u32
        requires { (start < self.now.settings.rows) × (1 ≤ t) × (t ≤ self.now.settings.tmax) }
        ensures { result ≡ cell_from self.now.settings.members self.now.table.now (at_row self.now.settings.tmax start) t }
    {
        cell_of(
            self.table,
            self.settings.tmax as u32,
            start as u32,
            t as u32,
        )
    }

    // Whether a layer of thickness t that ends at row q, above 0, is permitted.
    fn may_use(&self, q: usize, t: usize) -> bool
        requires { (self.now.settings.tmax ≤ q) × (q ≤ self.now.settings.rows) × (1 ≤ t) × (t ≤ self.now.settings.tmax) }
        ensures { result ≡ (rules_of self.now).may (at_row self.now.settings.tmax (q - t)) t }
    {
        let s = self.settings;
        is_layer(s.height as u16, s.members, s.tmax as u16, q as u32, t)
            && self.layer_cell(q - t, t) <= self.bound
    }

    // How many layers of thickness t fit in a rise of so many rows. Both numbers are small, and dividing them as 32 bits takes fewer
    // instructions: the compiler, which does not know that, would ask first.
    fn layers_in(&self, rise: usize, t: usize) -> usize
        requires { (rise ≤ self.now.settings.rows) × (1 ≤ t) × (t ≤ self.now.settings.tmax) }
        ensures { result ≡ rise / t }
    {
        (rise as u32 / t as u32) as usize
    }

    // Past the counts that the row `start` can have, or the greatest count: at 0 or less no layer ends, and over it layers of at least tmin stand on a
    // lowest one that ends at 1 or more.
    fn end_count(&self, start: usize) -> usize
        requires { start ≤ self.now.settings.rows }
        ensures { (1 ≤ result) × (result ≤ self.now.settings.counts) × ((m : ℕ) → result ≤ m → m < self.now.settings.counts → start < (m - 1) * self.now.settings.tmin + self.now.settings.tmax) }
    {
        let s = self.settings;
        if start < s.tmax {
            return 1;
        }
        s.counts.min(self.layers_in(start - s.tmax, s.tmin) + 2)
    }

    // How many layers it takes at least to reach the lowest row from which a layer ends at row q, above 0. `first` is such a number for a row not above
    // q: it is raised from row to row, and not divided for.
    fn raised(&self, q: usize, first: usize) -> usize
        requires { (self.now.settings.tmax ≤ q) × (q ≤ self.now.settings.rows) × (first * self.now.settings.tmax ≤ q - self.now.settings.tmax) }
        ensures { result * self.now.settings.tmax ≤ q - self.now.settings.tmax }
    {
        let tmax = self.settings.tmax;
        if (first + 1) * tmax <= q - tmax {
            return first + 1;
        }
        first
    }

    // Row q of an error sheet with no sequence at all. With `fill` in place of the loop the largest plate's plan took a tenth longer.
    fn clear_errors(&self, q: usize, errors: &mut [u64])
        requires { (q ≤ self.now.settings.rows) × (self.now.settings.entries ≤ length errors.old) }
        ensures { Span 0 (row_start self.now.settings.counts q) (self.now.settings.counts + 1) (λ m x. missing) errors.old errors.new }
    {
        let from = self.entry_of(q, 0);
        for m in 0..=self.settings.counts {
            errors[from + m] = NONE;
        }
    }

    // A thickness sheet with no sequence at all. It is cleared whole: a row of it is a few bytes, and clearing them costs hardly less than calling
    // what clears.
    fn clear_thicknesses(&self, thicknesses: &mut [u8])
        requires { self.now.settings.entries ≤ length thicknesses.old }
        ensures { Span 0 0 self.now.settings.entries (λ m x. 0) thicknesses.old thicknesses.new }
    {
        thicknesses[..self.settings.entries].fill(0);
    }

    // The errors of row q at a height of 0 or less: 0 at count 0, and none elsewhere.
    fn start_row(&self, q: usize, errors: &mut [u64])
        requires { (q < self.now.settings.tmax) × (self.now.settings.entries ≤ length errors.old) }
        ensures { Span 0 (row_start self.now.settings.counts q) (self.now.settings.counts + 1) (least_at self.now.settings (rules_of self.now) q) errors.old errors.new }
    {
        self.clear_errors(q, errors);
        let at = self.entry_of(q, 0);
        errors[at] = 0;
    }

    // The rows at heights of 0 or less, where no layer ends.
    fn start_rows(&self, errors: &mut [u64])
        requires { self.now.settings.entries ≤ length errors.old }
        ensures { Span 0 0 (row_start self.now.settings.counts self.now.settings.tmax) (flat (self.now.settings.counts + 1) (least_at self.now.settings (rules_of self.now))) errors.old errors.new }
    {
        for q in 0..self.settings.tmax {
            self.start_row(q, errors);
        }
    }

    // One thickness more in row q: a last layer of thickness t, permitted where it starts, t rows under q, for every count that its start row can
    // have. Under `first` there is none. The sheets stay two parameters: a struct of both would be built from `plan`'s two and taken apart for
    // `put_all`.
    fn relax(&self, q: usize, t: usize, first: usize, errors: &mut [u64], thicknesses: &mut [u8])
        requires under { Under self.now.settings (rules_of self.now) q errors.old thicknesses.old }
        requires permitted { Permitted self.now.settings (rules_of self.now) q t }
        requires tmax_bound { first * self.now.settings.tmax ≤ q - self.now.settings.tmax }
        requires row_to { RowTo self.now.settings (rules_of self.now) q (t - 1) (self.now.settings.counts + 1) errors.old thicknesses.old errors.old thicknesses.old }
        ensures { RowTo self.now.settings (rules_of self.now) q t (self.now.settings.counts + 1) errors.old thicknesses.old errors.new thicknesses.new }
    {
        let start = q - t;
        let at = self.entry_of(q, first);
        let from = at - t * (self.settings.counts + 1);
        let to = at + 1;
        let cell = self.layer_cell(start, t);
        let end = self.end_count(start);
        let past = to + (end - first);
        put_all(
            &mut errors[from..past],
            &mut thicknesses[to..past],
            cell,
            t as u8,
        );
    }

    // One thickness more in row q, where it may be used.
    fn step_row(&self, q: usize, t: usize, first: usize, errors: &mut [u64], thicknesses: &mut [u8])
        requires under { Under self.now.settings (rules_of self.now) q errors.old thicknesses.old }
        requires tmax_le_q { (self.now.settings.tmax ≤ q) × (1 ≤ t) × (t ≤ self.now.settings.tmax) × (first * self.now.settings.tmax ≤ q - self.now.settings.tmax) }
        requires row_to { RowTo self.now.settings (rules_of self.now) q (t - 1) (self.now.settings.counts + 1) errors.old thicknesses.old errors.old thicknesses.old }
        ensures { RowTo self.now.settings (rules_of self.now) q t (self.now.settings.counts + 1) errors.old thicknesses.old errors.new thicknesses.new }
    {
        if self.may_use(q, t) {
            self.relax(q, t, first, errors, thicknesses);
        }
    }

    // Fills row q of both sheets, above 0, whose rows under it are filled, and whose thicknesses are cleared: thickness by thickness, from tmin on.
    fn fill_row(&self, q: usize, first: usize, errors: &mut [u64], thicknesses: &mut [u8])
        requires tmax_le_q { (self.now.settings.tmax ≤ q) × (first * self.now.settings.tmax ≤ q - self.now.settings.tmax) }
        requires under { Under self.now.settings (rules_of self.now) q errors.old thicknesses.old }
        requires span { Span 0 (row_start self.now.settings.counts q) (self.now.settings.counts + 1) (λ m x. 0) thicknesses.old thicknesses.old }
        ensures { RowTo self.now.settings (rules_of self.now) q self.now.settings.tmax (self.now.settings.counts + 1) errors.old thicknesses.old errors.new thicknesses.new }
    {
        self.clear_errors(q, errors);
        for t in self.settings.tmin..self.settings.tmax + 1 {
            self.step_row(q, t, first, errors, thicknesses);
        }
    }

    // Fills both sheets: the rows at 0 or less, and then row by row.
    fn fill_sheets(&self, errors: &mut [u64], thicknesses: &mut [u8])
        requires { (self.now.settings.entries ≤ length errors.old) × (self.now.settings.entries ≤ length thicknesses.old) }
        ensures errors_after { errors.new ≡ planned_errors self.now.settings.height self.now.settings.members (rules_of self.now) errors.old }
        ensures thicknesses_after { thicknesses.new ≡ planned_thicknesses self.now.settings.height self.now.settings.members (rules_of self.now) thicknesses.old }
    {
        self.clear_thicknesses(thicknesses);
        self.start_rows(errors);
        let mut first = 0;
        for q in self.settings.tmax..self.settings.rows + 1 {
            first = self.raised(q, first);
            self.fill_row(q, first, errors, thicknesses);
        }
    }

    // The least error of the count n, from the error sheet that a plan of this work filled.
    fn least_error(&self, errors: &[u64], n: usize) -> u64
        requires planned { Planned self.now.settings (rules_of self.now) errors.now }
        requires count { n ≤ self.now.settings.counts }
        ensures { result ≡ mark (least_of (rules_of self.now) n) }
    {
        let s = self.settings;
        let end = least_end(
            errors,
            s.height as u16,
            s.tmax as u16,
            s.counts as u16,
            n as u16,
        );
        end.map_or(NONE, |least| least.error)
    }

    // The list of least errors, for the counts from 1.
    fn fill_list(&self, errors: &[u64], list: &mut [u64])
        requires planned { Planned self.now.settings (rules_of self.now) errors.now }
        requires has_room { self.now.settings.counts ≤ length list.old }
        ensures { list.new ≡ planned_list self.now.settings.height self.now.settings.members (rules_of self.now) list.old }
    {
        for i in 0..self.settings.counts {
            list[i] = self.least_error(errors, i + 1);
        }
    }
}

// Where the settings are in order: 3 (table, error sheet, thickness sheet, list), by the lengths of the last three, 7, 6.
fn check_rest(
    table: &[u32],
    head: Head,
    s: Settings,
    errors: usize,
    thicknesses: usize,
    list: usize,
) -> Result<Settings, Refusal>
    requires { SettingsFor head s }
    ensures { Judges result (plan_rest (held_in head table.now) errors thicknesses list) head.height head.members }
{
    if table.len() < s.cells {
        return Err(refusal_at(Reason::ShortBuffer, 1));
    }
    if errors < s.entries {
        return Err(refusal_at(Reason::ShortBuffer, 2));
    }
    if thicknesses < s.entries {
        return Err(refusal_at(Reason::ShortBuffer, 3));
    }
    if list < s.counts {
        return Err(refusal_at(Reason::ShortBuffer, 4));
    }
    check_table(table, head)
}

// 1, 2, 3, 7, 6.
fn check_plan(
    table: &[u32],
    head: Head,
    errors: usize,
    thicknesses: usize,
    list: usize,
) -> Result<Settings, Refusal>
    ensures { Judges result (plan_checks (held_in head table.now) errors thicknesses list) head.height head.members }
{
    let s = Settings::new(head.height, head.members)?;
    check_rest(table, head, s, errors, thicknesses, list)
}

// Document 01, 'Plan': 1, 2, 3 (table, error sheet, thickness sheet, list), 7, 6.
pub fn plan(
    table: &[u32],
    head: Head,
    bound: u32,
    errors: &mut [u64],
    thicknesses: &mut [u8],
    list: &mut [u64],
) -> Result<u64, Refusal>
    ensures { Does (planning (held_in head table.now) bound (sheets_in errors.entry thicknesses.entry list.entry)) (told result) (sheets_in errors.exit thicknesses.exit list.exit) }
{
    let settings = check_plan(table, head, errors.len(), thicknesses.len(), list.len())?;
    let work = Work {
        table,
        settings,
        bound,
    };
    work.fill_sheets(errors, thicknesses);
    work.fill_list(errors, list);
    Ok(settings.counts as u64)
}
