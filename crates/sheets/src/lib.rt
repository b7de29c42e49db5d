// What planning, reading back and recounting share: which heights are starts, whether a layer has the shape of one, where an entry of a sheet
// stands, the entry that stands for none, and the least of some entries.
#![tactic(auto)]

ghost use Rattle.std.specs.Prelude.{◌≡◌, ◌-◌, ◌<◌, get_or};
ghost use Rattle.paper.specs.Sheets.{entry_index, missing};
ghost use Rattle.plate.specs.Datum.{row_of, at_row};
ghost use Rattle.sequence.specs.Rules.{shape};
ghost use Rattle.sequence.specs.Sequence.{starts};
ghost use Rattle.sheets.specs.Entries.{least_from, least_end};
ghost use Rattle.sheets.specs.Least.{IsLeast};

use plate::settings::is_allowed;

// The entry that stands for none. A sheet is memory that a caller in C lends, and document 01 says what its entries hold, so an entry is no Option.
pub const NONE: u64 = u64::MAX;

// The least of some entries, and the lowest place among them that has it.
#[derive(Clone, Copy)]
pub struct Least {
    pub error: u64,
    pub place: usize,
}

// Where the entry of a row and a count m stands in a sheet of counts up to `most`.
pub fn entry_index(most: u32, row: u32, m: u32) -> usize
    ensures { result ≡ entry_index most row m }
{
    row as usize * (most as usize + 1) + m as usize
}

// The row of a height, and 0 under the lowest.
pub fn row_of(tmax: u32, h: u32) -> usize
    ensures { result ≡ row_of tmax h }
{
    (h as usize + tmax as usize).saturating_sub(33)
}

// The height of a row.
pub fn at_row(tmax: u32, row: u32) -> usize
    ensures { result ≡ at_row tmax row }
{
    (row as usize + 33).saturating_sub(tmax as usize)
}

// Whether a height is a start.
#[tactic(auto, unfolding(sequence::specs::Sequence::starts))]
pub fn is_start(tmax: usize, h: usize) -> bool
    ensures { result ≡ starts tmax h }
{
    if 32 < h {
        return false;
    }
    32 - h < tmax
}

// Whether a layer of thickness t that ends at a row has the shape of one: asked by the row, whose height need not be found for each thickness. A row
// is so far above -tmax, less 1, so that it ends above 0 past tmax, and starts below N under N + tmax + t. The numbers are as narrow as settings
// allow, so that no sum overflows.
pub fn is_layer(height: u16, members: u32, tmax: u16, row: u32, t: usize) -> bool
    ensures { result ≡ shape height members (at_row tmax row - t) t }
{
    if !is_allowed(members, t) {
        return false;
    }
    let end = row as usize + 1;
    if end <= tmax as usize {
        return false;
    }
    end < height as usize + tmax as usize + t
}

// The entry at a place, and NONE past the sheet's end.
fn entry_at(errors: &[u64], at: usize) -> u64
    ensures { result ≡ get_or errors.now at missing }
{
    errors.get(at).copied().unwrap_or(NONE)
}

// The least of the `many` entries at `from`, `from` + `apart` and so on.
fn least_entry(errors: &[u64], from: usize, apart: u32, many: u16) -> Option<Least>
    requires { from < 8589934592 }
    ensures { IsLeast result (least_from errors.now from apart many) }
{
    let mut least: Option<Least> = None;
    for place in 0..usize::from(many) {
        let error = entry_at(errors, from + place * apart as usize);
        if error < least.map_or(NONE, |best| best.error) {
            least = Some(Least { error, place });
        }
    }
    least
}

// The least entry of the count n at the end heights, in a sheet of counts up to `most`.
pub fn least_end(errors: &[u64], height: u16, tmax: u16, most: u16, n: u16) -> Option<Least>
    ensures { IsLeast result (least_end errors.now height tmax most n) }
{
    let row = (u32::from(height) + u32::from(tmax)).saturating_sub(1);
    let from = entry_index(u32::from(most), row, u32::from(n));
    least_entry(errors, from, u32::from(most) + 1, tmax)
}
