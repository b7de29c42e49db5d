// Saving a plate: settings, a bound and columns, which come as one run of boundaries and one count for each column, written as a job file.
#![tactic(auto)]

ghost use Rattle.std.specs.Prelude.{◌≡◌, ◌+◌, ◌*◌, ◌≤◌, length};
ghost use Rattle.std.proofs.Math.Option.{none};
ghost use Rattle.std.proofs.lemmas.List.Edits.{sets};
ghost use Rattle.lists.specs.Checks.{first};
ghost use Rattle.paper.specs.Limits.{greatest_height, most_boundaries, most_columns};
ghost use Rattle.paper.specs.Layer.{column_of};
ghost use Rattle.plate.specs.Call.{Does};
ghost use Rattle.plate.specs.Refusal.{said_by, told, decided};
ghost use Rattle.plate.specs.Settings.{settings_checks};
ghost use Rattle.job.specs.Written.{settings_record, column_record, column_records, end_record, written};
ghost use Rattle.save.specs.Runs.{total, columns_in, file_size};
ghost use Rattle.save.specs.Writing.{found_below, first_disordered, count_checks, run_checks, writing, size_answer};

use column::{check_column, is_wrong_count};
use job::{Asked, Kind};
use plate::head::Head;
use plate::refusal::{Reason, Refusal, refusal_at};
use plate::settings::Settings;
use record::write_numbers;

// 7 and 4, or how many boundaries the columns have together. The sum cannot overflow: a million counts of 16 bits are under 2^36.
fn tally(counts: &[u16]) -> Result<u64, Refusal>
    ensures { told result ≡ decided (count_checks counts.now) (total counts.now) }
{
    if (Head::MOST_COLUMNS as usize) < counts.len() {
        return Err(refusal_at(Reason::Columns, 0));
    }
    let mut sum: u64 = 0;
    for (k, count) in counts.iter().enumerate() {
        if is_wrong_count(usize::from(*count)) {
            return Err(refusal_at(Reason::BoundaryCount, k));
        }
        sum += u64::from(*count);
    }
    Ok(sum)
}

// The length of the file of so many columns with so many boundaries together: 14 bytes of settings, 4 for each column, 2 for each boundary, and
// 8 of the end.
fn size_of(columns: usize, together: u64) -> u64
    requires columns_le_most_columns { columns ≤ most_columns }
    requires together_bound { together ≤ most_boundaries * most_columns }
    ensures { result ≡ 22 + 4 * columns + 2 * together }
{
    22 + 4 * columns as u64 + 2 * together
}

// The length of the file of columns with these counts, which is the length to lend: 7, 4.
pub fn job_size(counts: &[u16]) -> Result<u64, Refusal>
    ensures { told result ≡ size_answer counts.now }
{
    let together = tally(counts)?;
    Ok(size_of(counts.len(), together))
}

// The first column whose boundaries are out of order.
fn first_disordered(height: usize, run: &[u16], counts: &[u16]) -> Option<usize>
    requires none_value { none ≡ first (count_checks counts.now) }
    requires counts_in_bounds { total counts.now ≤ length run.now }
    ensures { result ≡ found_below (first_disordered height (columns_in counts.now run.now)) (length counts.now) }
{
    let mut start: usize = 0;
    for (k, count) in counts.iter().enumerate() {
        let end = start + usize::from(*count);
        if check_column(&run[start..end], height).is_err() {
            return Some(k);
        }
        start = end;
    }
    None
}

// 3 for the run, 5, and 3 for the output, by the counts' sum and the file's length.
fn check_run(
    height: usize,
    run: &[u16],
    counts: &[u16],
    together: u64,
    size: u64,
    room: usize,
) -> Result<(), Refusal>
    requires none_value { none ≡ first (count_checks counts.now) }
    requires together_value { (together ≡ total counts.now) × (size ≡ file_size counts.now) }
    ensures { said_by result ≡ first (run_checks height run.now counts.now room) }
{
    if (run.len() as u64) < together {
        return Err(refusal_at(Reason::ShortBuffer, 1));
    }
    if let Some(k) = first_disordered(height, run, counts) {
        return Err(refusal_at(Reason::Boundary, k));
    }
    if (room as u64) < size {
        return Err(refusal_at(Reason::ShortBuffer, 2));
    }
    Ok(())
}

// The record of a column.
fn write_column(out: &mut [u8], at: usize, column: &[u16])
    requires column_len_bound { length column.now ≤ most_boundaries }
    requires column_in_bounds { at + 4 + 2 * length column.now ≤ length out.old }
    ensures { out.new ≡ sets out.old at (column_record (column_of column.now)) }
{
    let head = [2 * column.len() as u16, Kind::COLUMN];
    write_numbers(out, at, &head);
    write_numbers(out, at + 4, column);
}

// The records of all columns.
fn write_columns(out: &mut [u8], at: usize, run: &[u16], counts: &[u16])
    requires none_value { none ≡ first (count_checks counts.now) }
    requires counts_in_bounds { total counts.now ≤ length run.now }
    requires counts_in_bounds_2 { at + 4 * length counts.now + 2 * total counts.now ≤ length out.old }
    ensures { out.new ≡ sets out.old at (column_records (columns_in counts.now run.now)) }
{
    let mut start: usize = 0;
    let mut next = at;
    for count in counts {
        let end = start + usize::from(*count);
        write_column(out, next, &run[start..end]);
        next += 4 + 2 * (end - start);
        start = end;
    }
}

// The settings record. A number of four bytes is written as two of two, the lower first.
fn write_settings(out: &mut [u8], asked: Asked)
    requires { (asked.height ≤ greatest_height) × (14 ≤ length out.old) }
    ensures { out.new ≡ sets out.old 0 (settings_record asked) }
{
    let numbers = [
        10,
        Kind::SETTINGS,
        asked.height as u16,
        (asked.members % 65536) as u16,
        (asked.members / 65536) as u16,
        (asked.bound % 65536) as u16,
        (asked.bound / 65536) as u16,
    ];
    write_numbers(out, 0, &numbers);
}

// The end record.
fn write_end(out: &mut [u8], at: usize, columns: usize)
    requires { (columns ≤ most_columns) × (at + 8 ≤ length out.old) }
    ensures { out.new ≡ sets out.old at (end_record columns) }
{
    let numbers = [
        4,
        Kind::END,
        (columns % 65536) as u16,
        (columns / 65536) as u16,
    ];
    write_numbers(out, at, &numbers);
}

// The whole file, whose length is `size`.
fn write_file(asked: Asked, run: &[u16], counts: &[u16], size: usize, out: &mut [u8])
    requires height_le_greatest_height { asked.height ≤ greatest_height }
    requires none_value { none ≡ first (count_checks counts.now) }
    requires counts_in_bounds { total counts.now ≤ length run.now }
    requires size_value { (size ≡ file_size counts.now) × (size ≤ length out.old) }
    ensures { out.new ≡ sets out.old 0 (written (record { asked = asked; columns = columns_in counts.now run.now })) }
{
    write_settings(out, asked);
    write_columns(out, 14, run, counts);
    write_end(out, size - 8, counts.len());
}

// 3 for the run, 5, and 3 for the output; or the file, and its length.
fn write_run(
    asked: Asked,
    run: &[u16],
    counts: &[u16],
    together: u64,
    out: &mut [u8],
) -> Result<u64, Refusal>
    requires none_value { none ≡ first (settings_checks asked.height asked.members) }
    requires none_value_2 { none ≡ first (count_checks counts.now) }
    requires together_value { together ≡ total counts.now }
    ensures { Does (writing asked.height asked.members asked.bound run.now counts.now out.old) (told result) out.new }
{
    let size = size_of(counts.len(), together);
    check_run(
        asked.height as usize,
        run,
        counts,
        together,
        size,
        out.len(),
    )?;
    write_file(asked, run, counts, size as usize, out);
    Ok(size)
}

// Document 02 a), the writer of job files: 1, 2, 7, 4, 3, 5, 3.
pub fn write_job(
    height: u32,
    members: u32,
    bound: u32,
    boundaries: &[u16],
    counts: &[u16],
    out: &mut [u8],
) -> Result<u64, Refusal>
    ensures { Does (writing height members bound boundaries.now counts.now out.old) (told result) out.new }
{
    Settings::new(height, members)?;
    let together = tally(counts)?;
    let asked = Asked {
        height,
        members,
        bound,
    };
    write_run(asked, boundaries, counts, together, out)
}
