// What the planning program prints for a job file. The functions above `plan_job` lay a text into a page, as far as its buffer goes.
#![tactic(auto)]

ghost use Rattle.std.specs.Prelude.{◌≡◌, ◌+◌, ◌≤◌, ◌<◌, length, take};
ghost use Rattle.paper.specs.Sequence.{◌!◌};
ghost use Rattle.plate.specs.Refusal.{number_of};
ghost use Rattle.text.specs.Page.{lay};
ghost use Rattle.plan.specs.Plan.{sheets_of};
ghost use Rattle.load.specs.Load.{job_of};
ghost use Rattle.report.specs.Lines.{most, most_text, refused_line, head_line, boundary_text, boundaries_text, none_line, sequence_line, count_lines, job_text};
ghost use Rattle.report.specs.Prints.{Prints};
ghost use Rattle.report.specs.Work.{blank_sequence, blank_sheets, sheet_line, sheets_text, planned_text, file_text};

use load::{Load, read_job};
use plan::plan;
use plate::head::Head;
use plate::refusal::Refusal;
use readback::read_back;
use text::Page;

// The most bytes of a job, and entries of its table and of each of its sheets.
const MOST: usize = 4096;

fn put_refused(page: &mut Page<'_>, number: u32, place: u64)
    ensures { page.new ≡ lay (refused_line number place) page.old }
{
    page.put_text(b"refused ");
    page.put_number(number as u64);
    page.put_text(b" at ");
    page.put_number(place);
    page.put_text(b"\n");
}

fn put_refusal(page: &mut Page<'_>, refusal: Refusal)
    ensures { page.new ≡ lay (refused_line (number_of refusal.reason) refusal.place) page.old }
{
    put_refused(page, refusal.reason.number(), refusal.place);
}

fn put_head(page: &mut Page<'_>, height: u32, columns: u32, counts: u64)
    ensures { page.new ≡ lay (head_line height columns counts) page.old }
{
    page.put_text(b"height ");
    page.put_number(height as u64);
    page.put_text(b" columns ");
    page.put_number(columns as u64);
    page.put_text(b" counts ");
    page.put_number(counts);
    page.put_text(b"\n");
}

// Boundary i, after a space.
fn put_boundary(page: &mut Page<'_>, sequence: &[i32], i: usize)
    requires { i < length sequence.now }
    ensures { page.new ≡ lay (boundary_text (sequence.now ! i)) page.old }
{
    page.put_text(b" ");
    page.put_signed(sequence[i]);
}

// The first `count` of these boundaries.
fn put_boundaries(page: &mut Page<'_>, sequence: &[i32], count: usize)
    requires { count ≤ length sequence.now }
    ensures { page.new ≡ lay (boundaries_text (take count sequence.now)) page.old }
{
    for i in 0..count {
        put_boundary(page, sequence, i);
    }
}

fn put_none(page: &mut Page<'_>, n: u32)
    ensures { page.new ≡ lay (none_line n) page.old }
{
    page.put_number(n as u64);
    page.put_text(b" none\n");
}

fn put_sequence(page: &mut Page<'_>, n: u32, error: u64, sequence: &[i32])
    requires { n < length sequence.now }
    ensures { page.new ≡ lay (sequence_line n error (take (n + 1) sequence.now)) page.old }
{
    page.put_number(n as u64);
    page.put_text(b" ");
    page.put_number(error);
    put_boundaries(page, sequence, n as usize + 1);
    page.put_text(b"\n");
}

// The line of a count from 1 to M: read back into `sequence`, and put.
fn put_read(
    page: &mut Page<'_>,
    height: u32,
    members: u32,
    errors: &[u64],
    thicknesses: &[u8],
    n: u32,
    sequence: &mut [i32],
)
    requires { n < length sequence.old }
    ensures { page.new ≡ lay (sheet_line height members errors.now thicknesses.now sequence.old n) page.old }
{
    match read_back(height, members, errors, thicknesses, n, sequence) {
        Ok(error) => put_sequence(page, n, error, sequence),
        Err(_) => put_none(page, n),
    }
}

fn put_count(
    page: &mut Page<'_>,
    height: u32,
    members: u32,
    errors: &[u64],
    thicknesses: &[u8],
    n: u32,
)
    requires { n < 64 }
    ensures { page.new ≡ lay (sheet_line height members errors.now thicknesses.now blank_sequence n) page.old }
{
    let mut sequence = [0i32; 64];
    put_read(page, height, members, errors, thicknesses, n, &mut sequence);
}

// The lines of the counts from 1 on.
fn put_counts(
    page: &mut Page<'_>,
    height: u32,
    members: u32,
    errors: &[u64],
    thicknesses: &[u8],
    counts: u32,
)
    requires { counts < 64 }
    ensures { page.new ≡ lay (count_lines (sheet_line height members errors.now thicknesses.now blank_sequence) 0 counts) page.old }
{
    for n in 0..counts {
        put_count(page, height, members, errors, thicknesses, n + 1);
    }
}

// All lines of a plate, from its sheets.
fn put_sheets(page: &mut Page<'_>, head: Head, counts: u32, errors: &[u64], thicknesses: &[u8])
    requires { counts < 64 }
    ensures { page.new ≡ lay (sheets_text head counts errors.now thicknesses.now) page.old }
{
    put_head(page, head.height, head.columns, counts as u64);
    put_counts(page, head.height, head.members, errors, thicknesses, counts);
}

// The text of a job whose table was read: planned in these buffers, of which the list has room for 63 counts.
fn put_plan(
    page: &mut Page<'_>,
    load: Load,
    table: &[u32],
    errors: &mut [u64],
    thicknesses: &mut [u8],
    list: &mut [u64],
)
    requires { length list.old ≤ 63 }
    ensures { page.new ≡ lay (planned_text load table.now (sheets_of errors.old thicknesses.old list.old)) page.old }
{
    let head = load.head;
    match plan(table, head, load.bound, errors, thicknesses, list) {
        Err(refusal) => put_refusal(page, refusal),
        Ok(counts) => put_sheets(page, head, counts as u32, errors, thicknesses),
    }
}

fn put_load(page: &mut Page<'_>, load: Load, table: &[u32])
    ensures { page.new ≡ lay (planned_text load table.now blank_sheets) page.old }
{
    let mut errors = [0u64; MOST];
    let mut thicknesses = [0u8; MOST];
    let mut list = [0u64; 63];
    put_plan(page, load, table, &mut errors, &mut thicknesses, &mut list);
}

// The text of a file that is read into this table.
fn put_file(input: &[u8], page: &mut Page<'_>, table: &mut [u32])
    ensures { page.new ≡ lay (file_text (job_of most input.now) table.old) page.old }
{
    match read_job(input, MOST, table) {
        Err(refusal) => put_refusal(page, refusal),
        Ok(load) => put_load(page, load, table),
    }
}

// The text of any file.
fn put_job(input: &[u8], page: &mut Page<'_>)
    ensures { (page.new ≡ lay (job_text (job_of most input.now)) page.old) × (length (job_text (job_of most input.now)) ≤ most_text) }
{
    let mut table = [0u32; MOST];
    put_file(input, page, &mut table);
}

// What the planning program prints for the job whose first `count` bytes stand in `input`, all of it, laid into `text`; answers how many bytes
// it is. The input has room for one byte more than a job may have, so that a longer one is seen to be longer, and the text for the longest.
pub fn plan_job(input: &[u8; 4097], count: usize, text: &mut [u8; 131072]) -> usize
    ensures { Prints input.now count text.old result text.new }
{
    let all: &[u8] = input;
    let mut page = Page::new(text, 0);
    let too_long = MOST < count;
    if too_long {
        put_refused(&mut page, 17, 0);
        return page.written();
    }
    put_job(&all[..count], &mut page);
    page.written()
}
