// A job file read into a lent table: it is judged whole before the table is written.
#![tactic(auto)]

ghost use Rattle.std.specs.Prelude.{◌≡◌, ◌≤◌, length};
ghost use Rattle.std.proofs.Math.Option.{none};
ghost use Rattle.lists.specs.Checks.{first};
ghost use Rattle.paper.specs.Limits.{most_boundaries};
ghost use Rattle.paper.specs.Layer.{column_of};
ghost use Rattle.plate.specs.Settings.{settings_checks};
ghost use Rattle.plate.specs.Call.{Does};
ghost use Rattle.plate.specs.Head.{held_in};
ghost use Rattle.record.specs.Bytes.{words};
ghost use Rattle.adding.specs.Adding.{adding};
ghost use Rattle.job.specs.Record.{told_read};
ghost use Rattle.job.specs.File.{column_in};
ghost use Rattle.load.specs.Load.{is_large, front_of, job_of, loading};
ghost use Rattle.load.specs.Heeding.{Sane, Heeded, CanAdd, added_all, Seen, Surveyed, front_job, Cleared, filled_by};
ghost use Rattle.plate.specs.Refusal.{told};

use adding::add_column;
use column::MOST_BOUNDARIES;
use job::{Asked, Cursor, Read, State};
use plate::head::Head;
use plate::refusal::{Reason, Refusal, refusal_at};
use plate::settings::Settings;
use record::{check_tail, read_words};
use table::clear_table;

// What a read job answers: what goes with its table, and its bound.
#[derive(Clone, Copy)]
pub struct Load {
    pub head: Head,
    pub bound: u32,
}

// What a record that is not refused means for the file that it stands in: it is read on, or it is the end.
#[derive(Clone, Copy)]
pub enum Heed {
    Onward,
    Ended,
}

// What a look through the job at the front of the input finds: what it answers, and the place past it.
#[derive(Clone, Copy)]
pub struct Front {
    pub load: Load,
    pub past: usize,
}

// Whether a table or a sheet of these settings has more than so many entries.
fn is_large(asked: Asked, most: usize) -> bool
    requires { first (settings_checks asked.height asked.members) ≡ none }
    ensures { result ≡ is_large most asked }
{
    match Settings::new(asked.height, asked.members) {
        Err(_) => false,
        Ok(s) => most < s.cells || most < s.entries,
    }
}

// What the record at `at`, which was read, means for its file.
fn heed_of(read: Read, at: usize, most: usize) -> Result<Heed, Refusal>
    requires { Sane (told_read read) }
    ensures { Heeded result most at (told_read read) }
{
    match read {
        Read::Fault { reason, place } => Err(refusal_at(reason, place)),
        Read::End(_) => Ok(Heed::Ended),
        Read::Settings(asked) => {
            if is_large(asked, most) {
                return Err(refusal_at(Reason::TooLarge, at));
            }
            Ok(Heed::Onward)
        }
        Read::Column { .. } | Read::Remark => Ok(Heed::Onward),
    }
}

// Looks through the job at the front of the input and writes nothing.
fn look_through(input: &[u8], most: usize) -> Result<Front, Refusal>
    ensures { Surveyed result (front_of most input.now) }
{
    let mut cursor = Cursor::new();
    let mut state = State::new();
    // No index is counted here: what was read says where the reading goes on (document 01 asks for a cursor by value).
    loop {
        let at = cursor.at;
        let step = cursor.read(input, state);
        let heed = heed_of(step.read, at, most)?;
        cursor = step.cursor;
        state = step.state;
        if let Heed::Ended = heed {
            let load = Load {
                head: state.head,
                bound: state.bound,
            };
            return Ok(Front {
                load,
                past: cursor.at,
            });
        }
    }
}

// Adds the column that stands at `start`: its boundaries are put into `out`, which is as long as they are.
fn add_decoded(
    input: &[u8],
    start: usize,
    out: &mut [u16],
    head: Head,
    table: &mut [u32],
) -> Result<Head, Refusal>
    ensures { Does (adding (held_in head table.old) (column_of (words input.now start (length out.old)))) (told result) table.new }
{
    read_words(input, start, out);
    add_column(table, head, out)
}

// Adds the column of `count` boundaries at `start`.
fn add_at(
    input: &[u8],
    start: usize,
    count: usize,
    head: Head,
    table: &mut [u32],
) -> Result<Head, Refusal>
    requires { count ≤ most_boundaries }
    ensures { Does (adding (held_in head table.old) (column_of (words input.now start count))) (told result) table.new }
{
    let mut bounds = [0u16; MOST_BOUNDARIES];
    add_decoded(input, start, &mut bounds[..count], head, table)
}

// Adds what was read, where it is a column; it is never refused.
fn add_read(input: &[u8], read: Read, head: Head, table: &mut [u32])
    requires { CanAdd input.now head table.old (told_read read) }
    ensures { table.new ≡ added_all head (column_in input.now (told_read read)) table.old }
{
    if let Read::Column { start, count } = read {
        let _ = add_at(input, start, count, head, table);
    }
}

// Adds the columns of a job that was looked through to a table that was cleared.
fn fill(input: &[u8], most: usize, table: &mut [u32])
    requires { Cleared (front_of most input.now) table.old }
    ensures { table.new ≡ filled_by table.old (front_of most input.now) }
{
    let mut cursor = Cursor::new();
    let mut state = State::new();
    // No index is counted here: what was read says where the reading goes on (document 01 asks for a cursor by value).
    loop {
        let at = cursor.at;
        let step = cursor.read(input, state);
        let read = step.read;
        match heed_of(read, at, most) {
            Err(_) => return,
            Ok(Heed::Ended) => return,
            Ok(Heed::Onward) => add_read(input, read, state.head, table),
        }
        cursor = step.cursor;
        state = step.state;
    }
}

// The job at the front of the input was looked through, and answers this: 3, or the table.
fn load_front(input: &[u8], most: usize, load: Load, table: &mut [u32]) -> Result<Load, Refusal>
    requires { Seen (front_of most input.now) load }
    ensures { Does (loading table.old (front_job (front_of most input.now))) (told result) table.new }
{
    let head = load.head;
    clear_table(table, head.height, head.members)?;
    fill(input, most, table);
    Ok(load)
}

// Reads a job file into a lent table: the file's refusals in its own order, with 17 straight after 1 and 2 where a table or a sheet of its
// settings has more than `most` entries; then 3. The file is judged whole before the table is written.
pub fn read_job(input: &[u8], most: usize, table: &mut [u32]) -> Result<Load, Refusal>
    ensures { Does (loading table.old (job_of most input.now)) (told result) table.new }
{
    let front = look_through(input, most)?;
    check_tail(input, front.past)?;
    load_front(input, most, front.load, table)
}
