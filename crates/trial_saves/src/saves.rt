// A job file written into an output that holds marks before; and a job file read record by record, and written again from what was read.
use crate::memory::{Memory, lay, show_list, show_written};
use cases::{PAST, lend, part, show};
use job::{Asked, Cursor, Read, State};
use plate::refusal::Refusal;
use record::quad;
use save::{job_size, write_job};
use text::Page;

fn show_size(page: &mut Page<'_>, answer: Result<u64, Refusal>) {
    if let Some(size) = show::answer(page, answer) {
        show::done(page, size);
    }
}

fn save(
    page: &mut Page<'_>,
    asked: Asked,
    boundaries: &[u16],
    counts: &[u16],
    lent: usize,
    output: &mut [u8],
) {
    let answer = write_job(
        asked.height,
        asked.members,
        asked.bound,
        boundaries,
        counts,
        lend(output, lent),
    );
    show_size(page, answer);
    page.put_text(b"; size");
    show_size(page, job_size(counts));
    let marked = lent.saturating_add(PAST);
    match answer {
        Ok(size) => {
            show::kept(page, output, size as usize, marked);
            show_written(page, output, size as usize);
        }
        Err(_) => show::kept(page, output, 0, marked),
    }
}

// By eight numbers of four bytes each, and then boundaries and counts of two bytes each: the height, the members and the bound; how many
// boundaries, and how many counts, stand here; how many columns there are, and from which on the counts are theirs, the others having none;
// and the length of the output.
pub(crate) fn write(page: &mut Page<'_>, given: &[u8], memory: &mut Memory) {
    let asked = Asked {
        height: quad(given, 0),
        members: quad(given, 4),
        bound: quad(given, 8),
    };
    let together = quad(given, 12) as usize;
    let stated = quad(given, 16) as usize;
    let columns = quad(given, 20) as usize;
    let from = quad(given, 24) as usize;
    lay(&mut memory.boundaries, 0, together, given, 32);
    lay(&mut memory.counts, 0, columns, given, given.len());
    lay(&mut memory.counts, from, stated, given, 32 + 2 * together);
    save(
        page,
        asked,
        part(&memory.boundaries, 0, together),
        part(&memory.counts, 0, columns),
        quad(given, 28) as usize,
        &mut memory.output,
    );
}

// What was read of a file so far: its settings and bound, how many boundaries and columns, and how many remarks.
#[derive(Clone, Copy)]
struct Gathered {
    asked: Asked,
    together: usize,
    columns: usize,
    remarks: u32,
}

impl Gathered {
    fn none() -> Gathered {
        Gathered {
            asked: Asked {
                height: 0,
                members: 0,
                bound: 0,
            },
            together: 0,
            columns: 0,
            remarks: 0,
        }
    }

    // With a record more, whose boundaries and count are laid behind those before.
    fn with(mut self, read: Read, file: &[u8], memory: &mut Memory) -> Gathered {
        match read {
            Read::Settings(asked) => self.asked = asked,
            Read::Column { start, count } => {
                self.together = lay(&mut memory.boundaries, self.together, count, file, start);
                self.columns = lay_count(&mut memory.counts, self.columns, count);
            }
            Read::Remark => self.remarks = self.remarks.wrapping_add(1),
            _ => {}
        }
        self
    }
}

// Lays a count behind so many columns, and answers how many columns there are then.
fn lay_count(counts: &mut [u16], columns: usize, count: usize) -> usize {
    if columns < counts.len() && count < 65536 {
        counts[columns] = count as u16;
        return columns + 1;
    }
    columns
}

// A file has no more records than bytes; after the end record the end is read again, and nothing is gathered from that.
fn gather_all(file: &[u8], memory: &mut Memory) -> Gathered {
    let mut gathered = Gathered::none();
    let mut cursor = Cursor::new();
    let mut state = State::new();
    for _ in file {
        let step = cursor.read(file, state);
        gathered = gathered.with(step.read, file, memory);
        cursor = step.cursor;
        state = step.state;
    }
    gathered
}

fn show_gathered(page: &mut Page<'_>, gathered: Gathered, boundaries: &[u16], counts: &[u16]) {
    let asked = gathered.asked;
    page.put_text(b"; height");
    show::next(page, asked.height);
    page.put_text(b", members");
    show::next(page, asked.members);
    page.put_text(b", bound");
    show::next(page, asked.bound);
    page.put_text(b"; boundaries");
    show_list(page, boundaries);
    page.put_text(b"; counts");
    show_list(page, counts);
    page.put_text(b"; remarks");
    show::next(page, gathered.remarks);
}

// Reads a file, and writes what was read into an output of its length.
pub(crate) fn round(page: &mut Page<'_>, file: &[u8], memory: &mut Memory) {
    let gathered = gather_all(file, memory);
    let boundaries = part(&memory.boundaries, 0, gathered.together);
    let counts = part(&memory.counts, 0, gathered.columns);
    save(
        page,
        gathered.asked,
        boundaries,
        counts,
        file.len(),
        &mut memory.output,
    );
    show_gathered(page, gathered, boundaries, counts);
}
