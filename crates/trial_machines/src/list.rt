// The list of cases, a line each: a label, a colon, and what the case is given: the bound in four bytes, and then the steps.
use crate::plans::show_plan;
use crate::show;
use crate::steps::Work;
use cases::{Lines, given, label, part};
use record::quad;
use text::Page;

// A page has room for what any case puts on it: up to 1364 steps of at most 70 bytes, since each is given in 3 or more of 4096, a table of 128 cells
// in fewer than 2000 bytes, and a plan of up to 24 counts, each with at most 24 boundaries, in fewer than 8000.
const ROOM: usize = 131072;

// The steps, the table that they leave and, where none was refused, its plan under the bound.
fn take(page: &mut Page, given: &[u8], work: &mut Work) {
    let bound = quad(given, 0);
    page.put_text(b" bound");
    show::next(page, bound);
    let taken = work.take_steps(page, given);
    show::table(page, work.head, &work.table);
    if taken.is_some() {
        show_plan(page, work.head, bound, &work.table);
    }
}

// The label is printed by itself, since it may be as long as the list.
fn case(line: &[u8], work: &mut Work, held: &mut [u8], room: &mut [u8]) {
    show::print(label(line));
    show::print(b":");
    let mut page = Page::new(room, 0);
    take(&mut page, given(line, held), work);
    let end = page.written();
    show::print(part(room, 0, end));
    show::print(b"\n");
}

// Each case works on the tables as the one before left them. What a case is given and its page are each laid over those of the case before.
pub(crate) fn run(list: &[u8]) {
    let mut work = Work::new();
    let mut held = [0u8; 4096];
    let mut room = [0u8; ROOM];
    for line in Lines::of(list) {
        case(line, &mut work, &mut held, &mut room);
    }
}
