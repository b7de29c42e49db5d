// A table file that is read and written again, a table that is written, and a table that is written and read back. What is given of a case
// begins with numbers of four bytes each.
use crate::cells;
use cases::{change, lend, part, show};
use plate::head::Head;
use plate::refusal::Refusal;
use receive::read_table;
use record::quad;
use send::write_table;
use text::Page;

// Memory that is lent.
#[derive(Drop)]
pub(crate) struct Memory {
    pub(crate) table: [u32; 18400],
    pub(crate) output: [u8; 77100],
}

fn show_head(page: &mut Page<'_>, head: Head) {
    page.put_text(b" done,");
    show::head(page, head);
}

// Reads a file into a table, and shows as many cells as the list says that it has.
fn received(
    page: &mut Page<'_>,
    file: &[u8],
    lent: usize,
    size: usize,
    table: &mut [u32],
) -> Result<Head, Refusal> {
    let answer = read_table(file, lend(table, lent));
    if let Some(head) = show::answer(page, answer) {
        show_head(page, head);
    }
    show::left(page, table, lent, answer.ok().map(|_| size));
    answer
}

// Writes a table into an output.
fn sent(page: &mut Page<'_>, head: Head, table: &[u32], lent: usize, output: &mut [u8]) {
    let answer = write_table(table, head, lend(output, lent));
    if let Some(size) = show::answer(page, answer) {
        show::done(page, size);
    }
    show::left(page, output, lent, answer.ok().map(|size| size as usize));
}

// By the length of the lent table and the number of the file's cells; then the file. What was read is written again, into an output of the
// file's length.
pub(crate) fn read(page: &mut Page<'_>, given: &[u8], memory: &mut Memory) {
    let lent = quad(given, 0) as usize;
    let file = part(given, 8, given.len());
    let answer = received(page, file, lent, quad(given, 4) as usize, &mut memory.table);
    if let Ok(head) = answer {
        page.put_text(b"; again");
        sent(
            page,
            head,
            part(&memory.table, 0, lent),
            file.len(),
            &mut memory.output,
        );
    }
}

// By what goes with the table, the lengths of the lent table and output, and the width of the rows that no cells are given for; then cells, from
// a place on.
fn send_given(page: &mut Page<'_>, given: &[u8], from: usize, memory: &mut Memory) {
    let head = Head {
        height: quad(given, 0),
        members: quad(given, 4),
        columns: quad(given, 8),
    };
    let lent = quad(given, 12) as usize;
    let stated = part(given, from, given.len());
    cells::lay(&mut memory.table, lent, stated, quad(given, 20) as usize);
    sent(
        page,
        head,
        part(&memory.table, 0, lent),
        quad(given, 16) as usize,
        &mut memory.output,
    );
}

pub(crate) fn write(page: &mut Page<'_>, given: &[u8], memory: &mut Memory) {
    send_given(page, given, 24, memory);
}

// With five numbers more: how long the file is that is read back, which byte of it is changed before, and to what; the length of the table that
// is lent then, and the number of the file's cells.
pub(crate) fn round(page: &mut Page<'_>, given: &[u8], memory: &mut Memory) {
    send_given(page, given, 44, memory);
    change(
        &mut memory.output,
        quad(given, 28) as usize,
        (quad(given, 32) % 256) as u8,
    );
    page.put_text(b"; back");
    let _ = received(
        page,
        part(&memory.output, 0, quad(given, 24) as usize),
        quad(given, 36) as usize,
        quad(given, 40) as usize,
        &mut memory.table,
    );
}
