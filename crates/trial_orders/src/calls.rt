// An order that is read of a file, a sequence whose orders are written, and orders that are written and read back. What is given of a case begins
// with numbers of four bytes each: the height, the members, the step and the length of the list of times; then others.
use crate::numbers;
use crate::show::{order, print};
use cases::{change, lend, part, show};
use orders::{read_order, write_orders};
use record::quad;
use text::Page;

// Memory that is lent: times for each thickness, the boundaries of a sequence, and an output.
#[derive(Drop)]
pub(crate) struct Memory {
    pub(crate) cure: [u16; 256],
    pub(crate) sequence: [i32; 1024],
    pub(crate) output: [u8; 16384],
}

fn show_order(page: &mut Page<'_>, given: &[u8], cure: &[u16], file: &[u8], number: u32) {
    let answer = read_order(
        quad(given, 0),
        quad(given, 4),
        quad(given, 8),
        cure,
        file,
        number,
    );
    if let Some(read) = show::answer(page, answer) {
        order(page, read);
    }
}

// By the number of the order; then the times, and the file.
pub(crate) fn read(page: &mut Page<'_>, given: &[u8], memory: &mut Memory) {
    let times = quad(given, 12) as usize;
    numbers::lay_times(&mut memory.cure, times, given, 20);
    let file = part(given, 20 + 2 * times, given.len());
    show_order(
        page,
        given,
        part(&memory.cure, 0, times),
        file,
        quad(given, 16),
    );
}

fn written(page: &mut Page<'_>, given: &[u8], cure: &[u16], sequence: &[i32], output: &mut [u8]) {
    let lent = quad(given, 20) as usize;
    let answer = write_orders(
        quad(given, 0),
        quad(given, 4),
        quad(given, 8),
        cure,
        sequence,
        lend(output, lent),
    );
    if let Some(size) = show::answer(page, answer) {
        show::done(page, size);
    }
    show::left(page, output, lent, answer.ok().map(|size| size as usize));
}

// By the number of boundaries and the length of the output; then, from a place on, the times and the boundaries.
fn write_given(page: &mut Page<'_>, given: &[u8], from: usize, memory: &mut Memory) {
    let times = quad(given, 12) as usize;
    let count = quad(given, 16) as usize;
    numbers::lay_times(&mut memory.cure, times, given, from);
    let after = from.wrapping_add(2 * times);
    let stated = part(given, after, given.len());
    numbers::lay(&mut memory.sequence, count, stated);
    written(
        page,
        given,
        part(&memory.cure, 0, times),
        part(&memory.sequence, 0, count),
        &mut memory.output,
    );
}

pub(crate) fn write(page: &mut Page<'_>, given: &[u8], memory: &mut Memory) {
    write_given(page, given, 24, memory);
}

// The orders of a file whose numbers are asked for, of four bytes each.
fn read_all(room: &mut [u8], given: &[u8], asked: &[u8], cure: &[u16], file: &[u8]) {
    for number in asked.chunks_exact(4) {
        let number = quad(number, 0);
        let mut page = Page::new(room, 0);
        page.put_text(b";");
        show::next(&mut page, number);
        page.put_text(b":");
        show_order(&mut page, given, cure, file, number);
        let end = page.written();
        print(part(room, 0, end));
    }
}

// With three numbers more: how long the file is that is read back, which byte of it is changed before, and to what; and behind the boundaries the
// numbers of the orders that are read.
pub(crate) fn round(page: &mut Page<'_>, given: &[u8], memory: &mut Memory) {
    write_given(page, given, 36, memory);
    change(
        &mut memory.output,
        quad(given, 28) as usize,
        (quad(given, 32) % 256) as u8,
    );
    page.put_text(b"; back");
}

// Of such a case, once its page is printed.
pub(crate) fn read_back(room: &mut [u8], given: &[u8], memory: &Memory) {
    let times = quad(given, 12) as usize;
    let count = quad(given, 16) as usize;
    let asked = part(given, 36 + 2 * times + 4 * count, given.len());
    let file = part(&memory.output, 0, quad(given, 24) as usize);
    read_all(room, given, asked, part(&memory.cure, 0, times), file);
}
