// The list of cases, a line each: a label, a colon, and bytes in hexadecimal, which are what the case is given. A dot is a byte of 0, as most
// are; spaces are for the reader.
use crate::calls;
use crate::calls::Memory;
use crate::show::print;
use cases::{Lines, given, label, letter, part};
use text::Page;

// The most that a case is given.
const GIVEN: usize = 16384;

// Above the most that stands on a page. What is written: 35 bytes for a refusal, 56 for the marks that are kept, 2,008 for 1,000 bytes, and 6
// where orders are read back: 2,105. An order: 48 with its number.
const ROOM: usize = 4096;

// By the second letter of a label.
fn case(page: &mut Page<'_>, line: &[u8], given: &[u8], memory: &mut Memory) {
    match letter(line, 1) {
        b'e' => calls::read(page, given, memory),
        b'o' => calls::round(page, given, memory),
        _ => calls::write(page, given, memory),
    }
}

// What a case puts on its page is printed when it is done. A label has no bound, and so goes on no page; and the orders that are read back may
// be as many as their numbers have room in the line, so that each has a page of its own.
fn print_case(line: &[u8], held: &mut [u8], memory: &mut Memory, room: &mut [u8]) {
    print(label(line));
    print(b":");
    let given = given(line, held);
    let mut page = Page::new(room, 0);
    case(&mut page, line, given, memory);
    let end = page.written();
    print(part(room, 0, end));
    if letter(line, 1) == b'o' {
        calls::read_back(room, given, memory);
    }
    print(b"\n");
}

pub(crate) fn run(list: &[u8]) {
    let mut memory = Memory {
        cure: [0; 256],
        sequence: [0; 1024],
        output: [0; 16384],
    };
    let mut held = [0; GIVEN];
    let mut room = [0; ROOM];
    for line in Lines::of(list) {
        print_case(line, &mut held, &mut memory, &mut room);
    }
}
