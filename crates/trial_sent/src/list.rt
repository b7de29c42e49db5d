// The list of cases, a line each: a label, a colon, and bytes in hexadecimal, which are what the case is given. A dot is a byte of 0, as most
// are; spaces are for the reader.
use crate::calls;
use crate::calls::Memory;
use cases::{Lines, STDOUT, given, label, letter, part};
use text::Page;

// The most that a case is given.
const GIVEN: usize = 16384;

// Above the most that a case puts on its page. A read of a file into a table: 64 bytes for what goes with it or 35 for a refusal, 56 for the
// marks that are kept, and 11,007 for 1,000 cells. A table that is written: 35, 56, and 2,008 for 1,000 bytes. A case has one of each at most,
// and 7 bytes between them: 13,233.
const ROOM: usize = 16384;

fn print(words: &[u8]) {
    io::write_all(STDOUT, words);
}

// By the second letter of a label.
fn case(page: &mut Page<'_>, line: &[u8], given: &[u8], memory: &mut Memory) {
    match letter(line, 1) {
        b'e' => calls::read(page, given, memory),
        b'o' => calls::round(page, given, memory),
        _ => calls::write(page, given, memory),
    }
}

// What a case puts on its page is printed when it is done. A label has no bound, and so goes on no page.
fn print_case(line: &[u8], held: &mut [u8], memory: &mut Memory, room: &mut [u8]) {
    print(label(line));
    print(b":");
    let mut page = Page::new(room, 0);
    case(&mut page, line, given(line, held), memory);
    let end = page.written();
    print(part(room, 0, end));
    print(b"\n");
}

pub(crate) fn run(list: &[u8]) {
    let mut memory = Memory {
        table: [0; 18400],
        output: [0; 77100],
    };
    let mut held = [0; GIVEN];
    let mut room = [0; ROOM];
    for line in Lines::of(list) {
        print_case(line, &mut held, &mut memory, &mut room);
    }
}
