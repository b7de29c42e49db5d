// The list of cases, a line each: a label, a colon, and bytes in hexadecimal. A label that begins with `r` is that of a job file that is read
// and written again, and the bytes are the file; any other is that of a call, and the bytes are what it is given. Spaces are for the reader.
use crate::memory::Memory;
use crate::saves;
use cases::{Lines, STDOUT, given, label, letter, part};
use text::Page;

// The most that a case is given.
const GIVEN: usize = 512;

// Above the most that a case puts on its page. What is written: two answers of 35 bytes at most with 6 between them, 56 for the marks that are
// kept, and 2,008 for 1,000 bytes. What was read of a file: 1,536 for 256 boundaries, 3,072 for a count for each of its 512 bytes, and 97 for
// the rest. In all 6,845.
const ROOM: usize = 16384;

fn print(words: &[u8]) {
    io::write_all(STDOUT, words);
}

fn case(page: &mut Page<'_>, line: &[u8], given: &[u8], memory: &mut Memory) {
    match letter(line, 0) {
        b'r' => saves::round(page, given, memory),
        _ => saves::write(page, given, memory),
    }
}

// What a case puts on its page is printed when it is done. A label has no bound, and so goes on no page.
fn print_case(line: &[u8], held: &mut [u8], memory: &mut Memory, room: &mut [u8]) {
    print(label(line));
    print(b":");
    let mut page = Page::new(room, 0);
    case(&mut page, line, given(line, held), memory);
    let end = page.written();
    print(part(room, 0, end));
    print(b"\n");
}

pub(crate) fn run(list: &[u8]) {
    let mut memory = Memory {
        boundaries: [0; 256],
        counts: [0; 1000001],
        output: [0; 4000200],
    };
    let mut held = [0; GIVEN];
    let mut room = [0; ROOM];
    for line in Lines::of(list) {
        print_case(line, &mut held, &mut memory, &mut room);
    }
}
