// The list of cases, a line each: a label, a colon, numbers, a semicolon, and the bytes of the input. A label that begins with `f` is that of
// a file, with `w` that of a file for a table which is long enough, any other that of a record. The numbers are decimal, with a comma between
// them; the bytes are hexadecimal. Words among the numbers and spaces are for the reader.
use crate::show::{ROOM, print, print_page};
use crate::{files, records};
use cases::{Lines, find, lay, letter, part};
use text::Page;

// A number with one digit more, and the greatest where that is too great; any other character changes nothing.
fn longer(number: u64, character: u8) -> u64 {
    match character {
        b'0'..=b'9' if number < u64::MAX / 10 => number * 10 + u64::from(character - b'0'),
        b'0'..=b'9' => u64::MAX,
        _ => number,
    }
}

// The first eight numbers; 0 for each that is not there.
fn numbers_in(words: &[u8]) -> [u64; 8] {
    let mut numbers = [0; 8];
    for (number, digits) in numbers.iter_mut().zip(words.split(|c| *c == b',')) {
        *number = digits.iter().fold(0, |x, c| longer(x, *c));
    }
    numbers
}

// The case of a file is one page.
fn print_file(letter: u8, given: [u64; 8], input: &[u8], room: &mut [u8]) {
    let mut page = Page::new(room, 0);
    match letter {
        b'f' => files::file(&mut page, given, input),
        _ => files::whole(&mut page, given, input),
    }
    let end = page.written();
    print_page(room, end);
}

// By the first letter of a label.
fn call(letter: u8, given: [u64; 8], input: &[u8], room: &mut [u8]) {
    match letter {
        b'f' | b'w' => print_file(letter, given, input, room),
        _ => records::records(given, input, room),
    }
}

fn case(line: &[u8], held: &mut [u8], room: &mut [u8]) {
    let first = find(line, 0, b':');
    let second = find(line, first, b';');
    let label = part(line, 0, first);
    let given = numbers_in(part(line, first, second));
    let size = lay(held, part(line, second, line.len()));
    let input = part(held, 0, size);
    print(label);
    call(letter(label, 0), given, input, room);
    print(b"\n");
}

// What a case is given and its pages are each laid over those of the case before.
pub(crate) fn run(list: &[u8]) {
    let mut held = [0u8; 192];
    let mut room = [0u8; ROOM];
    for line in Lines::of(list) {
        case(line, &mut held, &mut room);
    }
}
