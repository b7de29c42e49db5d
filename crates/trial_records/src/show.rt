// What is printed: labels by themselves, since one may be as long as the list, and pages.
use cases::{STDOUT, part};

// A page has room for what any file or record puts on it. The most is that of a file whose table is shown, in fewer than 500 bytes: what goes with
// the table, and 30 cells of at most 11 each.
pub(crate) const ROOM: usize = 1024;

pub(crate) fn print(words: &[u8]) {
    io::write_all(STDOUT, words);
}

// The front of a room, where a page stands.
pub(crate) fn print_page(room: &[u8], end: usize) {
    print(part(room, 0, end));
}
