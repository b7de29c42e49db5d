// What is shown of a line: its label, which is printed by itself, since it may be as long as the list, and then a page. The words, numbers and
// answers on the page are put there as in every program over a list of cases.
pub(crate) use cases::show::{answer, done, next, refused, signed};
use cases::{STDOUT, label};

pub(crate) fn print(words: &[u8]) {
    io::write_all(STDOUT, words);
}

pub(crate) fn print_label(line: &[u8]) {
    print(label(line));
    print(b":");
}
