// Buffers of each kind of element: what is laid into one, and what of one is shown.
use crate::line::{Numbers, Value};
use crate::show;
use cases::{Number, digest, part};
use text::Page;

// Up to so many elements are shown one by one, more by a digest.
const FEW: usize = 100;

// What a buffer holds. A number of a line is laid as one.
pub(crate) trait Element: Copy + From<Value> {
    fn put(self, page: &mut Page);
}

impl Element for u8 {
    fn put(self, page: &mut Page) {
        show::next(page, self);
    }
}

impl Element for u16 {
    fn put(self, page: &mut Page) {
        show::next(page, self);
    }
}

impl Element for u32 {
    fn put(self, page: &mut Page) {
        show::next(page, self);
    }
}

// `none` for the greatest.
impl Element for u64 {
    fn put(self, page: &mut Page) {
        if self == u64::MAX {
            page.put_text(b" none");
        } else {
            show::next(page, self);
        }
    }
}

impl Element for i32 {
    fn put(self, page: &mut Page) {
        show::signed(page, self);
    }
}

// What stands at an index where the line has no more numbers: it differs from one index to the next.
fn mark(base: u64, i: usize) -> u64 {
    base % 128 + i as u64 % 96
}

// Lays what the numbers behind a character of the line say: from which index and to which, a base of marks, and the elements.
pub(crate) fn lay<T: Element>(buffer: &mut [T], line: &[u8], character: u8) {
    let mut numbers = Numbers::after(line, character);
    let from: usize = numbers.next();
    let to: usize = numbers.next();
    let base = numbers.next();
    for i in from..to.min(buffer.len()) {
        buffer[i] = numbers.next_or(mark(base, i));
    }
}

// The front of a buffer, element by element.
pub(crate) fn show_each<T: Element>(page: &mut Page, buffer: &[T], asked: usize) {
    for x in part(buffer, 0, asked) {
        x.put(page);
    }
}

// The front of a buffer: its elements where they are few, a digest of all else.
pub(crate) fn show_front<T: Element + Number>(page: &mut Page, buffer: &[T], asked: usize) {
    if asked.min(buffer.len()) <= FEW {
        show_each(page, buffer, asked);
        return;
    }
    page.put_text(b" digest");
    show::next(page, digest(buffer, asked));
}
