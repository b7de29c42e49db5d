// Lists of numbers that are lent: times for each thickness, and the boundaries of a sequence. Each is laid from the bytes that a case is given.
use cases::front;
use record::{quad, read_words};

// Lays so many times, of two bytes each from a place on.
pub(crate) fn lay_times(cure: &mut [u16], size: usize, given: &[u8], from: usize) {
    read_words(given, from, front(cure, size));
}

// The boundary at an index, of four bytes in two's complement; 0 where none is given.
fn boundary(stated: &[u8], i: usize) -> i32 {
    if i < stated.len() / 4 {
        return quad(stated, 4 * i).cast_signed();
    }
    0
}

pub(crate) fn lay(sequence: &mut [i32], size: usize, stated: &[u8]) {
    for (i, z) in sequence.iter_mut().enumerate().take(size) {
        *z = boundary(stated, i);
    }
}
