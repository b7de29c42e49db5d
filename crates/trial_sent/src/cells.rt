// Lent cells: a table that is to be sent.
use cases::Mark;
use record::quad;

// A cell of a table that is too long to be given, in rows of so many: nothing for a thickness of 1, and below 1,000,000 for every other.
fn spread(i: usize, width: usize) -> u32 {
    if width == 0 {
        return u32::mark(i);
    }
    if i % width == 0 {
        return 0;
    }
    (i % 65536 * 7919 % 999983) as u32
}

// What is laid at an index: the number that is given for it, in four bytes; else the cell of such rows; and a mark where there are none.
fn laid(given: &[u8], i: usize, width: usize) -> u32 {
    if i < given.len() / 4 {
        return quad(given, 4 * i);
    }
    spread(i, width)
}

pub(crate) fn lay(table: &mut [u32], size: usize, given: &[u8], width: usize) {
    for (i, cell) in table.iter_mut().enumerate().take(size) {
        *cell = laid(given, i, width);
    }
}
