// Memory that is lent: two lists of numbers, and an output.
use cases::{part, show};
use record::read_words;
use text::Page;

#[derive(Drop)]
pub(crate) struct Memory {
    pub(crate) boundaries: [u16; 256],
    pub(crate) counts: [u16; 1000001],
    pub(crate) output: [u8; 4000200],
}

// Lays so many numbers of two bytes each, which stand in the input from a place on, into a list, and answers the place after them. Past the
// input the numbers are 0; where the list has no room for all, none is laid.
pub(crate) fn lay(
    list: &mut [u16],
    from: usize,
    count: usize,
    input: &[u8],
    start: usize,
) -> usize {
    if from <= list.len() && count <= list.len() - from {
        let end = from + count;
        read_words(input, start, &mut list[from..end]);
        return end;
    }
    from
}

fn sum(output: &[u8]) -> u64 {
    output
        .iter()
        .fold(0, |sum, x| sum.wrapping_add(u64::from(*x)))
}

// What was written: each byte where they are few; of more their sum, and the ends.
pub(crate) fn show_written(page: &mut Page<'_>, output: &[u8], size: usize) {
    if size <= show::FEW {
        show::written(page, output, size);
        return;
    }
    page.put_text(b"; sum");
    show::next(page, sum(part(output, 0, size)));
    show::ends(page, output, size);
}

pub(crate) fn show_list(page: &mut Page<'_>, list: &[u16]) {
    for x in list {
        show::next(page, *x);
    }
}
