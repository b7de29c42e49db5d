// The plan of a table, and the sequence of each count read back from it.
use crate::show;
use plan::plan;
use plate::head::Head;
use plate::refusal::{Reason, Refusal};
use readback::read_back;
use text::Page;

fn show_boundaries(page: &mut Page, sequence: &[i32], count: u32) {
    for z in sequence.iter().take(count as usize + 1) {
        show::signed(page, *z);
    }
}

// `none` where no sequence of the count is admissible.
fn show_none(page: &mut Page, refusal: Refusal) {
    match refusal.reason {
        Reason::NoSequence => page.put_text(b" none"),
        _ => show::refused(page, refusal),
    }
}

fn show_count(page: &mut Page, head: Head, count: u32, errors: &[u64], thicknesses: &[u8]) {
    let mut sequence = [0i32; 24];
    page.put_text(b";");
    show::next(page, count);
    match read_back(
        head.height,
        head.members,
        errors,
        thicknesses,
        count,
        &mut sequence,
    ) {
        Ok(error) => {
            show::next(page, error);
            show_boundaries(page, &sequence, count);
        }
        Err(refusal) => show_none(page, refusal),
    }
}

fn show_counts(page: &mut Page, head: Head, most: u32, errors: &[u64], thicknesses: &[u8]) {
    for count in 1..=most {
        show_count(page, head, count, errors, thicknesses);
    }
}

pub(crate) fn show_plan(page: &mut Page, head: Head, bound: u32, table: &[u32]) {
    let mut errors = [0u64; 300];
    let mut thicknesses = [0u8; 300];
    let mut list = [0u64; 24];
    show::call(page, b"plan");
    match plan(table, head, bound, &mut errors, &mut thicknesses, &mut list) {
        Ok(most) => {
            show::next(page, most);
            let most = u32::try_from(most).unwrap_or(0);
            show_counts(page, head, most, &errors, &thicknesses);
        }
        Err(refusal) => show::refused(page, refusal),
    }
}
