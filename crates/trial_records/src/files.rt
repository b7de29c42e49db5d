// Files read into a part of a buffer that holds a pattern before, or into a table that is long enough for each of the list.
ghost use Rattle.std.specs.Prelude.{true, ◌≡◌, ℕ, ◌+◌, ◌<◌, get_or};

use crate::records::show_bound;
use cases::{front, show};
use load::{Load, read_job};
use std::array;
use text::Page;

// What the buffer holds before.
fn pattern() -> [u32; 30] {
    array::from_fn(|i| 900 + i as u32)
}

// Whether every cell is as it was.
fn is_pattern(table: &[u32; 30]) -> bool
    ensures { result ≡ true → (i : ℕ) → i < 30 → get_or table.now i 0 ≡ 900 + i }
{
    table.iter().zip(900..930).all(|(x, cell)| *x == cell)
}

// Whether memory that is not to be written is as it was.
fn show_kept(page: &mut Page, table: &[u32; 30]) {
    if is_pattern(table) {
        page.put_text(b"; kept");
    } else {
        page.put_text(b"; changed");
    }
}

fn show_table(page: &mut Page, table: &[u32; 30]) {
    page.put_text(b"; table");
    for x in table {
        show::next(page, *x);
    }
}

fn show_load(page: &mut Page, load: Load) {
    show::head(page, load.head);
    show_bound(page, load.bound);
}

// By the most entries that a table or a sheet may have, and the length of the part that is lent. A file that was read shows the whole buffer,
// so that what stands past the table, and past the part, is seen.
pub(crate) fn file(page: &mut Page, numbers: [u64; 8], input: &[u8]) {
    let mut table = pattern();
    let answer = read_job(
        input,
        numbers[0] as usize,
        front(&mut table, numbers[1] as usize),
    );
    page.put_text(b":");
    match answer {
        Err(refusal) => {
            show::refused(page, refusal);
            show_kept(page, &table);
        }
        Ok(load) => {
            show_load(page, load);
            show_table(page, &table);
        }
    }
}

// By the most entries that a table or a sheet may have: what goes with the table, or the refusal.
pub(crate) fn whole(page: &mut Page, numbers: [u64; 8], input: &[u8]) {
    let mut table = [0u32; 4096];
    let answer = read_job(input, numbers[0] as usize, &mut table);
    page.put_text(b":");
    if let Some(load) = show::answer(page, answer) {
        show_load(page, load);
    }
}
