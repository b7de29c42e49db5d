// The calls of document 01, each by the numbers of a line: how much of each buffer is lent, then numbers of the call's own, last what goes with
// a table. What a call answers is put on a page. A buffer that does not stay from line to line is laid by the numbers after the line's semicolon,
// and shown after the answer, as much of it as the line says.
use crate::line::Numbers;
use crate::memory::{lay, show_each, show_front};
use crate::show;
use cases::{front, part};
use column::Judged;
use plate::head::Head;
use plate::refusal::Refusal;
use plate::settings::Settings;
use text::Page;

// What goes with the table then, whole.
fn show_head(page: &mut Page, answer: Result<Head, Refusal>) {
    if let Some(head) = show::answer(page, answer) {
        show::done(page, u64::from(head.height));
        show::next(page, head.members);
        show::next(page, head.columns);
    }
}

// What a table that is in order is made for: its cells, M, and the entries of a sheet.
fn show_settings(page: &mut Page, answer: Result<Settings, Refusal>) {
    if let Some(settings) = show::answer(page, answer) {
        show::done(page, settings.cells as u64);
        show::next(page, settings.counts);
        show::next(page, settings.entries);
    }
}

fn show_number(page: &mut Page, answer: Result<u64, Refusal>) {
    if let Some(number) = show::answer(page, answer) {
        show::done(page, number);
    }
}

fn show_filled(page: &mut Page, filled: bool) {
    if filled {
        page.put_text(b" filled");
    } else {
        page.put_text(b" unfilled");
    }
}

fn show_judged(page: &mut Page, answer: Result<Judged, Refusal>) {
    if let Some(judged) = show::answer(page, answer) {
        show_filled(page, judged.filled);
        show::next(page, judged.share);
        page.put_text(b", difference");
        show::signed(page, judged.difference);
    }
}

// What goes with a table, by the next numbers.
fn head(numbers: &mut Numbers) -> Head {
    Head {
        height: numbers.next(),
        members: numbers.next(),
        columns: numbers.next(),
    }
}

pub(crate) fn clear(page: &mut Page, line: &[u8], table: &mut [u32]) {
    let mut numbers = Numbers::after(line, b':');
    let table = front(table, numbers.next());
    let height = numbers.next();
    let members = numbers.next();
    show_head(page, table::clear_table(table, height, members));
}

pub(crate) fn add(page: &mut Page, line: &[u8], table: &mut [u32]) {
    let mut column = [0u16; 200];
    lay(&mut column, line, b';');
    let mut numbers = Numbers::after(line, b':');
    let table = front(table, numbers.next());
    let lent = part(&column, 0, numbers.next());
    let shown = numbers.next();
    show_head(page, adding::add_column(table, head(&mut numbers), lent));
    page.put_text(b"; column");
    show_front(page, &column, shown);
}

// The second table joined into the first, or taken off it.
pub(crate) fn combine<F: FnOnce(&mut [u32], Head, &[u32], Head) -> Result<Head, Refusal>>(
    page: &mut Page,
    line: &[u8],
    table: &mut [u32],
    call: F,
)
    requires { F.IsAlwaysCallable call }
{
    let mut other = [0u32; 18400];
    lay(&mut other, line, b';');
    let mut numbers = Numbers::after(line, b':');
    let table = front(table, numbers.next());
    let lent = part(&other, 0, numbers.next());
    let shown = numbers.next();
    let first = head(&mut numbers);
    let second = head(&mut numbers);
    show_head(page, call(table, first, lent, second));
    page.put_text(b"; other");
    show_front(page, &other, shown);
}

pub(crate) fn check(page: &mut Page, line: &[u8], table: &[u32]) {
    let mut numbers = Numbers::after(line, b':');
    let table = part(table, 0, numbers.next());
    show_settings(page, table::check_table(table, head(&mut numbers)));
}

pub(crate) fn plan(
    page: &mut Page,
    line: &[u8],
    table: &[u32],
    errors: &mut [u64],
    thicknesses: &mut [u8],
) {
    let mut leasts = [0u64; 600];
    lay(&mut leasts, line, b';');
    let mut numbers = Numbers::after(line, b':');
    let table = part(table, 0, numbers.next());
    let errors = front(errors, numbers.next());
    let thicknesses = front(thicknesses, numbers.next());
    let lent = front(&mut leasts, numbers.next());
    let shown = numbers.next();
    let bound = numbers.next();
    let head = head(&mut numbers);
    show_number(
        page,
        plan::plan(table, head, bound, errors, thicknesses, lent),
    );
    page.put_text(b"; list");
    show_front(page, &leasts, shown);
}

pub(crate) fn read_back(page: &mut Page, line: &[u8], errors: &[u64], thicknesses: &[u8]) {
    let mut out = [0i32; 600];
    lay(&mut out, line, b';');
    let mut numbers = Numbers::after(line, b':');
    let errors = part(errors, 0, numbers.next());
    let thicknesses = part(thicknesses, 0, numbers.next());
    let lent = front(&mut out, numbers.next());
    let shown = numbers.next();
    let count = numbers.next();
    let height = numbers.next();
    let members = numbers.next();
    show_number(
        page,
        readback::read_back(height, members, errors, thicknesses, count, lent),
    );
    page.put_text(b"; sequence");
    show_each(page, &out, shown);
}

pub(crate) fn recount(page: &mut Page, line: &[u8], table: &[u32]) {
    let mut sequence = [0i32; 600];
    lay(&mut sequence, line, b';');
    let mut numbers = Numbers::after(line, b':');
    let table = part(table, 0, numbers.next());
    let lent = part(&sequence, 0, numbers.next());
    let shown = numbers.next();
    let bound = numbers.next();
    show_number(
        page,
        recount::recount(table, head(&mut numbers), bound, lent),
    );
    page.put_text(b"; sequence");
    show_each(page, &sequence, shown);
}

pub(crate) fn picture(page: &mut Page, line: &[u8]) {
    let mut column = [0u16; 200];
    lay(&mut column, line, b';');
    let mut numbers = Numbers::after(line, b':');
    let lent = part(&column, 0, numbers.next());
    let shown = numbers.next();
    let start = numbers.next();
    let thickness = numbers.next();
    let height = numbers.next();
    let members = numbers.next();
    show_judged(
        page,
        column::picture(lent, height, members, start, thickness),
    );
    page.put_text(b"; column");
    show_front(page, &column, shown);
}

// The f32 by its bits. It is matched here, and not by `show::answer`: bits are asked of a float that is no NaN, as what this call answers promises.
pub(crate) fn motor(page: &mut Page, line: &[u8]) {
    let mut numbers = Numbers::after(line, b':');
    let step = numbers.next();
    match motor::motor_height(step, numbers.next()) {
        Ok(height) => {
            page.put_text(b" bits");
            show::next(page, f32::to_bits(height));
        }
        Err(refusal) => show::refused(page, refusal),
    }
}
