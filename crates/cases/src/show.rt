// What is shown of a case, put on a page: numbers, answers, and what lent memory holds after a call.
ghost use Rattle.std.specs.Prelude.{◌≡◌, List, ℕ, ◌+◌, ◌-◌, take, drop, unwrap_or};
ghost use Rattle.std.specs.Result.{result_ok};
ghost use Rattle.text.specs.Page.{lay};
ghost use Rattle.cases.specs.Shown.{next_text, signed_text, byte_text, bytes_text, cells_text, bytes_word, cells_word, done_text, refused_text, answer_text, head_text, IsEndOfMarks, kept_text, ends_text, written_text, left_text};

use crate::lent::{Number, PAST, Recurring, digest, end_of_recurring};
use plate::head::Head;
use plate::refusal::Refusal;
use text::Page;

// The file descriptor of standard output.
pub const STDOUT: i32 = 1;

// Up to so many numbers of lent memory are shown one by one.
pub const FEW: usize = 1000;

// Of more, so many from the start and so many up to the end.
const SOME: usize = 32;

// A number with a space before it.
pub fn next<N: Number>(page: &mut Page, x: N)
    ensures { page.new ≡ lay (next_text (N.value x)) page.old }
{
    page.put_text(b" ");
    page.put_number(x.wide());
}

// A number with its sign, and a space before it.
pub fn signed(page: &mut Page, z: i32)
    ensures { page.new ≡ lay (signed_text z) page.old }
{
    page.put_text(b" ");
    page.put_signed(z);
}

// A byte in two hexadecimal digits.
pub fn byte(page: &mut Page, x: u8)
    ensures { page.new ≡ lay (byte_text x) page.old }
{
    let mut digits = [0u8; 16];
    let count = io::hex(x.wide(), 2, &mut digits);
    page.put_text(&digits[..count]);
}

pub fn done(page: &mut Page, value: u64)
    ensures { page.new ≡ lay (done_text value) page.old }
{
    page.put_text(b" done");
    next(page, value);
}

pub fn refused(page: &mut Page, refusal: Refusal)
    ensures { page.new ≡ lay (refused_text refusal) page.old }
{
    page.put_text(b" refused");
    next(page, refusal.reason.number());
    page.put_text(b" at");
    next(page, refusal.place);
}

// The value that a call answered. Of a refusal there is none, and it is shown.
pub fn answer<T>(page: &mut Page, answer: Result<T, Refusal>) -> Option<T>
    ensures value { result ≡ result_ok answer }
    ensures shown { page.new ≡ lay (answer_text answer) page.old }
{
    match answer {
        Ok(value) => Some(value),
        Err(refusal) => {
            refused(page, refusal);
            None
        }
    }
}

// What goes with a table.
pub fn head(page: &mut Page, head: Head)
    ensures { page.new ≡ lay (head_text head) page.old }
{
    page.put_text(b" height");
    next(page, head.height);
    page.put_text(b", members");
    next(page, head.members);
    page.put_text(b", columns");
    next(page, head.columns);
}

// How far the marks stand from one index on, up to another.
pub fn kept<T: Recurring>(page: &mut Page, output: &[T], from: usize, to: usize)
    ensures { (end : ℕ) × IsEndOfMarks T.none T.mark output.now from to end × (page.new ≡ lay (kept_text from end) page.old) }
{
    page.put_text(b"; kept from");
    next(page, from);
    page.put_text(b" to");
    next(page, end_of_recurring(output, from, to));
}

// Numbers that lent memory is shown in.
pub trait Shown: Number {
    ghost name: { List ℕ };

    ghost shown: { List Self → List ℕ };

    // What such numbers are called.
    fn name() -> &'static [u8]
        ensures { result.now ≡ name };

    // One after the other, with a space before.
    fn put(items: &[Self], page: &mut Page)
        ensures { page.new ≡ lay (shown items.now) page.old };
}

impl Shown for u8 {
    ghost name = { bytes_word };

    ghost shown = { bytes_text };

    #[tactic(auto, unfolding(crate::specs::Shown::bytes_word))]
    fn name() -> &'static [u8] {
        b"; bytes"
    }

    fn put(items: &[u8], page: &mut Page) {
        page.put_text(b" ");
        for x in items {
            byte(page, *x);
        }
    }
}

impl Shown for u32 {
    ghost name = { cells_word };

    ghost shown = { cells_text };

    #[tactic(auto, unfolding(crate::specs::Shown::cells_word))]
    fn name() -> &'static [u8] {
        b"; cells"
    }

    fn put(items: &[u32], page: &mut Page) {
        for x in items {
            next(page, *x);
        }
    }
}

// The first so many, or all.
fn first<T>(items: &[T], size: usize) -> &[T]
    ensures { result.now ≡ take size items.now }
{
    &items[..size.min(items.len())]
}

// Some up to the end of the first so many.
fn last<T>(items: &[T], size: usize) -> &[T]
    ensures { result.now ≡ drop (size - 32) (take size items.now) }
{
    let lent = first(items, size);
    &lent[size.saturating_sub(SOME).min(lent.len())..]
}

// So many from the start and so many up to the end of what a call wrote.
pub fn ends<T: Shown>(page: &mut Page, output: &[T], size: usize)
    ensures { page.new ≡ lay (ends_text T.shown output.now size) page.old }
{
    page.put_text(b", first");
    T::put(first(output, SOME), page);
    page.put_text(b", last");
    T::put(last(output, size), page);
}

// What stands in lent memory after a call that wrote so many numbers, or none where it was refused.
pub fn left<T: Shown + Recurring>(page: &mut Page, memory: &[T], lent: usize, size: Option<usize>)
    ensures { (end : ℕ) × IsEndOfMarks T.none T.mark memory.now (unwrap_or size 0) (lent + 8) end × (page.new ≡ lay (left_text T.name T.shown T.value memory.now size end) page.old) }
{
    kept(page, memory, size.unwrap_or(0), lent.saturating_add(PAST));
    if let Some(size) = size {
        written(page, memory, size);
    }
}

// What a call wrote: each number where they are few, and else their digest and the ends.
pub fn written<T: Shown>(page: &mut Page, output: &[T], size: usize)
    ensures { page.new ≡ lay (written_text T.name T.shown T.value output.now size) page.old }
{
    page.put_text(T::name());
    if size <= FEW {
        T::put(first(output, size), page);
        return;
    }
    page.put_text(b"' digest");
    next(page, digest(output, size));
    ends(page, output, size);
}
