// Lent memory: the front of it that a call is lent, the marks that it holds before the call, and a digest of what it holds after.
ghost use Rattle.std.specs.Prelude.{◌≡◌, List, ℕ, ◌+◌, ◌%◌, ◌≤◌, ◌<◌, min, max, map, length, get_or, set, take};
ghost use Rattle.lists.specs.Rewrite.{Span};
ghost use Rattle.cases.specs.Marks.{marks_again};
ghost use Rattle.cases.specs.Cases.{digest_with, digest_of};

// So many marks stand past what is lent, so that what is written there is seen.
pub const PAST: usize = 8;

// So many marks there are before they come again.
const MARKS: usize = 50;

// A number that lent memory holds.
pub trait Number: Copy {
    ghost value: { Self → ℕ };

    fn wide(self) -> u64
        ensures { result ≡ value self };
}

// One impl for each type, written out: the gate refuses an impl that a macro of the repository writes.
impl Number for u8 {
    ghost value = { λ x. x };

    fn wide(self) -> u64 {
        u64::from(self)
    }
}

impl Number for u16 {
    ghost value = { λ x. x };

    fn wide(self) -> u64 {
        u64::from(self)
    }
}

impl Number for u32 {
    ghost value = { λ x. x };

    fn wide(self) -> u64 {
        u64::from(self)
    }
}

impl Number for u64 {
    ghost value = { λ x. x };

    fn wide(self) -> u64 {
        self
    }
}

impl Number for usize {
    ghost value = { λ x. x };

    fn wide(self) -> u64 {
        self as u64
    }
}

// A number that marks are made of. A mark stands at an index before a call, and differs from one index to the next.
pub trait Mark: Number {
    // What is read past the end of memory.
    ghost none: { Self };

    ghost mark: { ℕ → Self };

    fn mark(i: usize) -> Self
        ensures { result ≡ mark i };

    // A number with a mark's value is that mark.
    ghost tells: { (x : Self) (i : ℕ) → Self.value x ≡ Self.value (mark i) → x ≡ mark i };
}

// A mark that comes again after fifty. Such marks are copied, or gone through from one to the next: with the remainder reckoned anew at every
// index, laying and looking at four million of them took half as long again.
pub trait Recurring: Mark {
    // The mark at the index after a mark's.
    fn following(self) -> Self
        ensures { (i : ℕ) → self ≡ Self.mark i → result ≡ Self.mark (i + 1) };

    ghost again: { (i : ℕ) → Self.mark (i + 50) ≡ Self.mark i };
}

impl Mark for u8 {
    ghost none = { 0 };

    ghost mark = { λ i. 200 + i % 50 };

    ghost tells = { λ x i e. e };

    fn mark(i: usize) -> u8 {
        (200 + i % 50) as u8
    }
}

impl Recurring for u8 {
    ghost again = { marks_again 200 };

    fn following(self) -> u8 {
        if self == 249 {
            return 200;
        }
        self.wrapping_add(1)
    }
}

// Out of every bound.
impl Mark for u32 {
    ghost none = { 0 };

    ghost mark = { λ i. 4000000000 + i % 50 };

    ghost tells = { λ x i e. e };

    fn mark(i: usize) -> u32 {
        (4000000000 + i % 50) as u32
    }
}

impl Recurring for u32 {
    ghost again = { marks_again 4000000000 };

    fn following(self) -> u32 {
        if self == 4000000049 {
            return 4000000000;
        }
        self.wrapping_add(1)
    }
}

// The front that is lent to be written; the whole where it is no longer than that.
pub fn front<T>(output: &mut [T], size: usize) -> &mut [T]
    ensures { result.now ≡ take size output.old }
{
    let lent = size.min(output.len());
    &mut output[..lent]
}

// Lays so many marks, as far as there is room.
pub fn fill<T: Mark>(output: &mut [T], size: usize)
    ensures { Span T.none 0 (min size (length output.old)) (λ i x. T.mark i) output.old output.new }
{
    for i in 0..size.min(output.len()) {
        output[i] = T::mark(i);
    }
}

// Lays so many marks that come again, as far as there is room: most of them are copied.
pub fn fill_recurring<T: Recurring>(output: &mut [T], size: usize)
    ensures { Span T.none 0 (min size (length output.old)) (λ i x. T.mark i) output.old output.new }
{
    let end = size.min(output.len());
    for i in 0..end.min(MARKS) {
        output[i] = T::mark(i);
    }
    for i in MARKS..end {
        output[i] = output[i - MARKS];
    }
}

// The front of memory that a call is lent, over marks that reach some way past it.
pub fn lend<T: Recurring>(memory: &mut [T], size: usize) -> &mut [T]
    ensures { (held : List T) × Span T.none 0 (min (size + 8) (length memory.old)) (λ i x. T.mark i) memory.old held × (result.now ≡ take size held) }
{
    fill_recurring(memory, size.saturating_add(PAST));
    front(memory, size)
}

// The end of the marks that stand from one index on, up to another.
pub fn end_of_marks<T: Mark>(output: &[T], from: usize, to: usize) -> usize
    ensures lower_bound { (from ≤ result) × (result ≤ max from (min to (length output.now))) }
    ensures by_index { (i : ℕ) → from ≤ i → i < result → get_or output.now i T.none ≡ T.mark i }
    ensures fact { result < length output.now → result < to → get_or output.now result T.none ≡ T.mark result → ⊥ }
{
    let end = to.min(output.len()).max(from);
    for i in from..end {
        if output[i].wide() != T::mark(i).wide() {
            return i;
        }
    }
    end
}

// The same end of marks that come again, which are looked at from one to the next.
pub fn end_of_recurring<T: Recurring>(output: &[T], from: usize, to: usize) -> usize
    ensures lower_bound { (from ≤ result) × (result ≤ max from (min to (length output.now))) }
    ensures by_index { (i : ℕ) → from ≤ i → i < result → get_or output.now i T.none ≡ T.mark i }
    ensures fact { result < length output.now → result < to → get_or output.now result T.none ≡ T.mark result → ⊥ }
{
    let end = to.min(output.len()).max(from);
    let mut mark = T::mark(from);
    for i in from..end {
        if output[i].wide() != mark.wide() {
            return i;
        }
        mark = mark.following();
    }
    end
}

// Another byte at a place, where the output has it.
pub fn change(output: &mut [u8], place: usize, byte: u8)
    ensures { output.new ≡ set output.old place byte }
{
    if place < output.len() {
        output[place] = byte;
    }
}

// A digest with one number more. It tells numbers in another order apart, as a sum does not.
pub fn digested(digest: u64, x: u64) -> u64
    ensures { result ≡ digest_with digest x }
{
    (digest % 4294967291 * 1000003 + x % 4294967291 + 1) % 4294967291
}

// The digest of the first so many numbers, or of all.
pub fn digest<T: Number>(output: &[T], size: usize) -> u64
    ensures { result ≡ digest_of (map T.value output.now) (min size (length output.now)) }
{
    let lent = &output[..size.min(output.len())];
    let mut sum = 0;
    for x in lent {
        sum = digested(sum, x.wide());
    }
    sum
}
