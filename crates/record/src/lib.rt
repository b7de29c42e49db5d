// A record in a file: little-endian numbers, the bytes that are left, and what is asked of every record before its body is looked at. A byte
// past the end of the input reads 0, so that there is a number at every place.
#![tactic(auto)]

ghost use Rattle.std.specs.Prelude.{◌≡◌, ℕ, List, [], ◌∷◌, ◌+◌, ◌*◌, ◌≤◌, length};
ghost use Rattle.std.proofs.lemmas.List.Edits.{sets};
ghost use Rattle.lists.specs.Checks.{first};
ghost use Rattle.plate.specs.Refusal.{number_of, numbered, said_by};
ghost use Rattle.record.specs.Bytes.{le16, le32, words};
ghost use Rattle.record.specs.Frame.{left, length_at, kind_at};
ghost use Rattle.record.specs.Faults.{fault_number, tail, frame_checks};
ghost use Rattle.record.specs.Written.{bytes16, bytes32, long16, long32, spelled, bytes_of, laid_at};

use plate::refusal::{Reason, Refusal, refusal_at};

#[cfg(test)]
mod tests;

// Why a file is refused, a case for each of its checks: fewer than 4 bytes left, kind not allowed here, wrong length for the kind, body past the
// input, contents that disagree with the file, bytes after the end. Document 02 f) gives them four numbers.
#[derive(Clone, Copy, Debug, PartialEq, Eq)]
pub enum Fault {
    Cut,
    KindHere,
    WrongLength,
    BodyCut,
    Disagrees,
    Tail,
}

impl Fault {
    // The reason that is told.
    pub fn reason(self) -> Reason
        ensures { number_of result ≡ fault_number self }
    {
        match self {
            Fault::Cut => Reason::RanOut,
            Fault::KindHere => Reason::WrongKind,
            Fault::WrongLength => Reason::WrongLength,
            Fault::BodyCut => Reason::RanOut,
            Fault::Disagrees => Reason::Disagrees,
            Fault::Tail => Reason::Disagrees,
        }
    }

    // The refusal of a file for it, at a place.
    pub fn at(self, place: usize) -> Refusal
        ensures { numbered result ≡ record { number = fault_number self; place = place } }
    {
        refusal_at(self.reason(), place)
    }
}

// A number that a file holds in N bytes, the lowest first.
pub trait Stored<const N: usize>: Copy {
    ghost bytes: { Self → List ℕ };

    fn to_bytes(self) -> [u8; N]
        ensures { result ≡ bytes self };

    ghost long: { (n : Self) → length (bytes n) ≡ N };
}

impl Stored<2> for u16 {
    ghost bytes = { bytes16 };

    #[tactic(auto, using(crate::proofs::Stores::low_first16))]
    fn to_bytes(self) -> [u8; 2] {
        u16::to_le_bytes(self)
    }

    ghost long = { long16 };
}

impl Stored<4> for u32 {
    ghost bytes = { bytes32 };

    #[tactic(auto, using(crate::proofs::Stores::low_first32))]
    fn to_bytes(self) -> [u8; 4] {
        u32::to_le_bytes(self)
    }

    ghost long = { long32 };
}

// A number that can be read from any place of a file, for a function that is generic over the number. For `u16` and `u32` themselves `word` and
// `quad` say the same.
pub trait Loaded<const N: usize>: Stored<N> {
    ghost read: { List ℕ → ℕ → Self };

    // The number whose bytes stand at a place.
    fn load(input: &[u8], at: usize) -> Self
        ensures { result ≡ read input.now at };
}

impl Loaded<2> for u16 {
    ghost read = { le16 };

    fn load(input: &[u8], at: usize) -> u16 {
        word(input, at)
    }
}

impl Loaded<4> for u32 {
    ghost read = { le32 };

    fn load(input: &[u8], at: usize) -> u32 {
        quad(input, at)
    }
}

// Stores numbers one after the other, from a place on.
fn store_all<const N: usize, T: Stored<N>>(out: &mut [u8], at: usize, numbers: &[T])
    requires { at + N * length numbers.now ≤ length out.old }
    ensures { out.new ≡ sets out.old at (spelled T.bytes numbers.now) }
{
    for (i, number) in numbers.iter().enumerate() {
        let next = at + N * i;
        out[next..next + N].copy_from_slice(&number.to_bytes());
    }
}

// Writes numbers from a place on, where there is room for them all, and else nothing.
pub fn write_all<const N: usize, T: Stored<N>>(out: &mut [u8], at: usize, numbers: &[T])
    ensures { out.new ≡ laid_at out.old at (spelled T.bytes numbers.now) }
{
    if out.len() < at || out.len() - at < numbers.len().saturating_mul(N) {
        return;
    }
    store_all(out, at, numbers);
}

// The bytes from a place on; a place past the input counts as nothing left.
pub fn bytes_left(input: &[u8], at: usize) -> usize
    ensures { result ≡ left input.now at }
{
    input.len().saturating_sub(at)
}

// Two bytes, the lower first.
#[tactic(auto, using(crate::proofs::Bytes::none_left, crate::proofs::Bytes::one_left), unfolding(crate::specs::Bytes::le16))]
pub fn word(input: &[u8], at: usize) -> u16
    ensures { result ≡ le16 input.now at }
{
    match bytes_left(input, at) {
        0 => 0,
        1 => u16::from(input[at]),
        _ => u16::from_le_bytes([input[at], input[at + 1]]),
    }
}

// The number of two bytes that has so many such numbers before it, from a place on.
#[tactic(auto, using(crate::proofs::Bytes::none_left))]
pub fn word_after(input: &[u8], start: usize, before: usize) -> u16
    ensures { result ≡ le16 input.now (start + 2 * before) }
{
    if bytes_left(input, start) / 2 < before {
        return 0;
    }
    word(input, start + 2 * before)
}

// Four bytes, the lowest first.
#[tactic(auto, unfolding(crate::specs::Bytes::le32, crate::specs::Bytes::le16))]
pub fn quad(input: &[u8], at: usize) -> u32
    ensures { result ≡ le32 input.now at }
{
    if 4 <= bytes_left(input, at) {
        return u32::from_le_bytes([input[at], input[at + 1], input[at + 2], input[at + 3]]);
    }
    let low = u32::from(word(input, at));
    let high = u32::from(word_after(input, at, 1));
    low + 65536 * high
}

// As many numbers of two bytes, from a place on, as `out` is long.
#[tactic(auto, using(crate::proofs::Bytes::word_more), unfolding(crate::specs::Bytes::words))]
pub fn read_words(input: &[u8], start: usize, out: &mut [u16])
    ensures { out.new ≡ words input.now start (length out.old) }
{
    for (i, number) in out.iter_mut().enumerate() {
        *number = word_after(input, start, i);
    }
}

// Writes numbers of two bytes each from a place on, where the buffer has room for them all.
pub fn write_numbers(out: &mut [u8], at: usize, numbers: &[u16])
    ensures { out.new ≡ laid_at out.old at (bytes_of numbers.now) }
{
    write_all(out, at, numbers);
}

// The body length of the record at a place.
pub fn length_at(input: &[u8], at: usize) -> usize
    ensures { result ≡ length_at input.now at }
{
    word(input, at) as usize
}

// The kind of the record at a place.
pub fn kind_at(input: &[u8], at: usize) -> u16
    ensures { result ≡ kind_at input.now at }
{
    word_after(input, at, 1)
}

// What is asked of the record at a place before its body is looked at, by whether its kind is allowed there and its length is right.
#[tactic(auto, unfolding(crate::specs::Faults::frame_checks))]
pub fn check_frame(input: &[u8], at: usize, allowed: bool, right: bool) -> Result<(), Refusal>
    ensures { said_by result ≡ first (frame_checks input.now at allowed right) }
{
    let here = bytes_left(input, at);
    if here < 4 {
        return Err(Fault::Cut.at(at));
    }
    if !allowed {
        return Err(Fault::KindHere.at(at));
    }
    if !right {
        return Err(Fault::WrongLength.at(at));
    }
    if here - 4 < length_at(input, at) {
        return Err(Fault::BodyCut.at(at));
    }
    Ok(())
}

// That no bytes stand from the end of a file on.
pub fn check_tail(input: &[u8], end: usize) -> Result<(), Refusal>
    ensures { said_by result ≡ first (tail input.now end ∷ []) }
{
    if end < input.len() {
        return Err(Fault::Tail.at(end));
    }
    Ok(())
}
