// A list of cases: its lines, the parts of a line, and the bytes that a line gives in hexadecimal.
ghost use Rattle.std.specs.Prelude.{◌≡◌, List, ℕ, ◌+◌, ◌^◌, ◌/◌, ◌%◌, ◌≤◌, ◌<◌, min, length, get_or, MatchOption};
ghost use Rattle.std.specs.Iterator.{at_most};
ghost use Rattle.cases.specs.Cases.{part_of, digit_of, laid, with_half, with_byte, with_next, laid_by, label_of, given_of, IsLine};

// The lines of a list that are still to come, each without the line feed that ends it.
#[derive(Clone, Copy)]
pub struct Lines<'a> {
    pub rest: &'a [u8],
}

impl<'a> Lines<'a> {
    // All lines of a list. The last one may end with the list.
    pub fn of(list: &'a [u8]) -> Lines<'a>
        ensures { result.rest.now ≡ list.now }
    {
        Lines { rest: list }
    }
}

impl<'a> Iterator for Lines<'a> {
    type Item = &'a [u8];

    ghost next_gives = { λ s r t. MatchOption r ((length s.rest.now ≡ 0) × (t ≡ s)) (λ x. (0 < length s.rest.now) × IsLine s.rest.now x.now t.rest.now) };

    ghost remaining = { λ s. at_most (length s.rest.now) };

    fn next(&mut self) -> Option<&'a [u8]> {
        if self.rest.is_empty() {
            return None;
        }
        let end = find(self.rest, 0, b'\n');
        let (line, rest) = self.rest.split_at(end);
        self.rest = rest.get(1..).unwrap_or(rest);
        Some(line)
    }
}

// A part; the whole where there is no such part.
pub fn part<T>(items: &[T], from: usize, to: usize) -> &[T]
    ensures { result.now ≡ part_of items.now from to }
{
    items.get(from..to).unwrap_or(items)
}

// The character at a place of a line; 0 past its end.
pub fn letter(line: &[u8], place: usize) -> u8
    ensures { result ≡ get_or line.now place 0 }
{
    line.get(place).copied().unwrap_or(0)
}

// The first such character from a place on, or the line's end.
pub fn find(line: &[u8], from: usize, character: u8) -> usize
    ensures lower_bound { (min from (length line.now) ≤ result) × (result ≤ length line.now) }
    ensures result_value { result < length line.now → get_or line.now result 0 ≡ character }
    ensures by_index { (i : ℕ) → from ≤ i → i < result → get_or line.now i 0 ≡ character → ⊥ }
{
    for i in from..line.len() {
        if line[i] == character {
            return i;
        }
    }
    line.len()
}

// The value of a hexadecimal digit.
fn hex_digit(character: u8) -> Option<u8>
    ensures { MatchOption result (digit_of character ≡ 16) (λ d. (digit_of character ≡ d) × (d < 16)) }
{
    match character {
        b'0'..=b'9' => Some(character - b'0'),
        b'A'..=b'F' => Some(character - b'A' + 10),
        _ => None,
    }
}

// Lays a half of a byte behind so many that are there, and answers how many there are then.
#[tactic(auto, unfolding(crate::specs::Cases::with_half))]
fn lay_half(given: &mut [u8], halves: usize, half: u8) -> usize
    requires { half < 16 }
    ensures { laid given.new result ≡ with_half half (laid given.old halves) }
{
    let k = halves / 2;
    if k < given.len() {
        given[k] = given[k] % 16 * 16 + half;
        return halves + 1;
    }
    halves
}

fn lay_byte(given: &mut [u8], halves: usize, byte: u8) -> usize
    ensures { laid given.new result ≡ with_byte byte (laid given.old halves) }
{
    let first = lay_half(given, halves, byte / 16);
    lay_half(given, first, byte % 16)
}

#[tactic(auto, unfolding(crate::specs::Cases::with_half, crate::specs::Cases::with_next))]
fn lay_next(given: &mut [u8], halves: usize, character: u8) -> usize
    ensures { laid given.new result ≡ with_next character (laid given.old halves) }
{
    match character {
        b'.' => lay_byte(given, halves, 0),
        b'+' | b'-' | b'=' | b'~' => lay_byte(given, halves, character),
        _ => match hex_digit(character) {
            Some(half) => lay_half(given, halves, half),
            None => halves,
        },
    }
}

// Lays the bytes of a line, as far as there is room, and answers how many they are.
pub fn lay(given: &mut [u8], words: &[u8]) -> usize
    ensures given_after { given.new ≡ (laid_by words.now (length words.now) given.old).held }
    ensures value { result ≡ (laid_by words.now (length words.now) given.old).halves / 2 }
{
    let mut halves = 0;
    for character in words {
        halves = lay_next(given, halves, *character);
    }
    halves / 2
}

// What stands before the first colon of a line, and the whole line where there is none.
pub fn label(line: &[u8]) -> &[u8]
    ensures { result.now ≡ label_of line.now }
{
    part(line, 0, find(line, 0, b':'))
}

// The bytes that a line gives behind its first colon, laid into what is held, as far as there is room.
pub fn given<'a>(line: &[u8], held: &'a mut [u8]) -> &'a [u8]
    ensures { result.now ≡ given_of line.now held.old }
{
    let colon = find(line, 0, b':');
    let size = lay(held, part(line, colon, line.len()));
    part(held, 0, size)
}
