// Many job files one after another, each two bytes of length and then the file: for each a line with its number, and then what the planning
// program prints for it.
#![tactic(auto)]

ghost use Rattle.std.specs.Prelude.{◌<◌, length, IfSome};

use report::plan_job;

// The file descriptor of standard output.
const STDOUT: i32 = 1;

const MOST_INPUT: usize = 65536;

// As many bytes of the file as the planning program reads of it, which print the same (`report`, `Prints`).
fn read_in(file: &[u8], input: &mut [u8]) -> usize {
    let count = file.len().min(input.len());
    input[..count].copy_from_slice(&file[..count]);
    count
}

fn print_case(number: usize, file: &[u8]) {
    let mut input = [0u8; 4097];
    let mut text = [0u8; 131072];
    let count = read_in(file, &mut input);
    let length = plan_job(&input, count, &mut text);
    io::write_all(STDOUT, b"# ");
    io::print_decimal(STDOUT, number as u64);
    io::write_all(STDOUT, b"\n");
    io::write_all(STDOUT, &text[..length]);
}

// The first file, behind its length in two bytes, the lower first, and what stands behind it; none where the input ends before.
fn next_case(input: &[u8]) -> Option<(&[u8], &[u8])>
    ensures { IfSome result (λ found. length found.1.now < length input.now) }
{
    let (length, rest) = input.split_first_chunk::<2>()?;
    rest.split_at_checked(usize::from(u16::from_le_bytes(*length)))
}

fn print_cases(input: &[u8]) {
    let mut rest = input;
    let mut number = 0;
    // The number is only printed: the cases are cut off the front of what is left.
    while let Some((file, after)) = next_case(rest) {
        print_case(number, file);
        rest = after;
        number += 1;
    }
}

fn main() {
    let mut input = [0u8; MOST_INPUT];
    let count = io::read_full(0, &mut input);
    print_cases(&input[..count]);
}
