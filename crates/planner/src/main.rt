// The planning program: one job from standard input, and what `report::plan_job` says of it to standard output. The sizes of both buffers are
// those of `plan_job`'s types: with any other the program does not type-check.
#![tactic(auto)]

use report::plan_job;

// The file descriptor of standard output.
const STDOUT: i32 = 1;

fn main() {
    let mut input = [0u8; 4097];
    let mut text = [0u8; 131072];
    let count = io::read_full(0, &mut input);
    let length = plan_job(&input, count, &mut text);
    io::write_all(STDOUT, &text[..length]);
}
