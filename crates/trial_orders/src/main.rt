// Writes and reads order files with the compiled library, by the list of cases that stands in `stdin`, and prints a line for each. What a call
// is lent is the front of memory that is as long as the longest of a case, with some room past it.
#![tactic(auto)]

mod calls;
mod list;
mod numbers;
mod show;

// The most of a list that is read.
const MOST: usize = 524288;

// Runs the list that stands in standard input. By its type the room has its length, which a proof of `main` would count out.
fn run(room: &mut [u8; MOST]) {
    let size = io::read_full(0, room);
    list::run(&room[..size]);
}

fn main() {
    run(&mut [0; MOST]);
}
