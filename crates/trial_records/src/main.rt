// Runs the compiled reader of job files on the cases of the list that stands in `stdin`, and prints a line for each.
#![tactic(auto)]

mod files;
mod list;
mod records;
mod show;

// The most bytes of a list; what stands behind them is not read.
const MOST: usize = 131072;

// The list. Its room is lent, and not made here: a proof of the bounds would go through all of its zeros.
fn read(room: &mut [u8; MOST]) -> &[u8] {
    let size = io::read_full(0, room);
    &room[..size]
}

fn main() {
    let mut room = [0; MOST];
    list::run(read(&mut room));
}
