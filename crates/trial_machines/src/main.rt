// Joins and plans tables that come as files, with the compiled library: by the list of cases that stands in `stdin`, with a line printed for
// each. All that a call is lent is of one length in every case, with room for small tables.
#![tactic(auto)]

mod list;
mod plans;
mod show;
mod steps;

// The most bytes of a list; what stands behind them is not read.
const MOST: usize = 131072;

// The list. Its room is lent, and not made here: a proof of the bounds would go through all of its zeros.
fn read(room: &mut [u8; MOST]) -> &[u8] {
    let size = io::read_full(0, room);
    &room[..size]
}

fn main() {
    let mut room = [0; MOST];
    list::run(read(&mut room));
}
