// Makes the calls of the list that stands in `stdin` on the compiled library, and prints what each answers and what the buffers lent to it
// then hold. A table and two sheets stay from line to line; what else a call is lent stands in its own line.
#![tactic(auto)]

mod calls;
mod line;
mod list;
mod memory;
mod show;

// The most bytes of a list; what stands behind them is not read.
const MOST: usize = 524288;

// The list. Its room is lent, and not made here: a proof of the bounds would go through all of its zeros.
fn read(room: &mut [u8; MOST]) -> &[u8] {
    let size = io::read_full(0, room);
    &room[..size]
}

fn main() {
    let mut room = [0; MOST];
    list::run(read(&mut room));
}
