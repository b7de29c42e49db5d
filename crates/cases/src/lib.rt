// What the programs over lists of cases have in common: the lines of such a list and the bytes that one gives (line.rt), lent memory, which holds
// marks before a call (lent.rt), and what is shown of a case, put on a page (show.rt).
#![tactic(auto)]

mod lent;
mod line;
pub mod show;
#[cfg(test)]
mod tests;

pub use lent::{
    Mark, Number, PAST, Recurring, change, digest, digested, end_of_marks, end_of_recurring, fill,
    fill_recurring, front, lend,
};
pub use line::{Lines, find, given, label, lay, letter, part};
pub use show::STDOUT;
