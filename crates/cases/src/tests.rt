// Marks that never come again, of a type with no more than `Mark` asks, are laid and looked at.
use crate::lent::{Mark, end_of_marks, fill};

impl Mark for u64 {
    ghost none = { 0 };

    ghost mark = { λ i. i };

    ghost tells = { λ x i e. e };

    fn mark(i: usize) -> u64 {
        i as u64
    }
}

#[test]
fn marks_that_never_come_again(rt: HostRuntime) {
    let mut held = [1_000u64; 70];
    fill(&mut held, 60);
    for (from, to, end) in [(0, 70, 60), (0, 55, 55), (61, 70, 61), (80, 90, 80)] {
        assert_eq!(rt; end_of_marks(&held, from, to), end, "from {from} to {to}");
    }
    held[51] = 1;
    for (from, to, end) in [(0, 70, 51), (51, 70, 51), (52, 70, 60)] {
        assert_eq!(rt;
            end_of_marks(&held, from, to),
            end,
            "from {from} to {to}, one number changed"
        );
    }
}
