// The table file: its kinds of records, and the two bytes of a row's start.
#![tactic(auto)]

ghost use Rattle.std.specs.Prelude.{◌≡◌, ◌-◌, pos, ◌-ℤ◌};
ghost use Rattle.sent.specs.Kinds.{kind_number};
ghost use Rattle.sent.specs.Start.{twos16};

// The kinds of records, with the number that each has in a file.
#[derive(Clone, Copy, Debug, PartialEq, Eq)]
pub enum Kind {
    Head = 16,
    Row = 17,
    End = 18,
}

impl Kind {
    // The number in a file.
    pub fn number(self) -> u16
        ensures { result ≡ kind_number self }
    {
        self as u16
    }
}

// The start of a row, where a row is `greatest` cells: the first row starts at -(greatest - 1). It is 16 bits in two's complement.
#[tactic(auto, using(crate::proofs::Starts::bits_are))]
pub fn start_bits(greatest: usize, row: usize) -> u16
    ensures { result ≡ twos16 (pos row -ℤ pos (greatest - 1)) }
{
    (row.wrapping_sub(greatest.saturating_sub(1)) % 65536) as u16
}
