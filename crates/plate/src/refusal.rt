// Refusals: why a call was refused, and where. Document 01 numbers the reasons; `Reason::number` gives its numbers.
ghost use Rattle.std.specs.Prelude.{◌≡◌};
ghost use Rattle.plate.specs.Refusal.{number_of};

#[derive(Clone, Copy)]
pub enum Reason {
    Height,
    NoThickness,
    ShortBuffer,
    BoundaryCount,
    Boundary,
    Cell,
    Columns,
    Settings,
    NotAPart,
    Count,
    NoSequence,
    Unreadable,
    NotAdmissible,
    Step,
    MotorBoundary,
    RanOut,
    TooLarge,
    NoCure,
    WrongKind,
    WrongLength,
    Disagrees,
}

impl Reason {
    // The number that document 01 gives the reason.
    pub fn number(self) -> u32
        ensures { result ≡ number_of self }
    {
        match self {
            Reason::Height => 1,
            Reason::NoThickness => 2,
            Reason::ShortBuffer => 3,
            Reason::BoundaryCount => 4,
            Reason::Boundary => 5,
            Reason::Cell => 6,
            Reason::Columns => 7,
            Reason::Settings => 8,
            Reason::NotAPart => 9,
            Reason::Count => 10,
            Reason::NoSequence => 11,
            Reason::Unreadable => 12,
            Reason::NotAdmissible => 13,
            Reason::Step => 14,
            Reason::MotorBoundary => 15,
            Reason::RanOut => 16,
            Reason::TooLarge => 17,
            Reason::NoCure => 18,
            Reason::WrongKind => 19,
            Reason::WrongLength => 20,
            Reason::Disagrees => 21,
        }
    }
}

#[derive(Clone, Copy)]
pub struct Refusal {
    pub reason: Reason,
    pub place: u64,
}

// The refusal for a reason at a place.
pub fn refusal_at(reason: Reason, place: usize) -> Refusal
    ensures { result ≡ record { reason = reason; place = place } }
{
    Refusal {
        reason,
        place: place as u64,
    }
}
