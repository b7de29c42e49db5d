// What goes with a table: the settings that it was made for, and its column count. It goes into and comes out of every call on a table; its
// arithmetic and its limits are here and nowhere else.
ghost use Rattle.std.specs.Prelude.{◌≡◌, cond};
ghost use Rattle.plate.specs.Head.{cleared_head, with_columns, more, both, less, capped, is_over, is_full, is_less};

#[repr(C)]
#[derive(Clone, Copy)]
pub struct Head {
    pub height: u32,
    pub members: u32,
    pub columns: u32,
}

impl Head {
    pub const MOST_COLUMNS: u32 = 1000000;

    // Of a table that was cleared.
    pub fn cleared(height: u32, members: u32) -> Head
        ensures { result ≡ cleared_head height members }
    {
        Head {
            height,
            members,
            columns: 0,
        }
    }

    // The same with so many columns.
    fn with_columns(self, columns: u32) -> Head
        ensures { result ≡ with_columns self columns }
    {
        Head { columns, ..self }
    }

    // Whether there are more columns than a table can have.
    #[tactic(auto, unfolding(crate::specs::Head::is_over))]
    pub fn is_over(self) -> bool
        ensures { result ≡ is_over self }
    {
        Head::MOST_COLUMNS < self.columns
    }

    // Whether there is no room for one column more.
    #[tactic(auto, unfolding(crate::specs::Head::is_full))]
    pub fn is_full(self) -> bool
        ensures { result ≡ is_full self }
    {
        Head::MOST_COLUMNS <= self.columns
    }

    // Whether two tables together have more columns than one can have.
    #[tactic(auto, unfolding(crate::specs::Head::is_over))]
    pub fn is_over_with(self, other: Head) -> bool
        ensures { result ≡ is_over (both self other) }
    {
        u64::from(Head::MOST_COLUMNS) < u64::from(self.columns) + u64::from(other.columns)
    }

    // Whether there are fewer columns than another table has.
    #[tactic(auto, unfolding(crate::specs::Head::is_less))]
    pub fn is_less(self, other: Head) -> bool
        ensures { result ≡ is_less self other }
    {
        self.columns < other.columns
    }

    // One column more; the same where there is no room for it.
    #[tactic(auto, unfolding(crate::specs::Head::is_full))]
    pub fn with_column(self) -> Head
        ensures { result ≡ cond (is_full self) self (more self) }
    {
        if self.is_full() {
            return self;
        }
        self.with_columns(self.columns + 1)
    }

    // The columns of two tables; those of the first alone where both are too many.
    #[tactic(auto, unfolding(crate::specs::Head::is_over))]
    pub fn joined_with(self, other: Head) -> Head
        ensures { result ≡ cond (is_over (both self other)) self (both self other) }
    {
        if self.is_over_with(other) {
            return self;
        }
        self.with_columns(self.columns + other.columns)
    }

    // The columns that another table leaves, and none where it has more.
    pub fn without(self, other: Head) -> Head
        ensures { result ≡ less self other }
    {
        self.with_columns(self.columns.saturating_sub(other.columns))
    }

    // No more columns than a table can have.
    pub fn capped(self) -> Head
        ensures { result ≡ capped self }
    {
        self.with_columns(self.columns.min(Head::MOST_COLUMNS))
    }
}
