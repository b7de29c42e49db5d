// The job file: its kinds of records, a cursor by value that reads one record, and a reading state that goes in and comes back.
#![tactic(auto)]

ghost use Rattle.std.specs.Prelude.{◌≡◌, false, [], ◌∷◌, ◌≤◌, length};
ghost use Rattle.lists.specs.Checks.{first};
ghost use Rattle.paper.specs.Limits.{most_boundaries};
ghost use Rattle.plate.specs.Refusal.{number_of, refused, decided, said_by};
ghost use Rattle.plate.specs.Head.{is_full};
ghost use Rattle.column.specs.Order.{column_checks};
ghost use Rattle.record.specs.Bytes.{words};
ghost use Rattle.record.specs.Frame.{past_at};
ghost use Rattle.record.specs.Faults.{tail};
ghost use Rattle.job.specs.State.{start_state, begin as State·begin, counted as State·counted, finish as State·finish};
ghost use Rattle.job.specs.Kinds.{kind_of, allowed_here, fits as Kind·fits};
ghost use Rattle.job.specs.Record.{Ready, moved, again, read_body, read_record, told_read, told_step, told_or};

use column::{MOST_BOUNDARIES, check_column};
use plate::head::Head;
use plate::refusal::{Reason, Refusal, refusal_at};
use plate::settings::Settings;
use record::{Fault, check_frame, check_tail, kind_at, length_at, quad, read_words, word};

// What a settings record asks for.
#[derive(Clone, Copy)]
pub struct Asked {
    pub height: u32,
    pub members: u32,
    pub bound: u32,
}

// What has been read so far: whether settings were, whether the end was, what goes with the table of these columns, and the bound. The two flags stay:
// a caller hands in any state, such as an ended one that never began, and `Cursor::read` promises its answer on each (trial_records gives them).
#[derive(Clone, Copy)]
pub struct State {
    pub begun: bool,
    pub ended: bool,
    pub head: Head,
    pub bound: u32,
}

impl State {
    // Nothing has been read.
    pub fn new() -> State
        ensures { result ≡ start_state }
    {
        State {
            begun: false,
            ended: false,
            head: Head::cleared(0, 0),
            bound: 0,
        }
    }

    // Settings were read. The column count stays as it stands.
    fn begin(mut self, asked: Asked) -> State
        ensures { result ≡ State·begin self asked }
    {
        self.begun = true;
        self.head.height = asked.height;
        self.head.members = asked.members;
        self.bound = asked.bound;
        self
    }

    // One column more was read.
    fn counted(mut self) -> State
        requires { is_full self.head ≡ false }
        ensures { result ≡ State·counted self }
    {
        let head = self.head;
        self.head = head.with_column();
        self
    }

    // The end was read.
    fn finish(mut self) -> State
        ensures { result ≡ State·finish self }
    {
        self.ended = true;
        self
    }
}

// The kinds of records.
#[derive(Clone, Copy, Debug, PartialEq, Eq)]
pub enum Kind {
    Settings,
    Column,
    End,
    Remark,
    Refused,
}

impl Kind {
    // The numbers stand as constants: a remark has many numbers and a refused kind has no one number, so that a method that gives a kind's number
    // would not be total.
    pub const SETTINGS: u16 = 1;

    pub const COLUMN: u16 = 2;

    pub const END: u16 = 3;

    pub const FIRST_REMARK: u16 = 32768;

    // Whether a record of this kind may come now, by the kinds before it.
    fn is_allowed(self, state: State) -> bool
        ensures { result ≡ allowed_here state self }
    {
        match self {
            Kind::Settings => !state.begun,
            Kind::Column => state.begun,
            Kind::End => state.begun,
            Kind::Remark => true,
            Kind::Refused => false,
        }
    }

    // Whether a body of this length is right.
    fn fits(self, len: usize) -> bool
        ensures { result ≡ Kind·fits self len }
    {
        match self {
            Kind::Settings => len == 10,
            Kind::Column => len % 2 == 0,
            Kind::End => len == 4,
            Kind::Remark => true,
            Kind::Refused => true,
        }
    }
}

// The kind of a number; other numbers are refused. The match is the form that document 01 gives this place ('Choosing the form by place').
impl From<u16> for Kind {
    ghost from_gives = { λ number kind. kind ≡ kind_of number };

    fn from(number: u16) -> Kind
        ensures { result ≡ kind_of number }
    {
        match number {
            Kind::SETTINGS => Kind::Settings,
            Kind::COLUMN => Kind::Column,
            Kind::END => Kind::End,
            Kind::FIRST_REMARK..=65535 => Kind::Remark,
            _ => Kind::Refused,
        }
    }
}

// What a record is, in the form that document 01 gives this place: a fault holds a reason, with its place beside it. A column is `count` boundaries
// of two bytes each, from `start` on.
#[derive(Clone, Copy)]
pub enum Read {
    Settings(Asked),
    Column { start: usize, count: usize },
    End(u32),
    Remark,
    Fault { reason: Reason, place: usize },
}

// Where the reading stands. It goes by value and comes back advanced, the form that document 01 gives this place.
#[derive(Clone, Copy)]
pub struct Cursor {
    pub at: usize,
}

// What was read, and where and in which state the reading goes on.
#[derive(Clone, Copy)]
pub struct Step {
    pub read: Read,
    pub cursor: Cursor,
    pub state: State,
}

impl Cursor {
    // At the first byte.
    pub fn new() -> Cursor
        ensures { result.at ≡ 0 }
    {
        Cursor { at: 0 }
    }

    // A record at fault: nothing moves, and the place is its first byte.
    fn faulted(self, state: State, reason: Reason) -> Step
        ensures { told_step result ≡ moved state self.at (refused (number_of reason) self.at) }
    {
        let place = self.at;
        let read = Read::Fault { reason, place };
        Step {
            read,
            cursor: self,
            state,
        }
    }

    // A record that was read: the reading goes on past it.
    fn passed(mut self, input: &[u8], read: Read, state: State) -> Step
        requires { past_at input.now self.at ≤ length input.now }
        ensures { told_step result ≡ record { told = told_read read; next = past_at input.now self.at; state = state } }
    {
        let at = self.at;
        self.at = at + 4 + length_at(input, at);
        Step {
            read,
            cursor: self,
            state,
        }
    }

    fn settings(self, input: &[u8], state: State) -> Result<Step, Refusal>
        requires { Ready input.now state self.at Kind.Settings }
        ensures { told_or state self.at result ≡ read_body input.now state self.at Kind.Settings }
    {
        let start = self.at + 4;
        let height = u32::from(word(input, start));
        let members = quad(input, start + 2);
        let bound = quad(input, start + 6);
        Settings::new(height, members)?;
        let asked = Asked {
            height,
            members,
            bound,
        };
        Ok(self.passed(input, Read::Settings(asked), state.begin(asked)))
    }

    fn column(self, input: &[u8], state: State) -> Result<Step, Refusal>
        requires { Ready input.now state self.at Kind.Column }
        ensures { told_or state self.at result ≡ read_body input.now state self.at Kind.Column }
    {
        let at = self.at;
        let start = at + 4;
        let count = length_at(input, at) / 2;
        let head = state.head;
        if head.is_full() {
            return Err(refusal_at(Reason::Columns, at));
        }
        if MOST_BOUNDARIES < count {
            return Err(refusal_at(Reason::BoundaryCount, at));
        }
        check_at(input, start, count, head.height as usize)?;
        Ok(self.passed(input, Read::Column { start, count }, state.counted()))
    }

    fn ending(self, input: &[u8], state: State) -> Result<Step, Refusal>
        requires { Ready input.now state self.at Kind.End }
        ensures { told_or state self.at result ≡ read_body input.now state self.at Kind.End }
    {
        let columns = quad(input, self.at + 4);
        let head = state.head;
        if columns != head.columns {
            return Err(Fault::Disagrees.at(self.at));
        }
        Ok(self.passed(input, Read::End(columns), state.finish()))
    }

    // A record whose frame was judged, by its kind.
    fn by_kind(self, input: &[u8], state: State, kind: Kind) -> Result<Step, Refusal>
        requires { Ready input.now state self.at kind }
        ensures { told_or state self.at result ≡ read_body input.now state self.at kind }
    {
        match kind {
            Kind::Settings => self.settings(input, state),
            Kind::Column => self.column(input, state),
            Kind::End => self.ending(input, state),
            Kind::Remark => Ok(self.passed(input, Read::Remark, state)),
            Kind::Refused => Err(Fault::KindHere.at(self.at)),
        }
    }

    // After the end record: the end again, where nothing is left.
    fn past_end(self, input: &[u8], state: State) -> Result<Step, Refusal>
        ensures { told_or state self.at result ≡ moved state self.at (decided (tail input.now self.at ∷ []) (again state self.at)) }
    {
        check_tail(input, self.at)?;
        let head = state.head;
        Ok(Step {
            read: Read::End(head.columns),
            cursor: self,
            state,
        })
    }

    // One record, or the refusal of the first of its checks that holds. Only its reason is told: in a file the place is the record's first byte.
    fn judged(self, input: &[u8], state: State) -> Result<Step, Refusal>
        ensures { told_or state self.at result ≡ read_record input.now state self.at }
    {
        let ended = state.ended;
        if ended {
            return self.past_end(input, state);
        }
        let at = self.at;
        let kind = Kind::from(kind_at(input, at));
        let allowed = kind.is_allowed(state);
        let right = kind.fits(length_at(input, at));
        check_frame(input, at, allowed, right)?;
        self.by_kind(input, state, kind)
    }

    // Reads one record, by the state handed in.
    pub fn read(self, input: &[u8], state: State) -> Step
        ensures { told_step result ≡ read_record input.now state self.at }
    {
        match self.judged(input, state) {
            Ok(step) => step,
            Err(refusal) => self.faulted(state, refusal.reason),
        }
    }
}

// The order of a column that stands in the input: its boundaries are put into `out`, which is as long as they are.
fn check_decoded(input: &[u8], start: usize, out: &mut [u16], height: usize) -> Result<(), Refusal>
    ensures { said_by result ≡ first (column_checks height (words input.now start (length out.old))) }
{
    read_words(input, start, out);
    check_column(out, height)
}

// 4 and 5 of the column of `count` boundaries at `start`.
fn check_at(input: &[u8], start: usize, count: usize, height: usize) -> Result<(), Refusal>
    requires { count ≤ most_boundaries }
    ensures { said_by result ≡ first (column_checks height (words input.now start count)) }
{
    let mut bounds = [0u16; MOST_BOUNDARIES];
    check_decoded(input, start, &mut bounds[..count], height)
}
