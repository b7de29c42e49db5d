// The numbers in a line of the list. Words among the numbers are for the reader.

// From here on a number stands for one below 0: it is as much less than the greatest as that one is below 0. It is no i64, since a list also gives
// the greatest, and more digits than 64 bits hold. What is read of those may not change.
const BELOW: u64 = 9223372036854775808;

// A number with one digit more, and the greatest where that is too great.
fn tenfold(number: u64, digit: u64) -> u64 {
    number.saturating_mul(10).saturating_add(digit)
}

// A number of a line, as it is read. What is given a number takes it in as many bits as it has.
#[derive(Clone, Copy)]
pub(crate) struct Value(u64);

impl Value {
    fn with_digit(self, digit: u64) -> Self {
        if self.0 < BELOW {
            Value(tenfold(self.0, digit))
        } else {
            Value(!tenfold(!self.0, digit))
        }
    }

    // With its sign.
    fn signed(self) -> i64 {
        if self.0 < BELOW {
            self.0 as i64
        } else {
            -(!self.0 as i64)
        }
    }
}

// A number in fewer bits; the greatest of them where it is greater.
impl From<Value> for u8 {
    fn from(value: Value) -> u8 {
        u8::try_from(value.0).unwrap_or(u8::MAX)
    }
}

impl From<Value> for u16 {
    fn from(value: Value) -> u16 {
        u16::try_from(value.0).unwrap_or(u16::MAX)
    }
}

impl From<Value> for u32 {
    fn from(value: Value) -> u32 {
        u32::try_from(value.0).unwrap_or(u32::MAX)
    }
}

impl From<Value> for usize {
    fn from(value: Value) -> usize {
        usize::try_from(value.0).unwrap_or(usize::MAX)
    }
}

impl From<Value> for u64 {
    fn from(value: Value) -> u64 {
        value.0
    }
}

// A number with its sign, and 0 where 32 bits do not hold it.
impl From<Value> for i32 {
    fn from(value: Value) -> i32 {
        i32::try_from(value.signed()).unwrap_or(0)
    }
}

// What is read of a number: nothing so far, its minus, or digits.
#[derive(Clone, Copy)]
enum Reading {
    Nothing,
    Minus,
    Digits(Value),
}

impl Reading {
    // 0 where there is no number, and of a minus alone the greatest.
    fn value(self) -> Value {
        match self {
            Reading::Nothing => Value(0),
            Reading::Minus => Value(u64::MAX),
            Reading::Digits(value) => value,
        }
    }

    fn with_minus(self) -> Self {
        match self {
            Reading::Digits(_) => Reading::Digits(Value(u64::MAX)),
            _ => Reading::Minus,
        }
    }

    // A minus begins a number, a digit goes on with it, any other character ends it; and a semicolon ends the search for it.
    fn with(self, character: u8) -> Option<Self> {
        match character {
            b'0'..=b'9' => {
                let digit = u64::from(character - b'0');
                Some(Reading::Digits(self.value().with_digit(digit)))
            }
            b'-' => Some(self.with_minus()),
            b';' => None,
            _ => match self {
                Reading::Digits(_) => None,
                _ => Some(self),
            },
        }
    }
}

// The numbers of what is left of a line, up to the next semicolon. They are no Iterator, since past the last one a number that is not there is 0.
#[derive(Drop)]
pub(crate) struct Numbers<'a> {
    rest: &'a [u8],
}

impl<'a> Numbers<'a> {
    // Those behind the first such character.
    pub(crate) fn after(line: &'a [u8], character: u8) -> Self {
        let rest = match line.iter().position(|x| *x == character) {
            Some(place) => &line[place + 1..],
            None => &[],
        };
        Numbers { rest }
    }

    fn read(&mut self) -> Reading {
        let line = self.rest;
        let mut reading = Reading::Nothing;
        for (i, character) in line.iter().enumerate() {
            match reading.with(*character) {
                Some(more) => reading = more,
                None => {
                    self.rest = &line[i..];
                    return reading;
                }
            }
        }
        self.rest = &[];
        reading
    }

    // The next number.
    pub(crate) fn next<T: From<Value>>(&mut self) -> T {
        T::from(self.read().value())
    }

    // The next number, or else a mark.
    pub(crate) fn next_or<T: From<Value>>(&mut self, mark: u64) -> T {
        match self.read() {
            Reading::Digits(value) => T::from(value),
            _ => T::from(Value(mark)),
        }
    }
}
