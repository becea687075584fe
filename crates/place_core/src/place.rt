//! A place in a recording, as a word names it.

ghost use Rattle.std.specs.Prelude.{◌≡◌, ◌≢◌, ◌<◌, ◌∷◌, [], ℕ, List, SomeIff, slice_index};
ghost use Rattle.std.specs.Char.{digit_value};
ghost use Rattle.std.specs.Str.Parse.{digits_value};
ghost use Rattle.place_core.specs.Places.{IsNumbered, NamesNumber};
ghost use Rattle.place_core.specs.Times.{IsTimed, StepsBy, in_range, is_field, rest_time, time_of};
ghost use Rattle.place_core.specs.declared.place.Place.TheVariants as places;

/// A place in a recording.
#[derive(Clone, Copy)]
pub enum Place {
    /// A time from the beginning, in nanoseconds.
    Time(u64),
    /// A frame of what is played, the first being 0.
    Frame(u64),
    /// A mark of a DSDIFF 1.5 file, the first being 0.
    Mark(u64),
}

// The nanoseconds of a second.
const SECOND: u64 = 1_000_000_000;

/// The place that a word names: `@FRAME`, `#MARK`, or a time as `SECONDS`, `MINUTES:SECONDS` or
/// `HOURS:MINUTES:SECONDS`. Seconds may have a decimal point and up to nine digits after it. Minutes and seconds
/// after a colon are below 60.
pub fn place_named(word: &str) -> Option<Place>
    // 64 is `@`, and 35 is `#`.
    ensures frame { (digits : List ℕ) → word.now ≡ 64 ∷ digits → IsNumbered places.Frame digits result }
    ensures mark { (digits : List ℕ) → word.now ≡ 35 ∷ digits → IsNumbered places.Mark digits result }
    ensures time { slice_index word.now 0 ≢ 64 → slice_index word.now 0 ≢ 35 → IsTimed word.now result }
{
    let bytes = word.as_bytes();
    match bytes.split_first() {
        Some((b'@', digits)) => Some(Place::Frame(number_named(digits)?)),
        Some((b'#', digits)) => Some(Place::Mark(number_named(digits)?)),
        _ => Some(Place::Time(time_named(bytes)?)),
    }
}

// The value of a digit.
fn digit_of(byte: u8) -> Option<u64>
    ensures { SomeIff result (digit_value byte < 10) (digit_value byte) }
{
    if byte.is_ascii_digit() {
        Some(u64::from(byte - b'0'))
    } else {
        None
    }
}

// The number that digits name.
fn number_named(digits: &[u8]) -> Option<u64>
    ensures { SomeIff result (NamesNumber digits.now) (digits_value 10 digits.now) }
{
    if digits.is_empty() {
        return None;
    }
    let mut number: u64 = 0;
    let mut rest = digits;
    while let Some((byte, after)) = rest.split_first() {
        let digit = digit_of(*byte)?;
        number = number.checked_mul(10)?.checked_add(digit)?;
        rest = after;
    }
    Some(number)
}

// A time that is read up to a byte: what the fields before count in units of this one, this field and whether it has a
// digit, how many fields came before, what the last digit after the point is worth, and what those after it are.
#[derive(Clone, Copy)]
struct Reading {
    before: u64,
    number: u64,
    has_digit: bool,
    fields: u32,
    worth: u64,
    nanoseconds: u64,
    is_after_point: bool,
}

// The nanoseconds that a word names.
fn time_named(word: &[u8]) -> Option<u64>
    ensures { result ≡ in_range (time_of word.now) }
{
    let mut reading = Reading {
        before: 0,
        number: 0,
        has_digit: false,
        fields: 0,
        worth: 0,
        nanoseconds: 0,
        is_after_point: false,
    };
    let mut rest = word;
    while let Some((byte, after)) = rest.split_first() {
        reading = reading.with(*byte)?;
        rest = after;
    }
    reading.end()
}

impl Reading {
    // Whether this field has digits, and is below 60 where another came before it.
    fn is_field(self) -> bool
        ensures { result ≡ is_field self.fields self.has_digit self.number }
    {
        self.has_digit && (self.fields == 0 || self.number < 60)
    }

    // What is read with one byte more.
    fn with(self, byte: u8) -> Option<Reading>
        ensures { StepsBy self byte result }
    {
        match byte {
            b':' => self.colon(),
            b'.' => self.point(),
            other => self.digit(other),
        }
    }

    fn digit(self, byte: u8) -> Option<Reading>
        ensures { byte ≢ 58 → byte ≢ 46 → StepsBy self byte result }
    {
        let value = digit_of(byte)?;
        let mut next = self;
        next.has_digit = true;
        if self.is_after_point {
            next.worth = self.worth / 10;
            if next.worth == 0 {
                return None;
            }
            next.nanoseconds = self
                .nanoseconds
                .checked_add(value.checked_mul(next.worth)?)?;
        } else {
            next.number = self.number.checked_mul(10)?.checked_add(value)?;
        }
        Some(next)
    }

    fn colon(self) -> Option<Reading>
        ensures { StepsBy self 58 result }
    {
        if self.is_after_point || self.fields >= 2 || !self.is_field() {
            return None;
        }
        let mut next = self;
        next.before = self.before.checked_add(self.number)?.checked_mul(60)?;
        next.number = 0;
        next.has_digit = false;
        next.fields = self.fields + 1;
        Some(next)
    }

    fn point(self) -> Option<Reading>
        ensures { StepsBy self 46 result }
    {
        if self.is_after_point || !self.is_field() {
            return None;
        }
        let mut next = self;
        next.is_after_point = true;
        next.has_digit = false;
        next.worth = SECOND;
        Some(next)
    }

    fn end(self) -> Option<u64>
        ensures { result ≡ in_range (rest_time self []) }
    {
        if !self.is_field() {
            return None;
        }
        let seconds = self.before.checked_add(self.number)?;
        seconds.checked_mul(SECOND)?.checked_add(self.nanoseconds)
    }
}
