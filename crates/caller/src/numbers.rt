// The numbers of a line, taken byte by byte: decimal digits, 32 bits at most; blanks part them.
ghost use Rattle.std.specs.Prelude.{◌≡◌, ◌+◌, ◌*◌, ◌^◌, ◌<◌, ◌↔◌, [], IsTrue, IsSome, IsNone, IfSome};
ghost use Rattle.caller.specs.Numbers.{value_of};

use crate::cases::LINE_WORDS;
use arrayvec::ArrayVec;

// Where a line stands that can be read so far: no byte has come, the last one parted numbers, or a number is begun and has this
// value so far.
#[derive(Clone, Copy)]
enum Place {
    Start,
    Between,
    Number(u32),
}

impl Place {
    // The value so far of the number that is begun, 0 where none is.
    fn value(self) -> u32
        ensures { result ≡ value_of self }
    {
        match self {
            Place::Number(value) => value,
            Place::Start | Place::Between => 0,
        }
    }

    // The place behind one digit more, where the number still has 32 bits. Digits are added by hand because the line is read byte
    // by byte and no text of it is kept.
    fn with_digit(self, digit: u8) -> Option<Place>
        ensures fits { IsSome result ↔ (10 * value_of self + digit < 2 ^ 32) }
        ensures value { IfSome result (λ place. place ≡ Place.Number (10 * value_of self + digit)) }
    {
        let value = self.value().checked_mul(10)?.checked_add(u32::from(digit))?;
        Some(Place::Number(value))
    }
}

// A line that is begun: its numbers that have ended, and where it stands. One that cannot be read stands nowhere, and its
// other bytes are passed over.
#[derive(Drop)]
pub struct Line {
    numbers: ArrayVec<u32, LINE_WORDS>,
    place: Option<Place>,
}

impl Line {
    // A line with no byte.
    pub fn new() -> Line
        ensures numbers { result.numbers.items ≡ [] }
        ensures place { result.place ≡ Some Place.Start }
    {
        Line {
            numbers: ArrayVec::new(),
            place: Some(Place::Start),
        }
    }

    // Whether no byte has come.
    pub fn is_empty(&self) -> bool
        ensures { IsTrue result ↔ (self.now.place ≡ Some Place.Start) }
    {
        matches!(self.place, Some(Place::Start))
    }

    // Takes one byte more, which is no LF.
    pub fn take_byte(&mut self, byte: u8)
        ensures passed_over { self.old.place ≡ None → self.new.place ≡ None }
        ensures begun { ¬ (self.new.place ≡ Some Place.Start) }
    {
        self.place = self.place_after(byte);
    }

    // Where the line stands behind one byte more.
    fn place_after(&mut self, byte: u8) -> Option<Place>
        ensures passed_over { self.old.place ≡ None → result ≡ None }
        ensures begun { ¬ (result ≡ Some Place.Start) }
    {
        match byte {
            b' ' | b'\t' => self.end_number(),
            b'0'..=b'9' => self.place?.with_digit(byte - b'0'),
            _ => None,
        }
    }

    // Keeps the number that is begun, if there is one and it fits: where the line stands then.
    fn end_number(&mut self) -> Option<Place>
        ensures passed_over { self.old.place ≡ None → result ≡ None }
        ensures begun { ¬ (result ≡ Some Place.Start) }
    {
        if let Place::Number(number) = self.place? {
            self.numbers.try_push(number).ok()?;
        }
        Some(Place::Between)
    }

    // The numbers of the line, which ends here; none if it cannot be read.
    pub fn end(&mut self) -> Option<&mut [u32]>
        ensures { self.old.place ≡ None → IsNone result }
    {
        self.end_number()?;
        Some(self.numbers.as_mut_slice())
    }

    // Begins the next line.
    pub fn clear(&mut self)
        ensures numbers { self.new.numbers.items ≡ [] }
        ensures place { self.new.place ≡ Some Place.Start }
    {
        self.numbers.clear();
        self.place = Some(Place::Start);
    }
}
