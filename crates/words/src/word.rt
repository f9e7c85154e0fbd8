//! Words of an image.

/// How many numbers a payload can be.
pub const PAYLOADS: u32 = 268_435_456;

/// The kinds of words: the first word of an image, the word of a station, and the five words of a record.
#[derive(Clone, Copy, PartialEq, Eq, Debug)]
pub enum Kind {
    First = 1,
    Station = 2,
    Number = 3,
    FirstPayload = 4,
    SecondPayload = 5,
    ThirdPayload = 6,
    FourthPayload = 7,
}
