//! What is said of a refusal to a person: its number, and a few words.
use super::Refusal;
use std::fmt;

fn words(refusal: Refusal) -> &'static str {
    match refusal {
        Refusal::Digits => "a line is an even number of digits 0-9 and a-f, at most 484",
        Refusal::NoByte => "there is no byte",
        Refusal::Kind => "this kind is unknown, or not allowed now",
        Refusal::Length => "too few or too many bytes",
        Refusal::Count => "the count is out of range",
        Refusal::MapBit => "a bit of the map is set beyond the samples",
        Refusal::Scale => "a reading is outside the scale",
        Refusal::Share => "more retractions than the share allows",
        Refusal::Absent => "nothing of this key is left to take",
        Refusal::Depth => "a depth is 2 to 16",
        Refusal::Width => "a width is 2 to 1024",
        Refusal::ShareRange => "a share is 0 to 999",
        Refusal::Base => "the scale ends above 32767",
        Refusal::Short => "the table is too short",
        Refusal::Value => "the value is above top",
        Refusal::Position => "no reading has this position",
        Refusal::Threshold => "the threshold is not above the ceiling",
        Refusal::Buffer => "the buffer is too short",
        Refusal::Row => "there is no such row or book",
        Refusal::Node => "there is no such node",
        Refusal::Full => "a count is at its limit",
    }
}

impl fmt::Display for Refusal {
    fn fmt<W: fmt::Write>(&self, f: &mut fmt::Formatter<W>) -> fmt::Result {
        let number = self.number();
        let words = words(*self);
        write!(f, "{number}, {words}")
    }
}
