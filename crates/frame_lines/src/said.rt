//! What one line says.
use day_frame::{Summary, read};
use frames::head::{Allowed, Kind};
use frames::key_frames::Keys;
use frames::readings::Readings;
use hex_line::{BYTES, decode};
use keys::tag::Tag;
use refusals::Refusal;

#[derive(Drop)]
pub(crate) enum Said<'a> {
    Readings(Readings<'a>),
    Tags(Keys<'a, Tag>),
    Day(Summary),
}

impl<'a> Said<'a> {
    // What the line says, or why it is refused. It borrows the bytes of the line's digits.
    pub(crate) fn of(line: &[u8], bytes: &'a mut [u8; BYTES]) -> Result<Said<'a>, Refusal> {
        let n = decode(line, bytes)?;
        let frame = &bytes[..n];
        match Kind::of(frame)? {
            Kind::Readings(_) => Ok(Said::Readings(Readings::check(frame, Allowed::BOTH)?)),
            Kind::Keys(_) => Ok(Said::Tags(Keys::check(frame, Allowed::BOTH)?)),
            Kind::Day => Ok(Said::Day(read(frame)?)),
        }
    }
}
