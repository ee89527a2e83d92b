//! A reading as degrees with two decimals.
use std::fmt;

#[derive(Clone, Copy)]
pub(crate) struct Degrees(pub(crate) i16);

impl fmt::Display for Degrees {
    fn fmt<W: fmt::Write>(&self, f: &mut fmt::Formatter<W>) -> fmt::Result {
        let sign = if self.0 < 0 { "-" } else { "" };
        let hundredths = self.0.unsigned_abs();
        write!(f, "{sign}{}.{:02}", hundredths / 100, hundredths % 100)
    }
}
