//! A tag of an alarm: a station, then a code of that station; ordered so, 6 bytes in a frame.
ghost use Rattle.std.specs.Prelude.{true, false, ◌++◌, if◌then◌else◌, nat_lt};
ghost use Rattle.keys.specs.Bytes.{four, two, from_four, from_two};
ghost use Rattle.keys.specs.Strings.{tag_forth};
ghost use Rattle.std.proofs.Common.{rules};

use super::key::{Key, WrongLength};

#[derive(Clone, Copy, PartialEq, Eq, PartialOrd, Ord, Debug)]
pub struct Tag {
    pub station: u32,
    pub code: u16,
}

impl Key for Tag {
    const BYTES: usize = 6;

    ghost BYTES = { 6 };

    ghost before = { λ x y. (if nat_lt x.station y.station then true else (if nat_lt y.station x.station then false else nat_lt x.code y.code)) };

    ghost bytes = { λ x. four x.station ++ two x.code };

    ghost key = { λ bs. record { station = from_four bs 0; code = from_two bs 4 } };

    ghost never = { Prim.search rules };

    ghost onward = { Prim.search rules };

    ghost total = { Prim.search rules };

    ghost some = { Prim.search rules };

    ghost few = { Prim.search rules };

    ghost long = { Prim.search rules };

    ghost back = { Prim.search rules };

    ghost forth = { λ bs n o. tag_forth bs n o };

    fn is_before(self, other: Tag) -> bool {
        self < other
    }

    fn write(self, to: &mut [u8]) -> Result<(), WrongLength> {
        if to.len() != Self::BYTES {
            return Err(WrongLength);
        }
        let [a, b, c, d] = self.station.to_be_bytes();
        let [e, f] = self.code.to_be_bytes();
        to.copy_from_slice(&[a, b, c, d, e, f]);
        Ok(())
    }

    fn read(from: &[u8]) -> Option<Tag> {
        match from {
            [a, b, c, d, e, f] => {
                let station = u32::from_be_bytes([*a, *b, *c, *d]);
                let code = u16::from_be_bytes([*e, *f]);
                Some(Tag { station, code })
            }
            _ => None,
        }
    }

    fn slot(self) -> usize {
        self.station
            .wrapping_mul(31)
            .wrapping_add(u32::from(self.code)) as usize
    }
}
