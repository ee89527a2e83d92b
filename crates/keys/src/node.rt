//! A node: a 32-bit number, ordered by size, 4 bytes in a frame.
ghost use Rattle.std.specs.Prelude.{nat_lt};
ghost use Rattle.keys.specs.Bytes.{four, from_four};
ghost use Rattle.keys.specs.Strings.{node_forth};
ghost use Rattle.std.proofs.Common.{rules};

use super::key::{Key, WrongLength};

#[derive(Clone, Copy, PartialEq, Eq, PartialOrd, Ord, Debug)]
pub struct Node {
    pub number: u32,
}

impl Key for Node {
    const BYTES: usize = 4;

    ghost BYTES = { 4 };

    ghost before = { λ x y. nat_lt x.number y.number };

    ghost bytes = { λ x. four x.number };

    ghost key = { λ bs. record { number = from_four bs 0 } };

    ghost never = { Prim.search rules };

    ghost onward = { Prim.search rules };

    ghost total = { Prim.search rules };

    ghost some = { Prim.search rules };

    ghost few = { Prim.search rules };

    ghost long = { Prim.search rules };

    ghost back = { Prim.search rules };

    ghost forth = { λ bs n o. node_forth bs n o };

    fn is_before(self, other: Node) -> bool {
        self < other
    }

    fn write(self, to: &mut [u8]) -> Result<(), WrongLength> {
        if to.len() != Self::BYTES {
            return Err(WrongLength);
        }
        to.copy_from_slice(&self.number.to_be_bytes());
        Ok(())
    }

    fn read(from: &[u8]) -> Option<Node> {
        match from {
            [a, b, c, d] => Some(Node {
                number: u32::from_be_bytes([*a, *b, *c, *d]),
            }),
            _ => None,
        }
    }

    fn slot(self) -> usize {
        self.number as usize
    }
}
