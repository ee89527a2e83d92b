//! Why a call is refused, and the number by which the answer tells it. Knows nothing else.
#![tactic(auto)]

ghost use Rattle.std.specs.Prelude.{◌≡◌};
ghost use Rattle.refusals.specs.Numbers.{number_of, fault_number, fault_values};
ghost use Rattle.refusals.specs.declared.Fault.TheVariants.{Frame};

pub mod words;

// Every refusal there is, with its number; 17 is not used. docs/refusals.md says who meets which, and which calls are built.
#[derive(Clone, Copy, PartialEq, Eq, Debug)]
pub enum Refusal {
    // a line that is not an even number of at most 484 hexadecimal digits
    Digits = 1,
    // a frame with no byte
    NoByte = 2,
    // a kind of frame that is unknown, or not allowed now
    Kind = 3,
    // a frame with too few or too many bytes
    Length = 4,
    // a count of samples out of range
    Count = 5,
    // a bit of the presence map beyond the samples
    MapBit = 6,
    // a sample outside the scale
    Scale = 7,
    // more retractions than the share allows
    Share = 8,
    // a take of a key whose high is 0
    Absent = 9,
    // a depth that is not 2 to 16
    Depth = 10,
    // a width that is not 2 to 1,024
    Width = 11,
    // a share above 999
    ShareRange = 12,
    // a base whose scale ends above 32,767
    Base = 13,
    // a table that has too few places
    Short = 14,
    // a value above top
    Value = 15,
    // a position that is 0 or above live, or a closing with no adds
    Position = 16,
    // a threshold that is not above the ceiling
    Threshold = 18,
    // a buffer that has too few places
    Buffer = 19,
    // a book or a row that is not there
    Row = 20,
    // a node that is not there
    Node = 21,
    // a count at its limit
    Full = 22,
}

impl Refusal {
    pub fn number(self) -> u8
        ensures { result ≡ number_of self }
    {
        self as u8
    }
}

// Why a feed did not take every sample of its frame.
#[derive(Clone, Copy, PartialEq, Eq, Debug)]
pub enum Fault {
    // the frame was refused whole: nothing was taken
    Frame(Refusal),
    // the sample at an index was refused, after some were taken, which stay taken; missing ones count in the index
    Sample {
        cause: Refusal,
        index: u8,
        taken: u8,
    },
}

impl Fault {
    pub fn number(self) -> u8
        ensures { result ≡ fault_number self }
    {
        match self {
            Fault::Frame(cause) => cause.number(),
            Fault::Sample { cause, .. } => cause.number(),
        }
    }

    // How many samples were taken, and the index of the refused one; none if the frame was refused whole.
    pub fn values(self) -> Option<(u8, u8)>
        ensures { result ≡ fault_values self }
    {
        match self {
            Fault::Frame(_) => None,
            Fault::Sample { index, taken, .. } => Some((taken, index)),
        }
    }
}

impl From<Refusal> for Fault {
    ghost from_gives = { λ r o. o ≡ Frame r };

    fn from(refusal: Refusal) -> Fault {
        Fault::Frame(refusal)
    }
}
