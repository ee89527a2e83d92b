//! The trait of a key.
ghost use Rattle.std.specs.Prelude.{◌≡◌, ℕ, ◌≤◌, Bool, true, false, List, length, is_ok, if◌then◌else◌, Some, None, ◌==◌};
ghost use Rattle.keys.specs.Bytes.{Octets};

// A slice whose length is not that of a key.
#[derive(Clone, Copy, PartialEq, Eq, Debug)]
pub struct WrongLength;

// A kind of key. Of two keys exactly one is before the other, or they are the same, which means equal in every field.
// Keys match the strings of `BYTES` bytes one to one.
pub trait Key: Copy {
    // How many bytes a key takes in a frame.
    const BYTES: usize;

    ghost BYTES: { ℕ };

    ghost before: { Self → Self → Bool };

    ghost bytes: { Self → List ℕ };

    ghost key: { List ℕ → Self };

    fn is_before(self, other: Self) -> bool
        ensures { result ≡ before self other };

    // Writes the key where there are exactly its bytes; else nothing is written.
    fn write(self, to: &mut [u8]) -> Result<(), WrongLength>
        ensures fits { is_ok result ≡ (length to.old == BYTES) }
        ensures after { to.new ≡ (if is_ok result then bytes self else to.old) };

    // The key of exactly that many bytes.
    fn read(from: &[u8]) -> Option<Self>
        ensures { result ≡ (if length from.now == BYTES then Some (key from.now) else None) };

    // A number to look near for the key; neighbouring keys should differ in it. Nothing rests on it.
    fn slot(self) -> usize;

    ghost never: { (x : Self) → before x x ≡ false };

    ghost onward: { (x y z : Self) → before x y ≡ true → before y z ≡ true → before x z ≡ true };

    ghost total: { (x y : Self) → before x y ≡ false → before y x ≡ false → x ≡ y };

    ghost some: { 1 ≤ BYTES };

    ghost few: { BYTES ≤ 255 };

    ghost long: { (x : Self) → length (bytes x) ≡ BYTES };

    ghost back: { (x : Self) → key (bytes x) ≡ x };

    ghost forth: { (bs : List ℕ) → length bs ≡ BYTES → Octets bs → bytes (key bs) ≡ bs };
}
