//! Hex lines: the digits of a line as bytes, and bytes as digits. Knows the refusals, and nothing of what the bytes say.
#![tactic(auto)]

ghost use Rattle.std.specs.Prelude.{◌≡◌, ℕ, ◌*◌, ◌/◌, ◌%◌, ◌<◌, ◌≤◌, true, false, [], ◌∷◌, length, take, drop, IfOk, MatchResult};
ghost use Rattle.refusals.specs.declared.Refusal.TheVariants.{Digits, Buffer};
ghost use Rattle.hex_line.specs.Lines.{digit_of, is_digit, all_digits, is_line, bytes_of, char_of, line_of, OneLine};

use refusals::Refusal;

// The most digits that a line has, and the most bytes.
pub const DIGITS: usize = 484;

pub const BYTES: usize = 242;

// The number of a digit; 0 for any other character.
fn digit(b: u8) -> u8
    ensures { result ≡ digit_of b }
{
    match b {
        b'0'..=b'9' => b - b'0',
        b'a'..=b'f' => b - b'a' + 10,
        _ => 0,
    }
}

fn is_digit(b: u8) -> bool
    ensures { result ≡ is_digit b }
{
    matches!(b, b'0'..=b'9' | b'a'..=b'f')
}

fn all_digits(line: &[u8]) -> bool
    ensures { result ≡ all_digits line.now }
{
    line.iter().all(|b| is_digit(*b))
}

// Writes the bytes of the digits in front, and answers how many they are: 1 if the number of digits is odd or above 484,
// or a character is none. A number, and not a slice of the buffer: so the contract can say what the buffer holds behind it.
pub fn decode(line: &[u8], to: &mut [u8; BYTES]) -> Result<usize, Refusal>
    ensures few { IfOk result (λ n. n ≤ 242) }
    ensures bytes { MatchResult result (λ n. (is_line line.now ≡ true) × (n ≡ length line.now / 2) × (take n to.new ≡ bytes_of line.now) × (drop n to.new ≡ drop n to.old)) (λ e. (is_line line.now ≡ false) × (e ≡ Digits) × (to.new ≡ to.old)) }
{
    if line.len() > DIGITS || line.len() % 2 != 0 || !all_digits(line) {
        return Err(Refusal::Digits);
    }
    // by index: of values written through an adapter of iter_mut a proof knows nothing
    for (i, pair) in line.chunks_exact(2).enumerate() {
        to[i] = digit(pair[0]) * 16 + digit(pair[1]);
    }
    Ok(line.len() / 2)
}

// The digit of a number below 16.
fn char_of(d: u8) -> u8
    requires { d < 16 }
    ensures { result ≡ char_of d }
{
    if d < 10 { b'0' + d } else { b'a' + (d - 10) }
}

// Writes the digits of the bytes in front, and answers how many they are: 19 if the buffer is too short for them. A number,
// and by index, as in decode.
pub fn encode(bytes: &[u8], to: &mut [u8]) -> Result<usize, Refusal>
    ensures { MatchResult result (λ n. (2 * length bytes.now ≤ length to.old) × (n ≡ 2 * length bytes.now) × (take n to.new ≡ line_of bytes.now) × (drop n to.new ≡ drop n to.old)) (λ e. (length to.old < 2 * length bytes.now) × (e ≡ Buffer) × (to.new ≡ to.old)) }
{
    if to.len() / 2 < bytes.len() {
        return Err(Refusal::Buffer);
    }
    for (i, b) in bytes.iter().enumerate() {
        to[2 * i] = char_of(b / 16);
        to[2 * i + 1] = char_of(b % 16);
    }
    Ok(2 * bytes.len())
}

// One string of bytes is one line.
pub fn lines_are_canonical()
    ensures { OneLine }
{}
