//! The lines of the counting program, read: a command each, or what is wrong with it. Knows nothing of books.
#![tactic(auto)]

ghost use Rattle.std.specs.Prelude.{◌≡◌, ℕ, Some, None, drop, MatchOption};
ghost use Rattle.commands.specs.Lines.{words_for, number_of, verb_of, command_of};

use std::error::Error;
use std::fmt;

#[derive(Clone, Copy, PartialEq, Eq, Debug)]
pub enum Verb {
    // width N: opens a book
    Width,
    // + KEY: puts
    Put,
    // - KEY: takes
    Take,
    // ? KEY: asks for the bounds
    Ask,
}

#[derive(Clone, Copy, PartialEq, Eq, Debug)]
pub struct Command {
    pub verb: Verb,
    pub number: u32,
}

#[derive(Clone, Copy, PartialEq, Eq, Debug)]
pub enum LineFault {
    Empty,
    Unknown,
    NoNumber,
    TooLarge,
}

impl fmt::Display for LineFault {
    ghost output = { λ f. Some (words_for f) };

    fn fmt<W: fmt::Write>(&self, f: &mut fmt::Formatter<W>) -> fmt::Result {
        f.write_str(match self {
            LineFault::Empty => "an empty line",
            LineFault::Unknown => "not width N, + KEY, - KEY or ? KEY",
            LineFault::NoNumber => "no decimal number",
            LineFault::TooLarge => "a number above 4294967295",
        })
    }
}

impl Error for LineFault {}

// The decimal number of the digits, below 2^32.
fn number(digits: &[u8]) -> Result<u32, LineFault>
    ensures { result ≡ number_of digits.now }
{
    if digits.is_empty() {
        return Err(LineFault::NoNumber);
    }
    let mut n = 0;
    for b in digits {
        if !b.is_ascii_digit() {
            return Err(LineFault::NoNumber);
        }
        let more = u64::from(n) * 10 + u64::from(*b - b'0');
        n = u32::try_from(more).map_err(|_| LineFault::TooLarge)?;
    }
    Ok(n)
}

// What the line asks for, and the rest, where its number stands.
fn verb_of(line: &[u8]) -> Option<(Verb, &[u8])>
    ensures { MatchOption result (verb_of line.now ≡ None) (λ p. (i : ℕ) × (verb_of line.now ≡ Some (p.0, i)) × (p.1.now ≡ drop i line.now)) }
{
    match line {
        [b'+', b' ', rest @ ..] => Some((Verb::Put, rest)),
        [b'-', b' ', rest @ ..] => Some((Verb::Take, rest)),
        [b'?', b' ', rest @ ..] => Some((Verb::Ask, rest)),
        [b'w', b'i', b'd', b't', b'h', b' ', rest @ ..] => Some((Verb::Width, rest)),
        _ => None,
    }
}

// The command of a line, without its line feed.
pub fn parse(line: &[u8]) -> Result<Command, LineFault>
    ensures { result ≡ command_of line.now }
{
    if line.is_empty() {
        return Err(LineFault::Empty);
    }
    let (verb, digits) = verb_of(line).ok_or(LineFault::Unknown)?;
    let number = number(digits)?;
    Ok(Command { verb, number })
}
