//! The lines of an input, one by one.
ghost use Rattle.std.specs.Prelude.{◌≡◌, ◌-◌, ◌^◌};
ghost use Rattle.std.specs.Io.BufRead.{strip_last};

use commands::{Command, LineFault, parse};
use std::alloc::Global;
use std::io;

// The lines that are left, each read as a command. All of them go through one buffer: to make one for each would cost more
// than to read its command.
#[derive(Drop)]
pub(crate) struct Lines<R> {
    input: R,
    line: Vec<u8>,
    // an input need not end, but a `for` has to
    turns: u64,
}

impl<R> Lines<R> {
    pub(crate) fn new(alloc: Global, input: R) -> Lines<R>
        ensures { (result.input ≡ input) × (result.turns ≡ 2 ^ 64 - 1) }
    {
        Lines {
            input,
            line: Vec::new(alloc),
            turns: u64::MAX,
        }
    }
}

// The line without its line feed, which the last may lack.
fn without_feed(line: &[u8]) -> &[u8]
    ensures { result.now ≡ strip_last 10 line.now }
{
    match line {
        [text @ .., b'\n'] => text,
        text => text,
    }
}

impl<R: io::BufRead + Drop> Iterator for Lines<R> {
    ghost use Rattle.std.specs.Iterator.{at_most};
    ghost use Rattle.book_lines.specs.Reading.{bytes_left, YieldsCommand, TakesTurn};

    // the command, or what is wrong with the line
    type Item = io::Result<Result<Command, LineFault>>;

    ghost next_gives = { λ s r t. YieldsCommand (bytes_left R.remaining s) r (R.remaining t.input) × TakesTurn s.turns r t.turns };

    ghost remaining = { λ s. at_most s.turns };

    fn next(&mut self) -> Option<io::Result<Result<Command, LineFault>>> {
        self.turns = self.turns.checked_sub(1)?;
        self.line.clear();
        match self.input.read_until(b'\n', &mut self.line) {
            Ok(0) => None,
            Ok(_) => Some(Ok(parse(without_feed(&self.line)))),
            Err(error) => {
                self.turns = 0;
                Some(Err(error))
            }
        }
    }
}
