//! What the lines did so far, and one line more.
use super::say::{Answer, Refused};
use books::Books;
use commands::{Command, LineFault, Verb};
use keys::node::Node;
use std::fmt::Display;
use std::io;

// The width that a line before the opening asks for.
pub(crate) fn width_of(command: Result<Command, LineFault>) -> Result<u32, Refused> {
    match command? {
        Command {
            verb: Verb::Width,
            number,
        } => Ok(number),
        _ => Err(Refused::NotOpen),
    }
}

#[derive(Default, Drop)]
pub(crate) struct Done {
    line: u64,
    puts: u64,
    takes: u64,
    refused: u64,
}

impl Done {
    // One line more was read.
    pub(crate) fn next(&mut self) {
        self.line = self.line.saturating_add(1);
    }

    // The line is refused: its number and what is wrong with it.
    pub(crate) fn refuse(&mut self, rt: &HostRuntime, what: &impl Display) -> io::Result<()> {
        self.refused = self.refused.saturating_add(1);
        let line = self.line;
        println!(rt; "line {line}: {what}")
    }

    // Works the book by one line, and says what it is answered.
    pub(crate) fn obey(
        &mut self,
        rt: &HostRuntime,
        books: &mut Books<Node>,
        command: Result<Command, LineFault>,
    ) -> io::Result<()> {
        match self.carry_out(books, command) {
            Ok(None) => Ok(()),
            Ok(Some(answer)) => println!(rt; "{answer}"),
            Err(refused) => self.refuse(rt, &refused),
        }
    }

    fn carry_out(
        &mut self,
        books: &mut Books<Node>,
        command: Result<Command, LineFault>,
    ) -> Result<Option<Answer>, Refused> {
        let Command { verb, number } = command?;
        let key = Node { number };
        match verb {
            Verb::Width => return Err(Refused::OpenAlready),
            Verb::Put => {
                books.put(0, key)?;
                self.puts = self.puts.saturating_add(1);
            }
            Verb::Take => {
                books.take(0, key)?;
                self.takes = self.takes.saturating_add(1);
            }
            Verb::Ask => {
                let (low, high) = books.bounds(0, key)?;
                return Ok(Some(Answer { number, low, high }));
            }
        }
        Ok(None)
    }

    // How many lines were carried out and refused.
    pub(crate) fn tell(&self, rt: &HostRuntime) -> io::Result<()> {
        let puts = self.puts;
        let takes = self.takes;
        let refused = self.refused;
        println!(rt; "accepted {puts} puts and {takes} takes, refused {refused} lines")
    }
}
