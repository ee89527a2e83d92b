//! What is said of a refused line, of a question and of a book.
use books::Books;
use commands::LineFault;
use counting::bounds_of;
use keys::node::Node;
use refusals::Refusal;
use std::{fmt, io};

// Why a line was refused.
#[derive(Clone, Copy)]
pub(crate) enum Refused {
    Line(LineFault),
    Book(Refusal),
    // a line before the opening that is no width
    NotOpen,
    // a width after it
    OpenAlready,
}

impl From<LineFault> for Refused {
    fn from(fault: LineFault) -> Refused {
        Refused::Line(fault)
    }
}

impl From<Refusal> for Refused {
    fn from(refusal: Refusal) -> Refused {
        Refused::Book(refusal)
    }
}

impl fmt::Display for Refused {
    fn fmt<W: fmt::Write>(&self, f: &mut fmt::Formatter<W>) -> fmt::Result {
        match self {
            Refused::Line(fault) => fault.fmt(f),
            // the count of a book that has a limit is its total
            Refused::Book(Refusal::Full) => f.write_str("22, the total is at its limit"),
            Refused::Book(refusal) => refusal.fmt(f),
            Refused::NotOpen => f.write_str("no book is open: first comes width N"),
            Refused::OpenAlready => f.write_str("the book is open already"),
        }
    }
}

// The bounds of a key, which was asked for by its number.
#[derive(Clone, Copy)]
pub(crate) struct Answer {
    pub(crate) number: u32,
    pub(crate) low: u32,
    pub(crate) high: u32,
}

impl fmt::Display for Answer {
    fn fmt<W: fmt::Write>(&self, f: &mut fmt::Formatter<W>) -> fmt::Result {
        write!(f, "{} {} {}", self.number, self.low, self.high)
    }
}

// The records in key order with their bounds.
pub(crate) fn tell_book(rt: &HostRuntime, books: &Books<Node>) -> io::Result<()> {
    let held = books.len(0).unwrap_or(0);
    let total = books.total(0).unwrap_or(0);
    let ceiling = books.ceiling(0).unwrap_or(0);
    let width = books.width();
    println!(rt; "holds {held} of {width} records, total {total}, ceiling {ceiling}")?;
    println!(rt;
        "{:>10} {:>10} {:>10} {:>10} {:>10} {:>10}",
        "key", "in", "out", "slack", "low", "high"
    )?;
    if let Ok(records) = books.records(0) {
        for record in records {
            let (low, high) = bounds_of(record);
            println!(rt;
                "{:>10} {:>10} {:>10} {:>10} {low:>10} {high:>10}",
                record.key.number, record.ins, record.outs, record.slack
            )?;
        }
    }
    Ok(())
}
