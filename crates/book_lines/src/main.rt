//! The counting program: works a book of nodes by lines of standard input, answers its questions, and tells at the
//! end what was done and what the book holds.
#![tactic(auto)]

mod lines;
mod say;
mod work;

use books::Books;
use books::fill::Fill;
use keys::node::Node;
use lines::Lines;
use places::place::Place;
use std::io;
use work::{Done, width_of};

const PLACES: usize = 1024;

// Reads lines until one opens a book; none if the input ends before.
fn open_book(
    rt: &HostRuntime,
    lines: &mut Lines<io::BufReader<io::Stdin>>,
    done: &mut Done,
) -> io::Result<Option<Books<Node>>> {
    let mut table = vec![in rt.alloc(); Place::vacant(Node { number: 0 }); PLACES]?;
    let mut fills = vec![in rt.alloc(); Fill::empty(); 1]?;
    for command in lines.by_ref() {
        done.next();
        match width_of(command?) {
            Err(refused) => done.refuse(rt, &refused)?,
            Ok(width) => match Books::open(table, fills, width as usize) {
                Ok(books) => return Ok(Some(books)),
                Err(refused) => {
                    done.refuse(rt, &refused.refusal)?;
                    table = refused.table;
                    fills = refused.fills;
                }
            },
        }
    }
    Ok(None)
}

fn main(rt: HostRuntime) -> io::Result<()> {
    let input = io::BufReader::new(rt.alloc(), rt.stdin())?;
    let mut lines = Lines::new(rt.alloc(), input);
    let mut done = Done::default();
    let Some(mut books) = open_book(&rt, &mut lines, &mut done)? else {
        println!(rt; "no book was opened")?;
        return done.tell(&rt);
    };
    for command in lines {
        done.next();
        done.obey(&rt, &mut books, command?)?;
    }
    done.tell(&rt)?;
    say::tell_book(&rt, &books)
}
