//! Says what frames say: one frame in hex a line of standard input, one answer a line for a person, and at the end what was
//! seen. It takes no sample anywhere.
#![tactic(auto)]

mod degrees;
mod said;
mod seen;

use seen::Seen;
use std::io;
use std::io::BufRead;

fn main(rt: HostRuntime) -> io::Result<()> {
    let lines = io::BufReader::new(rt.alloc(), rt.stdin())?.split(rt.alloc(), b'\n');
    let mut seen = Seen::default();
    for line in lines {
        seen.tell(&rt, &line?)?;
    }
    seen.sum_up(&rt)
}
