//! Answers lines `COUNT WAY` with how many messages were read of a stream of 1,000 messages, each a GET of a secret's
//! attributes as a client sends it. They are read COUNT times, and once where COUNT is 0. For measuring. COUNT is a decimal
//! number up to 4,294,967,295. WAY is one of
//!
//! - `reader`: by the reader of messages, in pieces of 65,536 bytes
//! - `heads`: by a plain loop over `httparse`, one head after the other
//!
//! `?` is the answer to a line of any other form, and where there is no memory for the stream or its messages. Where there is
//! none for a line the program ends with an error.
#![tactic(auto)]

mod answer;
mod ways;

use std::io;

fn main(rt: HostRuntime) -> io::Result<()> {
    for line in rt.lines(rt.alloc()) {
        match answer::answer(rt.alloc(), line?.as_str()) {
            Some(number) => println!(rt; "{number}")?,
            None => println!(rt; "?")?,
        }
    }
    Ok(())
}
