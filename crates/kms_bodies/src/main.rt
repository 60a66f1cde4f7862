//! Answers lines `COUNT BODY` with what a body of that kind holds, checked COUNT times, and once where COUNT is 0. For
//! measuring. COUNT is a decimal number up to 4,294,967,295. BODY is one of
//!
//! - `secret`: a new secret with every field, and 32 bytes of payload in base64: the bytes of the payload
//! - `payload`: the same with 20,000 bytes
//! - `members`: a container of 100 members: their number
//! - `pairs`: metadata of 100 pairs: their number
//!
//! `?` is the answer to a line of any other form, and where there is no memory for the body or its check. Where there is
//! none for a line the program ends with an error.
#![tactic(auto)]

mod answer;
mod bodies;

use std::io;

fn main(rt: HostRuntime) -> io::Result<()> {
    for line in rt.lines(rt.alloc()) {
        match answer::answer(rt.alloc(), line?.as_str()) {
            Some(number) => println!(rt; "{number}")?,
            None => println!(rt; "?")?,
        }
    }
    Ok(())
}
