//! Answers lines of hexadecimal digits with what AES-128, HMAC and Fernet tokens give, for
//! comparison with other programs.
//!
//! - `aes KEY BLOCK`: the block enciphered, and deciphered;
//! - `mac KEY TEXT`: the HMAC-SHA-256;
//! - `seal KEY MOMENT IV PLAIN`: the token as text, of the moment in decimal digits;
//! - `unseal KEY TOKEN`: the plain bytes of the token, which is given as text, or the fault's name;
//! - `repeat COUNT LINE`: the answer to a line of these, worked out that many times.
//!
//! Texts may be empty. A line of any other form is answered by `?`.
#![tactic(auto)]

mod answer;

use std::io;

fn main(rt: HostRuntime) -> io::Result<()> {
    for line in rt.lines(rt.alloc()) {
        let text = answer::answer(rt.alloc(), line?.as_str())?;
        println!(rt; "{text}")?;
    }
    Ok(())
}
