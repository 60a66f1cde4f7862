//! Answers lines `COUNT ROWS QUERY` with the page that the query asks of a list of ROWS secrets, which are made up by
//! their numbers, worked out COUNT times, and once where COUNT is 0: the places on the page, each with a space behind it,
//! `of `, and how many rows pass. For measuring. COUNT and ROWS are decimal numbers up to 4,294,967,295.
//!
//! `?` is the answer to a line of any other form, to a query that breaks a rule, and where there is no memory for the
//! query or the page. Where there is none for the secrets or the answer's text the program ends with an error.
#![tactic(auto)]

mod answer;
mod secrets;

use std::io;

fn main(rt: HostRuntime) -> io::Result<()> {
    for line in rt.lines(rt.alloc()) {
        let text = answer::answer(rt.alloc(), line?.as_str())?;
        println!(rt; "{text}")?;
    }
    Ok(())
}
