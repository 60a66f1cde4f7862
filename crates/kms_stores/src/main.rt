//! Answers lines about stores on the disk, for measuring and for trying the journal on real files: `make NAME` creates a
//! store, `add NAME COUNT LENGTH` opens it and adds so many records of so many bytes, and `open NAME` opens it and reads
//! its records. NAME has no space. A line of any other form is answered by `?`.
#![tactic(auto)]

mod answer;
mod record;
mod store;

use std::io;

fn main(rt: HostRuntime) -> io::Result<()> {
    for line in rt.lines(rt.alloc()) {
        let answer = answer::answer_to(rt, line?.as_str());
        println!(rt; "{answer}")?;
    }
    Ok(())
}
