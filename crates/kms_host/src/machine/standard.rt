// Standard input, output and error.
ghost use Rattle.std.specs.Prelude.{◌≤◌, ◌<◌, length, IfOk};

use crate::Failed;
use crate::machine::limit::FileLimit;
use crate::machine::stream::{read_some, write_some};
use std::fs::File;
use std::io::Write;
use std::os::fd::{AsRawFd, IntoRawFd};
use std::rt::HostRuntime;

/// Where the system shows what standard output and standard error are open on.
const OUTPUT: &str = "/proc/self/fd/1";

const ERROR: &str = "/proc/self/fd/2";

/// The standard streams. The numbers 0, 1 and 2 belong to them for the life of the process, also where it was started
/// without some of them: then each call on the missing one fails. Where nobody reads what is written the call fails too,
/// since the toolchain's start of a program has the signal for that (SIGPIPE) ignored.
#[derive(Drop)]
pub struct Streams {
    limit: FileLimit,
}

impl Streams {
    /// The streams of this process. It has to be called before a file is opened, since a file takes the lowest number that
    /// is free.
    pub fn open(rt: HostRuntime) -> Result<Streams, Failed> {
        hold_numbers(rt)?;
        Ok(Streams {
            limit: FileLimit::of_process(rt),
        })
    }

    /// Reads what is there of standard input.
    pub fn read(&self, rt: HostRuntime, buffer: &mut [u8]) -> Result<usize, Failed>
        ensures { IfOk result (λ n. n ≤ length buffer.new) }
    {
        read_some(&mut rt.stdin(), buffer)
    }

    /// Writes a front of the piece to standard output.
    pub fn write(&self, rt: HostRuntime, piece: &[u8]) -> Result<usize, Failed>
        ensures bound { IfOk result (λ n. n ≤ length piece.now) }
        ensures some { IfOk result (λ n. 0 < length piece.now → 0 < n) }
    {
        if !piece.is_empty() && self.limit.is_reached_by(rt, OUTPUT) {
            return Err(Failed);
        }
        write_some(&mut rt.stdout(), piece)
    }

    /// Writes a line to standard error. It is lost where that can't be.
    pub fn tell(&self, rt: HostRuntime, line: &[u8]) {
        if !self.limit.is_reached_by(rt, ERROR) {
            let _ = rt.stderr().write_all(line);
        }
    }
}

// Opens the root folder for reading under each of the numbers 0 to 2 that is free. A folder is neither read nor written as
// a stream: both fail. Its descriptors are never closed.
fn hold_numbers(rt: HostRuntime) -> Result<(), Failed> {
    for _ in 0..4 {
        match File::open(&rt, "/") {
            Ok(folder) if folder.as_raw_fd() > 2 => return Ok(()),
            Ok(folder) => {
                let _ = folder.into_raw_fd();
            }
            Err(_) => return Err(Failed),
        }
    }
    Err(Failed)
}
