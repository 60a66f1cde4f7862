// TCP connections, as lines.
ghost use Rattle.std.specs.Prelude.{◌<◌, length, IfSome};

use crate::Failed;
use std::io;
use std::io::{ErrorKind, Read};
use std::net::{Shutdown, TcpListener, TcpStream};
use std::time::Duration;

/// How long a read or a write of a connection waits, in seconds. One that waits longer is a failed call of its line, so
/// that a client that says nothing holds a server of one line no longer.
const SECONDS_TO_WAIT: u64 = 60;

/// How many pieces of 4,096 bytes are read of a connection that is ended, and how many seconds each is waited for.
const LAST_PIECES: u32 = 16;

const SECONDS_TO_END: u64 = 1;

// What is given goes out without delay, and no call waits without end.
fn prepare(stream: &TcpStream) -> io::Result<()> {
    let wait = Some(Duration::from_secs(SECONDS_TO_WAIT));
    stream.set_nodelay(true)?;
    stream.set_read_timeout(wait)?;
    stream.set_write_timeout(wait)
}

/// Waits for the next connection. One that was broken off before it was taken is passed over.
pub fn accept(listener: &TcpListener) -> Result<TcpStream, Failed> {
    for _ in 0..u64::MAX {
        match listener.accept() {
            Ok((stream, _)) => {
                if prepare(&stream).is_ok() {
                    return Ok(stream);
                }
            }
            Err(error) if error.kind() == ErrorKind::ConnectionAborted => {}
            Err(_) => return Err(Failed),
        }
    }
    Err(Failed)
}

/// Ends a connection. What the client still sends is read for a while and dropped: a connection that is closed with bytes
/// unread is reset, and the client may lose the last reply (RFC 9112 section 9.6).
pub fn end(mut stream: TcpStream) {
    let wait = Some(Duration::from_secs(SECONDS_TO_END));
    if stream.shutdown(Shutdown::Write).is_err() || stream.set_read_timeout(wait).is_err() {
        return;
    }
    let mut room = [0; 4096];
    for _ in 0..LAST_PIECES {
        match stream.read(&mut room) {
            Ok(0) | Err(_) => return,
            Ok(_) => {}
        }
    }
}

/// The place of a line among those that are open.
pub fn place_of(lines: &[(u32, TcpStream)], line: u32) -> Option<usize>
    ensures { IfSome result (λ place. place < length lines.now) }
{
    lines.iter().position(|open| open.0 == line)
}
