// The host of lines over TCP.
ghost use Rattle.std.specs.Prelude.{◌≡◌, Some, None, OnOk, OnErr, is_some, true};
ghost use Rattle.kms_host.specs.History.{Stops, Tells, then_call};
ghost use Rattle.kms_host.specs.Faults.{no_faults, HasNameCause};
ghost use Rattle.kms_host.specs.declared.call.Call.TheVariants as calls;
ghost use Rattle.kms_host.specs.declared.call.Count.TheVariants as counts;

mod connection;

use crate::machine::Machine;
use crate::machine::stream::{read_some, write_some};
use crate::net::connection::{accept, end, place_of};
use crate::{Failed, Host, NameFault, Purpose};
use std::marker::Model;
use std::net::{TcpListener, TcpStream};
use std::rt::HostRuntime;

/// A host whose lines are the TCP connections that come to an address, from line 1 on. A line that isn't open, as line 0,
/// is at its end, and giving to it fails. A store is the two files `NAME.0` and `NAME.1`. It tells nothing but how many of
/// its calls failed.
#[derive(Drop)]
pub struct NetHost {
    machine: Machine,
    listener: Option<(TcpListener, u16)>,
    newest: u32,
    lines: Vec<(u32, TcpStream)>,
}

impl Model for NetHost {
    ghost use Rattle.std.specs.Prelude.{option_map};
    ghost use Rattle.kms_host.specs.Net.{NetState};

    ghost Value = { NetState };

    ghost view = { λ n. record { faults = n.machine; port = option_map (λ l. l.1) n.listener } };
}

impl NetHost {
    /// The host of this process. It doesn't listen.
    pub fn new(rt: HostRuntime) -> NetHost
        ensures { result ≡ record { faults = no_faults; port = None } }
    {
        NetHost {
            machine: Machine::new(rt),
            listener: None,
            newest: 0,
            lines: Vec::new(rt.alloc()),
        }
    }

    /// The port that it listens on. None where it doesn't listen.
    pub fn port(&self) -> Option<u16>
        ensures { result ≡ self.now.port }
    {
        match &self.listener {
            Some(listener) => Some(listener.1),
            None => None,
        }
    }

    /// Writes a line for the operator to standard error. It is lost where that can't be.
    pub fn tell(&self, line: &[u8]) {
        self.machine.tell(line);
    }

    // Waits for a connection, which is the next line. The number of a line has 32 bits.
    fn open_next(&mut self) -> Result<Option<u32>, Failed>
        ensures { self.new ≡ self.old }
    {
        let Some(listener) = &self.listener else {
            return Err(Failed);
        };
        let Some(line) = self.newest.checked_add(1) else {
            return Ok(None);
        };
        let stream = accept(&listener.0)?;
        if self.lines.push((line, stream)).is_err() {
            return Err(Failed);
        }
        self.newest = line;
        Ok(Some(line))
    }
}

impl Host for NetHost {
    ghost history = { λ _. None };

    ghost faults = { λ n. n.faults };

    ghost wanted = { λ _. 0 };

    fn text(&mut self, name: &str, room: &mut [u8]) -> Result<usize, NameFault> {
        self.machine.text(name, room)
    }

    fn attach(&mut self, name: &str) -> Result<(), NameFault> {
        self.machine.attach(name)
    }

    fn listen(&mut self, address: &str) -> Result<(), NameFault>
        ensures told { Tells None None (λ was now. now ≡ then_call was (calls.Listened address.now result)) }
        ensures cause { HasNameCause counts.Listen self.old.faults self.new.faults result }
        ensures stops { Stops 0 0 None None }
        ensures listens { OnOk result (is_some self.new.port ≡ true) }
        ensures err { OnErr result (self.new.port ≡ self.old.port) }
    {
        match self.machine.listen(address) {
            Ok(listener) => {
                self.listener = Some(listener);
                Ok(())
            }
            Err(Failed) => Err(NameFault::Failed),
        }
    }

    fn next_line(&mut self) -> Result<Option<u32>, Failed> {
        let answer = self.open_next();
        self.machine.listening(answer)
    }

    fn take(&mut self, line: u32, room: &mut [u8]) -> Result<usize, Failed> {
        let answer = match place_of(&self.lines, line) {
            Some(place) => read_some(&mut self.lines[place].1, room),
            None => Ok(0),
        };
        self.machine.on_line(answer)
    }

    fn give(&mut self, line: u32, piece: &[u8]) -> Result<usize, Failed> {
        let answer = match place_of(&self.lines, line) {
            Some(place) => write_some(&mut self.lines[place].1, piece),
            None => Err(Failed),
        };
        self.machine.on_line(answer)
    }

    fn shut(&mut self, line: u32) {
        if let Some(place) = place_of(&self.lines, line) {
            end(self.lines.swap_remove(place).1);
        }
    }

    fn len(&mut self, file: u8) -> Result<u64, Failed> {
        self.machine.len(file)
    }

    fn read_at(&mut self, file: u8, at: u64, room: &mut [u8]) -> Result<usize, Failed> {
        self.machine.read_at(file, at, room)
    }

    fn write_at(&mut self, file: u8, at: u64, piece: &[u8]) -> Result<(), Failed> {
        self.machine.write_at(file, at, piece)
    }

    fn cut(&mut self, file: u8, size: u64) -> Result<(), Failed> {
        self.machine.cut(file, size)
    }

    fn sync(&mut self, file: u8) -> Result<(), Failed> {
        self.machine.sync(file)
    }

    fn now(&mut self) -> u64 {
        self.machine.now()
    }

    fn draw(&mut self, _purpose: Purpose, room: &mut [u8]) -> Result<(), Failed> {
        self.machine.draw(room)
    }
}

#[cfg(test)]
mod tests {
    use super::NetHost;
    use crate::Host;
    use std::io::{Read, Write};
    use std::net::TcpStream;
    use std::rt::HostRuntime;
    use std::test::Fail;

    // On the loopback: the connection that comes is line 1, bytes go both ways, and a line that was ended is at its end.
    // What the files, the clock and the random source answer is tested with standard input and output.
    #[test]
    fn a_connection_is_a_line(rt: HostRuntime) -> Result<(), Fail> {
        let mut host = NetHost::new(rt);
        let mut room = [0; 4];
        assert!(rt; host.port().is_none());
        assert!(rt; host.next_line().is_err());
        assert!(rt; host.listen("no address").is_err());
        assert!(rt; host.listen("127.0.0.1:0").is_ok());
        let port = host.port().unwrap_or(0);
        let mut client = TcpStream::connect(&rt, ("127.0.0.1", port))?;
        assert!(rt; host.next_line() == Ok(Some(1)));
        client.write_all(b"asked")?;
        assert!(rt; host.take(1, &mut room) == Ok(4));
        assert!(rt; room == *b"aske");
        assert!(rt; host.take(1, &mut room) == Ok(1));
        assert!(rt; host.give(1, b"told") == Ok(4));
        client.read_exact(&mut room)?;
        assert!(rt; room == *b"told");
        assert!(rt; host.take(0, &mut room) == Ok(0));
        assert!(rt; host.give(2, b"lost").is_err());
        host.shut(1);
        assert!(rt; host.take(1, &mut room) == Ok(0));
        assert!(rt; client.read(&mut room)? == 0);
        assert_eq!(rt; host.machine.faults(), [0, 0, 1, 0, 2]);
        Ok(())
    }
}
