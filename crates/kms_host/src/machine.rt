// The trusted edge towards the machine: what its hosts have in common. The standard streams, key files, the files of a store,
// the system's clock and its random source, and how many calls of each kind failed.
ghost use Rattle.std.specs.Prelude.{◌≡◌, ◌≤◌, ◌<◌, ◌+◌, ◌^◌, length, IfOk, OnOk, OnErr};
ghost use Rattle.kms_host.specs.Faults.{no_faults, Rose, HasCause, HasNameCause};
ghost use Rattle.kms_host.specs.declared.call.Count.TheVariants as counts;

mod clock;
mod files;
mod limit;
mod standard;
pub mod stream;

use crate::machine::clock::seconds;
use crate::machine::files::{StoreFiles, read_front};
use crate::machine::standard::Streams;
use crate::{Failed, NameFault};
use std::io::Write;
use std::marker::Model;
use std::net::TcpListener;
use std::random::RandomSource;
use std::rt::HostRuntime;

/// What a host has of this machine. Contracts see how many calls failed.
///
/// The process makes it before it opens a file. No file and no connection then has the number of a standard stream that was
/// closed when the process started, and neither a reader that went away nor the limit on the length of files ends the
/// process: the call fails.
#[derive(Drop)]
pub struct Machine {
    rt: HostRuntime,
    // None where they couldn't be had. Then no file is opened, and no socket.
    streams: Option<Streams>,
    files: Option<StoreFiles>,
    key_file: u64,
    store: u64,
    link: u64,
    draw: u64,
    listen: u64,
}

impl Model for Machine {
    ghost use Rattle.kms_host.specs.Faults.{Faults};

    ghost Value = { Faults };

    ghost view = { λ m. record { key_file = m.key_file; store = m.store; link = m.link; draw = m.draw; listen = m.listen } };
}

// The same answer; a fault is counted, as far as 64 bits go.
fn counted<T>(count: &mut u64, answer: Result<T, Failed>) -> Result<T, Failed>
    ensures same { result ≡ answer }
    ensures later { count.old ≤ count.new }
    ensures rose { OnErr result (Rose count.old count.new) }
{
    if answer.is_err() {
        *count = count.saturating_add(1);
    }
    answer
}

impl Machine {
    pub fn new(rt: HostRuntime) -> Machine
        ensures { result ≡ no_faults }
    {
        Machine {
            rt,
            streams: Streams::open(rt).ok(),
            files: None,
            key_file: 0,
            store: 0,
            link: 0,
            draw: 0,
            listen: 0,
        }
    }

    /// Writes a line for the operator to standard error. It is lost where that can't be.
    pub fn tell(&self, line: &[u8]) {
        match &self.streams {
            Some(streams) => streams.tell(self.rt, line),
            None => {
                let _ = self.rt.stderr().write_all(line);
            }
        }
    }

    /// Reads what is there of standard input.
    pub fn input(&mut self, room: &mut [u8]) -> Result<usize, Failed>
        ensures bound { IfOk result (λ n. n ≤ length room.new) }
        ensures cause { HasCause counts.Link self.old self.new result }
    {
        let answer = match &self.streams {
            Some(streams) => streams.read(self.rt, room),
            None => Err(Failed),
        };
        counted(&mut self.link, answer)
    }

    /// Writes a front of the piece to standard output.
    pub fn output(&mut self, piece: &[u8]) -> Result<usize, Failed>
        ensures bound { IfOk result (λ n. n ≤ length piece.now) }
        ensures some { IfOk result (λ n. 0 < length piece.now → 0 < n) }
        ensures cause { HasCause counts.Link self.old self.new result }
    {
        let answer = match &self.streams {
            Some(streams) => streams.write(self.rt, piece),
            None => Err(Failed),
        };
        counted(&mut self.link, answer)
    }

    // The front of a file.
    fn front(&self, name: &str, room: &mut [u8]) -> Result<usize, Failed>
        ensures { IfOk result (λ n. n ≤ length room.new) }
    {
        match &self.streams {
            Some(_) => read_front(self.rt, name, room),
            None => Err(Failed),
        }
    }

    // The files of a store.
    fn open_files(&self, name: &str) -> Result<StoreFiles, NameFault> {
        match &self.streams {
            Some(_) => StoreFiles::open(self.rt, name),
            None => Err(NameFault::Failed),
        }
    }

    /// The first bytes of a key file, as many as fit the room.
    pub fn text(&mut self, name: &str, room: &mut [u8]) -> Result<usize, NameFault>
        ensures bound { IfOk result (λ n. n ≤ length room.new) }
        ensures cause { HasNameCause counts.KeyFile self.old self.new result }
    {
        let answer = self.front(name, room);
        match counted(&mut self.key_file, answer) {
            Ok(count) => Ok(count),
            Err(Failed) => Err(NameFault::Failed),
        }
    }

    /// Opens the files of a store. Those that are open are let go first, since nobody can open them while they are.
    pub fn attach(&mut self, name: &str) -> Result<(), NameFault>
        ensures { HasNameCause counts.Store self.old self.new result }
    {
        self.files = None;
        match self.open_files(name) {
            Ok(files) => {
                self.files = Some(files);
                Ok(())
            }
            Err(NameFault::NoMemory) => Err(NameFault::NoMemory),
            Err(NameFault::Failed) => {
                self.store = self.store.saturating_add(1);
                Err(NameFault::Failed)
            }
        }
    }

    // A socket that listens on the address, and its port.
    fn open_listener(&self, address: &str) -> Result<(TcpListener, u16), Failed> {
        if self.streams.is_none() {
            return Err(Failed);
        }
        let Ok(listener) = TcpListener::bind(&self.rt, address) else {
            return Err(Failed);
        };
        match listener.local_addr() {
            Ok(at) => Ok((listener, at.port())),
            Err(_) => Err(Failed),
        }
    }

    /// Listens on an address, and finds out on which port.
    pub fn listen(&mut self, address: &str) -> Result<(TcpListener, u16), Failed>
        ensures { HasCause counts.Listen self.old self.new result }
    {
        let answer = self.open_listener(address);
        self.listening(answer)
    }

    /// The answer to a call that listens or waits for a line, counted where it failed.
    pub fn listening<T>(&mut self, answer: Result<T, Failed>) -> Result<T, Failed>
        ensures same { result ≡ answer }
        ensures cause { HasCause counts.Listen self.old self.new result }
    {
        counted(&mut self.listen, answer)
    }

    /// The answer to a call on a line, counted where it failed.
    pub fn on_line<T>(&mut self, answer: Result<T, Failed>) -> Result<T, Failed>
        ensures same { result ≡ answer }
        ensures cause { HasCause counts.Link self.old self.new result }
    {
        counted(&mut self.link, answer)
    }

    /// The length of a file of the store.
    pub fn len(&mut self, file: u8) -> Result<u64, Failed>
        ensures bound { IfOk result (λ n. n < 2 ^ 62) }
        ensures cause { HasCause counts.Store self.old self.new result }
    {
        let answer = match &self.files {
            Some(files) => files.len(file),
            None => Err(Failed),
        };
        counted(&mut self.store, answer)
    }

    /// Fills the room from a place of a file on, as far as the file reaches.
    pub fn read_at(&mut self, file: u8, at: u64, room: &mut [u8]) -> Result<usize, Failed>
        ensures bound { IfOk result (λ n. n ≤ length room.new) }
        ensures cause { HasCause counts.Store self.old self.new result }
    {
        let answer = match &self.files {
            Some(files) => files.read(file, at, room),
            None => Err(Failed),
        };
        counted(&mut self.store, answer)
    }

    /// Writes the whole piece at a place of a file.
    pub fn write_at(&mut self, file: u8, at: u64, piece: &[u8]) -> Result<(), Failed>
        ensures bound { OnOk result (at + length piece.now < 2 ^ 62) }
        ensures cause { HasCause counts.Store self.old self.new result }
    {
        let answer = match &self.files {
            Some(files) => files.write(file, at, piece),
            None => Err(Failed),
        };
        counted(&mut self.store, answer)
    }

    /// Cuts a file to a length.
    pub fn cut(&mut self, file: u8, size: u64) -> Result<(), Failed>
        ensures { HasCause counts.Store self.old self.new result }
    {
        let answer = match &self.files {
            Some(files) => files.cut(file, size),
            None => Err(Failed),
        };
        counted(&mut self.store, answer)
    }

    /// Brings a file's bytes and its length to the disk.
    pub fn sync(&mut self, file: u8) -> Result<(), Failed>
        ensures { HasCause counts.Store self.old self.new result }
    {
        let answer = match &self.files {
            Some(files) => files.sync(file),
            None => Err(Failed),
        };
        counted(&mut self.store, answer)
    }

    /// The time in seconds.
    pub fn now(&self) -> u64 {
        seconds(self.rt)
    }

    /// Fills the whole room with random bytes.
    pub fn draw(&mut self, room: &mut [u8]) -> Result<(), Failed>
        ensures { HasCause counts.Draw self.old self.new result }
    {
        let answer = match self.rt.fill_bytes(room) {
            Ok(()) => Ok(()),
            Err(_) => Err(Failed),
        };
        counted(&mut self.draw, answer)
    }

    // How many calls of each kind failed: key files, the store, lines, random bytes, listening.
    #[cfg(test)]
    pub fn faults(&self) -> [u64; 5] {
        [self.key_file, self.store, self.link, self.draw, self.listen]
    }
}
