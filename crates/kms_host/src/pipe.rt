// The host of one line over standard input and output.
ghost use Rattle.std.specs.Prelude.{◌≡◌, None};
ghost use Rattle.kms_host.specs.Faults.{no_faults};

use crate::machine::Machine;
use crate::{Failed, Host, NameFault, Purpose};
use std::marker::Model;
use std::rt::HostRuntime;

/// A host whose line 0 is standard input and output. No other line comes; any other is at its end, and giving to it fails.
/// A store is the two files `NAME.0` and `NAME.1`. It tells nothing but how many of its calls failed.
///
/// The process makes its host before it opens a file. No file is then read or written in the place of a standard stream
/// that was closed when the process started, and neither a reader that went away nor the limit on the length of files ends
/// the process: the call fails.
#[derive(Drop)]
pub struct PipeHost {
    machine: Machine,
}

impl Model for PipeHost {
    ghost use Rattle.kms_host.specs.Faults.{Faults};

    ghost Value = { Faults };

    ghost view = { λ p. p.machine };
}

impl PipeHost {
    /// The host of this process.
    pub fn new(rt: HostRuntime) -> PipeHost
        ensures { result ≡ no_faults }
    {
        PipeHost {
            machine: Machine::new(rt),
        }
    }

    /// Writes a line for the operator to standard error. It is lost where that can't be.
    pub fn tell(&self, line: &[u8]) {
        self.machine.tell(line);
    }
}

impl Host for PipeHost {
    ghost history = { λ _. None };

    ghost faults = { λ p. p };

    ghost wanted = { λ _. 0 };

    fn text(&mut self, name: &str, room: &mut [u8]) -> Result<usize, NameFault> {
        self.machine.text(name, room)
    }

    fn attach(&mut self, name: &str) -> Result<(), NameFault> {
        self.machine.attach(name)
    }

    fn listen(&mut self, _address: &str) -> Result<(), NameFault> {
        match self.machine.listening(Err(Failed)) {
            Ok(()) => Ok(()),
            Err(Failed) => Err(NameFault::Failed),
        }
    }

    fn next_line(&mut self) -> Result<Option<u32>, Failed> {
        Ok(None)
    }

    fn take(&mut self, line: u32, room: &mut [u8]) -> Result<usize, Failed> {
        if line != 0 {
            return Ok(0);
        }
        self.machine.input(room)
    }

    fn give(&mut self, line: u32, piece: &[u8]) -> Result<usize, Failed> {
        if line != 0 {
            return self.machine.on_line(Err(Failed));
        }
        self.machine.output(piece)
    }

    fn shut(&mut self, _line: u32) {}

    fn len(&mut self, file: u8) -> Result<u64, Failed> {
        self.machine.len(file)
    }

    fn read_at(&mut self, file: u8, at: u64, room: &mut [u8]) -> Result<usize, Failed> {
        self.machine.read_at(file, at, room)
    }

    fn write_at(&mut self, file: u8, at: u64, piece: &[u8]) -> Result<(), Failed> {
        self.machine.write_at(file, at, piece)
    }

    fn cut(&mut self, file: u8, size: u64) -> Result<(), Failed> {
        self.machine.cut(file, size)
    }

    fn sync(&mut self, file: u8) -> Result<(), Failed> {
        self.machine.sync(file)
    }

    fn now(&mut self) -> u64 {
        self.machine.now()
    }

    fn draw(&mut self, _purpose: Purpose, room: &mut [u8]) -> Result<(), Failed> {
        self.machine.draw(room)
    }
}

#[cfg(test)]
mod tests {
    use super::PipeHost;
    use crate::{Host, NameFault, Purpose};
    use std::fs;
    use std::rt::HostRuntime;
    use std::test::Fail;

    // Without standard streams: the clock runs after 2024-01-01, no other line comes, one is at its end, and nothing goes
    // to it. A store keeps what is written to it, is open once, and can be named again.
    #[test]
    fn the_edge_answers(rt: HostRuntime) -> Result<(), Fail> {
        let mut host = PipeHost::new(rt);
        let mut room = [0; 4];
        assert!(rt; host.now() > 1_704_067_200);
        assert!(rt; host.listen("127.0.0.1:0").is_err());
        assert!(rt; host.next_line() == Ok(None));
        assert!(rt; host.take(1, &mut room) == Ok(0));
        assert!(rt; host.give(0, &[]) == Ok(0));
        assert!(rt; host.give(1, b"reply").is_err());
        host.shut(1);
        assert!(rt; host.text("no-such-key-file", &mut room).is_err());
        assert!(rt; host.draw(Purpose::Tag, &mut room).is_ok());
        assert!(rt; host.len(0).is_err());
        assert_eq!(rt; host.machine.faults(), [1, 1, 1, 0, 1]);
        assert!(rt; host.attach("edge-of-kms-host").is_ok());
        assert!(rt; host.cut(0, 0).is_ok());
        assert!(rt; host.write_at(0, 0, b"abcdef").is_ok());
        assert!(rt; host.write_at(0, 4, b"XYZ!").is_ok());
        assert!(rt; host.cut(0, 7).is_ok());
        assert!(rt; host.sync(0).is_ok());
        assert!(rt; host.attach("edge-of-kms-host").is_ok());
        assert!(rt; host.len(0) == Ok(7));
        assert!(rt; host.read_at(0, 3, &mut room) == Ok(4));
        assert!(rt; room == *b"dXYZ");
        assert!(rt; host.read_at(0, 5, &mut room) == Ok(2));
        assert!(rt; host.text("edge-of-kms-host.0", &mut room) == Ok(4));
        assert!(rt; room == *b"abcd");
        assert!(rt; PipeHost::new(rt).attach("edge-of-kms-host").is_err());
        assert_eq!(rt; host.machine.faults(), [1, 1, 1, 0, 1]);
        fs::remove_file(&rt, "edge-of-kms-host.0")?;
        fs::remove_file(&rt, "edge-of-kms-host.1")?;
        Ok(())
    }

    // Where a folder has one of a store's names, or the name itself, nothing is made.
    #[test]
    fn a_folder_is_no_store(rt: HostRuntime) -> Result<(), Fail> {
        let mut host = PipeHost::new(rt);
        fs::create_dir(&rt, "folder-of-kms-host.1")?;
        assert!(rt; host.attach("folder-of-kms-host") == Err(NameFault::Failed));
        assert!(rt; host.attach("folder-of-kms-host.1") == Err(NameFault::Failed));
        assert!(rt; fs::metadata(&rt, "folder-of-kms-host.0").is_err());
        assert!(rt; fs::metadata(&rt, "folder-of-kms-host.1.0").is_err());
        assert!(rt; host.machine.faults() == [0, 2, 0, 0, 0]);
        fs::remove_dir(&rt, "folder-of-kms-host.1")?;
        Ok(())
    }
}
