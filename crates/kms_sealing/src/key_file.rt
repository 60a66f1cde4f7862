// Key files.
ghost use Rattle.std.specs.Prelude.{◌≡◌, Err, IfOk, IfErr};
ghost use Rattle.kms_host.specs.Faults.{NeverFalls, Rose};
ghost use Rattle.kms_host.specs.History.{Tells, Stops};
ghost use Rattle.kms_ring.specs.KeyFile.{IsKeyFile};
ghost use Rattle.kms_sealing.specs.KeyFile as spec;
ghost use Rattle.kms_sealing.specs.KeyFile.{IsBadText, Reads};

use crate::KeyFileFault;
use kms_host::{Host, NameFault};
use kms_ring::Ring;

/// How many bytes of a key file are read. One that has more is none: its first bad line is among these.
const KEY_FILE_BYTES: usize = 1024;

fn ring_of(text: &[u8]) -> Result<Ring, KeyFileFault>
    ensures ok { IfOk result (λ ring. IsKeyFile text.now ring) }
    ensures err { IfErr result (IsBadText text.now) }
{
    match Ring::read(text) {
        Ok(ring) => Ok(ring),
        Err(bad) => Err(KeyFileFault::Bad(bad)),
    }
}

fn fault_of(fault: NameFault) -> KeyFileFault
    ensures { result ≡ spec.fault_of fault }
{
    match fault {
        NameFault::Failed => KeyFileFault::Failed,
        NameFault::NoMemory => KeyFileFault::NoMemory,
    }
}

/// The master keys of the key file of this name, or the first bad line of its first 1,024 bytes. `Failed` comes only where
/// the file couldn't be read.
pub fn read_key_file<H: Host>(host: &mut H, name: &str) -> Result<Ring, KeyFileFault>
    ensures told { Tells (H.history host.old) (H.history host.new) (Reads name.now result) }
    ensures later { NeverFalls (H.faults host.old) (H.faults host.new) }
    ensures cause { result ≡ Err KeyFileFault.Failed → Rose (H.faults host.old).key_file (H.faults host.new).key_file }
    ensures stops { Stops (H.wanted host.old) (H.wanted host.new) (H.history host.old) (H.history host.new) }
{
    let mut room = [0; KEY_FILE_BYTES];
    match host.text(name, &mut room) {
        Ok(len) => ring_of(&room[..len]),
        Err(fault) => Err(fault_of(fault)),
    }
}
