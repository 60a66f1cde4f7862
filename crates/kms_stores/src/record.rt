// Records of nothing but zeros.
ghost use Rattle.std.specs.Prelude.{IfOk};
ghost use Rattle.kms_journal.specs.Commit.{IsFramed};

use kms_host::NoMemory;
use std::alloc::Global;

/// A record of so many zeros, framed: its length in 4 bytes, the zeros, and a clear commit mark, which is a 0 too.
pub fn zeros(alloc: Global, length: u16) -> Result<Vec<u8>, NoMemory>
    ensures { IfOk result (λ framed. IsFramed framed.items) }
{
    let mut framed = (length as u32).to_be_bytes().to_vec(alloc)?;
    let rest = vec![in alloc; 0u8; length as usize + 1]?;
    framed.extend_from_slice(&rest)?;
    Ok(framed)
}
