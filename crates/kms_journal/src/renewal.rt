// A file of a store that is written anew: a header, a snapshot, and no records.
ghost use Rattle.std.specs.Prelude.{◌≡◌, ◌+◌, ◌<◌, ◌≤◌, ◌^◌, [], ◌∷◌, ◌++◌, length, OnOk, is_err};
ghost use Rattle.kms_host.specs.Faults.{HasCause};
ghost use Rattle.kms_host.specs.History.{Tells, WhereTold, Stops};
ghost use Rattle.kms_host.specs.Store.{IsAttached};
ghost use Rattle.kms_host.specs.declared.call.Count.TheVariants as counts;
ghost use Rattle.kms_journal.specs.Fault.{Fails};
ghost use Rattle.kms_journal.specs.Renewal.{IsEnd, Appends, Renews};
ghost use Rattle.kms_journal.specs.Spelling.{file_rest};

use crate::emptying::empty;
use crate::header::{Header, spelled};
use crate::through::write_through;
use crate::{Pieces, StoreFault};
use kms_host::Host;

// Writes a piece at the end of a file that has a first byte.
fn append<H: Host>(host: &mut H, file: u8, end: u64, piece: &[u8]) -> Result<(), StoreFault>
    requires file { file < 2 }
    requires some { 0 < end }
    requires end { WhereTold (H.history host.old) (IsEnd file end) }
    ensures told { Tells (H.history host.old) (H.history host.new) (Appends file piece.now result) }
    ensures bound { OnOk result (end + length piece.now < 2 ^ 62) }
    ensures cause { HasCause counts.Store (H.faults host.old) (H.faults host.new) result }
    ensures failed { Tells (H.history host.old) (H.history host.new) (Fails (is_err result)) }
    ensures stops { Stops (H.wanted host.old) (H.wanted host.new) (H.history host.old) (H.history host.new) }
{
    host.write_at(file, end, piece)?;
    Ok(())
}

// Writes the bytes of a snapshot at the end of a file, in pieces through a room.
fn append_pieces<H: Host, P: Pieces>(
    host: &mut H,
    file: u8,
    end: u64,
    size: u64,
    pieces: &mut P,
    room: &mut [u8],
) -> Result<(), StoreFault>
    requires file { file < 2 }
    requires some { 0 < end }
    requires most { end < 2 ^ 62 }
    requires room { 0 < length room.old }
    requires size { size ≡ length (P.left pieces.old) }
    requires end { WhereTold (H.history host.old) (IsEnd file end) }
    ensures told { Tells (H.history host.old) (H.history host.new) (Appends file (P.left pieces.old) result) }
    ensures bound { OnOk result (end + size < 2 ^ 62) }
    ensures cause { HasCause counts.Store (H.faults host.old) (H.faults host.new) result }
    ensures failed { Tells (H.history host.old) (H.history host.new) (Fails (is_err result)) }
    ensures stops { Stops (H.wanted host.old) (H.wanted host.new) (H.history host.old) (H.history host.new) }
{
    let mut done = 0;
    while done < size {
        let count = pieces.piece(room);
        append(host, file, end + done, &room[..count])?;
        done += count as u64;
    }
    Ok(())
}

// Writes what stands after the first commit mark: the rest of the header, the snapshot, and a clear commit mark.
fn append_rest<H: Host, P: Pieces>(
    host: &mut H,
    header: &Header,
    pieces: &mut P,
    room: &mut [u8],
) -> Result<(), StoreFault>
    requires file { header.now.file < 2 }
    requires room { 0 < length room.old }
    requires size { header.now.snapshot ≡ length (P.left pieces.old) }
    requires end { WhereTold (H.history host.old) (IsEnd header.now.file 1) }
    ensures told { Tells (H.history host.old) (H.history host.new) (Appends header.now.file (file_rest header.now (P.left pieces.old)) result) }
    ensures bound { OnOk result (51 + header.now.snapshot < 2 ^ 62) }
    ensures cause { HasCause counts.Store (H.faults host.old) (H.faults host.new) result }
    ensures failed { Tells (H.history host.old) (H.history host.new) (Fails (is_err result)) }
    ensures stops { Stops (H.wanted host.old) (H.wanted host.new) (H.history host.old) (H.history host.new) }
{
    append(host, header.file, 1, &spelled(header))?;
    append_pieces(host, header.file, 50, header.snapshot, pieces, room)?;
    append(host, header.file, 50 + header.snapshot, &[0])
}

/// Writes a file anew, with this header, a snapshot that is given through a room, and no records. Takes no memory.
///
/// The file is made one clear commit mark and synced, what stands after it is written and synced, and then the mark is
/// set by a write of its own and synced. Wherever that stops, the file is the new one, or it stands for nothing, or for
/// something of the generation that it had.
pub fn renew<H: Host, P: Pieces>(
    host: &mut H,
    header: &Header,
    pieces: &mut P,
    room: &mut [u8],
) -> Result<(), StoreFault>
    requires file { header.now.file < 2 }
    requires room { 0 < length room.old }
    requires size { header.now.snapshot ≡ length (P.left pieces.old) }
    requires attached { WhereTold (H.history host.old) IsAttached }
    ensures told { Tells (H.history host.old) (H.history host.new) (Renews header.now.file (file_rest header.now (P.left pieces.old)) result) }
    ensures bound { OnOk result (51 + header.now.snapshot < 2 ^ 62) }
    ensures cause { HasCause counts.Store (H.faults host.old) (H.faults host.new) result }
    ensures failed { Tells (H.history host.old) (H.history host.new) (Fails (is_err result)) }
    ensures stops { Stops (H.wanted host.old) (H.wanted host.new) (H.history host.old) (H.history host.new) }
{
    empty(host, header.file)?;
    append_rest(host, header, pieces, room)?;
    host.sync(header.file)?;
    write_through(host, header.file, 0, &[1])
}
