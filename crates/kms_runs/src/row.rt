// A run over a host in memory.
ghost use Rattle.std.specs.Prelude.{◌≡◌, IfOk, false};
ghost use Rattle.kms_host.specs.History.{WhereTold};
ghost use Rattle.kms_host.specs.Line.{IsOpen};
ghost use Rattle.kms_host.specs.Store.{is_attached};

use kms_host::{Bytes, Count, MemoryHost, NoMemory, Purpose};
use kms_serve::{Status, run};
use std::alloc::{AllocError, Global};

// The moment that is told: 1985-10-26T08:20:00Z, in seconds since 1970.
const MOMENT: u64 = 499_162_800;

// The bytes that are drawn for the tag of a store.
const DRAWN: [u8; 8] = [0x01, 0x23, 0x45, 0x67, 0x89, 0xab, 0xcd, 0xef];

/// What a run is given.
#[derive(Clone, Copy)]
pub struct Row<'a> {
    /// the words of the command line
    pub words: &'a [&'a str],
    /// the text of the key file `k`; where there is none, that can't be read
    pub keys: Option<&'a [u8]>,
    /// the store's files
    pub file_0: &'a [u8],
    pub file_1: &'a [u8],
    /// what line 0 brings
    pub line: &'a [u8],
    /// how many bytes of it at once, at most; 0 is taken for 1
    pub piece: usize,
    /// the count of which a call fails, and which call of it, from 1
    pub fault: Option<(Count, u64)>,
    /// how many calls of the store pass, if all later ones fail
    pub passing: Option<u64>,
}

fn owned(alloc: Global, texts: &[&str]) -> Result<Vec<String>, AllocError> {
    let mut words = Vec::new(alloc);
    for text in texts {
        words.push(String::from_str(alloc, *text)?)?;
    }
    Ok(words)
}

// The host that a row describes, on which nothing was called.
fn host(alloc: Global, row: Row<'_>) -> Result<MemoryHost, NoMemory>
    ensures line { IfOk result (λ m. WhereTold m.history (IsOpen 0)) }
    ensures store { IfOk result (λ m. WhereTold m.history (λ h. is_attached h.calls ≡ false)) }
{
    let files = [Bytes::of(alloc, row.file_0)?, Bytes::of(alloc, row.file_1)?];
    let mut host = MemoryHost::restart(alloc, files)?;
    if let Some(text) = row.keys {
        host.key_file("k", text)?;
    }
    host.line(row.line, if row.piece == 0 { 1 } else { row.piece })?;
    host.moment(MOMENT)?;
    host.random(Purpose::Tag, &DRAWN)?;
    if let Some((count, nth)) = row.fault {
        host.fail(count, nth)?;
    }
    if let Some(calls) = row.passing {
        host.fuse(calls);
    }
    Ok(host)
}

/// How the run of a row ends, and the host after it.
pub fn ran(alloc: Global, row: Row<'_>) -> Result<(Status, MemoryHost), NoMemory> {
    let words = owned(alloc, row.words)?;
    let mut host = host(alloc, row)?;
    let ended = run(alloc, &words, &mut host);
    Ok((ended, host))
}

/// How two runs over the host of a row end, of which the first makes the store `s` and the second serves it, and the host
/// after both. The row's words are not looked at.
pub fn made_and_served(
    alloc: Global,
    row: Row<'_>,
) -> Result<(Status, Status, MemoryHost), NoMemory> {
    let make = [
        String::from_str(alloc, "init")?,
        String::from_str(alloc, "--store")?,
        String::from_str(alloc, "s")?,
    ];
    let serve = [
        String::from_str(alloc, "pipe")?,
        String::from_str(alloc, "--store")?,
        String::from_str(alloc, "s")?,
        String::from_str(alloc, "--keys")?,
        String::from_str(alloc, "k")?,
        String::from_str(alloc, "--endpoint")?,
        String::from_str(alloc, "http://k/v1")?,
    ];
    let mut host = host(alloc, row)?;
    let made = run(alloc, &make, &mut host);
    let served = run(alloc, &serve, &mut host);
    Ok((made, served, host))
}
