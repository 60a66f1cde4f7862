// The calls so far, as long as there is memory for them.
ghost use Rattle.std.specs.Prelude.{◌≡◌, ◌≤◌, ◌++◌, [], ◌∷◌, ◌&&◌, ◌||◌, not, if◌then◌else◌, Some, Ok, Err, length, take, is_some, IfOk, IsOkAnd, IsTrue};
ghost use Rattle.kms_host.specs.Recording.{Notes};
ghost use Rattle.kms_host.specs.Memory.{next};
ghost use Rattle.kms_host.specs.declared.call.Call.TheVariants as calls;
ghost use Rattle.kms_host.specs.declared.call.NameFault.TheVariants as faults;

use crate::{Bytes, Call, NameFault, NoMemory, Purpose};
use std::alloc::Global;
use std::marker::Model;

#[derive(Drop)]
pub struct Log {
    calls: Vec<Call>,
    tells: bool,
    wanted: u64,
}

impl Model for Log {
    ghost use Rattle.kms_host.specs.Recording.{Recording, told_calls};

    ghost Value = { Recording };

    ghost view = { λ l. record { calls = told_calls l.tells l.calls.items; wanted = l.wanted } };
}

impl Log {
    pub fn new(alloc: Global) -> Log
        ensures { result ≡ record { calls = Some []; wanted = 0 } }
    {
        Log {
            calls: Vec::new(alloc),
            tells: true,
            wanted: 0,
        }
    }

    /// Whether there was memory for every call.
    pub fn tells(&self) -> bool
        ensures { result ≡ is_some self.now.calls }
    {
        self.tells
    }

    /// How many calls were out of memory.
    pub fn wanted(&self) -> u64
        ensures { result ≡ self.now.wanted }
    {
        self.wanted
    }

    /// Adds a call, as long as there is memory. `starved` says whether it was out of memory already.
    pub fn note(&mut self, call: Result<Call, NoMemory>, starved: bool)
        ensures { Notes call starved self.old self.new }
    {
        let lost = keep(&mut self.calls, &mut self.tells, call);
        count_if(&mut self.wanted, starved, lost);
    }
}

// Adds a call at the end, as long as the calls are told. Answers whether there was no memory for it: from then on they
// are told no more.
fn keep(calls: &mut Vec<Call>, tells: &mut bool, call: Result<Call, NoMemory>) -> bool
    ensures lost { result ≡ (tells.old && not tells.new) }
    ensures told { IsTrue tells.new → IsTrue tells.old × IsOkAnd call (λ c. calls.new.items ≡ calls.old.items ++ c ∷ []) }
{
    let told = *tells;
    *tells = told && push(calls, call);
    told && !*tells
}

// Adds a call at the end, and says whether there was memory for it.
fn push(calls: &mut Vec<Call>, call: Result<Call, NoMemory>) -> bool
    ensures { IsTrue result → IsOkAnd call (λ c. calls.new.items ≡ calls.old.items ++ c ∷ []) }
{
    match call {
        Ok(call) => calls.push(call).is_ok(),
        Err(NoMemory) => false,
    }
}

// Counts a call that was out of memory before it was recorded, or then.
fn count_if(wanted: &mut u64, starved: bool, lost: bool)
    ensures count { wanted.new ≡ (if starved || lost then next wanted.old else wanted.old) }
    ensures later { wanted.old ≤ wanted.new }
{
    if starved || lost {
        *wanted = wanted.saturating_add(1);
    }
}

/// The bytes that came on a line.
pub fn took(alloc: Global, line: u32, room: usize, bytes: &[u8]) -> Result<Call, NoMemory>
    ensures { IfOk result (λ c. c ≡ calls.Took line room (Some bytes.now)) }
{
    Ok(Call::Took(line, room, Some(Bytes::of(alloc, bytes)?)))
}

/// A piece for a line, and the length of the front that was sent.
pub fn gave(alloc: Global, line: u32, piece: &[u8], sent: Option<usize>) -> Result<Call, NoMemory>
    ensures { IfOk result (λ c. c ≡ calls.Gave line piece.now sent) }
{
    Ok(Call::Gave(line, Bytes::of(alloc, piece)?, sent))
}

/// The text that a key file gave, which are so many bytes at the front of the room.
pub fn named(alloc: Global, name: &str, room: &[u8], count: usize) -> Result<Call, NoMemory>
    requires { count ≤ length room.now }
    ensures { IfOk result (λ c. c ≡ calls.Text name.now (length room.now) (Ok (take count room.now))) }
{
    let name = Bytes::of(alloc, name.as_bytes())?;
    let text = Bytes::of(alloc, &room[..count])?;
    Ok(Call::Text(name, room.len(), Ok(text)))
}

/// A key file that gave none.
pub fn unnamed(alloc: Global, name: &str, room: usize) -> Result<Call, NoMemory>
    ensures { IfOk result (λ c. c ≡ calls.Text name.now room (Err faults.Failed)) }
{
    let name = Bytes::of(alloc, name.as_bytes())?;
    Ok(Call::Text(name, room, Err(NameFault::Failed)))
}

/// A name for the store, and how that came out.
pub fn attached(alloc: Global, name: &str, done: Result<(), NameFault>) -> Result<Call, NoMemory>
    ensures { IfOk result (λ c. c ≡ calls.Attached name.now done) }
{
    Ok(Call::Attached(Bytes::of(alloc, name.as_bytes())?, done))
}

/// An address for further lines, and how that came out.
pub fn listened(alloc: Global, address: &str, done: Result<(), NameFault>) -> Result<Call, NoMemory>
    ensures { IfOk result (λ c. c ≡ calls.Listened address.now done) }
{
    Ok(Call::Listened(Bytes::of(alloc, address.as_bytes())?, done))
}

/// The bytes that were drawn.
pub fn drew(alloc: Global, purpose: Purpose, bytes: &[u8]) -> Result<Call, NoMemory>
    ensures { IfOk result (λ c. c ≡ calls.Drew purpose (Some bytes.now)) }
{
    Ok(Call::Drew(purpose, Some(Bytes::of(alloc, bytes)?)))
}
