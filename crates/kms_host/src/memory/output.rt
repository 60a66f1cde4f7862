// The bytes that were sent, by line.
ghost use Rattle.std.specs.Prelude.{◌≡◌, ◌==◌, OnOk, OnErr, position};
ghost use Rattle.kms_host.specs.Memory.{sent_on, AddsTo};

use crate::{Bytes, NoMemory};
use std::alloc::Global;

// The place of a line that something was sent on.
fn place_of(outputs: &[(u32, Bytes)], line: u32) -> Option<usize>
    ensures { result ≡ position (λ o. o.0 == line) outputs.now }
{
    outputs.iter().position(|output| output.0 == line)
}

/// Adds a piece to what was sent on a line.
pub fn send(
    alloc: Global,
    outputs: &mut Vec<(u32, Bytes)>,
    line: u32,
    piece: &[u8],
) -> Result<(), NoMemory>
    ensures ok { OnOk result (AddsTo line piece.now outputs.old.items outputs.new.items) }
    ensures err { OnErr result (outputs.new.items ≡ outputs.old.items) }
{
    match place_of(outputs, line) {
        Some(place) => outputs[place].1.push_all(piece),
        None => {
            outputs.push((line, Bytes::of(alloc, piece)?))?;
            Ok(())
        }
    }
}

/// What was sent on a line.
pub fn sent_to(outputs: &[(u32, Bytes)], line: u32) -> &[u8]
    ensures { result.now ≡ sent_on line outputs.now }
{
    match place_of(outputs, line) {
        Some(place) => outputs[place].1.as_slice(),
        None => &[],
    }
}
