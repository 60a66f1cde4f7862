// The answer to a line.
use crate::ways::{heads, messages};
use std::alloc::{AllocError, Global};

const GET: &str =
    "GET /v1/secrets/00000000-0000-4000-8000-000000000001 HTTP/1.1\r\nHost: k\r\nUser-Agent: client\r\nAccept: application/json\r\nX-Project-Id: p1\r\nX-User-Id: u1\r\nX-Roles: creator\r\n\r\n";

// So many messages, one after the other.
fn stream(alloc: Global, count: u32) -> Result<String, AllocError> {
    let mut text = String::new(alloc);
    for _ in 0..count {
        text.push_str(GET)?;
    }
    Ok(text)
}

fn read_once(alloc: Global, way: &str, stream: &[u8]) -> Option<u32> {
    match way {
        "reader" => messages(alloc, stream),
        "heads" => Some(heads(stream)),
        _ => None,
    }
}

/// The answer to a line: how many messages were read; none where the line has no such form.
pub fn answer(alloc: Global, line: &str) -> Option<u32> {
    let (count, way) = line.split_once(' ')?;
    let count: u32 = count.parse().ok()?;
    let stream = stream(alloc, 1_000).ok()?;
    for _ in 1..count {
        let _ = read_once(alloc, way, stream.as_bytes())?;
    }
    read_once(alloc, way, stream.as_bytes())
}
