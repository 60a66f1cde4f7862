// Ways to read a stream.
use httparse::Status;
use httparse::spans::{EMPTY_HEADER_SPAN, parse_request};
use kms_http::{MessageRead, MessageReader};
use std::alloc::Global;

// The messages that the reader holds whole.
fn whole_messages(reader: &mut MessageReader) -> Option<u32> {
    let mut count = 0u32;
    for _ in 0..reader.held() {
        match reader.next() {
            Ok(MessageRead::Message(_)) => count = count.wrapping_add(1),
            Ok(_) => return Some(count),
            Err(_) => return None,
        }
    }
    Some(count)
}

/// How many messages the reader reads, fed in pieces of 65,536 bytes. None where it has no memory.
pub fn messages(alloc: Global, stream: &[u8]) -> Option<u32> {
    let mut reader = MessageReader::new(alloc);
    let mut count = 0u32;
    for piece in stream.chunks(65_536) {
        if reader.passed() > 1 << 40 || reader.held() > 1 << 40 || piece.len() > 65_536 {
            return None;
        }
        reader.feed(piece).ok()?;
        count = count.wrapping_add(whole_messages(&mut reader)?);
    }
    Some(count)
}

/// How many heads `httparse` reads, one after the other.
pub fn heads(stream: &[u8]) -> u32 {
    let mut headers = [EMPTY_HEADER_SPAN; 64];
    let mut rest = stream;
    let mut count = 0u32;
    for _ in 0..stream.len() {
        let Ok(Status::Complete(spans)) = parse_request(rest, &mut headers) else {
            return count;
        };
        match rest.get(spans.len..) {
            Some(more) => rest = more,
            None => return count,
        }
        count = count.wrapping_add(1);
    }
    count
}
