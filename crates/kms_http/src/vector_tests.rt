// Messages and what comes of them. The table's answers are Python's: tests/message_vectors.py computes them again and says
// how they read.
ghost use Rattle.std.specs.Prelude.{◌<◌, length};

use crate::table::{Case, parts};
use crate::{Message, MessageRead, MessageReader, RouteFault, Routes, route};
use kms_world::{Allow, Bytes, Caller, NoMemory, Refusal};
use std::alloc::Global;
use std::test::Fail;

fn flag(role: bool) -> &'static str {
    if role { "1" } else { "0" }
}

fn put_caller(out: &mut String, caller: &Caller) -> Result<(), NoMemory> {
    let roles = caller.roles;
    out.push_str(caller.project.as_str())?;
    out.push_str(" ")?;
    out.push_str(caller.user.as_str())?;
    out.push_str(" ")?;
    for role in [
        roles.admin,
        roles.creator,
        roles.observer,
        roles.audit,
        roles.service_admin,
    ] {
        out.push_str(flag(role))?;
    }
    Ok(())
}

fn put_methods(alloc: Global, out: &mut String, allow: Allow) -> Result<(), NoMemory> {
    let mut text = Bytes::new(alloc);
    crate::allow::put_allow(&mut text, allow)?;
    out.push_str("405 ")?;
    out.push_str(str::from_utf8(text.as_slice()).unwrap_or("no text"))?;
    Ok(())
}

fn put_routed(
    alloc: Global,
    out: &mut String,
    routes: &Routes,
    message: &Message,
) -> Result<(), Fail> {
    match route(routes, alloc, &message.head) {
        Ok((caller, shape)) => {
            put_caller(out, &caller)?;
            write!(out, " {shape:?}")?;
        }
        Err(RouteFault::Refused(Refusal::NoIdentity)) => out.push_str("401")?,
        Err(RouteFault::Refused(Refusal::NoRoute)) => out.push_str("404")?,
        Err(RouteFault::Refused(Refusal::WrongMethod(allow))) => put_methods(alloc, out, allow)?,
        Err(RouteFault::Refused(_)) => out.push_str("another refusal")?,
        Err(RouteFault::NoMemory) => return Err(Fail::from(NoMemory)),
    }
    Ok(())
}

fn put_message(
    alloc: Global,
    out: &mut String,
    routes: &Routes,
    message: &Message,
) -> Result<(), Fail> {
    if message.close {
        out.push_str("close ")?;
    }
    put_routed(alloc, out, routes, message)?;
    let size = message.body.as_slice().len();
    write!(out, "; {size}")?;
    Ok(())
}

fn answer(alloc: Global, routes: &Routes, read: &MessageRead) -> Result<String, Fail> {
    let mut out = String::new(alloc);
    match read {
        MessageRead::Message(message) => put_message(alloc, &mut out, routes, message)?,
        MessageRead::More => out.push_str("more")?,
        MessageRead::Bad(Refusal::BadMessage) => out.push_str("400")?,
        MessageRead::Bad(Refusal::HeadTooLong) => out.push_str("431")?,
        MessageRead::Bad(Refusal::BodyTooLong) => out.push_str("413")?,
        MessageRead::Bad(Refusal::LengthRequired) => out.push_str("411")?,
        MessageRead::Bad(_) => out.push_str("another refusal")?,
    }
    Ok(out)
}

// What a reader says first of these bytes, fed in pieces of this size.
fn first(alloc: Global, bytes: &[u8], size: usize) -> Result<MessageRead, NoMemory> {
    let mut reader = MessageReader::new(alloc);
    for piece in bytes.chunks(usize::max(size, 1)) {
        if reader.passed() > 100000 || reader.held() > 100000 || piece.len() > 100000 {
            break;
        }
        reader.feed(piece)?;
        match reader.next()? {
            MessageRead::More => {}
            read => return Ok(read),
        }
    }
    Ok(MessageRead::More)
}

// What is read first of these bytes, fed in pieces of this size, as a text.
fn first_answer(alloc: Global, routes: &Routes, bytes: &[u8], size: usize) -> Result<String, Fail> {
    let read = first(alloc, bytes, size)?;
    answer(alloc, routes, &read)
}

// A case's message and its answer, which stands after the last bar.
fn parted(case: &[u8]) -> (&[u8], &[u8]) {
    match case.iter().rposition(|b| *b == b'|') {
        Some(bar) if bar < case.len() => (&case[..bar], &case[bar + 1..]),
        _ => (case, b""),
    }
}

// How many of the cases have another answer.
fn count_wrong(alloc: Global, routes: &Routes, cases: &[Case], size: usize) -> Result<usize, Fail> {
    let mut wrong: usize = 0;
    for case in cases {
        let (message, want) = parted(case);
        let have = first_answer(alloc, routes, message, size)?;
        if have.as_bytes() != want {
            wrong = wrong.saturating_add(1);
        }
    }
    Ok(wrong)
}

#[test]
fn messages_and_their_cuts(rt: HostRuntime) -> Result<(), Fail> {
    let alloc = rt.alloc();
    let routes = Routes::new(alloc)?;
    for cases in parts() {
        for size in [100000, 1, 7] {
            assert_eq!(rt; count_wrong(alloc, &routes, cases, size)?, 0);
        }
    }
    Ok(())
}
