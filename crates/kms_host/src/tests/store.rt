// The files of a store in memory: what is written and cut, and what a stop may leave of it; key files and random bytes.
ghost use Rattle.std.specs.Prelude.{◌≡◌, ◌<◌, [], IsTrue, IfOk};
ghost use Rattle.kms_host.specs.History.{WhereTold};
ghost use Rattle.kms_host.specs.Store.{IsAttached, OnlyAttached};

use crate::{Bytes, Count, Failed, Host, MemoryHost, NoMemory, Pick, Purpose};
use std::alloc::Global;
use std::rt::HostRuntime;
use std::test::Fail;

// Whether the store could be named, once and once more.
fn attaches<H: Host>(host: &mut H) -> bool
    requires { WhereTold (H.history host.old) (λ h. h.calls ≡ []) }
    ensures { IsTrue result → WhereTold (H.history host.new) IsAttached }
{
    let first = host.attach("store").is_ok();
    let again = host.attach("store").is_ok();
    first & again
}

// A write within a file that is at least so long.
fn write<H: Host>(host: &mut H, file: u8, at: u64, piece: &[u8]) -> Result<(), Failed>
    requires file { file < 2 }
    requires attached { WhereTold (H.history host.old) IsAttached }
    ensures { WhereTold (H.history host.new) IsAttached }
{
    let length = host.len(file)?;
    if length < at {
        return Err(Failed);
    }
    host.write_at(file, at, piece)
}

// A cut of a file that is at least so long.
fn cut<H: Host>(host: &mut H, file: u8, size: u64) -> Result<(), Failed>
    requires file { file < 2 }
    requires attached { WhereTold (H.history host.old) IsAttached }
    ensures { WhereTold (H.history host.new) IsAttached }
{
    let length = host.len(file)?;
    if length < size {
        return Err(Failed);
    }
    host.cut(file, size)
}

fn sync<H: Host>(host: &mut H, file: u8) -> Result<(), Failed>
    requires file { file < 2 }
    requires attached { WhereTold (H.history host.old) IsAttached }
    ensures { WhereTold (H.history host.new) IsAttached }
{
    host.sync(file)
}

// Whether a file reads so, in a room of eight from a place on.
fn reads_as<H: Host>(host: &mut H, file: u8, at: u64, bytes: &[u8]) -> bool
    requires file { file < 2 }
    requires attached { WhereTold (H.history host.old) IsAttached }
    ensures { WhereTold (H.history host.new) IsAttached }
{
    let mut room = [0; 8];
    match host.read_at(file, at, &mut room) {
        Ok(count) => &room[..count] == bytes,
        Err(Failed) => false,
    }
}

// Whether a stop may leave these files.
fn leaves(host: &MemoryHost, pick: Pick, first: &[u8], second: &[u8]) -> bool {
    match host.image(pick) {
        Ok(image) => image[0].as_slice() == first && image[1].as_slice() == second,
        Err(NoMemory) => false,
    }
}

fn store(alloc: Global) -> Result<MemoryHost, NoMemory>
    ensures { IfOk result (λ m. WhereTold m.history (λ h. h.calls ≡ [])) }
{
    let first = Bytes::of(alloc, b"abc")?;
    let second = Bytes::of(alloc, b"")?;
    MemoryHost::restart(alloc, [first, second])
}

// What is written over `abc` from its second byte on, and cut again.
fn written<H: Host>(host: &mut H) -> Result<bool, Failed>
    requires { WhereTold (H.history host.old) IsAttached }
    ensures { WhereTold (H.history host.new) IsAttached }
{
    write(host, 0, 1, b"XYZ")?;
    write(host, 1, 0, b"q")?;
    Ok(reads_as(host, 0, 0, b"aXYZ") & reads_as(host, 0, 3, b"Z") & reads_as(host, 1, 9, b""))
}

// File 0 is brought to the disk and cut; file 1 stays as it was written.
fn synced<H: Host>(host: &mut H) -> Result<(), Failed>
    requires { WhereTold (H.history host.old) IsAttached }
    ensures { WhereTold (H.history host.new) IsAttached }
{
    sync(host, 0)?;
    cut(host, 0, 2)
}

// What a stop leaves before anything is synced.
fn left_unsynced(host: &MemoryHost) -> bool {
    leaves(host, Pick::Kept, b"aXYZ", b"q")
        & leaves(host, Pick::Lost, b"abc", b"")
        & leaves(host, Pick::Torn(7), b"a\x07\x07\x07", b"\x07")
}

// What a stop leaves where file 0 was synced, and cut since.
fn left_synced(host: &MemoryHost) -> bool {
    leaves(host, Pick::Kept, b"aX", b"q")
        & leaves(host, Pick::Lost, b"aXYZ", b"")
        & leaves(host, Pick::Torn(7), b"aXYZ", b"\x07")
}

// After two calls more each call on the store fails.
fn fails<H: Host>(host: &mut H) -> bool
    requires { WhereTold (H.history host.old) IsAttached }
    ensures { WhereTold (H.history host.new) IsAttached }
{
    let synced = sync(host, 0).is_ok();
    let lost = write(host, 0, 0, b"lost").is_err();
    synced & lost & sync(host, 0).is_err()
}

#[test]
fn a_stop_leaves_what_was_synced(rt: HostRuntime) -> Result<(), Fail> {
    let mut host = store(rt.alloc())?;
    assert!(rt; attaches(&mut host));
    assert!(rt; written(&mut host) == Ok(true));
    assert!(rt; left_unsynced(&host));
    assert!(rt; synced(&mut host).is_ok());
    assert!(rt; left_synced(&host));
    host.fuse(2);
    assert!(rt; fails(&mut host));
    assert!(rt; leaves(&host, Pick::Lost, b"aX", b""));
    assert_eq!(rt; host.wanted(), 0);
    Ok(())
}

// Whether a key file begins so, in a room of five.
fn begins<H: Host>(host: &mut H, name: &str, text: &[u8]) -> bool {
    let mut room = [0; 5];
    match host.text(name, &mut room) {
        Ok(count) => &room[..count] == text,
        Err(_) => false,
    }
}

// Whether these five bytes are drawn.
fn draws<H: Host>(host: &mut H, purpose: Purpose, bytes: &[u8]) -> bool {
    let mut room = [0; 5];
    host.draw(purpose, &mut room).is_ok() && &room[..] == bytes
}

fn add_keys(host: &mut MemoryHost, text: &[u8]) -> Result<(), NoMemory> {
    host.key_file("keys", text)
}

// Two random bytes, and a second draw that fails.
fn list_draws(host: &mut MemoryHost) -> Result<(), NoMemory> {
    host.random(Purpose::Iv, b"\xaa\xbb")?;
    host.fail(Count::Draw, 2)
}

// Two key files of one name, and what is drawn.
fn with_keys(alloc: Global) -> Result<MemoryHost, NoMemory> {
    let mut host = MemoryHost::new(alloc)?;
    add_keys(&mut host, b"old")?;
    add_keys(&mut host, b"first line")?;
    list_draws(&mut host)?;
    Ok(host)
}

#[test]
fn keys_are_read_and_bytes_are_drawn(rt: HostRuntime) -> Result<(), Fail> {
    let mut host = with_keys(rt.alloc())?;
    assert!(rt; begins(&mut host, "keys", b"first"));
    assert!(rt; !begins(&mut host, "key", b""));
    assert!(rt; draws(&mut host, Purpose::Iv, b"\xaa\xbb\x02\x03\x04"));
    assert!(rt; !draws(&mut host, Purpose::Tag, b"\x00\x01\x02\x03\x04"));
    assert!(rt; draws(&mut host, Purpose::Tag, b"\x00\x01\x02\x03\x04"));
    assert_eq!(rt; host.wanted(), 0);
    Ok(())
}
