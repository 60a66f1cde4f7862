// One line from its first byte to its end, and the moments that are told.
ghost use Rattle.std.specs.Prelude.{◌<◌, ◌≤◌, length, IfOk};
ghost use Rattle.kms_host.specs.History.{WhereTold};
ghost use Rattle.kms_host.specs.Line.{IsOpen};

use crate::{Bytes, Count, Failed, Host, MemoryHost, NoMemory};
use std::alloc::Global;
use std::rt::HostRuntime;
use std::test::Fail;

// A take from line 0, which stays open.
fn take<H: Host>(host: &mut H, room: &mut [u8]) -> Result<usize, Failed>
    requires room { 0 < length room.old }
    requires line { WhereTold (H.history host.old) (IsOpen 0) }
    ensures line { WhereTold (H.history host.new) (IsOpen 0) }
    ensures bound { IfOk result (λ n. n ≤ length room.new) }
{
    host.take(0, room)
}

// Whether these bytes come into a room of eight.
fn comes<H: Host>(host: &mut H, bytes: &[u8]) -> bool
    requires { WhereTold (H.history host.old) (IsOpen 0) }
    ensures { WhereTold (H.history host.new) (IsOpen 0) }
{
    let mut room = [0; 8];
    match take(host, &mut room) {
        Ok(count) => &room[..count] == bytes,
        Err(Failed) => false,
    }
}

// Whether a give to line 0 sends all of these bytes. The line stays open.
fn goes<H: Host>(host: &mut H, bytes: &[u8]) -> bool
    requires { WhereTold (H.history host.old) (IsOpen 0) }
    ensures { WhereTold (H.history host.new) (IsOpen 0) }
{
    host.give(0, bytes).is_ok()
}

// A line of seven bytes in pieces of three, whose fourth and seventh call fail.
fn ready(alloc: Global) -> Result<MemoryHost, NoMemory>
    ensures { IfOk result (λ m. WhereTold m.history (IsOpen 0)) }
{
    let mut host = MemoryHost::new(alloc)?;
    host.line(b"abcdefg", 3)?;
    host.fail(Count::Link, 4)?;
    host.fail(Count::Link, 7)?;
    host.fail(Count::Draw, 1)?;
    Ok(host)
}

// What comes of it.
fn all_comes<H: Host>(host: &mut H) -> bool
    requires { WhereTold (H.history host.old) (IsOpen 0) }
    ensures { WhereTold (H.history host.new) (IsOpen 0) }
{
    let mut room = [0; 2];
    let first = comes(host, b"abc");
    let second = take(host, &mut room) == Ok(2);
    let third = comes(host, b"f");
    let fails = take(host, &mut room).is_err();
    let last = comes(host, b"g");
    let ends = comes(host, b"");
    first & second & third & fails & last & ends & (room == *b"de")
}

#[test]
fn a_line_comes_in_pieces(rt: HostRuntime) -> Result<(), Fail> {
    let mut host = ready(rt.alloc())?;
    assert!(rt; all_comes(&mut host));
    assert!(rt; !goes(&mut host, b"lost"));
    assert!(rt; goes(&mut host, b"sent "));
    assert!(rt; goes(&mut host, b"whole"));
    assert_eq!(rt; host.sent(0), b"sent whole".as_slice());
    assert_eq!(rt; host.wanted(), 0);
    Ok(())
}

// Whether this moment is told next.
fn tells<H: Host>(host: &mut H, moment: u64) -> bool {
    host.now() == moment
}

fn add_moments(host: &mut MemoryHost) -> Result<(), NoMemory> {
    host.moment(5)?;
    host.moment(9)?;
    host.moment(7)
}

// The last moment repeats; without one it is 0.
#[test]
fn moments_are_told(rt: HostRuntime) -> Result<(), Fail> {
    let mut host = MemoryHost::new(rt.alloc())?;
    assert!(rt; tells(&mut host, 0));
    add_moments(&mut host)?;
    assert!(rt; tells(&mut host, 9));
    assert!(rt; tells(&mut host, 7));
    assert!(rt; tells(&mut host, 7));
    Ok(())
}

#[test]
fn bytes_are_added(rt: HostRuntime) -> Result<(), Fail> {
    let mut bytes = Bytes::of(rt.alloc(), b"ab")?;
    bytes.push_all(b"cd")?;
    assert_eq!(rt; bytes.as_slice(), b"abcd".as_slice());
    Ok(())
}
