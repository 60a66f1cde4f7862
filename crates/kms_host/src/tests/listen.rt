// Lines that come to an address, one after the other.
ghost use Rattle.std.specs.Prelude.{◌≡◌, ℕ, IfOk, false};
ghost use Rattle.kms_host.specs.History.{WhereTold};
ghost use Rattle.kms_host.specs.Line.{IsOpen, is_shut};

use crate::{Count, Failed, Host, MemoryHost, NoMemory};
use std::alloc::Global;
use std::rt::HostRuntime;
use std::test::Fail;

// Three lines. The first and the fourth call for lines fail.
fn ready(alloc: Global) -> Result<MemoryHost, NoMemory>
    ensures { IfOk result (λ m. WhereTold m.history (λ h. (line : ℕ) → is_shut line h.calls ≡ false)) }
{
    let mut host = MemoryHost::new(alloc)?;
    host.line(b"zero", 9)?;
    host.line(b"one", 9)?;
    host.line(b"two", 9)?;
    host.fail(Count::Listen, 1)?;
    host.fail(Count::Listen, 4)?;
    Ok(host)
}

fn listens<H: Host>(host: &mut H) -> bool
    requires { WhereTold (H.history host.old) (λ h. (line : ℕ) → is_shut line h.calls ≡ false) }
    ensures { WhereTold (H.history host.new) (λ h. (line : ℕ) → is_shut line h.calls ≡ false) }
{
    host.listen("127.0.0.1:9311").is_ok()
}

// Whether a line that is open gives these bytes into a buffer of eight.
fn comes<H: Host>(host: &mut H, line: u32, bytes: &[u8]) -> bool
    requires open_line { WhereTold (H.history host.old) (IsOpen line) }
    requires none_shut { WhereTold (H.history host.old) (λ h. (line : ℕ) → is_shut line h.calls ≡ false) }
    ensures { WhereTold (H.history host.new) (λ h. (line : ℕ) → is_shut line h.calls ≡ false) }
{
    let mut buffer = [0; 8];
    match host.take(line, &mut buffer) {
        Ok(count) => &buffer[..count] == bytes,
        Err(Failed) => false,
    }
}

// The next line, where these are its bytes.
fn next<H: Host>(host: &mut H, bytes: &[u8]) -> Result<Option<u32>, Failed>
    requires { WhereTold (H.history host.old) (λ h. (line : ℕ) → is_shut line h.calls ≡ false) }
    ensures { WhereTold (H.history host.new) (λ h. (line : ℕ) → is_shut line h.calls ≡ false) }
{
    match host.next_line()? {
        Some(line) if comes(host, line, bytes) => Ok(Some(line)),
        _ => Ok(None),
    }
}

#[test]
fn lines_come_in_their_order(rt: HostRuntime) -> Result<(), Fail> {
    let mut host = ready(rt.alloc())?;
    assert!(rt; !listens(&mut host));
    assert!(rt; listens(&mut host));
    assert!(rt; next(&mut host, b"one") == Ok(Some(1)));
    assert!(rt; next(&mut host, b"two").is_err());
    assert!(rt; next(&mut host, b"two") == Ok(Some(2)));
    assert!(rt; host.next_line() == Ok(None));
    assert_eq!(rt; host.wanted(), 0);
    Ok(())
}
