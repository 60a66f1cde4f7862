ghost use Rattle.std.specs.Prelude.{◌≡◌, ◌<◌, is_some, true};
ghost use Rattle.http.specs.StatusCode.{reason_phrase};

use crate::{FaultReply, fault_reply, print};
use kms_world::{Allow, Bytes, Media2, NoMemory, Reply};
use std::alloc::Global;
use std::test::Fail;

const CREATED: &[u8] =
    b"HTTP/1.1 201 Created\r\nDate: Sat, 26 Oct 1985 08:20:00 GMT\r\nContent-Type: application/json\r\nContent-Length: 73\r\n\r\n{\"secret_ref\":\"http://k/v1/secrets/01234567-89ab-8cde-8000-000000000000\"}";

const ABSENT: &[u8] =
    b"HTTP/1.1 404 Not Found\r\nDate: Sat, 26 Oct 1985 08:20:00 GMT\r\nContent-Type: application/json\r\nContent-Length: 57\r\nConnection: close\r\n\r\n{\"code\":404,\"description\":\"NoObject\",\"title\":\"Not Found\"}";

const WRONG_METHOD: &[u8] =
    b"HTTP/1.1 405 Method Not Allowed\r\nDate: Thu, 01 Jan 1970 00:00:00 GMT\r\nContent-Length: 1\r\nAllow: GET, PUT, DELETE\r\n\r\nx";

const NO_IDENTITY: &[u8] =
    b"HTTP/1.1 401 Unauthorized\r\nDate: Tue, 29 Feb 2000 00:00:00 GMT\r\nContent-Length: 1\r\nWWW-Authenticate: Keystone\r\nConnection: close\r\n\r\nx";

const EMPTY: &[u8] = b"HTTP/1.1 204 No Content\r\nDate: Fri, 31 Dec 9999 23:59:59 GMT\r\n\r\n";

const NONE: Allow = Allow {
    get: false,
    post: false,
    put: false,
    patch: false,
    delete: false,
};

const TIME: u64 = 499_162_800;

fn printed(
    alloc: Global,
    status: u16,
    allow: Allow,
    body: &[u8],
    moment: u64,
    close: bool,
) -> Result<Bytes, NoMemory>
    requires status { is_some (reason_phrase status) ≡ true }
    requires moment { moment < 253402300800 }
{
    let body = Bytes::of(alloc, body)?;
    let media = if status == 201 || status == 404 {
        Some(Media2::Json)
    } else {
        None
    };
    let reply = Reply {
        status,
        media,
        allow: Some(allow),
        body,
    };
    print(alloc, &reply, moment, close)
}

#[test]
fn printed_replies(rt: HostRuntime) -> Result<(), Fail> {
    let alloc = rt.alloc();
    let body =
        b"{\"secret_ref\":\"http://k/v1/secrets/01234567-89ab-8cde-8000-000000000000\"}".as_slice();
    assert!(rt; printed(alloc, 201, NONE, body, TIME, false)?.as_slice() == CREATED);
    let body = b"{\"code\":404,\"description\":\"NoObject\",\"title\":\"Not Found\"}".as_slice();
    assert!(rt; printed(alloc, 404, NONE, body, TIME, true)?.as_slice() == ABSENT);
    let some = Allow {
        get: true,
        put: true,
        delete: true,
        ..NONE
    };
    assert!(rt; printed(alloc, 405, some, b"x", 0, false)?.as_slice() == WRONG_METHOD);
    assert!(rt; printed(alloc, 401, some, b"x", 951_782_400, true)?.as_slice() == NO_IDENTITY);
    assert!(rt; printed(alloc, 204, some, b"", 253_402_300_799, false)?.as_slice() == EMPTY);
    Ok(())
}

#[test]
fn replies_to_faults(rt: HostRuntime) {
    let text =
        b"HTTP/1.1 503 Service Unavailable\r\nContent-Length: 0\r\nConnection: close\r\n\r\n".as_slice();
    assert!(rt; fault_reply(FaultReply::F1) == text);
    let text =
        b"HTTP/1.1 503 Service Unavailable\r\nContent-Length: 0\r\nRetry-After: 1\r\n\r\n".as_slice();
    assert!(rt; fault_reply(FaultReply::F2) == text);
    let text = b"HTTP/1.1 507 Insufficient Storage\r\nContent-Length: 0\r\n\r\n".as_slice();
    assert!(rt; fault_reply(FaultReply::F3) == text);
}
