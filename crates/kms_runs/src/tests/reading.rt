// What is read of a line: messages of every form, in every cut, and what is refused.
use super::{ABSENT, CREATED, EMPTY, GET, POST, SHOWN, joined, serves};
use kms_host::NoMemory;
use kms_serve::Status;
use std::alloc::Global;
use std::rt::HostRuntime;
use std::test::Fail;

// The request POST in other words: fields in another order and other cases, a path with a slash and a query, blank lines
// before it, lines that end with a line feed alone, and a body with other fields, white space and an escape.
const OTHER_POST: &[u8] =
    b"\r\n\nPOST /v1/secrets/?a=b HTTP/1.1\nx-roles: audit, Creator ,x\nContent-Length:  0068\r\nX-PROJECT-ID:p1\r\nExpect: 100-continue\r\nX-Identity-Status: Confirmed\r\nx-user-id:\tu1 \r\n\r\n{ \"mode\" : null, \"other\": [1.5], \"name\": \"b\",\r\n\t\"name\" : \"\\u0061\" } ";

const NO_USER: &[u8] =
    b"GET /v1/secrets/01234567-89ab-8cde-8000-000000000000 HTTP/1.1\r\nX-Project-Id: p1\r\nX-Roles: creator\r\n\r\n";

const INVALID: &[u8] =
    b"GET /v1/nothing HTTP/1.1\r\nX-Project-Id: p1\r\nX-User-Id: u1\r\nX-Roles: creator\r\nX-Identity-Status: Invalid\r\n\r\n";

const OBSERVER: &[u8] =
    b"POST /v1/secrets HTTP/1.1\r\nX-Project-Id: p1\r\nX-User-Id: u1\r\nX-Roles: observer\r\nContent-Length: 2\r\n\r\n{}";

const DENIED: &[u8] =
    b"HTTP/1.1 403 Forbidden\r\nDate: Sat, 26 Oct 1985 08:20:00 GMT\r\nContent-Type: application/json\r\nContent-Length: 75\r\n\r\n{\"code\":403,\"description\":\"Denied: secret:create/role\",\"title\":\"Forbidden\"}";

const NO_IDENTITY: &[u8] =
    b"HTTP/1.1 401 Unauthorized\r\nDate: Sat, 26 Oct 1985 08:20:00 GMT\r\nContent-Type: application/json\r\nContent-Length: 62\r\nWWW-Authenticate: Keystone\r\n\r\n{\"code\":401,\"description\":\"NoIdentity\",\"title\":\"Unauthorized\"}";

const NOTHING: &[u8] =
    b"GET /v1/nothing HTTP/1.1\r\nX-Project-Id: p1\r\nX-User-Id: u1\r\nX-Roles: creator\r\n\r\n";

const ORDERS: &[u8] =
    b"GET /v1/orders HTTP/1.1\r\nX-Project-Id: p1\r\nX-User-Id: u1\r\nX-Roles: creator\r\n\r\n";

const NO_ROUTE: &[u8] =
    b"HTTP/1.1 404 Not Found\r\nDate: Sat, 26 Oct 1985 08:20:00 GMT\r\nContent-Type: application/json\r\nContent-Length: 56\r\n\r\n{\"code\":404,\"description\":\"NoRoute\",\"title\":\"Not Found\"}";

const PUT_QUOTAS: &[u8] =
    b"PUT /v1/quotas HTTP/1.1\r\nX-Project-Id: p1\r\nX-User-Id: u1\r\nX-Roles: creator\r\nContent-Length: 2\r\n\r\n{}";

const WRONG_METHOD: &[u8] =
    b"HTTP/1.1 405 Method Not Allowed\r\nDate: Sat, 26 Oct 1985 08:20:00 GMT\r\nContent-Type: application/json\r\nContent-Length: 69\r\nAllow: GET\r\n\r\n{\"code\":405,\"description\":\"WrongMethod\",\"title\":\"Method Not Allowed\"}";

const POST_HEAD: &[u8] =
    b"POST /v1/secrets HTTP/1.1\r\nX-Project-Id: p1\r\nX-User-Id: u1\r\nX-Roles: admin\r\n";

const WRONG_TYPE: &[u8] =
    b"HTTP/1.1 415 Unsupported Media Type\r\nDate: Sat, 26 Oct 1985 08:20:00 GMT\r\nContent-Type: application/json\r\nContent-Length: 71\r\n\r\n{\"code\":415,\"description\":\"WrongType\",\"title\":\"Unsupported Media Type\"}";

const BAD_BODY: &[u8] =
    b"HTTP/1.1 400 Bad Request\r\nDate: Sat, 26 Oct 1985 08:20:00 GMT\r\nContent-Type: application/json\r\nContent-Length: 64\r\n\r\n{\"code\":400,\"description\":\"BadBody: body\",\"title\":\"Bad Request\"}";

const UNTYPED_PAYLOAD: &[u8] =
    b"HTTP/1.1 400 Bad Request\r\nDate: Sat, 26 Oct 1985 08:20:00 GMT\r\nContent-Type: application/json\r\nContent-Length: 80\r\n\r\n{\"code\":400,\"description\":\"BadBody: payload_content_type\",\"title\":\"Bad Request\"}";

const BAD_MESSAGE: &[u8] =
    b"HTTP/1.1 400 Bad Request\r\nDate: Sat, 26 Oct 1985 08:20:00 GMT\r\nContent-Type: application/json\r\nContent-Length: 61\r\nConnection: close\r\n\r\n{\"code\":400,\"description\":\"BadMessage\",\"title\":\"Bad Request\"}";

const HEAD_TOO_LONG: &[u8] =
    b"HTTP/1.1 431 Request Header Fields Too Large\r\nDate: Sat, 26 Oct 1985 08:20:00 GMT\r\nContent-Type: application/json\r\nContent-Length: 82\r\nConnection: close\r\n\r\n{\"code\":431,\"description\":\"HeadTooLong\",\"title\":\"Request Header Fields Too Large\"}";

const BODY_TOO_LONG: &[u8] =
    b"HTTP/1.1 413 Payload Too Large\r\nDate: Sat, 26 Oct 1985 08:20:00 GMT\r\nContent-Type: application/json\r\nContent-Length: 68\r\nConnection: close\r\n\r\n{\"code\":413,\"description\":\"BodyTooLong\",\"title\":\"Payload Too Large\"}";

const LENGTH_REQUIRED: &[u8] =
    b"HTTP/1.1 411 Length Required\r\nDate: Sat, 26 Oct 1985 08:20:00 GMT\r\nContent-Type: application/json\r\nContent-Length: 69\r\nConnection: close\r\n\r\n{\"code\":411,\"description\":\"LengthRequired\",\"title\":\"Length Required\"}";

const ABSENT_LAST: &[u8] =
    b"HTTP/1.1 404 Not Found\r\nDate: Sat, 26 Oct 1985 08:20:00 GMT\r\nContent-Type: application/json\r\nContent-Length: 57\r\nConnection: close\r\n\r\n{\"code\":404,\"description\":\"NoObject\",\"title\":\"Not Found\"}";

// Whether a line that brings these bytes, in pieces of one byte, of a hundred and at once, is served to its end, with this
// sent.
fn answers(alloc: Global, bytes: &[u8], sent: &[u8]) -> Result<bool, NoMemory> {
    for piece in [1, 100, 65536] {
        if !serves(alloc, bytes, piece, None, Status::Done, sent)? {
            return Ok(false);
        }
    }
    Ok(true)
}

#[test]
fn any_form_is_read(rt: HostRuntime) -> Result<(), Fail> {
    let alloc = rt.alloc();
    let requests = joined(alloc, &[OTHER_POST, GET])?;
    let replies = joined(alloc, &[CREATED, SHOWN])?;
    assert!(rt; answers(alloc, &requests, &replies)?);
    Ok(())
}

#[test]
fn requests_are_refused(rt: HostRuntime) -> Result<(), Fail> {
    let alloc = rt.alloc();
    let table: [(&[u8], &[u8]); 6] = [
        (NO_USER, NO_IDENTITY),
        (INVALID, NO_IDENTITY),
        (OBSERVER, DENIED),
        (NOTHING, NO_ROUTE),
        (ORDERS, NO_ROUTE),
        (PUT_QUOTAS, WRONG_METHOD),
    ];
    for (request, reply) in table {
        // the line goes on after each
        let requests = joined(alloc, &[request, GET])?;
        let replies = joined(alloc, &[reply, ABSENT])?;
        assert!(rt; answers(alloc, &requests, &replies)?);
    }
    Ok(())
}

#[test]
fn bodies_are_refused(rt: HostRuntime) -> Result<(), Fail> {
    let alloc = rt.alloc();
    let table: [(&[u8], &[u8]); 3] = [
        (
            b"Content-Type: text/html\r\nContent-Length: 12\r\n\r\n{\"name\":\"a\"}",
            WRONG_TYPE,
        ),
        (b"Content-Length: 11\r\n\r\n{\"name\":\"a\"", BAD_BODY),
        (
            b"Content-Length: 32\r\n\r\n{\"payload\":\"hello\",\"name\":\"abc\"}",
            UNTYPED_PAYLOAD,
        ),
    ];
    for (rest, reply) in table {
        let requests = joined(alloc, &[POST_HEAD, rest, GET])?;
        let replies = joined(alloc, &[reply, ABSENT])?;
        assert!(rt; answers(alloc, &requests, &replies)?);
    }
    Ok(())
}

// Whether what stands behind a POST is refused so, by the last reply of the line, in each cut.
fn ends(alloc: Global, bytes: &[u8], reply: &[u8]) -> Result<bool, NoMemory> {
    let requests = joined(alloc, &[POST, bytes, POST])?;
    let replies = joined(alloc, &[CREATED, reply])?;
    for piece in [1, 100, 65536] {
        if !serves(
            alloc,
            &requests,
            piece,
            None,
            Status::Unreadable(144),
            &replies,
        )? {
            return Ok(false);
        }
    }
    Ok(true)
}

#[test]
fn what_is_no_message_ends_the_line(rt: HostRuntime) -> Result<(), Fail> {
    let alloc = rt.alloc();
    let table: [(&[u8], &[u8]); 5] = [
        (b"HELLO\r\n\r\n", BAD_MESSAGE),
        (
            b"GET / HTTP/1.1\r\nContent-Length: 1\r\nContent-Length: 1\r\n\r\na",
            BAD_MESSAGE,
        ),
        (
            b"POST / HTTP/1.1\r\nTransfer-Encoding: chunked\r\n\r\n",
            LENGTH_REQUIRED,
        ),
        (b"POST /v1/secrets HTTP/1.1\r\n\r\n", LENGTH_REQUIRED),
        (
            b"POST / HTTP/1.1\r\nContent-Length: 65537\r\n\r\n",
            BODY_TOO_LONG,
        ),
    ];
    for (bytes, reply) in table {
        assert!(rt; ends(alloc, bytes, reply)?);
    }
    let feeds = [b'\n'; 63];
    let head = joined(alloc, &[&feeds, b"GET / HTTP/1.1\r\nA: b\r\nC: d\r\n\r\n"])?;
    assert!(rt; ends(alloc, &head, HEAD_TOO_LONG)?);
    let letters = [b'A'; 16384];
    let bad = Status::Unreadable(0);
    assert!(rt; serves(alloc, &letters, 5000, None, bad, HEAD_TOO_LONG)?);
    assert!(rt; serves(alloc, &letters[1..], 5000, None, Status::Rest(0), EMPTY)?);
    Ok(())
}

#[test]
fn a_message_asks_for_the_end(rt: HostRuntime) -> Result<(), Fail> {
    let alloc = rt.alloc();
    let fields = b"X-Project-Id: p1\r\nX-User-Id: u1\r\nX-Roles: creator\r\n".as_slice();
    let line = b"GET /v1/secrets/01234567-89ab-8cde-8000-000000000000 HTTP/1.1\r\n".as_slice();
    let old = b"GET /v1/secrets/01234567-89ab-8cde-8000-000000000000 HTTP/1.0\r\n".as_slice();
    let asking = joined(
        alloc,
        &[
            line,
            fields,
            b"Connection: a, CLOSE\r\n\r\n",
            b"HELLO\r\n\r\n",
        ],
    )?;
    assert!(rt; answers(alloc, &asking, ABSENT_LAST)?);
    let first = joined(alloc, &[old, fields, b"\r\n", POST])?;
    assert!(rt; answers(alloc, &first, ABSENT_LAST)?);
    Ok(())
}
