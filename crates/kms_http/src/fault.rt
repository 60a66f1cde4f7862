// Replies to faults.
ghost use Rattle.std.specs.Prelude.{◌≡◌};
ghost use Rattle.kms_http.specs.Reply.{fault_reply_of};

/// The replies that tell of a fault of the server.
#[derive(Clone, Copy, Debug, PartialEq, Eq)]
pub enum FaultReply {
    /// the store failed: 503, and the line is shut
    F1,
    /// no random bytes: 503, to be tried again after a second
    F2,
    /// out of memory: 507
    F3,
}

/// The whole reply (RFC 9110 sections 15.6.4 and 10.2.3, RFC 4918 section 11.5). Takes no memory.
#[tactic(auto, unfolding(crate::specs::Reply::fault_reply_of))]
pub fn fault_reply(fault: FaultReply) -> &'static [u8]
    ensures { result.now ≡ fault_reply_of fault }
{
    match fault {
        FaultReply::F1 =>
            b"HTTP/1.1 503 Service Unavailable\r\nContent-Length: 0\r\nConnection: close\r\n\r\n",
        FaultReply::F2 =>
            b"HTTP/1.1 503 Service Unavailable\r\nContent-Length: 0\r\nRetry-After: 1\r\n\r\n",
        FaultReply::F3 => b"HTTP/1.1 507 Insufficient Storage\r\nContent-Length: 0\r\n\r\n",
    }
}
