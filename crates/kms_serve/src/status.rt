// How a run ended, as the operator sees it.
ghost use Rattle.std.specs.Prelude.{◌≡◌, ◌+◌, ◌≤◌, ◌++◌, length, take, codes, decimal};
ghost use Rattle.kms_text.specs.IdText.{id_text_of};
ghost use Rattle.kms_serve.specs.Status.{bad_key_text, code_of, line_of};

use itoa::Buffer;
use kms_journal::Place;
use kms_ring::{BadKey, BadLine};
use kms_text::id_text;
use kms_world::{Id, Name};

/// How a run ended.
#[derive(Clone, Copy, Debug, PartialEq, Eq)]
pub enum Status {
    /// all was served
    Done,
    /// the words of the command line are not understood
    Words,
    /// out of memory outside of a request's answer
    NoMemory,
    /// there is no store
    NoStore,
    /// there is a store already
    StoreExists,
    /// a call on the store's files failed
    StoreFault,
    /// the line failed
    LinkFault,
    /// drawing random bytes failed
    DrawFault,
    /// the stream ends inside a message, which begins at this place, in bytes
    Rest(u64),
    /// what stands at this place of the stream, in bytes, is no message
    Unreadable(u64),
    /// the store is damaged at this place
    Damaged(Place),
    /// the payload of this secret doesn't open
    DamagedPayload(Id),
    /// this line of the key file is bad
    BadKeyFile(BadLine),
    /// no master key opens a key of this project
    UnknownMaster(Name),
    /// the key file can't be read
    KeyFileFault,
}

// Writes a piece after what stands before a place, and answers the place after it.
fn put(room: &mut [u8; 192], at: usize, piece: &[u8]) -> usize
    requires { at + length piece.now ≤ 192 }
    ensures place { result ≡ at + length piece.now }
    ensures text { take result room.new ≡ take at room.old ++ piece.now }
{
    let end = at + piece.len();
    room[at..end].copy_from_slice(piece);
    end
}

fn put_line(room: &mut [u8; 192], text: &[u8]) -> usize
    requires { length text.now ≤ 100 }
    ensures bound { result ≤ 192 }
    ensures text { take result room.new ≡ codes "barbicand: " ++ text.now ++ codes "\n" }
{
    let at = put(room, 0, b"barbicand: ");
    let at = put(room, at, text);
    put(room, at, b"\n")
}

#[tactic(auto, using(std::proofs::lemmas::List::append_assoc))]
fn put_place(room: &mut [u8; 192], text: &[u8], place: u64) -> usize
    requires { length text.now ≤ 100 }
    ensures bound { result ≤ 192 }
    ensures text { take result room.new ≡ codes "barbicand: " ++ (text.now ++ decimal place) ++ codes "\n" }
{
    let mut buffer = Buffer::new();
    let at = put(room, 0, b"barbicand: ");
    let at = put(room, at, text);
    let at = put(room, at, buffer.format(place).as_bytes());
    put(room, at, b"\n")
}

// The same with a place in a file: the file's number, and the place in bytes.
#[tactic(auto, using(std::proofs::lemmas::List::append_assoc))]
fn put_damage(room: &mut [u8; 192], file: u8, place: u64) -> usize
    ensures bound { result ≤ 192 }
    ensures text { take result room.new ≡ codes "barbicand: " ++ (codes "damaged: file " ++ decimal file ++ codes " at " ++ decimal place) ++ codes "\n" }
{
    let mut buffer = Buffer::new();
    let at = put(room, 0, b"barbicand: damaged: file ");
    let at = put(room, at, buffer.format(file).as_bytes());
    let at = put(room, at, b" at ");
    let at = put(room, at, buffer.format(place).as_bytes());
    put(room, at, b"\n")
}

#[tactic(auto, using(std::proofs::lemmas::List::append_assoc))]
fn put_secret(room: &mut [u8; 192], secret: Id) -> usize
    ensures bound { result ≤ 192 }
    ensures text { take result room.new ≡ codes "barbicand: " ++ (codes "damaged: secret " ++ id_text_of secret) ++ codes "\n" }
{
    let at = put(room, 0, b"barbicand: damaged: secret ");
    let at = put(room, at, &id_text(secret));
    put(room, at, b"\n")
}

#[tactic(auto, using(std::proofs::lemmas::List::append_assoc))]
fn put_project(room: &mut [u8; 192], project: &Name) -> usize
    ensures bound { result ≤ 192 }
    ensures text { take result room.new ≡ codes "barbicand: " ++ (codes "no master key for project " ++ project.now) ++ codes "\n" }
{
    let at = put(room, 0, b"barbicand: no master key for project ");
    let at = put(room, at, project.as_bytes());
    put(room, at, b"\n")
}

#[tactic(auto, using(std::proofs::lemmas::List::append_assoc))]
fn put_same(room: &mut [u8; 192], at: usize, place: u8) -> usize
    requires { at ≤ 100 }
    ensures bound { result ≤ 191 }
    ensures text { take result room.new ≡ take at room.old ++ (codes "same as line " ++ decimal place) }
{
    let mut buffer = Buffer::new();
    let at = put(room, at, b"same as line ");
    put(room, at, buffer.format(place).as_bytes())
}

// What is wrong with a line of a key file.
fn put_bad_key(room: &mut [u8; 192], at: usize, why: BadKey) -> usize
    requires { at ≤ 100 }
    ensures bound { result ≤ 191 }
    ensures text { take result room.new ≡ take at room.old ++ bad_key_text why }
{
    match why {
        BadKey::NotAKey => put(room, at, b"not a key"),
        BadKey::SameAs(place) => put_same(room, at, place),
        BadKey::TooMany => put(room, at, b"too many keys"),
    }
}

#[tactic(auto, using(std::proofs::lemmas::List::append_assoc))]
fn put_bad_line(room: &mut [u8; 192], bad: BadLine) -> usize
    ensures bound { result ≤ 192 }
    ensures text { take result room.new ≡ codes "barbicand: " ++ (codes "key file line " ++ decimal bad.line ++ codes ": " ++ bad_key_text bad.why) ++ codes "\n" }
{
    let mut buffer = Buffer::new();
    let at = put(room, 0, b"barbicand: key file line ");
    let at = put(room, at, buffer.format(bad.line).as_bytes());
    let at = put(room, at, b": ");
    let at = put_bad_key(room, at, bad.why);
    put(room, at, b"\n")
}

impl Status {
    /// The exit status of the process.
    pub fn code(&self) -> u8
        ensures { result ≡ code_of self.now }
    {
        match self {
            Status::Done => 0,
            Status::Words => 1,
            Status::NoStore | Status::StoreExists => 3,
            Status::NoMemory => 4,
            Status::StoreFault => 5,
            Status::LinkFault => 6,
            Status::DrawFault => 8,
            Status::Rest(_) | Status::Unreadable(_) => 9,
            Status::Damaged(_) | Status::DamagedPayload(_) => 10,
            Status::BadKeyFile(_) => 2,
            Status::UnknownMaster(_) => 7,
            Status::KeyFileFault => 11,
        }
    }

    /// Writes the line for the operator to the front of the room, and answers its length: 0 where all was served.
    pub fn line(&self, room: &mut [u8; 192]) -> usize
        ensures bound { result ≤ 192 }
        ensures text { take result room.new ≡ line_of self.now }
    {
        match self {
            Status::Done => 0,
            Status::Words => put_line(room, b"words not understood"),
            Status::NoMemory => put_line(room, b"out of memory"),
            Status::NoStore => put_line(room, b"no store"),
            Status::StoreExists => put_line(room, b"store exists"),
            Status::StoreFault => put_line(room, b"store fault"),
            Status::LinkFault => put_line(room, b"link fault"),
            Status::DrawFault => put_line(room, b"draw fault"),
            Status::Rest(place) => put_place(
                room,
                b"stream ends inside a message at byte ",
                *place,
            ),
            Status::Unreadable(place) => put_place(room, b"unreadable message at byte ", *place),
            Status::Damaged(Place::Body { file, at }) => put_damage(room, *file, *at),
            Status::DamagedPayload(secret) => put_secret(room, *secret),
            Status::BadKeyFile(bad) => put_bad_line(room, *bad),
            Status::UnknownMaster(project) => put_project(room, project),
            Status::KeyFileFault => put_line(room, b"key file fault"),
        }
    }
}
