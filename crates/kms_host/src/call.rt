// The calls of a host, as they are recorded with their answers.
use crate::Bytes;

/// The outside failed.
#[derive(Clone, Copy, Debug, PartialEq, Eq)]
pub struct Failed;

/// Why a call that names something in the outside has no answer.
#[derive(Clone, Copy, Debug, PartialEq, Eq)]
pub enum NameFault {
    /// the outside failed
    Failed,
    /// out of memory
    NoMemory,
}

/// What random bytes are for.
#[derive(Clone, Copy, Debug, PartialEq, Eq)]
pub enum Purpose {
    /// the tag of a new store
    Tag,
    /// an initialization vector
    Iv,
    /// a project's key
    ProjectKey,
    /// the key that an order asks for
    OrderKey,
}

/// Which calls a count of faults is of.
#[derive(Clone, Copy, Debug, PartialEq, Eq)]
pub enum Count {
    /// Reading a key file.
    KeyFile,
    /// Naming the store, and each call on its files.
    Store,
    /// Taking from a line and giving to it.
    Link,
    /// Drawing random bytes.
    Draw,
    /// Naming the address for lines, and waiting for the next line.
    Listen,
}

/// One call on a file of the store, with its answer. Places and lengths are in bytes.
#[derive(Drop)]
pub enum FileCall {
    /// The file's length. None where the call failed.
    Measured(Option<u64>),
    /// A place, the length of the room, and the bytes that came. None where the call failed.
    Read(u64, usize, Option<Bytes>),
    /// A place and the piece for it. Where the call failed, also how the file reads after it.
    Wrote(u64, Bytes, Option<Bytes>),
    /// A length. Where the call failed, also how the file reads after it.
    CutTo(u64, Option<Bytes>),
    /// Whether what was written before it is on the disk.
    Synced(bool),
}

/// One call of a host with its answer. Where an answer is an `Option`, it is None where the call failed.
#[derive(Drop)]
pub enum Call {
    /// The name of a key file, the length of the room, and the bytes that came.
    Text(Bytes, usize, Result<Bytes, NameFault>),
    /// A name for the store, and whether its files could be opened.
    Attached(Bytes, Result<(), NameFault>),
    /// An address for lines, and whether it could be listened at.
    Listened(Bytes, Result<(), NameFault>),
    /// The number of the next line, or none where no more come. None where the call failed.
    Came(Option<Option<u32>>),
    /// A line, the length of the room, and the bytes that came. No bytes are the line's end.
    Took(u32, usize, Option<Bytes>),
    /// A line, the piece, and the length of the front of it that was sent.
    Gave(u32, Bytes, Option<usize>),
    /// A line that was ended.
    Shut(u32),
    /// A file of the store, 0 or 1, and the call on it.
    OnFile(u8, FileCall),
    /// A moment, in seconds since 1970-01-01T00:00:00Z.
    Told(u64),
    /// What random bytes are for, and the bytes.
    Drew(Purpose, Option<Bytes>),
}

/// One of the images that a stop may leave of the store: with everything that was done since the last syncs, with
/// nothing of it, or with the greatest length of each file and this byte in the place of each byte that was written since.
#[derive(Clone, Copy, Debug, PartialEq, Eq)]
pub enum Pick {
    Kept,
    Lost,
    Torn(u8),
}
