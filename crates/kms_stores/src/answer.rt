// Lines and their answers.
use crate::store::{add, make, open};
use kms_journal::Place;
use std::fmt;
use std::fmt::{Display, Formatter};
use std::rt::HostRuntime;

/// What came of a line.
#[derive(Drop)]
pub enum Answer {
    Made,
    Exists,
    Added(u64),
    Found { records: usize, bytes: u64 },
    NoStore,
    Damaged(Place),
    StoreFault,
    NoMemory,
    NotUnderstood,
}

impl Display for Answer {
    fn fmt<W: fmt::Write>(&self, f: &mut Formatter<W>) -> fmt::Result {
        match self {
            Answer::Made => write!(f, "made"),
            Answer::Exists => write!(f, "a store is there"),
            Answer::Added(count) => write!(f, "added {count} records"),
            Answer::Found { records, bytes } => write!(f, "{records} records of {bytes} bytes"),
            Answer::NoStore => write!(f, "no store"),
            Answer::Damaged(Place::Body { file, at }) => {
                write!(f, "damaged at byte {at} of file {file}")
            }
            Answer::StoreFault => write!(f, "store fault"),
            Answer::NoMemory => write!(f, "out of memory"),
            Answer::NotUnderstood => write!(f, "?"),
        }
    }
}

/// The answer to a line.
pub fn answer_to(rt: HostRuntime, line: &str) -> Answer {
    let mut words = line.split(' ');
    let command = words.next();
    let name = words.next();
    let count = words.next();
    let length = words.next();
    match (command, name, count, length, words.next()) {
        (Some("make"), Some(name), None, None, None) => make(rt, name),
        (Some("open"), Some(name), None, None, None) => open(rt, name),
        (Some("add"), Some(name), Some(count), Some(length), None) => {
            match (count.parse::<u64>(), length.parse::<u16>()) {
                (Ok(count), Ok(length)) => add(rt, name, count, length),
                _ => Answer::NotUnderstood,
            }
        }
        _ => Answer::NotUnderstood,
    }
}
