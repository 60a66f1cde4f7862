//! barbicand: a key manager that keeps a store in two files and speaks the OpenStack Barbican API v1 over standard input
//! and output.
#![tactic(auto)]

use kms_host::PipeHost;
use kms_serve::{Status, run};
use std::env;
use std::io::ErrorKind;
use std::process::ExitCode;

// The words after the program's name. One that isn't UTF-8 is not understood.
fn words(rt: HostRuntime) -> Result<Vec<String>, Status> {
    let args = match env::args(&rt) {
        Ok(args) => args,
        Err(error) if error.kind() == ErrorKind::OutOfMemory => return Err(Status::NoMemory),
        Err(_) => return Err(Status::Words),
    };
    let mut words = Vec::new(rt.alloc());
    for word in args.skip(1) {
        if words.push(word).is_err() {
            return Err(Status::NoMemory);
        }
    }
    Ok(words)
}

fn main(rt: HostRuntime) -> ExitCode {
    let mut host = PipeHost::new(rt);
    let status = match words(rt) {
        Ok(words) => run(rt.alloc(), &words, &mut host),
        Err(status) => status,
    };
    let mut room = [0u8; 192];
    let length = status.line(&mut room);
    host.tell(&room[..length]);
    ExitCode::from(status.code())
}
