// The system's clock.
use std::rt::HostRuntime;
use std::time::{SystemTime, UNIX_EPOCH};

/// The system's time in seconds. A clock that can't be read, or is set before 1970, tells 0.
pub fn seconds(rt: HostRuntime) -> u64 {
    let Ok(time) = SystemTime::now(&rt) else {
        return 0;
    };
    match time.duration_since(UNIX_EPOCH) {
        Ok(since) => since.as_secs(),
        Err(_) => 0,
    }
}
