// The spelling of a snapshot's change, a piece at a time.
ghost use Rattle.std.specs.Prelude.{◌≡◌, ◌≤◌, ◌-◌, ◌++◌, length, take, drop, min};
ghost use Rattle.kms_record.specs.Base.{base_bytes, IsBase, IsBaseInRange};

use crate::BaseChange;
use crate::window::Window;

/// How many bytes the change is spelled with in a snapshot; such a change is one of the grammar. The row's numbers and
/// lengths are in their ranges, and the secret of a payload has one.
pub fn base_len(change: &BaseChange<'_>) -> usize
    requires { IsBaseInRange change.now }
    ensures len { result ≡ length (base_bytes change.now) }
    ensures admitted { IsBase change.now }
{
    let mut window = Window::after(usize::MAX);
    change.write(&mut window);
    usize::MAX - window.unseen()
}

/// Writes the bytes of the change's spelling in a snapshot from this place on, as many as the room takes, and answers
/// their number. It takes no memory. The row is as for `base_len`.
pub fn base_piece(change: &BaseChange<'_>, from: usize, room: &mut [u8]) -> usize
    requires range { IsBaseInRange change.now }
    requires from { from ≤ length (base_bytes change.now) }
    ensures count { result ≡ min (length room.old) (length (base_bytes change.now) - from) }
    ensures bytes { room.new ≡ take result (drop from (base_bytes change.now)) ++ drop result room.old }
{
    let count = room.len().min(base_len(change) - from);
    let mut at = 0;
    while at < count {
        let mut window = Window::after(from + at);
        change.write(&mut window);
        let piece = window.as_slice();
        let more = piece.len().min(count - at);
        room[at..at + more].copy_from_slice(&piece[..more]);
        at += more;
    }
    count
}
