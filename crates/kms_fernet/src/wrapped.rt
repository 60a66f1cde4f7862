// Wrapped keys: the token of a key's text. A token of 44 plain bytes has 105 bytes and 140
// characters.
ghost use Rattle.std.specs.Prelude.{MatchOption};
ghost use Rattle.kms_fernet.specs.Key.{base64url};
ghost use Rattle.kms_fernet.specs.Token.{IsToken};
ghost use Rattle.kms_fernet.specs.Wrapped.{IsNotWrapped, Unwraps};

use crate::key::{FernetKey, key_text};
use crate::opening::open_into;
use crate::sealing::seal_into;

/// The token under the master key of the project key's text, of the moment in seconds and the
/// initialization vector.
pub fn wrap_key(master: &FernetKey, moment: u64, iv: [u8; 16], project_key: &[u8; 32]) -> [u8; 140]
    ensures { IsToken master.now moment iv (base64url project_key.now) result }
{
    let mut wrapped = [0; 140];
    seal_into(
        &master.bytes,
        moment,
        &iv,
        &key_text(project_key),
        &mut wrapped,
    );
    wrapped
}

/// The project key whose wrapped form this is under the master key. `None` where it is no token, or
/// that of no key's text.
pub fn unwrap_key(master: &FernetKey, wrapped: &[u8; 140]) -> Option<[u8; 32]>
    ensures { MatchOption result (IsNotWrapped master.now wrapped.now) (λ key. Unwraps master.now wrapped.now key) }
{
    let mut room = [0; 105];
    match open_into(&master.bytes, wrapped, &mut room) {
        Ok(len) => match FernetKey::read(&room[..len]) {
            Some(key) => Some(key.bytes()),
            None => None,
        },
        Err(_) => None,
    }
}
