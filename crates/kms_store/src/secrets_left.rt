// The secrets of a snapshot, one change after the other.
ghost use Rattle.std.specs.Prelude.{◌≡◌};
ghost use Rattle.std.specs.List.{flat_map};
ghost use Rattle.kms_kept.specs.Snapshot.{secret_changes};
ghost use Rattle.kms_store.specs.SecretsLeft.{secrets_left};
ghost use Rattle.kms_store.specs.Gives.{Gives};

use crate::KeptSecret;
use kms_record::BaseChange;

/// The secrets whose changes are still to be given. One whose attributes were given has its payload and its metadata left.
#[derive(Drop)]
pub(crate) struct SecretsLeft<'a> {
    payload: Option<&'a KeptSecret>,
    metadata: Option<&'a KeptSecret>,
    rows: &'a [KeptSecret],
}

impl<'a> SecretsLeft<'a> {
    /// All changes of these rows.
    pub(crate) fn of(rows: &'a [KeptSecret]) -> SecretsLeft<'a>
        ensures { secrets_left result ≡ flat_map secret_changes rows.now }
    {
        SecretsLeft {
            payload: None,
            metadata: None,
            rows,
        }
    }

    /// The next change, if one is left.
    pub(crate) fn next(&mut self) -> Option<BaseChange<'a>>
        ensures { Gives result (secrets_left self.old) (secrets_left self.new) }
    {
        if let Some(secret) = self.payload.take() {
            if let Some(change) = secret.payload_put() {
                return Some(change);
            }
        }
        if let Some(secret) = self.metadata.take() {
            if let Some(change) = secret.metadata_put() {
                return Some(change);
            }
        }
        let [secret, rest @ ..] = self.rows else {
            return None;
        };
        self.rows = rest;
        self.payload = Some(secret);
        self.metadata = Some(secret);
        Some(secret.put())
    }
}
