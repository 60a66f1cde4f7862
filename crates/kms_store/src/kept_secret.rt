// Secrets as they are kept.
ghost use Rattle.std.specs.Prelude.{◌≡◌, IfSome, Some, None, [], ◌∷◌, slice_index};
ghost use Rattle.std.specs.Str.{bytes_eq};
ghost use Rattle.kms_world.specs.Effect.{with_payload, with_metadata};
ghost use Rattle.kms_kept.specs.Kept.{token_replaced, is_under};
ghost use Rattle.kms_kept.specs.Snapshot.{sealed, sealed_row, payload_changes, metadata_changes};
ghost use Rattle.kms_record.specs.Base.{as_change, count_of};
ghost use Rattle.kms_record.specs.SecretPut.{put_of};
ghost use Rattle.kms_record.specs.declared.change.Change.TheVariants as changes;
ghost use Rattle.kms_store.specs.Gives.{Gives};
ghost use Rattle.kms_store.specs.KeptSecret.{without_number};

use kms_record::BaseChange;
use kms_world::{Bytes, Name, Pairs, Payload, SecretRow};
use std::marker::Model;

/// A secret, where the payload's bytes are its token, and the number of the token's key, or 0 where there is no payload.
/// Contracts see the row, with that number before the token.
#[derive(Drop, Debug)]
pub struct KeptSecret {
    row: SecretRow,
    number: u32,
}

impl Model for KeptSecret {
    ghost use Rattle.kms_world.specs.declared.secret.SecretRow.{SecretRow};

    ghost Value = { SecretRow };

    ghost use Rattle.kms_store.specs.KeptSecretFields.{kept_row, IsNumbered};

    ghost view = { kept_row };

    ghost invariant = { IsNumbered };
}

impl KeptSecret {
    /// A secret without a payload.
    pub(crate) fn new(row: SecretRow) -> KeptSecret
        requires { row.payload ≡ None }
        ensures { result ≡ row }
    {
        KeptSecret { row, number: 0 }
    }

    /// The row. The payload's bytes are its token.
    pub fn row(&self) -> &SecretRow
        ensures { result.now ≡ without_number self.now }
    {
        &self.row
    }

    /// The number of the token's key, or 0 where there is no payload.
    pub fn number(&self) -> u32
        ensures token { IfSome self.now.payload (λ p. slice_index p.bytes 0 ≡ result) }
        ensures none { self.now.payload ≡ None → result ≡ 0 }
    {
        self.number
    }

    /// The change of a snapshot that puts its attributes.
    pub(crate) fn put(&self) -> BaseChange<'_>
        ensures { as_change result ≡ Some (changes.SecretPut (put_of (count_of self.now.id) self.now)) }
    {
        BaseChange::Secret(&self.row)
    }

    /// The one that puts its payload, if it has one.
    pub(crate) fn payload_put(&self) -> Option<BaseChange<'_>>
        ensures { Gives result (payload_changes self.now self.now.payload) [] }
    {
        if self.row.payload.is_some() {
            Some(BaseChange::Payload(&self.row, self.number))
        } else {
            None
        }
    }

    /// The one that puts its metadata, if it has some.
    pub(crate) fn metadata_put(&self) -> Option<BaseChange<'_>>
        ensures { Gives result (metadata_changes self.now self.now.metadata) [] }
    {
        if self.row.metadata.as_slice().is_empty() {
            None
        } else {
            Some(BaseChange::Metadata(&self.row))
        }
    }

    pub(crate) fn set_payload(&mut self, updated: u64, number: u32, payload: Payload)
        ensures { self.new ≡ with_payload updated (sealed number payload) self.old }
    {
        self.row.updated = updated;
        self.row.payload = Some(payload);
        self.number = number;
    }

    pub(crate) fn set_metadata(&mut self, updated: u64, pairs: Pairs)
        ensures { self.new ≡ with_metadata updated pairs self.old }
    {
        self.row.updated = updated;
        self.row.metadata = pairs;
    }

    pub(crate) fn replace_token(&mut self, number: u32, token: Bytes)
        ensures { self.new ≡ token_replaced (number ∷ token) self.old }
    {
        if let Some(payload) = self.row.payload.take() {
            self.row.payload = Some(Payload {
                media: payload.media,
                bytes: token,
            });
            self.number = number;
        }
    }

    /// It has a token under this key of the project.
    pub(crate) fn is_under(&self, project: &Name, number: u32) -> bool
        ensures { result ≡ is_under project.now number self.now }
    {
        project.as_bytes() == self.row.project.as_bytes()
            && self.row.payload.is_some()
            && number == self.number
    }
}
