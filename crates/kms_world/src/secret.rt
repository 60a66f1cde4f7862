// Secrets.
ghost use Rattle.std.specs.Prelude.{◌≡◌, IfOk, option_map};
ghost use Rattle.kms_world.specs.SecretKind.{word_of, kind_of};
ghost use Rattle.kms_world.specs.Secret.{without_bytes};

use crate::text::copied;
use crate::{Bytes, Id, Name, NoMemory, Pairs, Payload, Text};
use std::alloc::Global;

/// What a secret is said to be (`secret_type`). The key manager treats all kinds alike.
#[derive(Clone, Copy, Debug, PartialEq, Eq)]
pub enum SecretKind {
    Symmetric,
    Public,
    Private,
    Passphrase,
    Certificate,
    Opaque,
}

impl SecretKind {
    /// The word for the kind in bodies and answers.
    pub const fn word(self) -> &'static str
        ensures { result.now ≡ word_of self }
    {
        match self {
            SecretKind::Symmetric => "symmetric",
            SecretKind::Public => "public",
            SecretKind::Private => "private",
            SecretKind::Passphrase => "passphrase",
            SecretKind::Certificate => "certificate",
            SecretKind::Opaque => "opaque",
        }
    }

    /// The kind that a word names. None exactly where it is none of the six.
    pub fn read(word: &[u8]) -> Option<SecretKind>
        ensures { result ≡ kind_of word.now }
    {
        if word == "symmetric".as_bytes() {
            Some(SecretKind::Symmetric)
        } else if word == "public".as_bytes() {
            Some(SecretKind::Public)
        } else if word == "private".as_bytes() {
            Some(SecretKind::Private)
        } else if word == "passphrase".as_bytes() {
            Some(SecretKind::Passphrase)
        } else if word == "certificate".as_bytes() {
            Some(SecretKind::Certificate)
        } else if word == "opaque".as_bytes() {
            Some(SecretKind::Opaque)
        } else {
            None
        }
    }
}

/// A secret. Times are whole seconds since 1970; texts have at most 255 bytes; a bit length is 1 to 32,767.
#[derive(Drop, Debug)]
pub struct SecretRow {
    pub id: Id,
    pub project: Name,
    /// the user who made it
    pub creator: Name,
    pub created: u64,
    pub updated: u64,
    pub name: Option<Text>,
    pub algorithm: Option<Text>,
    pub bit_length: Option<u16>,
    pub mode: Option<Text>,
    pub kind: SecretKind,
    /// from this time on the secret isn't there any more
    pub expiration: Option<u64>,
    pub payload: Option<Payload>,
    pub metadata: Pairs,
}

fn media_copied(alloc: Global, payload: &Option<Payload>) -> Option<Payload>
    ensures { result ≡ option_map without_bytes payload.now }
{
    match payload {
        None => None,
        Some(payload) => Some(Payload {
            media: payload.media,
            bytes: Bytes::new(alloc),
        }),
    }
}

impl SecretRow {
    ghost use Rattle.kms_world.specs.Secret.{attributes_of};

    /// A copy of the attributes: of the payload its media type alone, and no metadata.
    pub fn attributes(&self, alloc: Global) -> Result<SecretRow, NoMemory>
        ensures { IfOk result (λ row. row ≡ attributes_of self.now) }
    {
        Ok(SecretRow {
            id: self.id,
            project: self.project,
            creator: self.creator,
            created: self.created,
            updated: self.updated,
            name: copied(&self.name)?,
            algorithm: copied(&self.algorithm)?,
            bit_length: self.bit_length,
            mode: copied(&self.mode)?,
            kind: self.kind,
            expiration: self.expiration,
            payload: media_copied(alloc, &self.payload),
            metadata: Pairs::new(alloc),
        })
    }
}
