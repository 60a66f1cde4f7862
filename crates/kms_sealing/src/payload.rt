// One payload.
ghost use Rattle.std.specs.Prelude.{◌≡◌, ◌≢◌, ◌≤◌, ◌↔◌, ℕ, List, length, Option, IsTrue, IfOk, IfErr};
ghost use Rattle.kms_kept.specs.KeyNumbers.{KeysAscend};
ghost use Rattle.kms_kept.specs.Sealed.{IsUnderKey};
ghost use Rattle.kms_opened.specs.Opened.{OpensPayload, OpensUnder};
ghost use Rattle.kms_sealing.specs.Opening.{PayloadOpens};
ghost use Rattle.kms_sealing.specs.Payload.{OpensFitting};
ghost use Rattle.kms_sealing.specs.ProjectKeys.{AreOf};

use crate::ProjectKeys;
use crate::fault::PayloadFault;
use crate::places::place_of;
use crate::project_keys::look_up;
use kms_fernet::{FernetKey, OpenFault, unseal};
use kms_record::WrappedKey;
use kms_store::{KeptSecret, Tables};
use kms_world::{Bytes, Name, NoMemory, Payload};
use std::alloc::Global;

/// How many bytes a payload has at most.
const MOST_BYTES: usize = 20_000;

fn is_fitting(bytes: &[u8]) -> bool
    ensures { IsTrue result ↔ ((1 ≤ length bytes.now) × (length bytes.now ≤ 20000)) }
{
    !bytes.is_empty() && bytes.len() <= MOST_BYTES
}

// The bytes, where they are 1 to 20,000.
fn fitting(bytes: Bytes) -> Result<Bytes, PayloadFault>
    ensures ok { IfOk result (λ same. (same ≡ bytes) × (1 ≤ length bytes) × (length bytes ≤ 20000)) }
    ensures err { IfErr result (λ fault. 1 ≤ length bytes → length bytes ≤ 20000 → ⊥) }
{
    if is_fitting(bytes.as_slice()) {
        Ok(bytes)
    } else {
        Err(PayloadFault::Closed)
    }
}

fn fault_of(fault: OpenFault) -> PayloadFault
    ensures { result ≢ PayloadFault.NoMemory → fault ≢ OpenFault.NoMemory }
{
    match fault {
        OpenFault::NoMemory => PayloadFault::NoMemory,
        _ => PayloadFault::Closed,
    }
}

// The bytes of a token, where they are 1 to 20,000.
fn unsealed(alloc: Global, key: &FernetKey, token: &[u8]) -> Result<Bytes, PayloadFault>
    ensures ok { IfOk result (OpensFitting key.now token.now) }
    ensures err { IfErr result (λ fault. fault ≢ PayloadFault.NoMemory → (bytes : List ℕ) → OpensFitting key.now token.now bytes → ⊥) }
{
    match unseal(alloc, key, token) {
        Ok(bytes) => fitting(bytes),
        Err(fault) => Err(fault_of(fault)),
    }
}

impl ProjectKeys {
    // The bytes of a token under the project's key of this number.
    fn unsealed_under(
        &self,
        alloc: Global,
        rows: &[WrappedKey],
        project: &Name,
        number: u32,
        token: &[u8],
    ) -> Result<Bytes, PayloadFault>
        requires ascend { KeysAscend rows.now }
        requires keys { AreOf self.now rows.now }
        ensures ok { IfOk result (OpensUnder self.now.masters rows.now project.now number token.now) }
        ensures err { IfErr result (λ fault. fault ≢ PayloadFault.NoMemory → (bytes : List ℕ) → OpensUnder self.now.masters rows.now project.now number token.now bytes → ⊥) }
    {
        self.fit();
        match place_of(rows, project, number) {
            Some(at) => unsealed(alloc, &self.as_slice()[at], token),
            None => Err(PayloadFault::Closed),
        }
    }

    /// The payload of a secret of these tables, if it has one and it opens.
    pub(crate) fn opened(
        &self,
        alloc: Global,
        tables: &Tables,
        secret: &KeptSecret,
    ) -> Result<Option<Payload>, PayloadFault>
        requires keys { AreOf self.now tables.now.kept.keys }
        requires under { IsUnderKey tables.now.kept.keys secret.now }
        ensures ok { IfOk result (λ plain. OpensPayload self.now.masters tables.now.kept.keys secret.now.project secret.now.payload plain) }
        ensures err { IfErr result (λ fault. fault ≢ PayloadFault.NoMemory → PayloadOpens self.now.masters tables.now.kept.keys secret.now → ⊥) }
    {
        look_up(tables);
        let row = secret.row();
        let number = secret.number();
        let Some(sealed) = &row.payload else {
            return Ok(None);
        };
        let token = sealed.bytes.as_slice();
        match self.unsealed_under(alloc, tables.keys(), &row.project, number, token) {
            Ok(bytes) => Ok(Some(Payload {
                media: sealed.media,
                bytes,
            })),
            Err(fault) => Err(fault),
        }
    }

    /// The payload of a secret of these tables, if it has one: the bytes that were put. They are copied once, into memory
    /// that is taken at once. The payload opens, as each does that is kept where the keys were opened over these tables.
    pub fn payload(
        &self,
        alloc: Global,
        tables: &Tables,
        secret: &KeptSecret,
    ) -> Result<Option<Payload>, NoMemory>
        requires keys { AreOf self.now tables.now.kept.keys }
        requires opens { PayloadOpens self.now.masters tables.now.kept.keys secret.now }
        ensures opens { IfOk result (λ plain. OpensPayload self.now.masters tables.now.kept.keys secret.now.project secret.now.payload plain) }
        ensures only { IfOk result (λ plain. (other : Option Payload) → OpensPayload self.now.masters tables.now.kept.keys secret.now.project secret.now.payload other → other ≡ plain) }
    {
        self.fit();
        match self.opened(alloc, tables, secret) {
            Ok(plain) => Ok(plain),
            Err(PayloadFault::NoMemory) => Err(NoMemory),
            Err(PayloadFault::Closed) => unreachable!(),
        }
    }
}
