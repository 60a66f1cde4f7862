// Sealing one payload.
ghost use Rattle.std.specs.Prelude.{◌≡◌, ◌<◌, ◌≤◌, not, true, is_some, Some, None, length, IfOk, OnOk, IfSome};
ghost use Rattle.kms_aes.specs.Cipher.{IsBlock};
ghost use Rattle.kms_opened.specs.Opened.{OpensUnder};
ghost use Rattle.kms_record.specs.Fields.{IsToken as HasTokenLength};
ghost use Rattle.kms_sealing.specs.Fit.{FitFirst};
ghost use Rattle.kms_sealing.specs.Places.{has_key};
ghost use Rattle.kms_sealing.specs.ProjectKeys.{AreOf};
ghost use Rattle.kms_sealing.specs.Sealed.{IsSealedFor, IsSealedUnder, IsSealedFirst, Adds, rows_with};

use crate::places::latest;
use crate::project_keys::look_up;
use crate::{Drawn, ProjectKeys};
use kms_fernet::{FernetKey, seal};
use kms_record::WrappedKey;
use kms_store::Tables;
use kms_world::{Bytes, Name, NoMemory};
use std::alloc::Global;

/// A key that a project gets, in plain, and as it is stored.
#[derive(Clone, Copy)]
pub struct NewKey {
    pub project: Name,
    /// 1: it is the project's first
    pub number: u32,
    pub key: FernetKey,
    /// wrapped under the first master key
    pub wrapped: [u8; 140],
}

/// A sealed payload.
#[derive(Drop)]
pub struct Sealed {
    /// the key that its project gets with it, where that had none
    pub new: Option<NewKey>,
    /// the number of the project's key that the token is under
    pub number: u32,
    /// 100 to 26,764 bytes
    pub token: Bytes,
}

impl NewKey {
    ghost use Rattle.std.specs.Prelude.{◌≡◌};
    ghost use Rattle.kms_sealing.specs.Sealed.{wrapped_row};

    /// As it is stored.
    pub fn row(&self) -> WrappedKey
        ensures { result ≡ wrapped_row self.now }
    {
        WrappedKey {
            project: self.project,
            number: self.number,
            wrapped: self.wrapped,
        }
    }
}

impl ProjectKeys {
    // Under a project's first key, which was drawn.
    fn seal_first(
        &mut self,
        alloc: Global,
        project: &Name,
        moment: u64,
        payload: &[u8],
        key: [u8; 32],
        key_iv: [u8; 16],
        iv: [u8; 16],
    ) -> Result<Sealed, NoMemory>
        requires { length payload.now ≤ 20000 }
        ensures sealed { IfOk result (IsSealedFirst self.old.masters project.now moment payload.now (record { key = key; iv = key_iv }) iv) }
        ensures fit { OnOk result (FitFirst self.old.masters key key_iv iv) }
        ensures masters { self.new.masters ≡ self.old.masters }
        ensures keys { self.new.keys ≡ self.old.keys }
        ensures spare { OnOk result (0 < self.new.spare) }
    {
        self.reserve(1)?;
        let new = NewKey {
            project: *project,
            number: 1,
            key: FernetKey::of(key),
            wrapped: self.ring.wrap(moment, key_iv, &key),
        };
        let token = seal(alloc, &new.key, moment, iv, payload)?;
        Ok(Sealed {
            new: Some(new),
            number: 1,
            token,
        })
    }

    // Under the project's key of the greatest number.
    fn seal_under(
        &self,
        alloc: Global,
        tables: &Tables,
        project: &Name,
        moment: u64,
        payload: &[u8],
        iv: [u8; 16],
    ) -> Result<Sealed, NoMemory>
        requires keys { AreOf self.now tables.now.kept.keys }
        requires has { has_key project.now tables.now.kept.keys ≡ true }
        requires few { length payload.now ≤ 20000 }
        ensures sealed { IfOk result (IsSealedUnder self.now.masters tables.now.kept.keys project.now moment payload.now iv) }
        ensures fit { OnOk result (IsBlock iv) }
    {
        look_up(tables);
        match latest(tables.keys(), project) {
            Some(at) => Ok(Sealed {
                new: None,
                number: tables.keys()[at].number,
                token: seal(alloc, &self.as_slice()[at], moment, iv, payload)?,
            }),
            None => unreachable!(),
        }
    }

    /// Seals a payload of 1 to 20,000 bytes of a project, at a moment in seconds since 1970, with what `draw` drew for it over
    /// these tables: under the project's key of the greatest number, or under its first key, which is wrapped under the
    /// first master key. On Ok there is memory for that key. The keys stay as they are.
    pub fn seal(
        &mut self,
        alloc: Global,
        tables: &Tables,
        project: &Name,
        moment: u64,
        payload: &[u8],
        drawn: Drawn,
    ) -> Result<Sealed, NoMemory>
        requires keys { AreOf self.old tables.now.kept.keys }
        requires drawn { is_some drawn.key ≡ not (has_key project.now tables.now.kept.keys) }
        requires some { 1 ≤ length payload.now }
        requires few { length payload.now ≤ 20000 }

        // The token and the wrapped key have the vectors that were drawn for them, and this moment and these bytes.
        ensures sealed { IfOk result (IsSealedFor self.old.masters tables.now.kept.keys project.now moment payload.now drawn) }

        // So once the new key is kept the payload opens.
        ensures adds { IfOk result (λ s. Adds self.old.masters tables.now.kept project.now s.new) }
        ensures opens { IfOk result (λ s. OpensUnder self.old.masters (rows_with s.new tables.now.kept.keys) project.now s.number s.token payload.now) }
        ensures token { IfOk result (λ s. HasTokenLength s.token) }
        ensures masters { self.new.masters ≡ self.old.masters }
        ensures same { self.new.keys ≡ self.old.keys }
        ensures spare { IfOk result (λ s. is_some s.new ≡ true → 0 < self.new.spare) }
    {
        let iv = drawn.iv;
        match drawn.key {
            Some(first) => {
                let key = first.key;
                let key_iv = first.iv;
                self.seal_first(alloc, project, moment, payload, key, key_iv, iv)
            }
            None => self.seal_under(alloc, tables, project, moment, payload, iv),
        }
    }
}
