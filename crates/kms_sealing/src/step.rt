// The changes that put a sealed payload.
ghost use Rattle.std.specs.Prelude.{◌≡◌, ◌<◌, ◌^◌, IfOk, IfSome, length};
ghost use Rattle.kms_record.specs.Fields.{IsToken as HasTokenLength};
ghost use Rattle.kms_record.specs.Grammar.{IsStepInRange};
ghost use Rattle.kms_record.specs.SecretPut.{IsInRange};
ghost use Rattle.kms_sealing.specs.Sealed.{key_changes, post_changes, put_changes};

use crate::{NewKey, Sealed};
use kms_record::{Change, PayloadPut, SecretPut, Step};
use kms_world::{Media, NoMemory};
use std::alloc::Global;

// The change that puts the new key of a project, if it gets one.
fn key_step(alloc: Global, new: &Option<NewKey>) -> Result<Step, NoMemory>
    ensures { IfOk result (λ step. step ≡ key_changes new.now) }
{
    let mut step = Step::new(alloc);
    if let Some(new) = new {
        step.push(Change::KeyAdded(new.row()))?;
    }
    Ok(step)
}

impl Sealed {
    /// The step that puts a new secret with this payload, and before it the project's new key, if that gets one. The fields
    /// of the secret are in their ranges, and then so are those of the step.
    pub fn post(self, alloc: Global, put: SecretPut, media: Media) -> Result<Step, NoMemory>
        requires range { IsInRange put }
        requires token { HasTokenLength self.token }
        ensures changes { IfOk result (λ step. step ≡ post_changes self put media) }
        ensures range { IfOk result IsStepInRange }
    {
        let mut step = key_step(alloc, &self.new)?;
        let payload = PayloadPut {
            secret: put.id,
            updated: put.updated,
            media,
            number: self.number,
            token: self.token,
        };
        step.push(Change::SecretPut(put))?;
        step.push(Change::PayloadPut(payload))?;
        Ok(step)
    }

    /// The step that puts this payload of a secret that is there, whose id has this count below 2^62, at a time in seconds since
    /// 1970 before the year 10000, and before it the project's new key, if that gets one.
    pub fn put(
        self,
        alloc: Global,
        secret: u64,
        updated: u64,
        media: Media,
    ) -> Result<Step, NoMemory>
        requires secret { secret < 2 ^ 62 }
        requires updated { updated < 253402300800 }
        requires token { HasTokenLength self.token }
        ensures changes { IfOk result (λ step. step ≡ put_changes self secret updated media) }
        ensures range { IfOk result IsStepInRange }
    {
        let mut step = key_step(alloc, &self.new)?;
        let payload = PayloadPut {
            secret,
            updated,
            media,
            number: self.number,
            token: self.token,
        };
        step.push(Change::PayloadPut(payload))?;
        Ok(step)
    }
}
