// Bodies as they were read.
ghost use Rattle.kms_world.specs.Checked.{IsUnlessNoMemory};

use kms_world::{CheckFault, Refusal};

// The body, or the refusal that reading it gave.
pub fn given<T>(body: Result<T, Refusal>) -> Result<T, CheckFault>
    ensures { IsUnlessNoMemory result body }
{
    match body {
        Ok(body) => Ok(body),
        Err(refusal) => Err(CheckFault::Refused(refusal)),
    }
}
