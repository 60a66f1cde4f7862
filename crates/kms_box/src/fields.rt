// The rules of single texts.
ghost use Rattle.std.specs.Prelude.{Ok};
ghost use Rattle.kms_world.specs.Checked.{IsUnlessNoMemory};
ghost use Rattle.kms_box.specs.Rules as spec;

use kms_world::{CheckFault, Field, Refusal, Text};

/// How many bytes a text has at most.
const MOST_BYTES: usize = 255;

// A copy of a text.
fn text_copied(text: &Text) -> Result<Text, CheckFault>
    ensures { IsUnlessNoMemory result (Ok text.now) }
{
    match text.clone() {
        Ok(copy) => Ok(copy),
        Err(_) => Err(CheckFault::NoMemory),
    }
}

pub fn optional_text(field: Field, text: &Option<Text>) -> Result<Option<Text>, CheckFault>
    ensures { IsUnlessNoMemory result (spec.optional_text field text.now) }
{
    let Some(text) = text else {
        return Ok(None);
    };
    if text.as_str().len() > MOST_BYTES {
        return Err(CheckFault::Refused(Refusal::BadBody(field)));
    }
    Ok(Some(text_copied(text)?))
}

pub fn required_text(field: Field, text: &Option<Text>) -> Result<Text, CheckFault>
    ensures { IsUnlessNoMemory result (spec.required_text field text.now) }
{
    let Some(text) = text else {
        return Err(CheckFault::Refused(Refusal::BadBody(field)));
    };
    if text.as_str().is_empty() || text.as_str().len() > MOST_BYTES {
        return Err(CheckFault::Refused(Refusal::BadBody(field)));
    }
    text_copied(text)
}
