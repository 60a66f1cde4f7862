// Bodies of consumers.
ghost use Rattle.kms_world.specs.Checked.{IsUnlessNoMemory};
ghost use Rattle.kms_box.specs.Consumer.{checked_consumer};

use crate::fields::required_text;
use kms_world::{CheckFault, ConsumerBody, Field, Text};

/// The name and the URL of a consumer. The error is the first rule that the body breaks: each of them has 1 to 255 bytes.
pub fn check_consumer(body: &ConsumerBody) -> Result<(Text, Text), CheckFault>
    ensures { IsUnlessNoMemory result (checked_consumer body.now) }
{
    let name = required_text(Field::Name, &body.name)?;
    let url = required_text(Field::Url, &body.url)?;
    Ok((name, url))
}
