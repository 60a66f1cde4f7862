// Members of containers.
ghost use Rattle.std.specs.Prelude.{◌≡◌};
ghost use Rattle.std.specs.Option.{option_and_then};
ghost use Rattle.kms_text.specs.Link.{read_ref_of};
ghost use Rattle.kms_text.specs.declared.link.Kind.TheVariants.{Secret};
ghost use Rattle.kms_world.specs.Checked.{IsUnlessNoMemory};
ghost use Rattle.kms_box.specs.Member.{checked_member};

use crate::fields::optional_text;
use kms_text::{Kind, read_ref};
use kms_world::{CheckFault, Field, Id, MemberBody, Refusal, Text};

// The secret to which a link leads, where there is one.
fn linked(link: &Option<Text>) -> Option<Id>
    ensures { result ≡ option_and_then (read_ref_of Secret) link.now }
{
    match link {
        None => None,
        Some(link) => read_ref(Kind::Secret, link.as_str().as_bytes()),
    }
}

/// The member that a body names: its name, where there is one, and the secret's id. The error is the first rule that the
/// body breaks: the name has at most 255 bytes, and the link is there and leads to a secret (`read_ref`).
pub fn check_member(body: &MemberBody) -> Result<(Option<Text>, Id), CheckFault>
    ensures { IsUnlessNoMemory result (checked_member body.now) }
{
    let name = optional_text(Field::Name, &body.name)?;
    match linked(&body.secret_ref) {
        Some(id) => Ok((name, id)),
        None => Err(CheckFault::Refused(Refusal::BadBody(Field::SecretRef))),
    }
}
