// Giving bytes on a line.
ghost use Rattle.kms_host.specs.History.{WhereTold, Stops};
ghost use Rattle.kms_host.specs.Line.{IsOpen};
ghost use Rattle.kms_host.specs.Faults.{HasCause};
ghost use Rattle.kms_host.specs.Moment.{Since};
ghost use Rattle.kms_host.specs.declared.call.Count.TheVariants as counts;
ghost use Rattle.kms_serve.specs.Owed.{Gives};

use kms_host::{Failed, Host};

/// Gives all of the bytes, in as many calls as it takes.
pub fn give_all<H: Host>(host: &mut H, line: u32, bytes: &[u8]) -> Result<(), Failed>
    requires { WhereTold (H.history host.old) (IsOpen line) }
    ensures given { Since (H.history host.old) (H.history host.new) (λ was calls. Gives line bytes.now result calls) }
    ensures open { WhereTold (H.history host.new) (IsOpen line) }
    ensures cause { HasCause counts.Link (H.faults host.old) (H.faults host.new) result }
    ensures stops { Stops (H.wanted host.old) (H.wanted host.new) (H.history host.old) (H.history host.new) }
{
    let mut rest = bytes;
    while !rest.is_empty() {
        let count = host.give(line, rest)?;
        let (_, after) = rest.split_at(count);
        rest = after;
    }
    Ok(())
}
