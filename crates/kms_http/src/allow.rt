// The Allow field.
ghost use Rattle.std.specs.Prelude.{◌≡◌, ◌++◌, ◌&&◌, not, IfOk, OnOk};
ghost use Rattle.kms_http.specs.Allow as spec;

use kms_world::{Allow, Bytes, NoMemory};

// Puts a method behind the list, where it is there. Answers whether the list is still empty.
fn put_method(
    out: &mut Bytes,
    is_first: bool,
    is_there: bool,
    method: &[u8],
) -> Result<bool, NoMemory>
    ensures first { IfOk result (λ first. first ≡ (is_first && not is_there)) }
    ensures text { OnOk result (out.new ≡ out.old ++ spec.item is_first is_there method.now) }
{
    if !is_there {
        return Ok(is_first);
    }
    if !is_first {
        out.push_all(b", ")?;
    }
    out.push_all(method)?;
    Ok(false)
}

/// Puts the methods behind the bytes, with a comma and a space between (RFC 9110 section 10.2.1).
pub fn put_allow(out: &mut Bytes, allow: Allow) -> Result<(), NoMemory>
    ensures { OnOk result (out.new ≡ out.old ++ spec.allow_text allow) }
{
    let first = put_method(out, true, allow.get, b"GET")?;
    let first = put_method(out, first, allow.post, b"POST")?;
    let first = put_method(out, first, allow.put, b"PUT")?;
    let first = put_method(out, first, allow.patch, b"PATCH")?;
    put_method(out, first, allow.delete, b"DELETE")?;
    Ok(())
}
