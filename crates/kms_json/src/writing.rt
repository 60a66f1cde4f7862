// Members of objects, written one after the other.
ghost use Rattle.std.specs.Prelude.{◌≡◌, ◌<◌, ◌∷◌, [], OnOk};
ghost use Rattle.serde_json.specs.Data.{boolean, null, number, string, unsigned};
ghost use Rattle.kms_world.specs.Times.{end_of_times, IsTime};
ghost use Rattle.kms_text.specs.Link.{link_of};
ghost use Rattle.kms_json.specs.Tokens.{Adds, member_tokens};
ghost use Rattle.kms_json.specs.Values.{text_or_null, number_or_null, integer_or_null, time_data, time_or_null};

use json::Writer;
use kms_text::{Kind, ref_text, time_text};
use kms_world::{Id, NoMemory, Text};
use std::alloc::Global;

// A text.
pub(crate) fn put_text(out: &mut Writer, key: &str, text: &str) -> Result<(), NoMemory>
    ensures { OnOk result (Adds out.old out.new (member_tokens key.now (string text.now))) }
{
    out.key(key)?;
    out.string(text)?;
    Ok(())
}

fn put_null(out: &mut Writer, key: &str) -> Result<(), NoMemory>
    ensures { OnOk result (Adds out.old out.new (member_tokens key.now null)) }
{
    out.key(key)?;
    out.null()?;
    Ok(())
}

// A text, or null.
pub(crate) fn put_optional_text(
    out: &mut Writer,
    key: &str,
    text: &Option<Text>,
) -> Result<(), NoMemory>
    ensures { OnOk result (Adds out.old out.new (member_tokens key.now (text_or_null text.now))) }
{
    let Some(text) = text else {
        return put_null(out, key);
    };
    put_text(out, key, text.as_str())
}

// A truth.
pub(crate) fn put_bool(out: &mut Writer, key: &str, truth: bool) -> Result<(), NoMemory>
    ensures { OnOk result (Adds out.old out.new (member_tokens key.now (boolean truth))) }
{
    out.key(key)?;
    out.boolean(truth)?;
    Ok(())
}

// A number.
pub(crate) fn put_number(out: &mut Writer, key: &str, n: u64) -> Result<(), NoMemory>
    ensures { OnOk result (Adds out.old out.new (member_tokens key.now (number (unsigned n)))) }
{
    out.key(key)?;
    out.u64(n)?;
    Ok(())
}

// A number, or null.
pub(crate) fn put_optional_number(
    out: &mut Writer,
    key: &str,
    n: Option<u16>,
) -> Result<(), NoMemory>
    ensures { OnOk result (Adds out.old out.new (member_tokens key.now (number_or_null n))) }
{
    match n {
        None => put_null(out, key),
        Some(n) => put_number(out, key, u64::from(n)),
    }
}

// A number that may be below 0, or null.
pub(crate) fn put_optional_integer(
    out: &mut Writer,
    key: &str,
    n: Option<i64>,
) -> Result<(), NoMemory>
    ensures { OnOk result (Adds out.old out.new (member_tokens key.now (integer_or_null n))) }
{
    match n {
        None => put_null(out, key),
        Some(n) => {
            out.key(key)?;
            out.i64(n)?;
            Ok(())
        }
    }
}

// The text of a time in seconds since 1970, before the year 10000.
pub(crate) fn put_time(out: &mut Writer, key: &str, moment: u64) -> Result<(), NoMemory>
    requires { moment < end_of_times }
    ensures { OnOk result (Adds out.old out.new (member_tokens key.now (time_data moment))) }
{
    let text = time_text(moment);
    put_text(out, key, std::str::from_utf8(&text).unwrap())
}

// The text of such a time, or null.
pub(crate) fn put_optional_time(
    out: &mut Writer,
    key: &str,
    moment: Option<u64>,
) -> Result<(), NoMemory>
    requires { IsTime moment }
    ensures { OnOk result (Adds out.old out.new (member_tokens key.now (time_or_null moment))) }
{
    match moment {
        None => put_null(out, key),
        Some(moment) => put_time(out, key, moment),
    }
}

// The link to an object under an endpoint.
pub(crate) fn put_link(
    alloc: Global,
    out: &mut Writer,
    key: &str,
    endpoint: &str,
    kind: Kind,
    id: Id,
) -> Result<(), NoMemory>
    ensures { OnOk result (Adds out.old out.new (member_tokens key.now (string (link_of endpoint.now kind id)))) }
{
    let link = ref_text(alloc, endpoint, kind, id)?;
    put_text(out, key, link.as_str())
}
