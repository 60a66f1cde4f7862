// Links to pages.
ghost use Rattle.std.specs.Prelude.{◌≡◌, [], ◌++◌, codes, IfOk, string_bytes};
ghost use Rattle.kms_page.specs.Link.{link_of};

use crate::Query;
use form_urlencoded::Serializer;
use itoa::Buffer;
use kms_world::{NoMemory, Text};
use std::alloc::Global;

// What stands before the parameters.
fn front(alloc: Global, endpoint: &str, path: &str) -> Result<String, NoMemory>
    ensures { IfOk result (λ front. string_bytes front ≡ endpoint.now ++ path.now ++ codes "?") }
{
    let mut front = String::from_str(alloc, endpoint)?;
    front.push_str(path)?;
    front.push_str("?")?;
    Ok(front)
}

// A serializer of parameters behind the text.
fn behind(front: String) -> Serializer
    ensures { result ≡ record { prefix = string_bytes front; form = [] } }
{
    let start = front.len();
    Serializer::for_suffix(front, start)
}

/// The link to the page of the same query at another offset: the endpoint, the path behind the version, `?limit=`, the
/// limit in force, `&offset=`, the offset, and the other parameters in their order (URL Standard, section 5.2). The only
/// error is out of memory.
#[tactic(auto, unfolding(crate::specs::Link::query_text))]
pub fn link(
    alloc: Global,
    endpoint: &str,
    path: &str,
    query: &Query,
    offset: u64,
) -> Result<Text, NoMemory>
    ensures { IfOk result (λ link. link ≡ link_of endpoint.now path.now query.now offset) }
{
    let mut form = behind(front(alloc, endpoint, path)?);
    form.append_pair("limit", Buffer::new().format(query.limit))?;
    form.append_pair("offset", Buffer::new().format(offset))?;
    for parameter in query.others.as_slice() {
        form.append_pair(parameter.0.as_str(), parameter.1.as_str())?;
    }
    Text::of(alloc, form.finish().as_str())
}
