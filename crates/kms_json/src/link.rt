// Links as bodies.
ghost use Rattle.std.specs.Prelude.{◌≡◌, ◌++◌, string_bytes, IfOk, OnOk};
ghost use Rattle.kms_text.specs.Link.{link_of};
ghost use Rattle.kms_json.specs.Link.{key_of, kind_of, link_data, part_of};
ghost use Rattle.kms_json.specs.Tokens.{Adds, data_tokens};

use crate::writing::put_text;
use json::Writer;
use kms_text::{Kind, ref_text};
use kms_world::{Id, Link, NoMemory};
use std::alloc::Global;

fn kind(link: Link) -> Kind
    ensures { result ≡ kind_of link }
{
    match link {
        Link::Secret | Link::Metadata | Link::SecretAcl => Kind::Secret,
        Link::Container | Link::ContainerAcl => Kind::Container,
        Link::Order => Kind::Order,
    }
}

fn key(link: Link) -> &'static str
    ensures { result.now ≡ key_of link }
{
    match link {
        Link::Secret => "secret_ref",
        Link::Metadata => "metadata_ref",
        Link::SecretAcl | Link::ContainerAcl => "acl_ref",
        Link::Container => "container_ref",
        Link::Order => "order_ref",
    }
}

fn part(link: Link) -> &'static str
    ensures { result.now ≡ part_of link }
{
    match link {
        Link::Secret | Link::Container | Link::Order => "",
        Link::Metadata => "/metadata",
        Link::SecretAcl | Link::ContainerAcl => "/acl",
    }
}

fn link_text(alloc: Global, endpoint: &str, link: Link, id: Id) -> Result<String, NoMemory>
    ensures { IfOk result (λ text. string_bytes text ≡ link_of endpoint.now (kind_of link) id ++ part_of link) }
{
    let object = ref_text(alloc, endpoint, kind(link), id)?;
    let mut text = String::from_str(alloc, object.as_str())?;
    text.push_str(part(link))?;
    Ok(text)
}

// The object of a link, as `{"secret_ref":".."}`.
pub(crate) fn write_link(
    alloc: Global,
    out: &mut Writer,
    endpoint: &str,
    link: Link,
    id: Id,
) -> Result<(), NoMemory>
    ensures { OnOk result (Adds out.old out.new (data_tokens (link_data endpoint.now link id))) }
{
    let text = link_text(alloc, endpoint, link, id)?;
    out.begin_object()?;
    put_text(out, key(link), text.as_str())?;
    out.end_object()?;
    Ok(())
}
