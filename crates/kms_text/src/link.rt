// Links to secrets, containers and orders.
ghost use Rattle.std.specs.Prelude.{◌≡◌, IfOk, MatchOption};
ghost use Rattle.kms_world.specs.declared.id.Id.{Id};
ghost use Rattle.kms_text.specs.Link.{kind_path, link_of, read_ref_of, IsLink};

use crate::{id_text, read_id};
use kms_world::{Id, NoMemory, Text};
use std::alloc::Global;

/// What a link leads to.
#[derive(Clone, Copy, Debug, PartialEq, Eq)]
pub enum Kind {
    Secret,
    Container,
    Order,
}

impl Kind {
    fn path(self) -> &'static str
        ensures { result.now ≡ kind_path self }
    {
        match self {
            Kind::Secret => "/secrets/",
            Kind::Container => "/containers/",
            Kind::Order => "/orders/",
        }
    }
}

/// The link to an object: the endpoint, `/secrets/`, `/containers/` or `/orders/`, and the text of its id (Barbican
/// API v1).
pub fn ref_text(alloc: Global, endpoint: &str, kind: Kind, id: Id) -> Result<Text, NoMemory>
    ensures { IfOk result (λ link. link ≡ link_of endpoint.now kind id) }
{
    let id = id_text(id);
    let mut link = String::from_str(alloc, endpoint)?;
    link.push_str(kind.path())?;
    link.push_str(std::str::from_utf8(&id).unwrap())?;
    Text::of(alloc, link.as_str())
}

/// The id of a link to an object of this kind: any front, `/secrets/`, `/containers/` or `/orders/`, and the text of an
/// id. `None` exactly where the text is no such link. Takes no memory.
#[tactic(auto, unfolding(crate::specs::Link::read_ref_of))]
pub fn read_ref(kind: Kind, text: &[u8]) -> Option<Id>
    ensures value { result ≡ read_ref_of kind text.now }
    ensures grammar { MatchOption result ((id : Id) → ¬ IsLink kind text.now id) (IsLink kind text.now) }
{
    let (front, id) = text.split_at(text.len().saturating_sub(36));
    if front.ends_with(kind.path().as_bytes()) {
        read_id(id)
    } else {
        None
    }
}
