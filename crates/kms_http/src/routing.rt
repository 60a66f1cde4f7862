// What a request asks for, and who asks.
ghost use Rattle.std.specs.Prelude.{◌≡◌};
ghost use Rattle.kms_http.specs.Routing as spec;
ghost use Rattle.kms_http.specs.Routing.{IsRouted};
ghost use Rattle.kms_http.specs.Methods.{method_of};

use crate::caller::caller_in;
use crate::message::Head;
use crate::method::{allow_of, read_method};
use crate::path::Path;
use crate::routes::Routes;
use crate::shapes::shape_on;
use crate::target::path_text;
use kms_world::{Caller, NoMemory, Refusal, Shape};
use std::alloc::Global;

/// Why a head gave no caller and shape.
#[derive(Clone, Copy, Debug, PartialEq, Eq)]
pub enum RouteFault {
    /// `NoIdentity`, `NoRoute` or `WrongMethod`
    Refused(Refusal),
    NoMemory,
}

fn shape_of(alloc: Global, path: Path, head: &Head) -> Result<Shape, RouteFault>
    ensures { IsRouted result (spec.with_method path (method_of head.now.method) head.now) }
{
    let Some(method) = read_method(head.method.as_str()) else {
        return Err(RouteFault::Refused(Refusal::WrongMethod(allow_of(path))));
    };
    match shape_on(alloc, path, method, head) {
        Ok(Some(shape)) => Ok(shape),
        Ok(None) => Err(RouteFault::Refused(Refusal::WrongMethod(allow_of(path)))),
        Err(NoMemory) => Err(RouteFault::NoMemory),
    }
}

#[tactic(auto, unfolding(crate::specs::Routing::asked))]
fn asked(routes: &Routes, alloc: Global, head: &Head) -> Result<Shape, RouteFault>
    ensures { IsRouted result (spec.asked head.now) }
{
    match routes.find(path_text(head.target.as_str())) {
        Some(path) => shape_of(alloc, path, head),
        None => Err(RouteFault::Refused(Refusal::NoRoute)),
    }
}

/// Who makes a request with this head, and what it asks for; or the first refusal, in this order: `NoIdentity` where the
/// fields name no caller, `NoRoute` where the table hasn't the target's path, `WrongMethod` with the path's methods where it
/// hasn't this one. An id, a key or a project that isn't of its form is None in the shape.
#[tactic(auto, unfolding(crate::specs::Routing::routed))]
pub fn route(routes: &Routes, alloc: Global, head: &Head) -> Result<(Caller, Shape), RouteFault>
    ensures { IsRouted result (spec.routed head.now) }
{
    let Some(caller) = caller_in(&head.fields) else {
        return Err(RouteFault::Refused(Refusal::NoIdentity));
    };
    let shape = asked(routes, alloc, head)?;
    Ok((caller, shape))
}
