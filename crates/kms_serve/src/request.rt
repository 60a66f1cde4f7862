// What a line's messages ask for.
ghost use Rattle.std.specs.Prelude.{◌≡◌, IfOk};
ghost use Rattle.kms_serve.specs.Requests as spec;

use kms_http::{Message, RouteFault, Routes, Served, route};
use kms_requests::op;
use kms_world::{NoMemory, Request};
use std::alloc::Global;

#[tactic(auto, unfolding(crate::specs::Requests::request_in))]
fn request_in(alloc: Global, routes: &Routes, message: &Message) -> Result<Request, NoMemory>
    ensures { IfOk result (λ request. request ≡ spec.request_in message.now) }
{
    match route(routes, alloc, &message.head) {
        Ok((caller, shape)) => {
            let op = op(alloc, shape, message.body.as_slice())?;
            Ok(Request::Asking(caller, op))
        }
        Err(RouteFault::Refused(refusal)) => Ok(Request::Refusing(refusal)),
        Err(RouteFault::NoMemory) => Err(NoMemory),
    }
}

/// What is asked of the key manager: an operation of a caller, or why there is none.
pub fn request_of(alloc: Global, routes: &Routes, served: &Served) -> Result<Request, NoMemory>
    ensures { IfOk result (λ request. request ≡ spec.request_of served.now) }
{
    match served {
        Served::Asking(message) => request_in(alloc, routes, message),
        Served::Unreadable(refusal) => Ok(Request::Refusing(*refusal)),
    }
}
