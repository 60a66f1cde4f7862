// Preparing the reply to a message.
ghost use Rattle.std.specs.Prelude.{◌≡◌, ◌<◌, min, ℕ, List, length, Some, Err, true, is_some, IfOk, OnOk, OnErr};
ghost use Rattle.kms_host.specs.Faults.{NeverFalls};
ghost use Rattle.kms_host.specs.History.{WhereTold, Stops};
ghost use Rattle.kms_host.specs.Moment.{Since};
ghost use Rattle.kms_http.specs.Reply.{printed};
ghost use Rattle.kms_http.specs.MessageStream.{is_last};
ghost use Rattle.kms_core.specs.Steps.{Prepares as Leads, HasState, KeepsState, KeepsTheSame, Waits, IsIdle};
ghost use Rattle.kms_json.specs.Answer.{HasForm, reply_of};
ghost use Rattle.kms_model.specs.Course.{Course, steps_if};
ghost use Rattle.kms_model.specs.Course.Deed.{Asks};
ghost use Rattle.kms_model.specs.Requests.{asked_answer, asked_puts, asked_state, asked_stores};
ghost use Rattle.kms_serve.specs.Events.{request_at};
ghost use Rattle.kms_serve.specs.Owed.{AnswersOne, DrawsFor, MayTakeOver, Responds, is_undrawn, owed_bytes};
ghost use Rattle.kms_serve.specs.Plan.{pipe_plan, most};
ghost use Rattle.kms_serve.specs.Requests as spec;
ghost use Rattle.kms_serve.specs.Turns.{CanServe, MaySettle};
ghost use Rattle.kms_world.specs.State.{State};
ghost use Rattle.kms_world.specs.Times.{HasTimes};

use crate::owed::Owed;
use crate::request::request_of;
use kms_core::{AskFault, Asked, Engine, PreparedStep};
use kms_host::Host;
use kms_http::{Routes, Served, print};
use kms_json::answer as reply_to;
use kms_world::{Answer, Bytes, Request};
use std::alloc::Global;

// The last second of the year 9999.
const LATEST: u64 = 253_402_300_799;

fn capped(moment: u64) -> u64
    ensures { result ≡ min moment 253402300799 }
{
    if moment < LATEST { moment } else { LATEST }
}

// The answer to a request, and the step that it needs.
fn asked<H: Host>(
    engine: &mut Engine,
    host: &mut H,
    request: Request,
    moment: u64,
) -> Result<Asked, AskFault>
    requires moment { moment < 253402300800 }
    requires idle { IsIdle engine.old }
    ensures answer { IfOk result (λ a. (s : State) → HasState engine.old s → a.answer ≡ asked_answer s request moment) }
    ensures step { IfOk result (λ a. (s : State) → HasState engine.old s → Leads a.step engine.new (asked_state s request moment)) }
    ensures stores { IfOk result (λ a. (s : State) → HasState engine.old s → is_some a.step ≡ asked_stores s request moment) }
    ensures may { IfOk result (λ a. MayTakeOver a.step engine.new) }
    ensures form { IfOk result (λ a. HasForm a.answer) }
    ensures times { IfOk result (λ a. HasTimes a.answer) }
    ensures puts { result ≡ Err AskFault.NoDraw → (s : State) → HasState engine.old s → asked_puts s request moment ≡ true }
    ensures same { KeepsState engine.old engine.new }
    ensures store { KeepsTheSame engine.old.store engine.new.store }
    ensures told { Since (H.history host.old) (H.history host.new) (λ was calls. (s : State) → HasState engine.old s → DrawsFor (asked_puts s request moment) (is_undrawn result) calls) }
    ensures later { NeverFalls (H.faults host.old) (H.faults host.new) }
    ensures stops { Stops (H.wanted host.old) (H.wanted host.new) (H.history host.old) (H.history host.new) }
{
    match request {
        Request::Asking(caller, op) => engine.ask(host, &caller, op, moment),
        Request::Refusing(refusal) => Ok(Asked {
            answer: Answer::Refused(refusal),
            step: None,
        }),
    }
}

// Takes over the step, where there is one. It waits to be settled.
fn take_over(engine: &mut Engine, step: Option<PreparedStep>)
    requires { MayTakeOver step engine.old }
    ensures state { (after : State) → Leads step engine.old after → HasState engine.new after }
    ensures waits { Waits engine.old engine.new (steps_if (is_some step)) }
{
    if let Some(step) = step {
        engine.accept(step);
    }
}

// Reads what is asked, asks, prints and accepts. Where there is a fault nothing has changed.
fn respond<H: Host>(
    alloc: Global,
    endpoint: &str,
    routes: &Routes,
    engine: &mut Engine,
    host: &mut H,
    served: &Served,
    moment: u64,
    last: bool,
) -> Result<Bytes, AskFault>
    requires moment { moment < 253402300800 }
    requires idle { IsIdle engine.old }
    ensures reply { IfOk result (λ bytes. (s : State) → HasState engine.old s → bytes ≡ printed (reply_of endpoint.now (asked_answer s (spec.request_of served.now) moment)) moment last) }
    ensures state { OnOk result ((s : State) → HasState engine.old s → HasState engine.new (asked_state s (spec.request_of served.now) moment)) }
    ensures steps { OnOk result ((s : State) → HasState engine.old s → Waits engine.old engine.new (steps_if (asked_stores s (spec.request_of served.now) moment))) }
    ensures waits { (steps : ℕ) × Waits engine.old engine.new steps }
    ensures err { OnErr result (KeepsState engine.old engine.new × KeepsTheSame engine.old.store engine.new.store) }
    ensures puts { result ≡ Err AskFault.NoDraw → (s : State) → HasState engine.old s → asked_puts s (spec.request_of served.now) moment ≡ true }
    ensures told { Since (H.history host.old) (H.history host.new) (λ was calls. (s : State) → HasState engine.old s
        → DrawsFor (asked_puts s (spec.request_of served.now) moment) (is_undrawn result) calls) }
    ensures some { IfOk result (λ bytes. 0 < length bytes) }
    ensures later { NeverFalls (H.faults host.old) (H.faults host.new) }
    ensures stops { Stops (H.wanted host.old) (H.wanted host.new) (H.history host.old) (H.history host.new) }
{
    let request = request_of(alloc, routes, served)?;
    let Asked { answer, step } = asked(engine, host, request, moment)?;
    let reply = reply_to(alloc, &answer, endpoint)?;
    let bytes = print(alloc, &reply, moment, last)?;
    take_over(engine, step);
    Ok(bytes)
}

// The reply to what is served, whose steps wait then. It changes nothing where there is a fault.
fn reply<H: Host>(
    alloc: Global,
    endpoint: &str,
    routes: &Routes,
    engine: &mut Engine,
    host: &mut H,
    served: &Served,
    moment: u64,
    last: bool,
) -> Owed
    requires moment { moment < 253402300800 }
    requires idle { IsIdle engine.old }
    ensures responds { Since (H.history host.old) (H.history host.new) (λ was calls. (c : Course) (line : ℕ) → HasState engine.old c.state
        → Responds endpoint.now c engine.old engine.new (record { line = line; event = record { deed = Asks (spec.request_of served.now); time = moment }; last = last }) result calls) }
    ensures waits { (steps : ℕ) × Waits engine.old engine.new steps }
    ensures some { 0 < length (owed_bytes result) }
    ensures later { NeverFalls (H.faults host.old) (H.faults host.new) }
    ensures stops { Stops (H.wanted host.old) (H.wanted host.new) (H.history host.old) (H.history host.new) }
{
    match respond(alloc, endpoint, routes, engine, host, served, moment, last) {
        Ok(reply) => Owed::Reply(reply),
        Err(AskFault::NoDraw) => Owed::NoDraw,
        Err(AskFault::NoMemory) => Owed::OutOfMemory,
    }
}

/// Answers what is served: its time is told, it is asked, printed and accepted. Its steps wait to be settled. It changes
/// nothing where that is out of memory or of random bytes.
pub fn answer_one<H: Host>(
    alloc: Global,
    endpoint: &str,
    routes: &Routes,
    engine: &mut Engine,
    host: &mut H,
    served: &Served,
    last: bool,
) -> Owed
    requires idle { IsIdle engine.old }
    requires ready { WhereTold (H.history host.old) (CanServe engine.old) }
    ensures answers { (store key_file : List ℕ) (n : ℕ) → last ≡ is_last most n served.now
        → Since (H.history host.old) (H.history host.new) (λ was calls. (c : Course) → HasState engine.old c.state
        → AnswersOne endpoint.now 0 (λ t. request_at (pipe_plan store key_file endpoint.now) 0 n t (Some served.now)) c engine.old engine.new (owed_bytes result) calls) }
    ensures waits { (steps : ℕ) × Waits engine.old engine.new steps }
    ensures some { 0 < length (owed_bytes result) }
    ensures ready { WhereTold (H.history host.new) (MaySettle engine.new) }
    ensures later { NeverFalls (H.faults host.old) (H.faults host.new) }
    ensures stops { Stops (H.wanted host.old) (H.wanted host.new) (H.history host.old) (H.history host.new) }
{
    let told = host.now();
    let moment = capped(told);
    reply(alloc, endpoint, routes, engine, host, served, moment, last)
}
