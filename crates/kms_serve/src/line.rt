// Serving a line, in turns.
ghost use Rattle.std.specs.Prelude.{◌≡◌, ◌≢◌, ◌+◌, ◌*◌, ◌<◌, ◌≤◌, ◌||◌, ◌==◌, ℕ, List, Option, length, IfOk, OnOk};
ghost use Rattle.kms_host.specs.History.{WhereTold, History, Stops};
ghost use Rattle.kms_host.specs.Faults.{HasCause, NeverFalls};
ghost use Rattle.kms_host.specs.Line.{IsOpen};
ghost use Rattle.kms_host.specs.declared.call.Count.TheVariants as counts;
ghost use Rattle.kms_http.specs.Messages.{front};
ghost use Rattle.kms_http.specs.Messages.Front.{Bad, Part};
ghost use Rattle.kms_http.specs.MessageStream.{After, is_last};
ghost use Rattle.kms_http.specs.Sizes.{longest};
ghost use Rattle.kms_core.specs.Steps.{IsIdle, IsWorking};
ghost use Rattle.kms_serve.specs.Owed.{owed_bytes};
ghost use Rattle.kms_serve.specs.Plan.{most};
ghost use Rattle.kms_serve.specs.Turns.{Good, Owing, Replying, Faulting, HasEnded, IsSettledNow, IsGivenNow, Left, IsTaken, IsTakenOut, IsBounded, IsServedEnd, IsBatchEnd, GoesOn, HasCauses, CanServe, MaySettle, serving_of};
ghost use Rattle.kms_serve.specs.declared.serving.Serving.{Serving as Session};

use crate::give::give_all;
use crate::owed::{Owed, owed_slice};
use crate::prepare::answer_one;
use crate::serving::{Serving, Turn};
use crate::status::Status;
use kms_core::Engine;
use kms_host::Host;
use kms_http::{FaultReply, Message, MessageRead, MessageReader, Routes, Served, fault_reply};
use kms_journal::StoreFault;
use kms_world::{NoMemory, Refusal};
use std::alloc::Global;

/// A line is served up to this number of requests.
const MOST: u64 = 10_000_000;

/// How many bytes are taken at once, at most.
const ROOM: usize = 65536;

// More bytes of the line, or its end. What the reader holds is the beginning of a message, or nothing.
fn take_more<H: Host>(host: &mut H, s: &mut Serving, room: &mut [u8]) -> Turn
    requires room { length room.old ≡ 65536 }
    requires part { front s.old.reader.held ≡ Part }
    requires bounded { IsBounded s.old }
    requires idle { IsIdle s.old.engine }
    requires working { IsWorking s.old.engine }
    requires ready { WhereTold (H.history host.old) (CanServe s.old.engine) }
    ensures good { (endpoint key_file store : List ℕ) (start : Option History) →
        Good endpoint key_file store start (H.history host.old) s.old → Left endpoint key_file store start (H.history host.new) s.new result }
    ensures idle { result ≡ Turn.Went → IsIdle s.new.engine }
    ensures working { result ≡ Turn.Went → IsWorking s.new.engine }
    ensures ready { result ≡ Turn.Went → WhereTold (H.history host.new) (CanServe s.new.engine) }
    ensures goes { GoesOn s.old s.new result }
    ensures causes { HasCauses (H.faults host.old) (H.faults host.new) result }
    ensures stops { Stops (H.wanted host.old) (H.wanted host.new) (H.history host.old) (H.history host.new) }
{
    let Ok(count) = host.take(0, room) else {
        return Turn::Ended(Status::LinkFault);
    };
    if count == 0 {
        host.shut(0);
        return if s.reader.is_empty() {
            Turn::Ended(Status::Done)
        } else {
            Turn::Ended(Status::Rest(s.reader.passed()))
        };
    }
    match s.reader.feed(&room[..count]) {
        Ok(()) => Turn::Went,
        Err(_) => Turn::Ended(Status::NoMemory),
    }
}

// The reply to the next message is the last on the line.
fn ends_line(count: u64, close: bool) -> bool
    requires { count < most }
    ensures { result ≡ (close || (count + 1 == most)) }
{
    close || count + 1 == MOST
}

// Answers what is served next. Its steps wait to be settled.
fn answer_batch<H: Host>(
    alloc: Global,
    endpoint: &str,
    host: &mut H,
    s: &mut Serving,
    served: &Served,
    last: bool,
) -> Owed
    requires few { s.old.count < most }
    requires idle { IsIdle s.old.engine }
    requires working { IsWorking s.old.engine }
    requires ready { WhereTold (H.history host.old) (CanServe s.old.engine) }
    ensures owing { (key_file store : List ℕ) (start : Option History) (before : Session) (stand : After) → IsTaken before s.old served.now stand
        → last ≡ is_last most s.old.count served.now → Good endpoint.now key_file store start (H.history host.old) before
        → Owing endpoint.now key_file store start (H.history host.new) s.new stand (owed_bytes result) }
    ensures some { 0 < length (owed_bytes result) }
    ensures working { IsWorking s.new.engine }
    ensures ready { WhereTold (H.history host.new) (MaySettle s.new.engine) }
    ensures count { s.new.count ≡ s.old.count + 1 }
    ensures reader { s.new.reader ≡ s.old.reader }
    ensures later { NeverFalls (H.faults host.old) (H.faults host.new) }
    ensures stops { Stops (H.wanted host.old) (H.wanted host.new) (H.history host.old) (H.history host.new) }
{
    let owed = answer_one(
        alloc,
        endpoint,
        &s.routes,
        &mut s.engine,
        host,
        served,
        last,
    );
    s.count += 1;
    owed
}

// Settles what was answered.
fn settle_batch<H: Host>(host: &mut H, s: &mut Serving) -> Result<(), StoreFault>
    requires working { IsWorking s.old.engine }
    requires ready { WhereTold (H.history host.old) (MaySettle s.old.engine) }
    ensures settled { (endpoint key_file store : List ℕ) (start : Option History) (stand : After) (reply : List ℕ) → Owing endpoint key_file store start (H.history host.old) s.old stand reply
        → IsSettledNow endpoint key_file store start (H.history host.new) s.new stand reply result }
    ensures open { WhereTold (H.history host.new) (IsOpen 0) }
    ensures ready { OnOk result (WhereTold (H.history host.new) (CanServe s.new.engine)) }
    ensures idle { OnOk result (IsIdle s.new.engine) }
    ensures working { OnOk result (IsWorking s.new.engine) }
    ensures count { s.new.count ≡ s.old.count }
    ensures reader { s.new.reader ≡ s.old.reader }
    ensures cause { HasCause counts.Store (H.faults host.old) (H.faults host.new) result }
    ensures stops { Stops (H.wanted host.old) (H.wanted host.new) (H.history host.old) (H.history host.new) }
{
    s.engine.settle(host)
}

// Gives the fault of the store, as far as it goes.
fn give_fault<H: Host>(host: &mut H) -> Status
    requires open_line { WhereTold (H.history host.old) (IsOpen 0) }
    ensures ended { (endpoint key_file store : List ℕ) (start : Option History) → Faulting endpoint key_file store start (H.history host.old) → HasEnded endpoint key_file store start (H.history host.new) result }
    ensures status { result ≡ Status.StoreFault }
    ensures later { NeverFalls (H.faults host.old) (H.faults host.new) }
    ensures stops { Stops (H.wanted host.old) (H.wanted host.new) (H.history host.old) (H.history host.new) }
{
    // The run ends so whether the line takes it or not.
    let _ = give_all(host, 0, fault_reply(FaultReply::F1));
    Status::StoreFault
}

// Gives the reply to what was answered and settled.
fn give_batch<H: Host>(host: &mut H, s: &Serving, owed: &Owed) -> Turn
    requires some { 0 < length (owed_bytes owed.now) }
    requires ready { WhereTold (H.history host.old) (CanServe s.now.engine) }
    ensures given { (endpoint key_file store : List ℕ) (start : Option History) (stand : After) → Replying endpoint key_file store start (H.history host.old) s.now stand (owed_bytes owed.now)
        → IsGivenNow endpoint key_file store start (H.history host.new) s.now stand result }
    ensures ready { result ≡ Turn.Went → WhereTold (H.history host.new) (CanServe s.now.engine) }
    ensures ends { result ≢ Turn.Went → result ≡ Turn.Ended Status.LinkFault }
    ensures causes { HasCauses (H.faults host.old) (H.faults host.new) result }
    ensures stops { Stops (H.wanted host.old) (H.wanted host.new) (H.history host.old) (H.history host.new) }
{
    match give_all(host, 0, owed_slice(owed)) {
        Ok(()) => Turn::Went,
        Err(_) => Turn::Ended(Status::LinkFault),
    }
}

// Settles what was answered, and gives its reply.
fn settle_and_give<H: Host>(host: &mut H, s: &mut Serving, owed: &Owed) -> Turn
    requires some { 0 < length (owed_bytes owed.now) }
    requires working { IsWorking s.old.engine }
    requires ready { WhereTold (H.history host.old) (MaySettle s.old.engine) }
    ensures given { (endpoint key_file store : List ℕ) (start : Option History) (stand : After) → Owing endpoint key_file store start (H.history host.old) s.old stand (owed_bytes owed.now)
        → IsGivenNow endpoint key_file store start (H.history host.new) s.new stand result }
    ensures idle { result ≡ Turn.Went → IsIdle s.new.engine }
    ensures working { result ≡ Turn.Went → IsWorking s.new.engine }
    ensures ready { result ≡ Turn.Went → WhereTold (H.history host.new) (CanServe s.new.engine) }
    ensures ends { IsBatchEnd result }
    ensures count { s.new.count ≡ s.old.count }
    ensures reader { s.new.reader ≡ s.old.reader }
    ensures causes { HasCauses (H.faults host.old) (H.faults host.new) result }
    ensures stops { Stops (H.wanted host.old) (H.wanted host.new) (H.history host.old) (H.history host.new) }
{
    match settle_batch(host, s) {
        Ok(()) => give_batch(host, s, owed),
        Err(_) => Turn::Ended(give_fault(host)),
    }
}

// Serves the message that was taken out of the reader.
fn serve_request<H: Host>(
    alloc: Global,
    endpoint: &str,
    host: &mut H,
    s: &mut Serving,
    message: Message,
) -> Turn
    requires few { s.old.count < most }
    requires passed { s.old.reader.passed ≤ (s.old.count + 1) * longest }
    requires held { length s.old.reader.held ≤ longest + 65536 }
    requires idle { IsIdle s.old.engine }
    requires working { IsWorking s.old.engine }
    requires ready { WhereTold (H.history host.old) (CanServe s.old.engine) }
    ensures good { (key_file store : List ℕ) (start : Option History) (before : Session) → IsTakenOut before s.old message →
        Good endpoint.now key_file store start (H.history host.old) before → Left endpoint.now key_file store start (H.history host.new) s.new result }
    ensures idle { result ≡ Turn.Went → IsIdle s.new.engine }
    ensures working { result ≡ Turn.Went → IsWorking s.new.engine }
    ensures ready { result ≡ Turn.Went → WhereTold (H.history host.new) (CanServe s.new.engine) }
    ensures goes { GoesOn s.old s.new result }
    ensures causes { HasCauses (H.faults host.old) (H.faults host.new) result }
    ensures stops { Stops (H.wanted host.old) (H.wanted host.new) (H.history host.old) (H.history host.new) }
{
    let last = ends_line(s.count, message.close);
    let served = Served::Asking(message);
    let owed = answer_batch(alloc, endpoint, host, s, &served, last);
    match settle_and_give(host, s, &owed) {
        Turn::Went => {}
        Turn::Ended(status) => return Turn::Ended(status),
    }
    if last {
        host.shut(0);
        return Turn::Ended(Status::Done);
    }
    Turn::Went
}

// Refuses what the reader holds, which is no message.
fn refuse<H: Host>(
    alloc: Global,
    endpoint: &str,
    host: &mut H,
    s: &mut Serving,
    refusal: Refusal,
) -> Turn
    requires bad { front s.old.reader.held ≡ Bad refusal }
    requires few { s.old.count < most }
    requires idle { IsIdle s.old.engine }
    requires working { IsWorking s.old.engine }
    requires ready { WhereTold (H.history host.old) (CanServe s.old.engine) }
    ensures good { (key_file store : List ℕ) (start : Option History) →
        Good endpoint.now key_file store start (H.history host.old) s.old → Left endpoint.now key_file store start (H.history host.new) s.new result }
    ensures ends { result ≢ Turn.Went }
    ensures goes { GoesOn s.old s.new result }
    ensures causes { HasCauses (H.faults host.old) (H.faults host.new) result }
    ensures stops { Stops (H.wanted host.old) (H.wanted host.new) (H.history host.old) (H.history host.new) }
{
    let served = Served::Unreadable(refusal);
    let owed = answer_batch(alloc, endpoint, host, s, &served, true);
    match settle_and_give(host, s, &owed) {
        Turn::Went => {}
        Turn::Ended(status) => return Turn::Ended(status),
    }
    host.shut(0);
    Turn::Ended(Status::Unreadable(s.reader.passed()))
}

// One turn of the line: a message is answered, or more bytes are taken.
fn take_turn<H: Host>(
    alloc: Global,
    endpoint: &str,
    host: &mut H,
    s: &mut Serving,
    room: &mut [u8],
) -> Turn
    requires room { length room.old ≡ 65536 }
    requires bounded { IsBounded s.old }
    requires idle { IsIdle s.old.engine }
    requires working { IsWorking s.old.engine }
    requires ready { WhereTold (H.history host.old) (CanServe s.old.engine) }
    ensures good { (key_file store : List ℕ) (start : Option History) →
        Good endpoint.now key_file store start (H.history host.old) s.old → Left endpoint.now key_file store start (H.history host.new) s.new result }
    ensures idle { result ≡ Turn.Went → IsIdle s.new.engine }
    ensures working { result ≡ Turn.Went → IsWorking s.new.engine }
    ensures ready { result ≡ Turn.Went → WhereTold (H.history host.new) (CanServe s.new.engine) }
    ensures goes { GoesOn s.old s.new result }
    ensures causes { HasCauses (H.faults host.old) (H.faults host.new) result }
    ensures stops { Stops (H.wanted host.old) (H.wanted host.new) (H.history host.old) (H.history host.new) }
{
    match s.reader.next() {
        Ok(MessageRead::Message(message)) => serve_request(alloc, endpoint, host, s, message),
        Ok(MessageRead::Bad(refusal)) => refuse(alloc, endpoint, host, s, refusal),
        Ok(MessageRead::More) => take_more(host, s, room),
        Err(_) => Turn::Ended(Status::NoMemory),
    }
}

fn zeros(alloc: Global, count: usize) -> Result<Vec<u8>, NoMemory>
    ensures { IfOk result (λ room. length room.items ≡ count) }
{
    Ok(vec![in alloc; 0u8; count]?)
}

fn new_room(alloc: Global) -> Result<Vec<u8>, NoMemory>
    ensures { IfOk result (λ room. length room.items ≡ 65536) }
{
    zeros(alloc, ROOM)
}

/// Serves line 0 from its first byte to its end.
pub fn serve_line<H: Host>(alloc: Global, endpoint: &str, engine: Engine, host: &mut H) -> Status
    requires idle { IsIdle engine }
    requires working { IsWorking engine }
    requires ready { WhereTold (H.history host.old) (CanServe engine) }
    ensures ended { (key_file store : List ℕ) (start : Option History) → Good endpoint.now key_file store start (H.history host.old) (serving_of engine)
        → HasEnded endpoint.now key_file store start (H.history host.new) result }
    ensures served { IsServedEnd result }
    ensures causes { HasCauses (H.faults host.old) (H.faults host.new) (Turn.Ended result) }
    ensures stops { Stops (H.wanted host.old) (H.wanted host.new) (H.history host.old) (H.history host.new) }
{
    let Ok(mut room) = new_room(alloc) else {
        return Status::NoMemory;
    };
    let Ok(routes) = Routes::new(alloc) else {
        return Status::NoMemory;
    };
    let mut s = Serving {
        engine,
        reader: MessageReader::new(alloc),
        routes,
        count: 0,
    };
    loop {
        match take_turn(alloc, endpoint, host, &mut s, &mut room) {
            Turn::Went => {}
            Turn::Ended(status) => return status,
        }
    }
}
