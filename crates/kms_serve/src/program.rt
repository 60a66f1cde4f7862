// The top call.
ghost use Rattle.std.specs.Prelude.{◌≡◌, ◌⊎◌, ℕ, List, IsSome, Some, None};
ghost use Rattle.kms_host.specs.Faults.{NeverFalls, Rose};
ghost use Rattle.kms_host.specs.History.{WhereTold, Stops};
ghost use Rattle.kms_host.specs.Line.{IsOpen};
ghost use Rattle.kms_host.specs.Store.{OnlyAttached};
ghost use Rattle.kms_host.specs.Moment.{Since};
ghost use Rattle.kms_serve.specs.Init.{IsInitStatus};
ghost use Rattle.kms_serve.specs.Plan.{pipe_plan};
ghost use Rattle.kms_serve.specs.Theorem.{RunPromise, Carries, IsPipeStatus, IsUnfaulted};
ghost use Rattle.kms_serve.specs.Words as spec;

use crate::init::init_store;
use crate::line::serve_line;
use crate::open::open_store;
use crate::status::Status;
use crate::words::{endpoint_of, init_of, key_file_of, store_of};
use kms_host::Host;
use std::alloc::Global;

// Opens a store, and serves line 0 over it.
fn serve_store<H: Host>(
    alloc: Global,
    key_file: &str,
    store: &str,
    endpoint: &str,
    host: &mut H,
) -> Status
    requires store { WhereTold (H.history host.old) (λ h. OnlyAttached store.now h.calls) }
    requires line { WhereTold (H.history host.old) (IsOpen 0) }
    ensures carries { Since (H.history host.old) (H.history host.new) (λ was calls. Carries (pipe_plan store.now key_file.now endpoint.now) result was calls) }
    ensures ends { IsPipeStatus result }
    ensures later { NeverFalls (H.faults host.old) (H.faults host.new) }
    ensures key_file_fault { result ≡ Status.KeyFileFault → Rose (H.faults host.old).key_file (H.faults host.new).key_file }
    ensures link_fault { result ≡ Status.LinkFault → Rose (H.faults host.old).link (H.faults host.new).link }
    ensures store_fault { result ≡ Status.StoreFault → Rose (H.faults host.old).store (H.faults host.new).store }
    ensures stops { Stops (H.wanted host.old) (H.wanted host.new) (H.history host.old) (H.history host.new) }
{
    match open_store(alloc, key_file, store, host) {
        Ok(engine) => serve_line(alloc, endpoint, engine, host),
        Err(status) => status,
    }
}

/// The program. `init --store NAME` creates a store with nothing in it, and is refused where there is one. `pipe --store
/// NAME --keys NAME --endpoint TEXT`, its words in this order, reads the key file, opens a store under its master keys, and is
/// refused where the key file has a bad line, or where there is no store, it is damaged, or a key or a payload in it doesn't open;
/// then it answers the requests of line 0 in their order, each as the plain key manager does. What a request changes is written
/// and synced before the first byte of its reply is sent.
///
/// Where the host tells its calls, the key file is good and the store's files stand for a state under its master keys when the
/// run begins: what was sent by each moment is what the plain key manager answers, as far as it went, with a constant reply for a
/// request that was out of memory or of random bytes, and for the last one where a call of the store failed; and if nothing was
/// pending on the files when the run began, whatever a stop at that moment leaves of them stands, under the same master keys, for
/// the plain key manager's state after a number of these requests that holds each one that was acknowledged, so that a byte of
/// its reply was sent. Where the key file isn't good, or the files stand for no state, nothing is sent, and if nothing was pending
/// on them, whatever a stop leaves stands for what they did. Whether the
/// host tells or not, words that are not understood are answered as such with no call made, and a fault only where its
/// count rose.
pub fn run<H: Host>(alloc: Global, words: &[String], host: &mut H) -> Status
    // A line that was shut can't be served, and a host has one store: that of the words, if it was named before.
    requires line { IsSome (spec.pipe_of (spec.texts words.now)) → WhereTold (H.history host.old) (IsOpen 0) }
    requires store { (store : List ℕ) → spec.named_store (spec.texts words.now) ≡ Some store
        → WhereTold (H.history host.old) (λ h. OnlyAttached store h.calls) }

    // What was sent by each moment and what a stop leaves then, how the run ended, and that its calls determine how.
    ensures answers { RunPromise (spec.init_of (spec.texts words.now)) (spec.pipe_of (spec.texts words.now)) (H.history host.old) (H.history host.new) result }

    // Words that are not understood end the run before its first call.
    ensures words { spec.init_of (spec.texts words.now) ≡ None → spec.pipe_of (spec.texts words.now) ≡ None → host.new ≡ host.old }

    // A host that told its calls and tells no more is one on which a call was out of memory.
    ensures stops { Stops (H.wanted host.old) (H.wanted host.new) (H.history host.old) (H.history host.new) }

    // Which statuses each command has.
    ensures init_ends { IsSome (spec.init_of (spec.texts words.now)) → IsInitStatus result }
    ensures pipe_ends { spec.init_of (spec.texts words.now) ≡ None → IsSome (spec.pipe_of (spec.texts words.now)) → IsPipeStatus result }

    // A fault is answered only where its count rose; where none did the run is served to its end, or refused, or out of
    // memory.
    ensures later { NeverFalls (H.faults host.old) (H.faults host.new) }
    ensures key_file_fault { result ≡ Status.KeyFileFault → Rose (H.faults host.old).key_file (H.faults host.new).key_file }
    ensures link_fault { result ≡ Status.LinkFault → Rose (H.faults host.old).link (H.faults host.new).link }
    ensures store_fault { result ≡ Status.StoreFault → Rose (H.faults host.old).store (H.faults host.new).store }
    ensures draw_fault { result ≡ Status.DrawFault → Rose (H.faults host.old).draw (H.faults host.new).draw }
    ensures complete { IsSome (spec.init_of (spec.texts words.now)) ⊎ IsSome (spec.pipe_of (spec.texts words.now))
        → (Rose (H.faults host.old).link (H.faults host.new).link → ⊥)
        → (Rose (H.faults host.old).store (H.faults host.new).store → ⊥)
        → (Rose (H.faults host.old).draw (H.faults host.new).draw → ⊥)
        → (Rose (H.faults host.old).key_file (H.faults host.new).key_file → ⊥) → IsUnfaulted result }
{
    match init_of(words) {
        Some(store) => return init_store(store, host),
        None => {}
    }
    match (store_of(words), key_file_of(words), endpoint_of(words)) {
        (Some(store), Some(key_file), Some(endpoint)) => {
            serve_store(alloc, key_file, store, endpoint, host)
        }
        _ => Status::Words,
    }
}
