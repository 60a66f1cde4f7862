//! What holds of every run that meets the theorem, as functions that do nothing.
ghost use Rattle.std.specs.Prelude.{◌≡◌, ◌≤◌, ◌+◌, ◌*◌, ℕ, List, length};
ghost use Rattle.kms_host.specs.Moment.{by_moment};
ghost use Rattle.kms_host.specs.Random.{failed_draws};
ghost use Rattle.kms_host.specs.Store.{syncs};
ghost use Rattle.kms_host.specs.declared.call.Call.{Call};
ghost use Rattle.kms_model.specs.Course.{draw_marks};
ghost use Rattle.kms_serve.specs.Acknowledged.{IsAcknowledgedKept};
ghost use Rattle.kms_serve.specs.Batches.{settles};
ghost use Rattle.kms_serve.specs.Events.{events};
ghost use Rattle.kms_serve.specs.Init.{IsServedNext};
ghost use Rattle.kms_serve.specs.Renewals.{renewals};
ghost use Rattle.kms_serve.specs.Replies.{steps_by};
ghost use Rattle.kms_serve.specs.RunStart.{RunStart, history};
ghost use Rattle.kms_serve.specs.Theorem.{Serves};
ghost use Rattle.kms_serve.specs.declared.status.Status.{Status};

/// Whatever a stop leaves at a moment has the steps of all requests up to and with the last of which a byte of its reply was
/// sent by then: their number, read from the bytes that were sent.
pub fn what_was_acknowledged_is_kept()
    ensures { IsAcknowledgedKept }
{}

/// A store can be served over the host on which a run of `init` made it, or found it.
pub fn what_was_created_can_be_served()
    ensures { IsServedNext }
{}

/// By each moment the store was settled at most as often as the events so far made steps; so there were at most two syncs for
/// the opening, two more for each step, and three for each time that a snapshot was put in the place of the records.
pub fn a_settle_has_a_step()
    ensures settles { (start : RunStart) (s : Status) (calls : List Call) → (run : Serves start s calls) → (moment : ℕ) → moment ≤ length calls
        → settles (by_moment moment calls) ≤ steps_by start.first (events start.plan (by_moment moment calls)) run.marks }
    ensures syncs { (start : RunStart) (s : Status) (calls : List Call) → (run : Serves start s calls) → (moment : ℕ) → moment ≤ length calls
        → syncs (history start (by_moment moment calls)).calls
        ≤ syncs start.was.calls + 2 + 2 * steps_by start.first (events start.plan (by_moment moment calls)) run.marks + 3 * renewals (by_moment moment calls) }
{}

/// No event is answered as without random bytes in a run in which no draw failed.
pub fn a_missing_draw_failed()
    ensures { (start : RunStart) (s : Status) (calls : List Call) → (run : Serves start s calls) → failed_draws calls ≡ 0 → draw_marks run.marks ≡ 0 }
{}
