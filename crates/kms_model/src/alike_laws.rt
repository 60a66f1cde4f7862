//! Laws of states that differ in the bytes of payloads alone, as functions that do nothing.
ghost use Rattle.std.specs.Prelude.{◌≡◌, ℕ, List, Option, Ok, Err, false};
ghost use Rattle.kms_model.specs.Alike.{Alike, IsShownByBoth, shows_payload};
ghost use Rattle.kms_model.specs.Ask.{asked};
ghost use Rattle.kms_model.specs.Done.{Done};
ghost use Rattle.kms_model.specs.Payloads.{payload_shown};
ghost use Rattle.kms_world.specs.State.{State};
ghost use Rattle.kms_world.specs.declared.caller.Caller.{Caller};
ghost use Rattle.kms_world.specs.declared.id.Id.{Id};
ghost use Rattle.kms_world.specs.declared.operation.Op.{Op};
ghost use Rattle.kms_world.specs.declared.refusal.Refusal.{Refusal};

/// An operation comes to the same over two states that differ in the bytes of payloads alone, but for the one that shows a
/// payload: that one is refused over both or over none, and shows the payloads of the two secrets that have its id.
pub fn operations_see_no_payload()
    ensures same { (a b : State) (caller : Caller) (op : Op) (t : ℕ) → Alike a b → shows_payload op ≡ false → asked a caller op t ≡ asked b caller op t }
    ensures refused { (a b : State) (caller : Caller) (op : Op) (t : ℕ) (refusal : Refusal) → Alike a b → asked a caller op t ≡ Err refusal → asked b caller op t ≡ Err refusal }
    ensures shown { (a b : State) (caller : Caller) (id : Option Id) (accept : Option (List ℕ)) (t : ℕ) (done : Done) → Alike a b → payload_shown a caller id accept t ≡ Ok done → IsShownByBoth a b caller id accept t done }
{}
