//! Laws of sealed payloads, as functions that do nothing.
ghost use Rattle.std.specs.Prelude.{◌≡◌, ℕ, ◌<◌, ◌^◌, List, [], ◌∷◌, Some, None};
ghost use Rattle.kms_world.specs.Effect as effects;
ghost use Rattle.kms_world.specs.Effect.{after_effects};
ghost use Rattle.kms_world.specs.Id.{id_at};
ghost use Rattle.kms_world.specs.LookUp.{secret_of};
ghost use Rattle.kms_world.specs.State.{State};
ghost use Rattle.kms_world.specs.declared.payload.Payload.{Payload};
ghost use Rattle.kms_world.specs.declared.secret.SecretRow.{SecretRow};
ghost use Rattle.kms_record.specs.declared.secret_put.SecretPut.{SecretPut};
ghost use Rattle.kms_record.specs.SecretPut.{row_of};
ghost use Rattle.kms_kept.specs.Kept.{Kept, Records};
ghost use Rattle.kms_kept.specs.Rising.{IsRising};
ghost use Rattle.kms_opened.specs.Opened.{Opened, OpensUnder};
ghost use Rattle.kms_opened.specs.Steps.{LeadTo};
ghost use Rattle.kms_sealing.specs.Opening.{IsOpen, IsRefusal};
ghost use Rattle.kms_sealing.specs.Sealed.{Adds, post_changes, put_changes, rows_with};
ghost use Rattle.kms_sealing.specs.declared.fault.OpeningFault.{OpeningFault};
ghost use Rattle.kms_sealing.specs.declared.fault.OpeningFault.TheVariants as faults;
ghost use Rattle.kms_sealing.specs.declared.sealing.Sealed.{Sealed};

/// What is kept opens to a state, or one thing is named that doesn't open: never both, and no two things.
pub fn an_opening_has_one_answer()
    ensures open { (masters : List (List ℕ)) (kept : Kept) (fault : OpeningFault) → IsOpen masters kept → IsRefusal masters kept fault → fault ≡ faults.NoMemory }
    ensures once { (masters : List (List ℕ)) (kept : Kept) (a b : OpeningFault) → (a ≡ faults.NoMemory → ⊥) → (b ≡ faults.NoMemory → ⊥) → IsRefusal masters kept a → IsRefusal masters kept b → a ≡ b }
{}

/// The step that puts a new secret with a sealed payload leads from what opens to a state to what opens to the state with the
/// secret and the bytes of its payload.
pub fn a_posted_payload_is_opened()
    ensures { (masters : List (List ℕ)) (kept : Kept) (state : State) (put : SecretPut) (sealed : Sealed) (payload : Payload) → Opened masters kept state → IsRising kept.state
        → put.id ≡ kept.state.ids → put.id < 2 ^ 62 → Adds masters kept put.project sealed.new
        → OpensUnder masters (rows_with sealed.new kept.keys) put.project sealed.number sealed.token payload.bytes
        → LeadTo masters Records (post_changes sealed put payload.media) kept
        (after_effects (effects.SecretPut (row_of kept.state.tag put) ∷ effects.PayloadPut (id_at kept.state.tag put.id) put.updated payload ∷ []) state) }
{}

/// The step that puts a sealed payload of a secret that is there, and has none, leads from what opens to a state to what opens to
/// the state with the bytes of that payload.
pub fn a_put_payload_is_opened()
    ensures { (masters : List (List ℕ)) (kept : Kept) (state : State) (row : SecretRow) (secret updated : ℕ) (sealed : Sealed) (payload : Payload) → Opened masters kept state → IsRising kept.state
        → secret_of (id_at kept.state.tag secret) kept.state.secrets ≡ Some row → row.payload ≡ None → Adds masters kept row.project sealed.new
        → OpensUnder masters (rows_with sealed.new kept.keys) row.project sealed.number sealed.token payload.bytes
        → LeadTo masters Records (put_changes sealed secret updated payload.media) kept
        (after_effects (effects.PayloadPut (id_at kept.state.tag secret) updated payload ∷ []) state) }
{}
