//! Laws of what is kept and opened, as functions that do nothing. Lists of master keys are those of a key file, the
//! first first.
ghost use Rattle.std.specs.Prelude.{◌≡◌, ◌^◌, ◌<◌, true, ℕ, List, [], ◌∷◌, Option, Some, None};
ghost use Rattle.std.specs.List.{AllByRecursion};
ghost use Rattle.kms_aes.specs.Cipher.{IsBytes};
ghost use Rattle.kms_world.specs.Effect as effects;
ghost use Rattle.kms_world.specs.Effect.{Effect, after_effects, after_optional};
ghost use Rattle.kms_world.specs.Id.{id_at};
ghost use Rattle.kms_world.specs.LookUp.{secret_of};
ghost use Rattle.kms_world.specs.State.{State, empty_state};
ghost use Rattle.kms_world.specs.declared.id.Id.{Id};
ghost use Rattle.kms_world.specs.declared.order.OrderRow.{OrderRow};
ghost use Rattle.kms_world.specs.declared.payload.Payload.{Payload};
ghost use Rattle.kms_world.specs.declared.secret.SecretRow.{SecretRow};
ghost use Rattle.kms_record.specs.declared.change.Change.{Change};
ghost use Rattle.kms_record.specs.declared.change.Change.TheVariants.{KeyAdded};
ghost use Rattle.kms_record.specs.declared.key.WrappedKey.{WrappedKey};
ghost use Rattle.kms_record.specs.declared.secret_put.SecretPut.{SecretPut};
ghost use Rattle.kms_record.specs.SecretPut.{row_of};
ghost use Rattle.kms_kept.specs.Kept.{Kept, Part, Records, applies, changed, nothing_kept};
ghost use Rattle.kms_kept.specs.Rising.{IsGiven, IsRising};
ghost use Rattle.kms_opened.specs.Made.{made};
ghost use Rattle.kms_opened.specs.Opened.{KeyOpens, OpensUnder, Opened, HasFittingPayload, IsFoundOpened};
ghost use Rattle.kms_opened.specs.Steps.{OpensTo, HaveEffects, LeadTo, HasStep, posted_changes};

/// A change of any kind, in a record or in a snapshot, that applies to what is kept and does this to the opened state,
/// leads to what opens to the state after that.
pub fn a_change_keeps_what_is_opened()
    ensures { (masters : List (List ℕ)) (part : Part) (change : Change) (kept : Kept) (effect : Option Effect) (state : State) → Opened masters kept state → IsRising kept.state
        → applies part change kept ≡ true → OpensTo masters kept change effect → Opened masters (changed change kept) (after_optional effect state) }
{}

/// So do the changes of a step, one after the other.
pub fn changes_lead_to_their_effects()
    ensures { (masters : List (List ℕ)) (part : Part) (changes : List Change) (kept : Kept) (effects : List Effect) (state : State) → Opened masters kept state → IsRising kept.state
        → HaveEffects masters part kept changes effects → LeadTo masters part changes kept (after_effects effects state) }
{}

/// What is kept opens to one state at most.
pub fn what_is_kept_opens_once()
    ensures { (masters : List (List ℕ)) → AllByRecursion (IsBytes 32) masters → (kept : Kept) (a b : State) → Opened masters kept a → Opened masters kept b → a ≡ b }
{}

/// A fresh store opens to the state with nothing in it.
pub fn a_fresh_store_is_opened()
    ensures opened { (masters : List (List ℕ)) (tag : ℕ) → Opened masters (nothing_kept tag) (empty_state tag) }
    ensures rising { (tag : ℕ) → IsRising (nothing_kept tag).state }
{}

/// Of an opened state: ids rise as in what is kept, and payloads have 1 to 20,000 bytes.
pub fn opened_states_are_sound()
    ensures rising { (masters : List (List ℕ)) (kept : Kept) (s : State) → Opened masters kept s → IsRising kept.state → IsRising s }
    ensures payloads { (masters : List (List ℕ)) (kept : Kept) (s : State) → Opened masters kept s → AllByRecursion HasFittingPayload s.secrets }
{}

/// A secret that is found in what is kept is found in the opened state, with its payload opened, and one that isn't is not.
pub fn a_secret_is_found_opened()
    ensures there { (masters : List (List ℕ)) (kept : Kept) (s : State) → Opened masters kept s → (id : Id) (sealed : SecretRow) → secret_of id kept.state.secrets ≡ Some sealed → IsFoundOpened masters kept.keys id sealed s.secrets }
    ensures nowhere { (masters : List (List ℕ)) (kept : Kept) (s : State) → Opened masters kept s → (id : Id) → secret_of id kept.state.secrets ≡ None → secret_of id s.secrets ≡ None }
{}

/// To the effects of some operations on a secret of the opened state there is a step that has them: it is deleted, gets
/// metadata, or is new, without a payload or with one whose token opens under a key that is kept. A new key may come
/// before the changes of a step.
pub fn steps_have_their_effects()
    ensures delete { (masters : List (List ℕ)) (kept : Kept) (s : State) → Opened masters kept s → IsRising kept.state
        → (id : Id) (row : SecretRow) → secret_of id s.secrets ≡ Some row → HasStep masters kept (effects.Deleted row.id ∷ []) }
    ensures metadata { (masters : List (List ℕ)) (kept : Kept) (s : State) → Opened masters kept s → IsRising kept.state
        → (id : Id) (row : SecretRow) (t : ℕ) (pairs : List (List ℕ × List ℕ)) → secret_of id s.secrets ≡ Some row → HasStep masters kept (effects.MetadataPut row.id t pairs ∷ []) }
    ensures post { (masters : List (List ℕ)) (kept : Kept) (s : State) → Opened masters kept s → IsRising kept.state
        → (row : SecretRow) → s.ids < 2 ^ 62 → row.id ≡ id_at s.tag s.ids → row.payload ≡ None → row.metadata ≡ [] → HasStep masters kept (effects.SecretPut row ∷ []) }
    ensures payload { (masters : List (List ℕ)) (kept : Kept) (s : State) → Opened masters kept s → IsRising kept.state
        → (row : SecretRow) (t number : ℕ) (payload : Payload) (token : List ℕ) → s.ids < 2 ^ 62 → row.id ≡ id_at s.tag s.ids → row.payload ≡ None → row.metadata ≡ []
        → OpensUnder masters kept.keys row.project number token payload.bytes → HasStep masters kept (effects.SecretPut row ∷ effects.PayloadPut row.id t payload ∷ []) }
    ensures key { (masters : List (List ℕ)) (kept : Kept) (key : WrappedKey) (effects : List Effect) → applies Records (KeyAdded key) kept ≡ true → KeyOpens masters key
        → HasStep masters (changed (KeyAdded key) kept) effects → HasStep masters kept effects }
{}

/// The changes that put a new secret, and then its payload as a token under a key that is kept, have the effects of the
/// secret and of its payload; and a new key that opens may come before the changes of a step.
pub fn a_posted_payload_has_its_effects()
    ensures posted { (masters : List (List ℕ)) (kept : Kept) → IsRising kept.state → (put : SecretPut) (t number : ℕ) (payload : Payload) (token : List ℕ) → put.id ≡ kept.state.ids → put.id < 2 ^ 62
        → OpensUnder masters kept.keys put.project number token payload.bytes
        → HaveEffects masters Records kept (posted_changes put t number payload.media token) (effects.SecretPut (row_of kept.state.tag put) ∷ effects.PayloadPut (id_at kept.state.tag put.id) t payload ∷ []) }
    ensures key { (masters : List (List ℕ)) (kept : Kept) (key : WrappedKey) (changes : List Change) (effects : List Effect) → applies Records (KeyAdded key) kept ≡ true → KeyOpens masters key
        → HaveEffects masters Records (changed (KeyAdded key) kept) changes effects → HaveEffects masters Records kept (KeyAdded key ∷ changes) effects }
{}

/// An order's secret is made: one secret more, under the next id and with its payload, and the order in its place. All else is as before.
pub fn a_made_secret_is_one_more()
    ensures { (s : State) (row : SecretRow) (t : ℕ) (payload : Payload) (order : OrderRow) → IsRising s → row.id ≡ id_at s.tag s.ids → IsGiven s.tag s.ids order.id
        → after_effects (effects.SecretPut row ∷ effects.PayloadPut row.id t payload ∷ effects.OrderPut order ∷ []) s ≡ made s row t payload order }
{}
