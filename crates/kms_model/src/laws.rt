//! Laws of the plain key manager, as functions that do nothing.
ghost use Rattle.std.specs.Prelude.{◌≡◌, ◌<◌, ◌≤◌, ◌+◌, ◌++◌, ◌∷◌, [], ℕ, ◌^◌, List, Some, None, Ok, Err, false};
ghost use Rattle.std.specs.List.{AllByRecursion};
ghost use Rattle.kms_model.specs.Ask.{answer_to, asked, state_after, stores};
ghost use Rattle.kms_model.specs.Done.{Done};
ghost use Rattle.kms_model.specs.Payloads.{with_any_payload};
ghost use Rattle.kms_model.specs.Secrets.{live_secret, new_secret, next_id, posted, secret_for, secret_target};
ghost use Rattle.kms_model.specs.Statuses.{HasStatus};
ghost use Rattle.kms_policy.specs.Policy.{decision};
ghost use Rattle.kms_secret.specs.Secret.{checked_secret};
ghost use Rattle.kms_secret.specs.declared.secret.NewSecret.{NewSecret};
ghost use Rattle.kms_world.specs.Effect.{after_effects};
ghost use Rattle.kms_world.specs.Id.{is_id};
ghost use Rattle.kms_world.specs.State.{State};
ghost use Rattle.kms_world.specs.declared.action.Action.{Action};
ghost use Rattle.kms_world.specs.declared.action.Rule.{Rule};
ghost use Rattle.kms_world.specs.declared.answer.Answer.TheVariants as answers;
ghost use Rattle.kms_world.specs.declared.body.SecretBody.{SecretBody};
ghost use Rattle.kms_world.specs.declared.caller.Caller.{Caller};
ghost use Rattle.kms_world.specs.declared.id.Id.{Id};
ghost use Rattle.kms_world.specs.declared.operation.Op.{Op};
ghost use Rattle.kms_world.specs.declared.refusal.Refusal.{Refusal};
ghost use Rattle.kms_world.specs.declared.refusal.Refusal.TheVariants.{NoObject, Denied};
ghost use Rattle.kms_world.specs.declared.secret.SecretRow.{SecretRow};

/// What is refused is answered so, changes nothing and stores nothing.
pub fn a_refusal_changes_nothing()
    ensures answer { (s : State) (caller : Caller) (op : Op) (t : ℕ) (refusal : Refusal) → asked s caller op t ≡ Err refusal → answer_to s caller op t ≡ answers.Refused refusal }
    ensures state { (s : State) (caller : Caller) (op : Op) (t : ℕ) (refusal : Refusal) → asked s caller op t ≡ Err refusal → state_after s caller op t ≡ s }
    ensures stores { (s : State) (caller : Caller) (op : Op) (t : ℕ) (refusal : Refusal) → asked s caller op t ≡ Err refusal → stores s caller op t ≡ false }
{}

/// What stores nothing changes nothing.
pub fn a_change_is_stored()
    ensures { (s : State) (caller : Caller) (op : Op) (t : ℕ) → stores s caller op t ≡ false → state_after s caller op t ≡ s }
{}

/// Ids that were given stay given, whatever is asked.
pub fn ids_stay_given()
    ensures { (s : State) (caller : Caller) (op : Op) (t : ℕ) → s.ids ≤ (state_after s caller op t).ids }
{}

/// A secret that isn't there is absent for every caller; one that is there is denied where the policy denies the action on it,
/// and only there.
pub fn absence_comes_before_denial()
    ensures absent { (s : State) (caller : Caller) (action : Action) → secret_for s caller action None ≡ Err NoObject }
    ensures denied { (s : State) (caller : Caller) (action : Action) (row : SecretRow) (rule : Rule) → decision caller action (Some (secret_target s row)) ≡ Err rule → secret_for s caller action (Some row) ≡ Err (Denied rule) }
    ensures granted { (s : State) (caller : Caller) (action : Action) (row : SecretRow) → decision caller action (Some (secret_target s row)) ≡ Ok tt → secret_for s caller action (Some row) ≡ Ok row }
{}

/// A secret is found under its id, and before it expires.
pub fn a_secret_is_found_before_it_expires()
    ensures id { (s : State) (id : Id) (t : ℕ) (row : SecretRow) → live_secret s (Some id) t ≡ Some row → row.id ≡ id }
    ensures live { (s : State) (id : Id) (t : ℕ) (row : SecretRow) (expiration : ℕ) → live_secret s (Some id) t ≡ Some row → row.expiration ≡ Some expiration → t < expiration }
{}

/// A secret that is posted has what its body asks for, with its payload, if it has one; it goes last, under an id that was left,
/// which is given with it.
pub fn a_posted_secret_takes_the_next_id()
    ensures last { (s : State) (caller : Caller) (body : SecretBody) (t : ℕ) (done : Done) → AllByRecursion (λ (other : SecretRow). is_id (next_id s) other.id ≡ false) s.secrets → posted s caller (Ok body) t ≡ Ok done
        → (new : NewSecret) × (checked_secret body t ≡ Ok new) × ((after_effects done.effects s).secrets ≡ s.secrets ++ with_any_payload t new.payload (new_secret s caller new t) ∷ []) }
    ensures ids { (s : State) (caller : Caller) (body : SecretBody) (t : ℕ) (done : Done) → posted s caller (Ok body) t ≡ Ok done → (after_effects done.effects s).ids ≡ s.ids + 1 }
    ensures left { (s : State) (caller : Caller) (body : SecretBody) (t : ℕ) (done : Done) → posted s caller (Ok body) t ≡ Ok done → s.ids < 2 ^ 62 }
{}

/// An answer that has a status of its own has one of success.
pub fn answers_have_statuses_of_success()
    ensures { (s : State) (caller : Caller) (op : Op) (t : ℕ) → HasStatus (answer_to s caller op t) }
{}
