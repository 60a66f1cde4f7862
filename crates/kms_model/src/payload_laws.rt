//! Laws of payloads, as functions that do nothing.
ghost use Rattle.std.specs.Prelude.{◌≡◌, ◌++◌, ◌∷◌, [], ℕ, List, Option, Some, None, Ok, Err, false};
ghost use Rattle.std.specs.List.{AllByRecursion};
ghost use Rattle.kms_model.specs.Done.{Done};
ghost use Rattle.kms_model.specs.Payloads.{payload_put, payload_read, payload_shown, IsPayloadRead};
ghost use Rattle.kms_model.specs.Secrets.{live_secret, posted_effects, secret_target};
ghost use Rattle.kms_policy.specs.Laws.{audit_alone};
ghost use Rattle.kms_policy.specs.Policy.{is_listed};
ghost use Rattle.kms_world.specs.Effect.{after_effects, with_payload};
ghost use Rattle.kms_world.specs.Id.{is_id};
ghost use Rattle.kms_world.specs.State.{State};
ghost use Rattle.kms_world.specs.declared.caller.Caller.{Caller};
ghost use Rattle.kms_world.specs.declared.id.Id.{Id};
ghost use Rattle.kms_world.specs.declared.operation.PutShape.{PutShape};
ghost use Rattle.kms_world.specs.declared.payload.Payload.{Payload};
ghost use Rattle.kms_world.specs.declared.refusal.Refusal.TheVariants as refusals;
ghost use Rattle.kms_world.specs.declared.secret.SecretRow.{SecretRow};

/// A secret that is posted under an id that no secret has goes last, with its payload, if it has one.
pub fn a_posted_payload_is_the_secrets()
    ensures with { (s : State) (row : SecretRow) (t : ℕ) (payload : Payload) → AllByRecursion (λ (other : SecretRow). is_id row.id other.id ≡ false) s.secrets
        → (after_effects (posted_effects row t (Some payload)) s).secrets ≡ s.secrets ++ with_payload t payload row ∷ [] }
    ensures without { (s : State) (row : SecretRow) (t : ℕ) → (after_effects (posted_effects row t None) s).secrets ≡ s.secrets ++ row ∷ [] }
{}

/// What is read of a secret is its payload, where it has one whose media type is accepted; where it has none it is as if it
/// weren't there, whatever is accepted.
pub fn a_payload_is_read_as_it_was_put()
    ensures payload { (accept : Option (List ℕ)) (row : SecretRow) (done : Done) → payload_read accept row ≡ Ok done → IsPayloadRead accept row done }
    ensures none { (accept : Option (List ℕ)) (row : SecretRow) → row.payload ≡ None → payload_read accept row ≡ Err refusals.NoObject }
{}

/// A payload is put once: that of a secret which has one is refused.
pub fn a_payload_is_put_once()
    ensures { (s : State) (caller : Caller) (id : Option Id) (put : PutShape) (body : List ℕ) (t : ℕ) (row : SecretRow) (payload : Payload) (done : Done) → live_secret s id t ≡ Some row → row.payload ≡ Some payload
        → payload_put s caller id put body t ≡ Ok done → ⊥ }
{}

/// A caller with the role audit alone who isn't on the secret's access list reads no payload.
pub fn audit_alone_reads_no_payload()
    ensures { (s : State) (caller : Caller) (id : Option Id) (accept : Option (List ℕ)) (t : ℕ) (row : SecretRow) (done : Done) → live_secret s id t ≡ Some row → caller.roles ≡ audit_alone
        → is_listed (Some (secret_target s row)) caller.user ≡ false → payload_shown s caller id accept t ≡ Ok done → ⊥ }
{}
