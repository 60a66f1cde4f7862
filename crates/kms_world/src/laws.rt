//! Laws of what effects do, as functions that do nothing.
ghost use Rattle.std.specs.Prelude.{◌≡◌, ◌≤◌, ◌+◌, not, true, All};
ghost use Rattle.kms_world.specs.Effect.{Effect, Deleted, after_effect};
ghost use Rattle.kms_world.specs.Id.{is_id};
ghost use Rattle.kms_world.specs.State.{State};
ghost use Rattle.kms_world.specs.declared.id.Id.{Id};

/// What hangs on a row goes with it: after an id was deleted no secret, container or order has it, and no consumer and no
/// access list is of it.
pub fn what_hangs_on_a_row_goes_with_it()
    ensures secrets { (id : Id) (s : State) → All (λ r. not (is_id id r.id) ≡ true) (after_effect (Deleted id) s).secrets }
    ensures containers { (id : Id) (s : State) → All (λ r. not (is_id id r.id) ≡ true) (after_effect (Deleted id) s).containers }
    ensures orders { (id : Id) (s : State) → All (λ r. not (is_id id r.id) ≡ true) (after_effect (Deleted id) s).orders }
    ensures consumers { (id : Id) (s : State) → All (λ r. not (is_id id r.container) ≡ true) (after_effect (Deleted id) s).consumers }
    ensures acls { (id : Id) (s : State) → All (λ r. not (is_id id r.target) ≡ true) (after_effect (Deleted id) s).acls }
{}

/// The count of ids that were given never falls, and an effect gives at most one. The tag stays.
pub fn ids_never_fall()
    ensures kept { (effect : Effect) (s : State) → s.ids ≤ (after_effect effect s).ids }
    ensures one { (effect : Effect) (s : State) → (after_effect effect s).ids ≤ s.ids + 1 }
    ensures tag { (effect : Effect) (s : State) → (after_effect effect s).tag ≡ s.tag }
{}
