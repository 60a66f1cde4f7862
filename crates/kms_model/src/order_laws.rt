//! Laws of orders, as functions that do nothing.
ghost use Rattle.std.specs.Prelude.{◌≡◌, ◌<◌, ◌+◌, ◌++◌, ◌∷◌, ◌^◌, [], ℕ, List, Option, Ok, false};
ghost use Rattle.std.specs.List.{AllByRecursion, Contains};
ghost use Rattle.kms_model.specs.Containers.{container_deleted};
ghost use Rattle.kms_model.specs.Course.{AllFit, Event, Mark, course_from, course_of, states_of};
ghost use Rattle.kms_model.specs.Deletion.{NoneDeletes};
ghost use Rattle.kms_model.specs.Done.{Done};
ghost use Rattle.kms_model.specs.OrderLaw.{AreOrdersApart, LaterOrders, NextOrders, Orderly, SameOrder};
ghost use Rattle.kms_model.specs.Orders.{new_order, order_posted};
ghost use Rattle.kms_model.specs.Pool.{IsPoolSound};
ghost use Rattle.kms_model.specs.Secrets.{deleted, next_id};
ghost use Rattle.kms_secret.specs.Order.{checked_order};
ghost use Rattle.kms_secret.specs.declared.order.NewOrder.{NewOrder};
ghost use Rattle.kms_world.specs.Effect.{after_effects};
ghost use Rattle.kms_world.specs.Id.{is_id};
ghost use Rattle.kms_world.specs.State.{State};
ghost use Rattle.kms_world.specs.declared.body.OrderBody.{OrderBody};
ghost use Rattle.kms_world.specs.declared.caller.Caller.{Caller};
ghost use Rattle.kms_world.specs.declared.container.ContainerRow.{ContainerRow};
ghost use Rattle.kms_world.specs.declared.id.Id.{Id};
ghost use Rattle.kms_world.specs.declared.order.OrderRow.{OrderRow};
ghost use Rattle.kms_world.specs.declared.order.OrderState.TheVariants.{Pending, Active};
ghost use Rattle.kms_world.specs.declared.secret.SecretRow.{SecretRow};

/// Over the states of a run that begins with orders which stand apart, whatever is asked and whichever workers have their turns:
/// an order that is done or has failed stays so, one that gets done has its one secret, which is made in the same step, under the
/// next id and with a key of its size, and no two orders, of one state or of two, name the same secret.
pub fn orders_keep_their_law()
    ensures { (s : State) (workers old_keys : ℕ) (es : List Event) (ms : List Mark) → AreOrdersApart s → AllFit (course_from s workers old_keys) es ms
        → Orderly s (states_of (course_from s workers old_keys) es ms) }
{}

/// What that law refuses: an order that is done and gets another secret, or is pending again; two orders that name one secret; and
/// an order that is done without a secret more, or with two.
pub fn wrong_traces_of_orders_are_refused()
    ensures other_secret { (s later : State) (o p : OrderRow) (id other : Id) → SameOrder s later o p → o.state ≡ Active id → p.state ≡ Active other → (other ≡ id → ⊥) → LaterOrders s later → ⊥ }
    ensures pending_again { (s later : State) (o p : OrderRow) (id : Id) → SameOrder s later o p → o.state ≡ Active id → p.state ≡ Pending → LaterOrders s later → ⊥ }
    ensures shared_secret { (s later : State) (o p : OrderRow) (id : Id) → Contains s.orders o → Contains later.orders p → o.state ≡ Active id → p.state ≡ Active id → (p.id ≡ o.id → ⊥) → LaterOrders s later → ⊥ }
    ensures no_secret { (s next : State) (o p : OrderRow) (id : Id) → SameOrder s next o p → o.state ≡ Pending → p.state ≡ Active id → next.secrets ≡ s.secrets → NextOrders s next → ⊥ }
    ensures two_secrets { (s next : State) (o p : OrderRow) (id : Id) (a b : SecretRow) → SameOrder s next o p → o.state ≡ Pending → p.state ≡ Active id → next.secrets ≡ s.secrets ++ a ∷ b ∷ [] → NextOrders s next → ⊥ }
{}

/// Wherever such a run has come, orders stand apart, each worker holds a pending order or one that was deleted, no two hold the
/// same, and a key that was drawn has the size of its order's.
pub fn workers_hold_pending_orders()
    ensures orders { (s : State) (workers old_keys : ℕ) (es : List Event) (ms : List Mark) → AreOrdersApart s → AllFit (course_from s workers old_keys) es ms
        → AreOrdersApart (course_of (course_from s workers old_keys) es ms).state }
    ensures pool { (s : State) (workers old_keys : ℕ) (es : List Event) (ms : List Mark) → AreOrdersApart s → AllFit (course_from s workers old_keys) es ms
        → IsPoolSound (course_of (course_from s workers old_keys) es ms).state (course_of (course_from s workers old_keys) es ms).pool }
{}

/// An order of such a run is there until a request asks for the deletion of what has its id: no worker removes one.
pub fn orders_stay_until_they_are_deleted()
    ensures { (s : State) (workers old_keys : ℕ) (es : List Event) (ms : List Mark) (o : OrderRow) → AreOrdersApart s → AllFit (course_from s workers old_keys) es ms → Contains s.orders o → NoneDeletes o.id es
        → (p : OrderRow) × SameOrder s (course_of (course_from s workers old_keys) es ms).state o p }
{}

/// Where a secret or a container is deleted, and no order has its id, all orders are as they were; also the one whose secret it
/// was, which goes on naming it.
pub fn a_deleted_secret_leaves_its_order()
    ensures secret { (s : State) (caller : Caller) (id : Option Id) (done : Done) → ((row : SecretRow) (o : OrderRow) → Contains s.secrets row → Contains s.orders o → row.id ≡ o.id → ⊥)
        → deleted s caller id ≡ Ok done → (after_effects done.effects s).orders ≡ s.orders }
    ensures container { (s : State) (caller : Caller) (id : Option Id) (done : Done) → ((row : ContainerRow) (o : OrderRow) → Contains s.containers row → Contains s.orders o → row.id ≡ o.id → ⊥)
        → container_deleted s caller id ≡ Ok done → (after_effects done.effects s).orders ≡ s.orders }
{}

/// An order that is posted has what its body asks for; it goes last, pending, under an id that was left, which is given with it.
/// Nothing else changes.
pub fn a_posted_order_is_pending()
    ensures last { (s : State) (caller : Caller) (body : OrderBody) (t : ℕ) (done : Done) → AllByRecursion (λ (other : OrderRow). is_id (next_id s) other.id ≡ false) s.orders → order_posted s caller (Ok body) t ≡ Ok done
        → (new : NewOrder) × (checked_order body t ≡ Ok new) × (after_effects done.effects s ≡ record s { ids = s.ids + 1; orders = s.orders ++ new_order s caller new t ∷ [] }) }
    ensures pending { (s : State) (caller : Caller) (new : NewOrder) (t : ℕ) → (new_order s caller new t).state ≡ Pending }
    ensures left { (s : State) (caller : Caller) (body : OrderBody) (t : ℕ) (done : Done) → order_posted s caller (Ok body) t ≡ Ok done → s.ids < 2 ^ 62 }
{}
