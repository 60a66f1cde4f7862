//! Laws of what is kept, as functions that do nothing.
ghost use Rattle.std.specs.Prelude.{◌≡◌};
ghost use Rattle.std.specs.List.{Contains};
ghost use Rattle.kms_kept.specs.Kept.{Kept};
ghost use Rattle.kms_kept.specs.Sound.{IsSound};
ghost use Rattle.kms_model.specs.OrderLaw.{AreOrdersApart};
ghost use Rattle.kms_world.specs.declared.container.ContainerRow.{ContainerRow};
ghost use Rattle.kms_world.specs.declared.order.OrderRow.{OrderRow};
ghost use Rattle.kms_world.specs.declared.secret.SecretRow.{SecretRow};

/// In all that is kept orders stand apart, in their ids and in what they name: so a run that begins with it keeps the law of
/// orders. And no secret and no container has an order's id: so where one is deleted all orders stay as they are.
pub fn kept_orders_stand_apart()
    ensures apart { (kept : Kept) → IsSound kept → AreOrdersApart kept.state }
    ensures secrets { (kept : Kept) → IsSound kept → (row : SecretRow) (o : OrderRow) → Contains kept.state.secrets row → Contains kept.state.orders o → row.id ≡ o.id → ⊥ }
    ensures containers { (kept : Kept) → IsSound kept → (row : ContainerRow) (o : OrderRow) → Contains kept.state.containers row → Contains kept.state.orders o → row.id ≡ o.id → ⊥ }
{}
