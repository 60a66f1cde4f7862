// Edits of tables.
ghost use Rattle.std.specs.Prelude.{◌≡◌, ◌<◌, ◌≤◌, ◌+◌, ◌∷◌, map, vec_len, vec_capacity};
ghost use Rattle.std.specs.List.{position};
ghost use Rattle.std.specs.Str.{bytes_eq};
ghost use Rattle.kms_world.specs.Effect.{change_rows, drop_rows, is_consumer, put_row, with_payload, with_metadata};
ghost use Rattle.kms_world.specs.Id.{is_id};
ghost use Rattle.kms_kept.specs.Kept.{token_replaced};
ghost use Rattle.kms_kept.specs.Snapshot.{sealed};
ghost use Rattle.kms_store.specs.Table.{Rises};

use crate::KeptSecret;
use crate::applies::is_consumer;
use crate::table::Table;
use kms_world::{Bytes, ConsumerRow, Id, Pairs, Payload, Text};

/// The secret with this id gets a payload.
pub(crate) fn set_payload(
    secrets: &mut Table<KeptSecret>,
    id: Id,
    updated: u64,
    number: u32,
    payload: Payload,
)
    requires { Rises (map (λ r. r.id) secrets.old.items) }
    ensures items { secrets.new.items ≡ change_rows (λ r. is_id id r.id) (with_payload updated (sealed number payload)) secrets.old.items }
    ensures spare { secrets.new.spare ≡ secrets.old.spare }
{
    if let Some(at) = secrets.find_at(id) {
        let secret = &mut secrets.rows[at];
        secret.set_payload(updated, number, payload);
    }
}

/// The secret with this id gets metadata.
pub(crate) fn set_metadata(secrets: &mut Table<KeptSecret>, id: Id, updated: u64, pairs: Pairs)
    requires { Rises (map (λ r. r.id) secrets.old.items) }
    ensures items { secrets.new.items ≡ change_rows (λ r. is_id id r.id) (with_metadata updated pairs) secrets.old.items }
    ensures spare { secrets.new.spare ≡ secrets.old.spare }
{
    if let Some(at) = secrets.find_at(id) {
        let secret = &mut secrets.rows[at];
        secret.set_metadata(updated, pairs);
    }
}

/// The token of the secret with this id gets another in its place.
pub(crate) fn replace_token(secrets: &mut Table<KeptSecret>, id: Id, number: u32, token: Bytes)
    requires { Rises (map (λ r. r.id) secrets.old.items) }
    ensures items { secrets.new.items ≡ change_rows (λ r. is_id id r.id) (token_replaced (number ∷ token)) secrets.old.items }
    ensures spare { secrets.new.spare ≡ secrets.old.spare }
{
    if let Some(at) = secrets.find_at(id) {
        let secret = &mut secrets.rows[at];
        secret.replace_token(number, token);
    }
}

/// Drops the consumers of a container.
pub(crate) fn drop_consumers(rows: &mut Vec<ConsumerRow>, container: Id)
    ensures items { rows.new.items ≡ drop_rows (λ r. is_id container r.container) rows.old.items }
    ensures len { vec_len rows.new ≤ vec_len rows.old }
    ensures capacity { vec_capacity rows.old ≤ vec_capacity rows.new }
{
    rows.retain(|row| row.container.0 != container.0);
}

/// Drops a consumer of a container.
pub(crate) fn drop_consumer(rows: &mut Vec<ConsumerRow>, container: Id, name: &Text, url: &Text)
    ensures items { rows.new.items ≡ drop_rows (is_consumer container name.now url.now) rows.old.items }
    ensures len { vec_len rows.new ≤ vec_len rows.old }
    ensures capacity { vec_capacity rows.old ≤ vec_capacity rows.new }
{
    rows.retain(|row| !is_consumer(row, container, name, url));
}
