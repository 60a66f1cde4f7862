//! Laws of what changes do to what is kept, as functions that do nothing.
ghost use Rattle.std.specs.Prelude.{◌≡◌, ◌+◌, ◌^◌, ◌<◌, ◌≤◌, ℕ, List, [], ◌++◌, length, true, Some, None, option_map, option_and_then};
ghost use Rattle.std.specs.List.{AllByRecursion, flat_map, sum_by};
ghost use Rattle.kms_world.specs.LookUp.{order_of};
ghost use Rattle.kms_world.specs.declared.id.Id.{Id};
ghost use Rattle.kms_world.specs.declared.order.OrderRow.{OrderRow};
ghost use Rattle.kms_world.specs.declared.order.OrderState.TheVariants as order_states;
ghost use Rattle.kms_world.specs.declared.secret.SecretRow.{SecretRow};
ghost use Rattle.kms_record.specs.declared.change.Change.{Change};
ghost use Rattle.kms_record.specs.declared.change.Change.TheVariants as changes;
ghost use Rattle.kms_record.specs.declared.key.WrappedKey.{WrappedKey};
ghost use Rattle.kms_record.specs.Base.{count_of, bytes_of, payload_put_of};
ghost use Rattle.kms_record.specs.Fields.{u64_bytes};
ghost use Rattle.kms_record.specs.Grammar.{IsChange, IsStep, IsSnapshot, change_bytes, snapshot_bytes};
ghost use Rattle.kms_record.specs.SecretPut.{put_of};
ghost use Rattle.kms_kept.specs.Kept.{Kept, Part, Records, Base, applies, changed, after_change, after_changes, after_record, kept_first};
ghost use Rattle.kms_kept.specs.Deletion.{Deletes};
ghost use Rattle.kms_kept.specs.KeyNumbers.{KeysAscend, KeysStandApart};
ghost use Rattle.kms_kept.specs.Rising.{IsRising};
ghost use Rattle.kms_kept.specs.Orders.{AllNameApart};
ghost use Rattle.kms_kept.specs.Joined.{IsJoined};
ghost use Rattle.kms_kept.specs.Named.{AreNamesGiven};
ghost use Rattle.kms_kept.specs.Snapshot.{metadata_changes, secret_changes, snapshot_of, spelled_rows, sealed_row};
ghost use Rattle.kms_kept.specs.Sound.{IsSound};

/// The steps of two records apply one after the other.
pub fn records_apply_in_order()
    ensures { (a b : List (List Change)) (kept : Kept) → after_record (a ++ b) kept ≡ option_and_then (after_record b) (after_record a kept) }
{}

/// In each table ids rise and were given, whatever change applies, in records and in a snapshot; a snapshot gives no ids;
/// no more are given than a count has room for; and no two orders name one id.
pub fn ids_rise()
    ensures rise { (part : Part) (change : Change) (kept : Kept) → IsRising kept.state → applies part change kept ≡ true → IsRising (changed change kept).state }
    ensures base { (change : Change) (kept : Kept) → IsRising kept.state → applies Base change kept ≡ true → (changed change kept).state.ids ≡ kept.state.ids }
    ensures within { (part : Part) (change : Change) (kept : Kept) → IsRising kept.state → kept.state.ids ≤ 2 ^ 62 → applies part change kept ≡ true → (changed change kept).state.ids ≤ 2 ^ 62 }
    ensures apart { (part : Part) (change : Change) (kept : Kept) → IsRising kept.state → AllNameApart kept.state.orders → applies part change kept ≡ true → AllNameApart (changed change kept).state.orders }
{}

/// Keys stand by project and number, and each number is at least 1, whatever change applies.
pub fn keys_ascend()
    ensures { (part : Part) (change : Change) (kept : Kept) → KeysAscend kept.keys → applies part change kept ≡ true → KeysAscend (changed change kept).keys }
{}

/// So no two keys of one project have the same number: a number is never given twice while its key is there.
pub fn keys_stand_apart()
    ensures { (keys : List WrappedKey) → KeysAscend keys → KeysStandApart keys }
{}

/// An order that is no longer pending stays as it is, whatever change applies, but for the one that deletes it. And an
/// order goes by that one alone, pending or not.
pub fn settled_orders_stay()
    ensures stay { (part : Part) (kept : Kept) → IsRising kept.state → (id : Id) (a : OrderRow) → order_of id kept.state.orders ≡ Some a → (a.state ≡ order_states.Pending → ⊥)
        → (change : Change) → applies part change kept ≡ true → (Deletes kept.state.tag id change → ⊥) → order_of id (changed change kept).state.orders ≡ Some a }
    ensures go { (kept : Kept) (id : Id) (a : OrderRow) → order_of id kept.state.orders ≡ Some a → (change : Change) → order_of id (changed change kept).state.orders ≡ None → Deletes kept.state.tag id change }
{}

/// Consumers and access lists hang on rows that are there, whatever change applies.
pub fn what_hangs_on_a_row_goes_with_it()
    ensures { (part : Part) (change : Change) (kept : Kept) → IsJoined kept.state → applies part change kept ≡ true → IsJoined (changed change kept).state }
{}

/// The ids that active orders name were given, whatever change applies.
pub fn named_ids_were_given()
    ensures { (part : Part) (change : Change) (kept : Kept) → IsRising kept.state → AreNamesGiven kept.state → applies part change kept ≡ true → AreNamesGiven (changed change kept).state }
{}

/// What is kept is sound: where nothing is kept yet, and after each change of the grammar that applies, in records and in
/// a snapshot; so after the changes of a snapshot or a step, and after a record.
pub fn what_is_kept_is_sound()
    ensures first { (tag ids : ℕ) → ids ≤ 2 ^ 62 → IsSound (kept_first tag ids) }
    ensures change { (part : Part) (change : Change) (kept : Kept) → IsSound kept → IsChange change → applies part change kept ≡ true → IsSound (changed change kept) }
    ensures changes { (part : Part) (changes : List Change) (kept after : Kept) → IsSound kept → AllByRecursion IsChange changes → after_changes part changes kept ≡ Some after → IsSound after }
    ensures records { (steps : List (List Change)) (kept after : Kept) → IsSound kept → AllByRecursion IsStep steps → after_record steps kept ≡ Some after → IsSound after }
{}

/// The snapshot of what is kept leads to it, from nothing kept and the ids that were given.
pub fn a_snapshot_leads_to_what_is_kept()
    ensures { (kept : Kept) → IsSound kept → after_changes Base (snapshot_of kept) (kept_first kept.state.tag kept.state.ids) ≡ Some kept }
{}

/// Its changes are of the grammar, and so are its bytes.
pub fn a_snapshot_is_of_the_grammar()
    ensures changes { (kept : Kept) → IsSound kept → AllByRecursion IsChange (snapshot_of kept) }
    ensures bytes { (kept : Kept) → IsSound kept → length (snapshot_of kept) < 2 ^ 64 → IsSnapshot (snapshot_bytes (snapshot_of kept)) (snapshot_of kept) }
{}

/// A snapshot is spelled row by row, and has one change for each row, and one more for each payload and for the metadata of
/// each secret that has some. A secret whose payload is a token alone is spelled by its attributes, that token and its metadata.
pub fn a_snapshot_is_spelled_by_its_rows()
    ensures rows { (kept : Kept) → snapshot_bytes (snapshot_of kept) ≡ u64_bytes (length (snapshot_of kept)) ++ spelled_rows kept }
    ensures secret { (row : SecretRow) (number : ℕ) → flat_map change_bytes (secret_changes (sealed_row number row))
        ≡ change_bytes (changes.SecretPut (put_of (count_of row.id) row)) ++ bytes_of (option_map (λ payload. changes.PayloadPut (payload_put_of row number payload)) row.payload) ++ flat_map change_bytes (metadata_changes row row.metadata) }
    ensures count { (kept : Kept) → length (snapshot_of kept)
        ≡ length kept.keys + sum_by (λ row. length (secret_changes row)) kept.state.secrets + length kept.state.containers + length kept.state.consumers + length kept.state.acls + length kept.state.orders + length kept.state.quotas }
{}
