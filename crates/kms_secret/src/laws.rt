//! Laws of what checks keep, as functions that do nothing.
ghost use Rattle.std.specs.Prelude.{◌≡◌, ℕ, List, Some, Ok};
ghost use Rattle.kms_world.specs.declared.body.MetadataBody.{MetadataBody};
ghost use Rattle.kms_world.specs.declared.body.OrderBody.{OrderBody};
ghost use Rattle.kms_world.specs.declared.body.PairBody.{PairBody};
ghost use Rattle.kms_world.specs.declared.body.SecretBody.{SecretBody};
ghost use Rattle.kms_world.specs.declared.operation.PutShape.{PutShape};
ghost use Rattle.kms_world.specs.declared.payload.Payload.{Payload};
ghost use Rattle.kms_secret.specs.Key.{key_of};
ghost use Rattle.kms_secret.specs.Laws.{TextsAreEncodings};
ghost use Rattle.kms_secret.specs.Metadata.{checked_metadata, checked_pair};
ghost use Rattle.kms_secret.specs.Order.{checked_order};
ghost use Rattle.kms_secret.specs.Payload.{checked_payload};
ghost use Rattle.kms_secret.specs.Ranges.{IsSecretInRange, IsPayloadInRange, ArePairsInRange, IsPairInRange, IsOrderInRange};
ghost use Rattle.kms_secret.specs.Secret.{checked_secret};
ghost use Rattle.kms_secret.specs.declared.order.NewOrder.{NewOrder};
ghost use Rattle.kms_secret.specs.declared.secret.NewSecret.{NewSecret};

/// A text is read as base64 of some bytes exactly where it is their encoding by the standard alphabet, with padding (RFC 4648
/// section 4); so no two texts are read as the same bytes.
pub fn texts_are_encodings()
    ensures { TextsAreEncodings }
{}

/// What a check keeps of a body is in the ranges of what is stored and shown: names, algorithms, modes, keys and values have
/// at most 255 bytes, ordered algorithms and keys at least one, payloads 1 to 20,000; bit lengths are 1 to 32,767;
/// expirations are later than the moment and before the year 10000; there are at most 100 pairs, and their keys ascend.
pub fn what_is_kept_is_in_range()
    ensures secret { (body : SecretBody) (moment : ℕ) (new : NewSecret) → checked_secret body moment ≡ Ok new → IsSecretInRange moment new }
    ensures payload { (shape : PutShape) (body : List ℕ) (payload : Payload) → checked_payload shape body ≡ Ok payload → IsPayloadInRange payload }
    ensures metadata { (body : MetadataBody) (pairs : List (List ℕ × List ℕ)) → checked_metadata body ≡ Ok pairs → ArePairsInRange pairs }
    ensures pair { (body : PairBody) (pair : List ℕ × List ℕ) → checked_pair body ≡ Ok pair → IsPairInRange pair }
    ensures order { (body : OrderBody) (moment : ℕ) (new : NewOrder) → checked_order body moment ≡ Ok new → IsOrderInRange moment new }
{}

/// A key is kept in lower case, and read as itself: so a path that names it finds it.
pub fn keys_are_read_as_themselves()
    ensures { (text key : List ℕ) → key_of text ≡ Some key → key_of key ≡ Some key }
{}
