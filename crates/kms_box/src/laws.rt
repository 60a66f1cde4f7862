//! Laws of what checks keep, as functions that do nothing.
ghost use Rattle.std.specs.Prelude.{◌≡◌, ℕ, List, Option, Ok};
ghost use Rattle.kms_world.specs.declared.body.ConsumerBody.{ConsumerBody};
ghost use Rattle.kms_world.specs.declared.body.ContainerBody.{ContainerBody};
ghost use Rattle.kms_world.specs.declared.body.MemberBody.{MemberBody};
ghost use Rattle.kms_world.specs.declared.id.Id.{Id};
ghost use Rattle.kms_box.specs.Consumer.{checked_consumer};
ghost use Rattle.kms_box.specs.Container.{checked_container};
ghost use Rattle.kms_box.specs.Member.{checked_member};
ghost use Rattle.kms_box.specs.Ranges.{IsContainerInRange, IsMemberInRange, IsConsumerInRange};
ghost use Rattle.kms_box.specs.declared.container.NewContainer.{NewContainer};

/// What a check keeps of a body is in the ranges of what is stored: names and URLs have at most 255 bytes, those of
/// consumers at least one; a container has at most 100 members, no secret twice, and the names that its type asks for.
pub fn what_is_kept_is_in_range()
    ensures container { (body : ContainerBody) (new : NewContainer) → checked_container body ≡ Ok new → IsContainerInRange new }
    ensures member { (body : MemberBody) (member : Option (List ℕ) × Id) → checked_member body ≡ Ok member → IsMemberInRange member }
    ensures consumer { (body : ConsumerBody) (consumer : List ℕ × List ℕ) → checked_consumer body ≡ Ok consumer → IsConsumerInRange consumer }
{}
