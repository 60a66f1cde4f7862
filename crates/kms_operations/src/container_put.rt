// Changes that put containers.
ghost use Rattle.std.specs.Prelude.{◌≡◌, ◌<◌, true, IfOk, map};
ghost use Rattle.std.specs.List.{list_all};
ghost use Rattle.kms_box.specs.Ranges.{IsContainerInRange};
ghost use Rattle.kms_kept.specs.Sound.{IsSound};
ghost use Rattle.kms_model.specs.Containers.{is_usable, new_container};
ghost use Rattle.kms_model.specs.Secrets.{has_id};
ghost use Rattle.kms_operations.specs.Outcome.{Fits};
ghost use Rattle.kms_record.specs.Base.{member_of};
ghost use Rattle.kms_record.specs.ChangeEffect.{container_at};
ghost use Rattle.kms_record.specs.declared.change.Change.TheVariants as changes;

use crate::count::count_of;
use crate::names::names_fit;
use kms_box::NewContainer;
use kms_record::{ContainerPut, Member, MemberList};
use kms_store::Tables;
use kms_world::{Caller, Id, NoMemory, Text, copied};
use std::alloc::Global;

// A member as it is recorded.
pub fn recorded(member: &(Option<Text>, Id)) -> Result<Member, NoMemory>
    ensures { IfOk result (λ m. m ≡ member_of member.now) }
{
    Ok(Member {
        name: copied(&member.0)?,
        secret: count_of(member.1),
    })
}

// Members as they are recorded.
pub fn all_recorded(alloc: Global, members: &[(Option<Text>, Id)]) -> Result<MemberList, NoMemory>
    ensures { IfOk result (λ list. list ≡ map member_of members.now) }
{
    let mut list = MemberList::new(alloc);
    for member in members {
        list.push(recorded(member)?)?;
    }
    Ok(list)
}

// What is kept is sound.
pub fn see(rows: &Tables)
    ensures { IsSound rows.now.kept }
{
    let _none = rows.secret(Id(0));
}

// The change that puts a new container of the caller. The secrets that it names are there, and an id is left.
pub fn new_of(
    alloc: Global,
    rows: &Tables,
    caller: &Caller,
    new: NewContainer,
    moment: u64,
) -> Result<ContainerPut, NoMemory>
    requires time { moment < 253402300800 }
    requires left { has_id rows.now.kept.state ≡ true }
    requires range { IsContainerInRange new }
    requires usable { list_all (is_usable rows.now.kept.state caller.now moment) new.secrets ≡ true }
    ensures row { IfOk result (λ put. container_at rows.now.kept.state.tag put ≡ new_container rows.now.kept.state caller.now new moment) }
    ensures fits { IfOk result (λ put. Fits rows.now.kept (changes.ContainerPut put)) }
{
    names_fit(caller);
    see(rows);
    let members = all_recorded(alloc, new.secrets.as_slice())?;
    Ok(ContainerPut {
        id: rows.ids(),
        project: caller.project,
        creator: caller.user,
        created: moment,
        updated: moment,
        name: new.name,
        kind: new.kind,
        members,
    })
}
