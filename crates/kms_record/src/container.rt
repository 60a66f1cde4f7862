// Containers.
ghost use Rattle.std.specs.Prelude.{◌≡◌, ◌↔◌, ◌≤◌, ◌++◌, [], ◌∷◌, length, IsTrue, OnOk, OnErr};
ghost use Rattle.std.specs.List.{flat_map, AllByRecursion};
ghost use Rattle.kms_record.specs.Fields.{list_bytes};
ghost use Rattle.kms_record.specs.Container.{member_bytes, IsMemberInRange, IsMemberTyped, AreMembersInRange, AreMembersTyped};
ghost use Rattle.kms_record.specs.Reading.{Gives, many};
ghost use Rattle.kms_record.specs.ContainerReading.{member_at, members_at, container_put_at};
ghost use Rattle.kms_record.specs.Window.{shown};

use crate::cursor::Cursor;
use crate::read_error::ReadError;
use crate::window::Window;
use crate::{Member, MemberList, fields, range, spell};
use kms_world::{ContainerKind, ContainerRow, Name, NoMemory, Text, id_of};
use std::alloc::Global;

/// A container comes, or takes the place of the one with this id. Times are whole seconds since 1970, below the year 10000.
#[derive(Drop, Debug)]
pub struct ContainerPut {
    /// the count of its id under the store's tag, below 2^62
    pub id: u64,
    pub project: Name,
    /// the user who made it
    pub creator: Name,
    pub created: u64,
    pub updated: u64,
    /// at most 255 bytes
    pub name: Option<Text>,
    pub kind: ContainerKind,
    /// at most 100
    pub members: MemberList,
}

/// Reads the fields.
#[tactic(auto, unfolding(crate::specs::ContainerReading::container_put_at))]
pub fn read_container_put(alloc: Global, cursor: &mut Cursor<'_>) -> Result<ContainerPut, ReadError>
    ensures { Gives (λ x. (x, cursor.new)) result (container_put_at cursor.old) }
{
    Ok(ContainerPut {
        id: fields::id(cursor)?,
        project: fields::name(cursor)?,
        creator: fields::name(cursor)?,
        created: fields::time(cursor)?,
        updated: fields::time(cursor)?,
        name: fields::optional_text(alloc, cursor)?,
        kind: fields::container_kind(cursor)?,
        members: read_members(alloc, cursor)?,
    })
}

impl ContainerPut {
    ghost use Rattle.std.specs.Prelude.{◌≡◌, ◌<◌, ◌^◌, ◌↔◌, IsTrue, IfOk};
    ghost use Rattle.kms_record.specs.ChangeEffect.{container_at};
    ghost use Rattle.kms_record.specs.Window.{shown};
    ghost use Rattle.kms_record.specs.Container.{container_put_bytes, IsContainerPutInRange, IsContainerPutTyped};

    /// The row that it puts under the store's tag.
    pub fn into_row(self, alloc: Global, tag: u64) -> Result<ContainerRow, NoMemory>
        requires tag { tag < 2 ^ 60 }
        requires range { IsContainerPutInRange self }
        ensures { IfOk result (λ row. row ≡ container_at tag self) }
    {
        Ok(ContainerRow {
            id: id_of(tag, self.id),
            project: self.project,
            creator: self.creator,
            created: self.created,
            updated: self.updated,
            name: self.name,
            kind: self.kind,
            secrets: self.members.into_secrets(alloc, tag)?,
        })
    }

    /// Its numbers and lengths are in their ranges.
    pub fn is_in_range(&self) -> bool
        ensures { IsTrue result ↔ IsContainerPutInRange self.now }
    {
        range::is_id(self.id)
            && range::is_short_name(&self.project)
            && range::is_short_name(&self.creator)
            && range::is_time(self.created)
            && range::is_time(self.updated)
            && range::is_short(&self.name)
            && are_members_in_range(self.members.as_slice())
    }

    /// Writes the fields.
    #[tactic(auto, using(crate::proofs::WindowLaws::shown_twice), unfolding(crate::specs::Container::container_put_bytes))]
    pub(crate) fn write(&self, out: &mut Window)
        requires { IsContainerPutInRange self.now }
        ensures spelled { out.new ≡ shown out.old (container_put_bytes self.now) }
        ensures typed { IsContainerPutTyped self.now }
    {
        spell::number(out, self.id);
        spell::name(out, &self.project);
        spell::name(out, &self.creator);
        spell::number(out, self.created);
        spell::number(out, self.updated);
        spell::optional_text(out, &self.name);
        spell::container_kind(out, self.kind);
        write_members(out, self.members.as_slice());
    }
}

#[tactic(auto, unfolding(crate::specs::ContainerReading::member_at))]
fn read_member(alloc: Global, cursor: &mut Cursor<'_>) -> Result<Member, ReadError>
    ensures { Gives (λ x. (x, cursor.new)) result (member_at cursor.old) }
{
    Ok(Member {
        name: fields::optional_text(alloc, cursor)?,
        secret: fields::id(cursor)?,
    })
}

fn read_each_member(
    alloc: Global,
    cursor: &mut Cursor<'_>,
    count: u8,
) -> Result<MemberList, ReadError>
    ensures { Gives (λ x. (x, cursor.new)) result (many member_at count cursor.old) }
{
    let mut members = MemberList::new(alloc);
    for _ in 0..count {
        members.push(read_member(alloc, cursor)?)?;
    }
    Ok(members)
}

#[tactic(auto, unfolding(crate::specs::Reading::list_at))]
fn read_members(alloc: Global, cursor: &mut Cursor<'_>) -> Result<MemberList, ReadError>
    ensures { Gives (λ x. (x, cursor.new)) result (members_at cursor.old) }
{
    let count = fields::list_count(cursor)?;
    read_each_member(alloc, cursor, count)
}

fn is_member_in_range(member: &Member) -> bool
    ensures { IsTrue result ↔ IsMemberInRange member.now }
{
    range::is_short(&member.name) && range::is_id(member.secret)
}

fn is_each_member_in_range(members: &[Member]) -> bool
    ensures { IsTrue result ↔ AllByRecursion IsMemberInRange members.now }
{
    for member in members {
        if !is_member_in_range(member) {
            return false;
        }
    }
    true
}

/// There are at most 100 members, and their names and ids are in their ranges.
pub(crate) fn are_members_in_range(members: &[Member]) -> bool
    ensures { IsTrue result ↔ AreMembersInRange members.now }
{
    members.len() <= 100 && is_each_member_in_range(members)
}

#[tactic(auto, using(crate::proofs::WindowLaws::shown_twice), unfolding(crate::specs::Container::member_bytes))]
fn write_member(out: &mut Window, member: &Member)
    requires { IsMemberInRange member.now }
    ensures spelled { out.new ≡ shown out.old (member_bytes member.now) }
    ensures typed { IsMemberTyped member.now }
{
    spell::optional_text(out, &member.name);
    spell::number(out, member.secret);
}

fn write_each_member(out: &mut Window, members: &[Member])
    requires { AllByRecursion IsMemberInRange members.now }
    ensures spelled { out.new ≡ shown out.old (flat_map member_bytes members.now) }
    ensures typed { AreMembersTyped members.now }
{
    for member in members {
        write_member(out, member);
    }
}

#[tactic(auto, using(crate::proofs::WindowLaws::shown_twice))]
fn write_members(out: &mut Window, members: &[Member])
    requires { AreMembersInRange members.now }
    ensures spelled { out.new ≡ shown out.old (list_bytes member_bytes members.now) }
    ensures typed { AreMembersTyped members.now }
{
    spell::byte(out, members.len() as u8);
    write_each_member(out, members);
}
