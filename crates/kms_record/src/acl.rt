// Access lists.
ghost use Rattle.std.specs.Prelude.{◌≡◌, ◌↔◌, ◌≤◌, length, not, IsTrue};
ghost use Rattle.std.specs.List.{flat_map, list_all, AllByRecursion};
ghost use Rattle.std.specs.Str.{bytes_eq};
ghost use Rattle.kms_record.specs.Fields.{list_bytes, text_bytes};
ghost use Rattle.kms_record.specs.Acl.{IsUserInRange, IsUserTyped, AreUsersInRange, AreUsersTyped};
ghost use Rattle.kms_record.specs.Reading.{Gives, many, passing, name_at};
ghost use Rattle.kms_record.specs.AclReading.{are_apart, users_at, acl_put_at};
ghost use Rattle.kms_record.specs.Window.{shown};

use crate::cursor::Cursor;
use crate::read_error::ReadError;
use crate::window::Window;
use crate::{fields, range, spell};
use kms_world::{AclRow, Name, Names, id_of};
use std::alloc::Global;

/// A secret or container gets this access list, in the place of the one that it had. Times are whole seconds since 1970, below the year 10000.
#[derive(Drop, Debug)]
pub struct AclPut {
    /// the count of its id under the store's tag, below 2^62
    pub target: u64,
    /// its project may read it
    pub project_access: bool,
    pub created: u64,
    pub updated: u64,
    /// at most 100
    pub users: Names,
}

/// Reads the fields.
#[tactic(auto, unfolding(crate::specs::AclReading::acl_put_at))]
pub fn read_acl_put(alloc: Global, cursor: &mut Cursor<'_>) -> Result<AclPut, ReadError>
    ensures { Gives (λ x. (x, cursor.new)) result (acl_put_at cursor.old) }
{
    Ok(AclPut {
        target: fields::id(cursor)?,
        project_access: fields::mark(cursor)?,
        created: fields::time(cursor)?,
        updated: fields::time(cursor)?,
        users: read_users(alloc, cursor)?,
    })
}

impl AclPut {
    ghost use Rattle.std.specs.Prelude.{◌≡◌, ◌<◌, ◌^◌, ◌↔◌, IsTrue};
    ghost use Rattle.kms_record.specs.ChangeEffect.{acl_at};
    ghost use Rattle.kms_record.specs.Window.{shown};
    ghost use Rattle.kms_record.specs.Acl.{acl_put_bytes, IsAclPutInRange, IsAclPutTyped};

    /// The row that it puts under the store's tag.
    pub fn into_row(self, tag: u64) -> AclRow
        requires tag { tag < 2 ^ 60 }
        requires range { IsAclPutInRange self }
        ensures { result ≡ acl_at tag self }
    {
        AclRow {
            target: id_of(tag, self.target),
            project_access: self.project_access,
            users: self.users,
            created: self.created,
            updated: self.updated,
        }
    }

    /// Its numbers and lengths are in their ranges.
    pub fn is_in_range(&self) -> bool
        ensures { IsTrue result ↔ IsAclPutInRange self.now }
    {
        range::is_id(self.target)
            && range::is_time(self.created)
            && range::is_time(self.updated)
            && are_users_in_range(self.users.as_slice())
    }

    /// Writes the fields.
    #[tactic(auto, using(crate::proofs::WindowLaws::shown_twice), unfolding(crate::specs::Acl::acl_put_bytes))]
    pub(crate) fn write(&self, out: &mut Window)
        requires { IsAclPutInRange self.now }
        ensures spelled { out.new ≡ shown out.old (acl_put_bytes self.now) }
        ensures typed { IsAclPutTyped self.now }
    {
        spell::number(out, self.target);
        spell::mark(out, self.project_access);
        spell::number(out, self.created);
        spell::number(out, self.updated);
        write_users(out, &self.users);
    }
}

fn is_other(user: &Name, name: &Name) -> bool
    ensures { result ≡ not (bytes_eq user.now name.now) }
{
    user.as_bytes() != name.as_bytes()
}

// None of the names is this one.
fn are_others(users: &[Name], name: &Name) -> bool
    ensures { result ≡ list_all (λ u. not (bytes_eq u name.now)) users.now }
{
    users.iter().all(|user| is_other(user, name))
}

fn read_apart(alloc: Global, cursor: &mut Cursor<'_>, count: u8) -> Result<Names, ReadError>
    ensures { Gives (λ x. (x, cursor.new)) result (passing are_apart (many name_at count) cursor.old) }
{
    let mut users = Names::new(alloc);
    for _ in 0..count {
        let user = fields::name(cursor)?;
        if !are_others(users.as_slice(), &user) {
            return Err(ReadError::Malformed);
        }
        users.push(user)?;
    }
    Ok(users)
}

#[tactic(auto, unfolding(crate::specs::Reading::list_at))]
fn read_users(alloc: Global, cursor: &mut Cursor<'_>) -> Result<Names, ReadError>
    ensures { Gives (λ x. (x, cursor.new)) result (users_at cursor.old) }
{
    let count = fields::list_count(cursor)?;
    read_apart(alloc, cursor, count)
}

fn is_each_user_in_range(users: &[Name]) -> bool
    ensures { IsTrue result ↔ AllByRecursion IsUserInRange users.now }
{
    for user in users {
        if !range::is_short_name(user) {
            return false;
        }
    }
    true
}

/// There are at most 100 names.
pub(crate) fn are_users_in_range(users: &[Name]) -> bool
    ensures { IsTrue result ↔ AreUsersInRange users.now }
{
    users.len() <= 100 && is_each_user_in_range(users)
}

fn write_each_user(out: &mut Window, users: &[Name])
    requires { AllByRecursion IsUserInRange users.now }
    ensures spelled { out.new ≡ shown out.old (flat_map text_bytes users.now) }
    ensures typed { AllByRecursion IsUserTyped users.now }
{
    for user in users {
        spell::name(out, user);
    }
}

/// Writes the number of names, and the names.
#[tactic(auto, using(crate::proofs::WindowLaws::shown_twice))]
pub(crate) fn write_users(out: &mut Window, users: &Names)
    requires { AreUsersInRange users.now }
    ensures spelled { out.new ≡ shown out.old (list_bytes text_bytes users.now) }
    ensures typed { AreUsersTyped users.now }
{
    let users = users.as_slice();
    spell::byte(out, users.len() as u8);
    write_each_user(out, users);
}
