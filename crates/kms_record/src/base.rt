// The rows of a snapshot to bytes, a piece at a time and without memory.
ghost use Rattle.std.specs.Prelude.{◌≡◌, ◌≤◌, ◌<◌, ◌^◌, ◌+◌, ◌-◌, length, map, take, drop, min, Option, Some, option_map, IfSome};
ghost use Rattle.std.specs.List.{flat_map, AllByRecursion};
ghost use Rattle.kms_record.specs.Acl.{acl_put_bytes, IsAclPutInRange, IsAclPutTyped};
ghost use Rattle.kms_record.specs.Base.{count_of, put_state, limit_of, member_of, payload_put_of, metadata_put_of, container_put_of, consumer_added_of, acl_put_of, order_put_of, quota_limits_of, quota_put_of, base_bytes, IsBaseInRange};
ghost use Rattle.kms_record.specs.Consumer.{consumer_added_bytes, IsConsumerAddedInRange, IsConsumerAddedTyped};
ghost use Rattle.kms_record.specs.Container.{member_bytes, container_put_bytes, IsContainerPutInRange, IsContainerPutTyped, IsMemberInRange, IsMemberTyped, AreMembersInRange, AreMembersTyped};
ghost use Rattle.kms_record.specs.Fields.{list_bytes};
ghost use Rattle.kms_record.specs.Metadata.{metadata_put_bytes, IsMetadataPutInRange, IsMetadataPutTyped};
ghost use Rattle.kms_record.specs.Order.{order_put_bytes, IsOrderPutInRange, IsOrderPutTyped};
ghost use Rattle.kms_record.specs.Payload.{payload_put_bytes, IsPayloadPutInRange, IsPayloadPutTyped};
ghost use Rattle.kms_record.specs.Quota.{quota_put_bytes, IsLimitInRange, IsQuotaPutInRange, IsQuotaPutTyped};
ghost use Rattle.kms_record.specs.SecretPut.{secret_put_bytes, put_of, IsInRange, IsTextual};
ghost use Rattle.kms_record.specs.Window.{shown};

use crate::acl::write_users;
use crate::metadata::write_pairs;
use crate::order::write_state;
use crate::quota::write_limits;
use crate::window::Window;
use crate::{OrderPutState, QuotaLimit, QuotaLimits, WrappedKey, spell};
use kms_world::{
    AclRow, ConsumerRow, ContainerRow, Id, OrderRow, OrderState, Payload, QuotaRow, SecretRow, Text,
};

/// A change of a snapshot, by the row that it puts. A payload's bytes are its token, and its secret's row has one.
#[derive(Clone, Copy)]
pub enum BaseChange<'a> {
    Key(&'a WrappedKey),
    Secret(&'a SecretRow),
    /// the secret's payload, and the number of the key that its token is under
    Payload(&'a SecretRow, u32),
    Metadata(&'a SecretRow),
    Container(&'a ContainerRow),
    Consumer(&'a ConsumerRow),
    Acl(&'a AclRow),
    Order(&'a OrderRow),
    Quota(&'a QuotaRow),
}

/// The count of an id, in its last 62 bits.
pub(crate) fn count_of(id: Id) -> u64
    ensures { result ≡ count_of id }
{
    (id.0 % 0x4000_0000_0000_0000) as u64
}

#[tactic(auto, using(crate::proofs::WindowLaws::shown_twice), unfolding(crate::specs::SecretPut::secret_put_bytes))]
fn write_secret(out: &mut Window, row: &SecretRow)
    requires { IsInRange (put_of (count_of row.now.id) row.now) }
    ensures spelled { out.new ≡ shown out.old (secret_put_bytes (put_of (count_of row.now.id) row.now)) }
    ensures typed { IsTextual (put_of (count_of row.now.id) row.now) }
{
    spell::number(out, count_of(row.id));
    spell::name(out, &row.project);
    spell::name(out, &row.creator);
    spell::number(out, row.created);
    spell::number(out, row.updated);
    spell::optional_text(out, &row.name);
    spell::optional_text(out, &row.algorithm);
    spell::optional_bit_length(out, row.bit_length);
    spell::optional_text(out, &row.mode);
    spell::secret_kind(out, row.kind);
    spell::optional_time(out, row.expiration);
}

#[tactic(auto, using(crate::proofs::WindowLaws::shown_twice), unfolding(crate::specs::Payload::payload_put_bytes))]
fn write_payload(out: &mut Window, row: &SecretRow, number: u32, payload: &Payload)
    requires { IsPayloadPutInRange (payload_put_of row.now number payload.now) }
    ensures spelled { out.new ≡ shown out.old (payload_put_bytes (payload_put_of row.now number payload.now)) }
    ensures typed { IsPayloadPutTyped (payload_put_of row.now number payload.now) }
{
    spell::number(out, count_of(row.id));
    spell::number(out, row.updated);
    spell::media(out, payload.media);
    spell::long_number(out, number);
    spell::token(out, &payload.bytes);
}

#[tactic(auto, using(crate::proofs::WindowLaws::shown_twice), unfolding(crate::specs::Metadata::metadata_put_bytes))]
fn write_metadata(out: &mut Window, row: &SecretRow)
    requires { IsMetadataPutInRange (metadata_put_of row.now) }
    ensures spelled { out.new ≡ shown out.old (metadata_put_bytes (metadata_put_of row.now)) }
    ensures typed { IsMetadataPutTyped (metadata_put_of row.now) }
{
    spell::number(out, count_of(row.id));
    spell::number(out, row.updated);
    write_pairs(out, &row.metadata);
}

#[tactic(auto, using(crate::proofs::WindowLaws::shown_twice), unfolding(crate::specs::Consumer::consumer_added_bytes))]
fn write_consumer(out: &mut Window, row: &ConsumerRow)
    requires { IsConsumerAddedInRange (consumer_added_of row.now) }
    ensures spelled { out.new ≡ shown out.old (consumer_added_bytes (consumer_added_of row.now)) }
    ensures typed { IsConsumerAddedTyped (consumer_added_of row.now) }
{
    spell::number(out, count_of(row.container));
    spell::text(out, &row.name);
    spell::text(out, &row.url);
    spell::number(out, row.created);
}

#[tactic(auto, using(crate::proofs::WindowLaws::shown_twice), unfolding(crate::specs::Acl::acl_put_bytes))]
fn write_acl(out: &mut Window, row: &AclRow)
    requires { IsAclPutInRange (acl_put_of row.now) }
    ensures spelled { out.new ≡ shown out.old (acl_put_bytes (acl_put_of row.now)) }
    ensures typed { IsAclPutTyped (acl_put_of row.now) }
{
    spell::number(out, count_of(row.target));
    spell::mark(out, row.project_access);
    spell::number(out, row.created);
    spell::number(out, row.updated);
    write_users(out, &row.users);
}

fn put_state(state: OrderState) -> OrderPutState
    ensures { result ≡ put_state state }
{
    match state {
        OrderState::Pending => OrderPutState::Pending,
        OrderState::Active(secret) => OrderPutState::Active(count_of(secret)),
        OrderState::Error(cause) => OrderPutState::Error(cause),
    }
}

#[tactic(auto, using(crate::proofs::WindowLaws::shown_twice), unfolding(crate::specs::Order::order_put_bytes))]
fn write_order(out: &mut Window, row: &OrderRow)
    requires { IsOrderPutInRange (order_put_of row.now) }
    ensures spelled { out.new ≡ shown out.old (order_put_bytes (order_put_of row.now)) }
    ensures typed { IsOrderPutTyped (order_put_of row.now) }
{
    spell::number(out, count_of(row.id));
    spell::name(out, &row.project);
    spell::name(out, &row.creator);
    spell::number(out, row.created);
    spell::number(out, row.updated);
    spell::text(out, &row.algorithm);
    spell::short_number(out, row.bit_length);
    spell::optional_text(out, &row.mode);
    spell::optional_text(out, &row.name);
    spell::optional_time(out, row.expiration);
    write_state(out, put_state(row.state));
}

#[tactic(auto, using(crate::proofs::WindowLaws::shown_twice), unfolding(crate::specs::Container::member_bytes))]
fn write_member(out: &mut Window, member: &(Option<Text>, Id))
    requires { IsMemberInRange (member_of member.now) }
    ensures spelled { out.new ≡ shown out.old (member_bytes (member_of member.now)) }
    ensures typed { IsMemberTyped (member_of member.now) }
{
    spell::optional_text(out, &member.0);
    spell::number(out, count_of(member.1));
}

fn write_each_member(out: &mut Window, members: &[(Option<Text>, Id)])
    requires { AllByRecursion IsMemberInRange (map member_of members.now) }
    ensures spelled { out.new ≡ shown out.old (flat_map member_bytes (map member_of members.now)) }
    ensures typed { AreMembersTyped (map member_of members.now) }
{
    for member in members {
        write_member(out, member);
    }
}

#[tactic(auto, using(crate::proofs::WindowLaws::shown_twice), unfolding(crate::specs::Container::container_put_bytes))]
fn write_container(out: &mut Window, row: &ContainerRow)
    requires { IsContainerPutInRange (container_put_of row.now) }
    ensures spelled { out.new ≡ shown out.old (container_put_bytes (container_put_of row.now)) }
    ensures typed { IsContainerPutTyped (container_put_of row.now) }
{
    spell::number(out, count_of(row.id));
    spell::name(out, &row.project);
    spell::name(out, &row.creator);
    spell::number(out, row.created);
    spell::number(out, row.updated);
    spell::optional_text(out, &row.name);
    spell::container_kind(out, row.kind);
    write_members(out, row.secrets.as_slice());
}

#[tactic(auto, using(crate::proofs::WindowLaws::shown_twice, crate::proofs::MemberLaws::length_members))]
fn write_members(out: &mut Window, members: &[(Option<Text>, Id)])
    requires { AreMembersInRange (map member_of members.now) }
    ensures spelled { out.new ≡ shown out.old (list_bytes member_bytes (map member_of members.now)) }
    ensures typed { AreMembersTyped (map member_of members.now) }
{
    spell::byte(out, members.len() as u8);
    write_each_member(out, members);
}

fn limit_of(value: i64) -> QuotaLimit
    requires { IsLimitInRange (Some (limit_of value)) }
    ensures { result ≡ limit_of value }
{
    if value < 0 {
        QuotaLimit::Unlimited
    } else {
        QuotaLimit::AtMost(value as u32)
    }
}

fn optional_limit_of(value: Option<i64>) -> Option<QuotaLimit>
    requires { IsLimitInRange (option_map limit_of value) }
    ensures { result ≡ option_map limit_of value }
{
    match value {
        None => None,
        Some(value) => Some(limit_of(value)),
    }
}

#[tactic(auto, using(crate::proofs::WindowLaws::shown_twice), unfolding(crate::specs::Quota::quota_put_bytes, crate::specs::Fields::u8_bytes))]
fn write_quota(out: &mut Window, row: &QuotaRow)
    requires { IsQuotaPutInRange (quota_put_of row.now) }
    ensures spelled { out.new ≡ shown out.old (quota_put_bytes (quota_put_of row.now)) }
    ensures typed { IsQuotaPutTyped (quota_put_of row.now) }
{
    spell::name(out, &row.project);
    spell::byte(out, 1);
    write_limits(
        out,
        QuotaLimits {
            secrets: optional_limit_of(row.secrets),
            orders: optional_limit_of(row.orders),
            containers: optional_limit_of(row.containers),
            consumers: optional_limit_of(row.consumers),
        },
    );
}

impl<'a> BaseChange<'a> {
    ghost use Rattle.std.specs.Prelude.{◌≡◌};
    ghost use Rattle.kms_record.specs.Base.{base_bytes, IsBase, IsBaseInRange};
    ghost use Rattle.kms_record.specs.Window.{shown};

    /// Writes the byte of its kind, and its fields.
    #[tactic(auto, using(crate::proofs::WindowLaws::shown_twice), unfolding(crate::specs::Fields::u8_bytes))]
    pub(crate) fn write(&self, out: &mut Window)
        requires { IsBaseInRange self.now }
        ensures spelled { out.new ≡ shown out.old (base_bytes self.now) }
        ensures admitted { IsBase self.now }
    {
        match self {
            BaseChange::Key(key) => {
                spell::byte(out, 1);
                key.write(out);
            }
            BaseChange::Secret(row) => {
                spell::byte(out, 5);
                write_secret(out, row);
            }
            BaseChange::Payload(row, number) => {
                if let Some(payload) = &row.payload {
                    spell::byte(out, 6);
                    write_payload(out, row, *number, payload);
                }
            }
            BaseChange::Metadata(row) => {
                spell::byte(out, 7);
                write_metadata(out, row);
            }
            BaseChange::Container(row) => {
                spell::byte(out, 8);
                write_container(out, row);
            }
            BaseChange::Consumer(row) => {
                spell::byte(out, 9);
                write_consumer(out, row);
            }
            BaseChange::Acl(row) => {
                spell::byte(out, 11);
                write_acl(out, row);
            }
            BaseChange::Order(row) => {
                spell::byte(out, 13);
                write_order(out, row);
            }
            BaseChange::Quota(row) => {
                spell::byte(out, 14);
                write_quota(out, row);
            }
        }
    }
}
