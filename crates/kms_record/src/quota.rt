// Quotas of projects.
ghost use Rattle.std.specs.Prelude.{◌≡◌, ◌↔◌, IsTrue, IfSome, option_map};
ghost use Rattle.kms_record.specs.ChangeEffect.{limit_value};
ghost use Rattle.kms_record.specs.Fields.{option_bytes};
ghost use Rattle.kms_record.specs.Quota.{limit_bytes, limits_bytes, IsLimitInRange, AreLimitsInRange};
ghost use Rattle.kms_record.specs.Reading.{Finds, option_at};
ghost use Rattle.kms_record.specs.QuotaReading.{limit_number_at, limit_at, quota_limits_at, quota_put_at};
ghost use Rattle.kms_record.specs.Window.{shown};

use crate::cursor::Cursor;
use crate::read_error::Malformed;
use crate::window::Window;
use crate::{fields, range, spell};
use kms_world::{Name, QuotaRow};

/// A limit of a quota.
#[derive(Clone, Copy, Debug)]
pub enum QuotaLimit {
    Unlimited,
    /// at most so many rows, up to 1,000,000,000
    AtMost(u32),
}

/// The quotas of a project, as far as they are set.
#[derive(Clone, Copy, Debug)]
pub struct QuotaLimits {
    pub secrets: Option<QuotaLimit>,
    pub orders: Option<QuotaLimit>,
    pub containers: Option<QuotaLimit>,
    pub consumers: Option<QuotaLimit>,
}

fn limit_value(limit: QuotaLimit) -> i64
    ensures { result ≡ limit_value limit }
{
    match limit {
        QuotaLimit::Unlimited => -1,
        QuotaLimit::AtMost(count) => i64::from(count),
    }
}

fn optional_limit_value(limit: Option<QuotaLimit>) -> Option<i64>
    ensures { result ≡ option_map limit_value limit }
{
    match limit {
        None => None,
        Some(limit) => Some(limit_value(limit)),
    }
}

impl QuotaLimits {
    ghost use Rattle.std.specs.Prelude.{◌≡◌};
    ghost use Rattle.kms_record.specs.ChangeEffect.{quota_at};

    /// The row of these limits of a project.
    pub fn into_row(self, project: Name) -> QuotaRow
        ensures { result ≡ quota_at project self }
    {
        QuotaRow {
            project,
            secrets: optional_limit_value(self.secrets),
            orders: optional_limit_value(self.orders),
            containers: optional_limit_value(self.containers),
            consumers: optional_limit_value(self.consumers),
        }
    }
}

/// A project gets these quotas, in the place of those that it had; without limits its row goes.
#[derive(Drop, Debug)]
pub struct QuotaPut {
    pub project: Name,
    pub limits: Option<QuotaLimits>,
}

/// Reads the fields.
#[tactic(auto, unfolding(crate::specs::QuotaReading::quota_put_at))]
pub fn read_quota_put(cursor: &mut Cursor<'_>) -> Result<QuotaPut, Malformed>
    ensures { Finds (λ x. (x, cursor.new)) result (quota_put_at cursor.old) }
{
    Ok(QuotaPut {
        project: fields::name(cursor)?,
        limits: read_optional_limits(cursor)?,
    })
}

impl QuotaPut {
    ghost use Rattle.std.specs.Prelude.{◌≡◌, ◌↔◌, IsTrue};
    ghost use Rattle.kms_record.specs.Window.{shown};
    ghost use Rattle.kms_record.specs.Quota.{quota_put_bytes, IsQuotaPutInRange, IsQuotaPutTyped};

    /// Its numbers and lengths are in their ranges.
    pub fn is_in_range(&self) -> bool
        ensures { IsTrue result ↔ IsQuotaPutInRange self.now }
    {
        range::is_short_name(&self.project) && are_optional_limits_in_range(self.limits)
    }

    /// Writes the fields.
    #[tactic(auto, using(crate::proofs::WindowLaws::shown_twice), unfolding(crate::specs::Quota::quota_put_bytes))]
    pub(crate) fn write(&self, out: &mut Window)
        requires { IsQuotaPutInRange self.now }
        ensures spelled { out.new ≡ shown out.old (quota_put_bytes self.now) }
        ensures typed { IsQuotaPutTyped self.now }
    {
        spell::name(out, &self.project);
        write_optional_limits(out, self.limits);
    }
}

fn read_number(cursor: &mut Cursor<'_>) -> Result<u32, Malformed>
    ensures { Finds (λ x. (x, cursor.new)) result (limit_number_at cursor.old) }
{
    let number = cursor.four_bytes()?;
    if number <= 1_000_000_000 {
        Ok(number)
    } else {
        Err(Malformed)
    }
}

#[tactic(auto, unfolding(crate::specs::Reading::alternatives_at))]
fn read_limit(cursor: &mut Cursor<'_>) -> Result<Option<QuotaLimit>, Malformed>
    ensures { Finds (λ x. (x, cursor.new)) result (limit_at cursor.old) }
{
    match cursor.byte()? {
        0 => Ok(None),
        1 => Ok(Some(QuotaLimit::Unlimited)),
        2 => Ok(Some(QuotaLimit::AtMost(read_number(cursor)?))),
        _ => Err(Malformed),
    }
}

#[tactic(auto, unfolding(crate::specs::QuotaReading::quota_limits_at))]
fn read_limits(cursor: &mut Cursor<'_>) -> Result<QuotaLimits, Malformed>
    ensures { Finds (λ x. (x, cursor.new)) result (quota_limits_at cursor.old) }
{
    Ok(QuotaLimits {
        secrets: read_limit(cursor)?,
        orders: read_limit(cursor)?,
        containers: read_limit(cursor)?,
        consumers: read_limit(cursor)?,
    })
}

#[tactic(auto, unfolding(crate::specs::Reading::option_at))]
fn read_optional_limits(cursor: &mut Cursor<'_>) -> Result<Option<QuotaLimits>, Malformed>
    ensures { Finds (λ x. (x, cursor.new)) result (option_at quota_limits_at cursor.old) }
{
    if !fields::mark(cursor)? {
        return Ok(None);
    }
    Ok(Some(read_limits(cursor)?))
}

fn is_limit_in_range(limit: Option<QuotaLimit>) -> bool
    ensures { IsTrue result ↔ IsLimitInRange limit }
{
    match limit {
        Some(QuotaLimit::AtMost(count)) => count <= 1_000_000_000,
        Some(QuotaLimit::Unlimited) | None => true,
    }
}

fn are_optional_limits_in_range(limits: Option<QuotaLimits>) -> bool
    ensures { IsTrue result ↔ IfSome limits AreLimitsInRange }
{
    match limits {
        None => true,
        Some(limits) => {
            is_limit_in_range(limits.secrets)
                && is_limit_in_range(limits.orders)
                && is_limit_in_range(limits.containers)
                && is_limit_in_range(limits.consumers)
        }
    }
}

#[tactic(auto, using(crate::proofs::WindowLaws::shown_twice), unfolding(crate::specs::Fields::u8_bytes))]
fn write_limit(out: &mut Window, limit: Option<QuotaLimit>)
    ensures { out.new ≡ shown out.old (limit_bytes limit) }
{
    match limit {
        None => spell::byte(out, 0),
        Some(QuotaLimit::Unlimited) => spell::byte(out, 1),
        Some(QuotaLimit::AtMost(count)) => {
            spell::byte(out, 2);
            spell::long_number(out, count);
        }
    }
}

/// Writes the four limits.
#[tactic(auto, using(crate::proofs::WindowLaws::shown_twice), unfolding(crate::specs::Quota::limits_bytes))]
pub(crate) fn write_limits(out: &mut Window, limits: QuotaLimits)
    ensures { out.new ≡ shown out.old (limits_bytes limits) }
{
    write_limit(out, limits.secrets);
    write_limit(out, limits.orders);
    write_limit(out, limits.containers);
    write_limit(out, limits.consumers);
}

/// Writes whether there are limits, and the limits.
#[tactic(auto, using(crate::proofs::WindowLaws::shown_twice), unfolding(crate::specs::Fields::u8_bytes))]
pub(crate) fn write_optional_limits(out: &mut Window, limits: Option<QuotaLimits>)
    ensures { out.new ≡ shown out.old (option_bytes limits_bytes limits) }
{
    match limits {
        None => spell::byte(out, 0),
        Some(limits) => {
            spell::byte(out, 1);
            write_limits(out, limits);
        }
    }
}
