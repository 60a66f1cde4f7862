// Refusals as bodies.
ghost use Rattle.std.specs.Prelude.{◌≡◌, IfOk, OnOk, option_map, string_bytes};
ghost use Rattle.http.specs.StatusCode.{IsStatusCode, reason_phrase};
ghost use Rattle.kms_json.specs.Refused.{status_of, name_of, description_of, title_of, error_data, allow_of};
ghost use Rattle.kms_json.specs.Tokens.{Adds, data_tokens};

use crate::writing::{put_number, put_text};
use http::StatusCode;
use json::Writer;
use kms_world::{Allow, NoMemory, Refusal};
use std::alloc::{AllocError, Global};

// The status of a refusal (RFC 9110 section 15; 431: RFC 6585 section 5).
pub(crate) const fn status(refusal: Refusal) -> u16
    ensures { result ≡ status_of refusal }
{
    match refusal {
        Refusal::BadMessage => 400,
        Refusal::HeadTooLong => 431,
        Refusal::BodyTooLong => 413,
        Refusal::LengthRequired => 411,
        Refusal::NoIdentity => 401,
        Refusal::NoRoute => 404,
        Refusal::WrongMethod(_) => 405,
        Refusal::NoObject => 404,
        Refusal::Denied(_) => 403,
        Refusal::NotAcceptable => 406,
        Refusal::WrongType => 415,
        Refusal::BadBody(_) => 400,
        Refusal::PayloadTooLong => 413,
        Refusal::NotOffered => 400,
        Refusal::Conflict => 409,
        Refusal::QuotaReached(_, _) => 403,
        Refusal::IdsSpent => 500,
    }
}

const fn name(refusal: Refusal) -> &'static str
    ensures { result.now ≡ name_of refusal }
{
    match refusal {
        Refusal::BadMessage => "BadMessage",
        Refusal::HeadTooLong => "HeadTooLong",
        Refusal::BodyTooLong => "BodyTooLong",
        Refusal::LengthRequired => "LengthRequired",
        Refusal::NoIdentity => "NoIdentity",
        Refusal::NoRoute => "NoRoute",
        Refusal::WrongMethod(_) => "WrongMethod",
        Refusal::NoObject => "NoObject",
        Refusal::Denied(_) => "Denied",
        Refusal::NotAcceptable => "NotAcceptable",
        Refusal::WrongType => "WrongType",
        Refusal::BadBody(_) => "BadBody",
        Refusal::PayloadTooLong => "PayloadTooLong",
        Refusal::NotOffered => "NotOffered",
        Refusal::Conflict => "Conflict",
        Refusal::QuotaReached(_, _) => "QuotaReached",
        Refusal::IdsSpent => "IdsSpent",
    }
}

fn description(alloc: Global, refusal: Refusal) -> Result<String, AllocError>
    ensures { IfOk result (λ text. string_bytes text ≡ description_of refusal) }
{
    match refusal {
        Refusal::Denied(rule) => {
            let action = rule.action.word();
            let why = rule.why.word();
            format!(in alloc; "Denied: {action}/{why}")
        }
        Refusal::BadBody(field) => {
            let field = field.word();
            format!(in alloc; "BadBody: {field}")
        }
        Refusal::QuotaReached(kind, limit) => {
            let kind = kind.word();
            format!(in alloc; "QuotaReached: {kind} {limit}")
        }
        _ => String::from_str(alloc, name(refusal)),
    }
}

fn reason(status: u16) -> Option<&'static str>
    requires { IsStatusCode status }
    ensures { option_map (λ text. text.now) result ≡ reason_phrase status }
{
    match StatusCode::from_u16(status) {
        Ok(code) => code.canonical_reason(),
        Err(_) => None,
    }
}

fn title(refusal: Refusal) -> &'static str
    ensures { result.now ≡ title_of refusal }
{
    reason(status(refusal)).unwrap()
}

// The object of a refusal: `{"code":404,"description":"NoObject","title":"Not Found"}`.
pub(crate) fn write_error(alloc: Global, out: &mut Writer, refusal: Refusal) -> Result<(), NoMemory>
    ensures { OnOk result (Adds out.old out.new (data_tokens (error_data refusal))) }
{
    let description = description(alloc, refusal)?;
    out.begin_object()?;
    put_number(out, "code", u64::from(status(refusal)))?;
    put_text(out, "description", description.as_str())?;
    put_text(out, "title", title(refusal))?;
    out.end_object()?;
    Ok(())
}

// The methods of the path, where the request had another (RFC 9110 section 15.5.6).
pub(crate) const fn allow(refusal: Refusal) -> Option<Allow>
    ensures { result ≡ allow_of refusal }
{
    match refusal {
        Refusal::WrongMethod(allow) => Some(allow),
        _ => None,
    }
}
