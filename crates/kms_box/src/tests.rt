// Bodies and what comes of them. The tables' answers are Python's: tests/body_vectors.py computes them again and says how
// they read.
use crate::table::{
    CERTIFICATE, CONSUMERS, GENERIC, KINDS, LISTS, MANY_MEMBERS, MEMBERS, RSA, SETS_OF_NAMES,
};
use crate::{NewContainer, check_consumer, check_container, check_member};
use kms_world::{
    CheckFault, ConsumerBody, ContainerBody, Id, MemberBodies, MemberBody, NoMemory, Refusal, Text,
};
use std::alloc::{AllocError, Global};
use std::test::Fail;

// The body's fields, and what is to come of it.
fn parts<'a>(alloc: Global, row: &'a str) -> Result<(Vec<&'a str>, &'a str), Fail> {
    match row.split_once("¦¦") {
        Some((body, want)) => Ok((body.split('¦').collect(alloc)?, want)),
        None => Err(Fail::from("a row without an answer")),
    }
}

// A part many times, and an end.
fn repeated(alloc: Global, count: &str, rest: &str) -> Result<Text, Fail> {
    let (part, end) = match rest.split_once('~') {
        Some((part, end)) => (part, end),
        None => (rest, ""),
    };
    let count: u32 = match count.parse() {
        Ok(count) => count,
        Err(_) => return Err(Fail::from("no count")),
    };
    let mut text = String::new(alloc);
    for _ in 0..count {
        text.push_str(part)?;
    }
    text.push_str(end)?;
    Ok(Text::of(alloc, text.as_str())?)
}

// A link to the secret of this number.
fn link(alloc: Global, number: u32) -> Result<Text, Fail> {
    let mut text = String::from_str(
        alloc,
        "http://k/v1/secrets/01234567-89ab-8cde-8000-0000000000",
    )?;
    for digit in [number / 16 % 16, number % 16] {
        text.push(char::from_digit(digit, 16).unwrap_or('?'))?;
    }
    Ok(Text::of(alloc, text.as_str())?)
}

// The text of a field, where it is there.
fn text_of(alloc: Global, field: Option<&str>) -> Result<Option<Text>, Fail> {
    let Some(field) = field else {
        return Err(Fail::from("a field is missing"));
    };
    if field == "-" {
        return Ok(None);
    }
    if let Some(text) = field.strip_prefix("=") {
        return Ok(Some(Text::of(alloc, text)?));
    }
    if let Some(number) = field.strip_prefix("@") {
        return match number.parse() {
            Ok(number) => Ok(Some(link(alloc, number)?)),
            Err(_) => Err(Fail::from("no number")),
        };
    }
    match field.split_once('*') {
        Some((count, rest)) => Ok(Some(repeated(alloc, count, rest)?)),
        None => Err(Fail::from("no field")),
    }
}

fn text_at(alloc: Global, fields: &[&str], place: usize) -> Result<Option<Text>, Fail> {
    text_of(alloc, fields.get(place).copied())
}

// The length of bytes and a sum of them.
fn put_sum(out: &mut String, bytes: &[u8]) -> Result<(), AllocError> {
    let mut sum: u32 = 0;
    for b in bytes {
        sum = sum.wrapping_mul(31).wrapping_add(u32::from(*b));
    }
    let len = bytes.len();
    write!(out, "{len}:{sum}")
}

fn put_text(out: &mut String, text: &Text) -> Result<(), AllocError> {
    let text = text.as_str();
    if text.len() > 40 {
        return put_sum(out, text.as_bytes());
    }
    write!(out, "={text}")
}

fn put_optional(out: &mut String, text: &Option<Text>) -> Result<(), AllocError> {
    match text {
        Some(text) => put_text(out, text),
        None => out.push_str("-"),
    }
}

fn put_member(out: &mut String, member: &(Option<Text>, Id)) -> Result<(), AllocError> {
    put_optional(out, &member.0)?;
    let number = member.1.0;
    write!(out, "¦{number}")
}

fn refusal(alloc: Global, fault: CheckFault) -> Result<String, Fail> {
    match fault {
        CheckFault::Refused(Refusal::BadBody(field)) => {
            let field = field.word();
            Ok(format!(in alloc; "bad {field}")?)
        }
        CheckFault::Refused(_) => Ok(String::from_str(alloc, "another refusal")?),
        CheckFault::NoMemory => Err(Fail::from(NoMemory)),
    }
}

fn shown_container(alloc: Global, container: &NewContainer) -> Result<String, AllocError> {
    let mut out = String::new(alloc);
    put_optional(&mut out, &container.name)?;
    out.push_str("¦=")?;
    out.push_str(container.kind.word())?;
    for member in container.secrets.as_slice() {
        out.push_str("¦")?;
        put_member(&mut out, member)?;
    }
    Ok(out)
}

fn answer(alloc: Global, body: &ContainerBody) -> Result<String, Fail> {
    match check_container(alloc, body) {
        Ok(container) => Ok(shown_container(alloc, &container)?),
        Err(fault) => refusal(alloc, fault),
    }
}

// The members of a body, whose names and links follow one another after the third field.
fn body_members(alloc: Global, fields: &[&str]) -> Result<Option<MemberBodies>, Fail> {
    if fields.get(2).copied() == Some("-") {
        return Ok(None);
    }
    let mut members = MemberBodies::new(alloc);
    for place in 0..fields.len() {
        if place % 2 == 1 && place > 2 {
            let name = text_at(alloc, fields, place)?;
            let secret_ref = text_at(alloc, fields, place + 1)?;
            members.push(MemberBody { name, secret_ref })?;
        }
    }
    Ok(Some(members))
}

// The first row whose answer is another, and that answer; nothing where there is none.
fn wrong_container(alloc: Global, rows: &[&str]) -> Result<String, Fail> {
    for row in rows {
        let (fields, want) = parts(alloc, row)?;
        let body = ContainerBody {
            name: text_at(alloc, &fields, 0)?,
            kind: text_at(alloc, &fields, 1)?,
            secret_refs: body_members(alloc, &fields)?,
        };
        let have = answer(alloc, &body)?;
        if have.as_str() != want {
            return Ok(format!(in alloc; "{row} has {have}")?);
        }
    }
    Ok(String::new(alloc))
}

#[test]
fn kinds(rt: HostRuntime) -> Result<(), Fail> {
    assert_eq!(rt; wrong_container(rt.alloc(), &KINDS)?.as_str(), "");
    assert_eq!(rt; wrong_container(rt.alloc(), &LISTS)?.as_str(), "");
    Ok(())
}

#[test]
fn sets_of_names(rt: HostRuntime) -> Result<(), Fail> {
    assert_eq!(rt; wrong_container(rt.alloc(), &SETS_OF_NAMES)?.as_str(), "");
    Ok(())
}

#[test]
fn one_more(rt: HostRuntime) -> Result<(), Fail> {
    assert_eq!(rt; wrong_container(rt.alloc(), &GENERIC)?.as_str(), "");
    assert_eq!(rt; wrong_container(rt.alloc(), &RSA)?.as_str(), "");
    assert_eq!(rt; wrong_container(rt.alloc(), &CERTIFICATE)?.as_str(), "");
    Ok(())
}

fn member_without_name(alloc: Global, number: u32) -> Result<MemberBody, Fail> {
    Ok(MemberBody {
        name: None,
        secret_ref: Some(link(alloc, number)?),
    })
}

#[test]
fn many_members(rt: HostRuntime) -> Result<(), Fail> {
    let alloc = rt.alloc();
    for (kind, count, more, want) in &MANY_MEMBERS {
        let mut members = MemberBodies::new(alloc);
        for number in 0..*count {
            members.push(member_without_name(alloc, number)?)?;
        }
        members.push(member_without_name(alloc, *more)?)?;
        let body = ContainerBody {
            name: None,
            kind: Some(Text::of(alloc, kind)?),
            secret_refs: Some(members),
        };
        let mut have = answer(alloc, &body)?;
        if have.len() > 40 {
            let mut sum = String::new(alloc);
            put_sum(&mut sum, have.as_bytes())?;
            have = sum;
        }
        assert_eq!(rt; have.as_str(), *want, "{kind} {count} {more}");
    }
    Ok(())
}

#[test]
fn members(rt: HostRuntime) -> Result<(), Fail> {
    let alloc = rt.alloc();
    for row in &MEMBERS {
        let (fields, want) = parts(alloc, row)?;
        let body = MemberBody {
            name: text_at(alloc, &fields, 0)?,
            secret_ref: text_at(alloc, &fields, 1)?,
        };
        let have = match check_member(&body) {
            Ok(member) => {
                let mut out = String::new(alloc);
                put_member(&mut out, &member)?;
                out
            }
            Err(fault) => refusal(alloc, fault)?,
        };
        assert_eq!(rt; have.as_str(), want, "{row}");
    }
    Ok(())
}

#[test]
fn consumers(rt: HostRuntime) -> Result<(), Fail> {
    let alloc = rt.alloc();
    for row in &CONSUMERS {
        let (fields, want) = parts(alloc, row)?;
        let body = ConsumerBody {
            name: text_at(alloc, &fields, 0)?,
            url: text_at(alloc, &fields, 1)?,
        };
        let have = match check_consumer(&body) {
            Ok((name, url)) => {
                let mut out = String::new(alloc);
                put_text(&mut out, &name)?;
                out.push_str("¦")?;
                put_text(&mut out, &url)?;
                out
            }
            Err(fault) => refusal(alloc, fault)?,
        };
        assert_eq!(rt; have.as_str(), want, "{row}");
    }
    Ok(())
}
