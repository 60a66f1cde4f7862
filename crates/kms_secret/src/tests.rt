// Bodies and what comes of them. The tables' answers are Python's: tests/body_vectors.py computes them again and says how
// they read.
use crate::table::metadata::{METADATA, PAIRS};
use crate::table::orders::ORDERS;
use crate::table::payloads::{LONG_PAYLOADS, PAYLOADS};
use crate::table::secrets::{ATTRIBUTES, ENCODED, EXPIRATIONS, MEDIA_TYPES, TEXTS, TWO_RULES};
use crate::{
    NewOrder, NewSecret, check_metadata, check_order, check_pair, check_payload, check_secret,
};
use kms_world::{
    CheckFault, MetaBody, MetadataBody, NoMemory, OrderBody, PairBody, Pairs, Payload, PutShape,
    Refusal, SecretBody, Text, TextPairs,
};
use std::alloc::{AllocError, Global};
use std::test::Fail;

// The body's fields, and what is to come of it.
fn parts<'a>(alloc: Global, row: &'a str) -> Result<(Vec<&'a str>, &'a str), Fail> {
    match row.split_once("¦¦") {
        Some((body, want)) => Ok((body.split('¦').collect(alloc)?, want)),
        None => Err(Fail::from("a row without an answer")),
    }
}

// A part many times, and an end.
fn repeated(alloc: Global, count: &str, rest: &str) -> Result<Text, Fail> {
    let (part, end) = match rest.split_once('~') {
        Some((part, end)) => (part, end),
        None => (rest, ""),
    };
    let count: u32 = match count.parse() {
        Ok(count) => count,
        Err(_) => return Err(Fail::from("no count")),
    };
    let mut text = String::new(alloc);
    for _ in 0..count {
        text.push_str(part)?;
    }
    text.push_str(end)?;
    Ok(Text::of(alloc, text.as_str())?)
}

// The text of a field, where it is there.
fn text_of(alloc: Global, field: Option<&str>) -> Result<Option<Text>, Fail> {
    let Some(field) = field else {
        return Err(Fail::from("a field is missing"));
    };
    if field == "-" {
        return Ok(None);
    }
    if let Some(text) = field.strip_prefix("=") {
        return Ok(Some(Text::of(alloc, text)?));
    }
    match field.split_once('*') {
        Some((count, rest)) => Ok(Some(repeated(alloc, count, rest)?)),
        None => Err(Fail::from("no field")),
    }
}

fn number_of(field: Option<&str>) -> Result<Option<i128>, Fail> {
    match field {
        Some("-") => Ok(None),
        Some(field) => match field.parse() {
            Ok(number) => Ok(Some(number)),
            Err(_) => Err(Fail::from("no number")),
        },
        None => Err(Fail::from("a number is missing")),
    }
}

fn moment_of(field: Option<&str>) -> Result<u64, Fail> {
    match field {
        Some(field) => match field.parse() {
            Ok(moment) => Ok(moment),
            Err(_) => Err(Fail::from("no moment")),
        },
        None => Err(Fail::from("a moment is missing")),
    }
}

fn text_at(alloc: Global, fields: &[&str], place: usize) -> Result<Option<Text>, Fail> {
    text_of(alloc, fields.get(place).copied())
}

// The length of bytes and a sum of them.
fn put_sum(out: &mut String, bytes: &[u8]) -> Result<(), AllocError> {
    let mut sum: u32 = 0;
    for b in bytes {
        sum = sum.wrapping_mul(31).wrapping_add(u32::from(*b));
    }
    let len = bytes.len();
    write!(out, "{len}:{sum}")
}

fn put_text(out: &mut String, text: &Text) -> Result<(), AllocError> {
    let text = text.as_str();
    if text.len() > 40 {
        return put_sum(out, text.as_bytes());
    }
    write!(out, "={text}")
}

fn put_optional(out: &mut String, text: &Option<Text>) -> Result<(), AllocError> {
    match text {
        Some(text) => put_text(out, text)?,
        None => out.push_str("-")?,
    }
    out.push_str("¦")
}

fn put_number(out: &mut String, number: Option<u64>) -> Result<(), AllocError> {
    match number {
        Some(number) => write!(out, "{number}"),
        None => out.push_str("-"),
    }
}

fn put_payload(out: &mut String, payload: &Payload) -> Result<(), AllocError> {
    out.push_str(payload.media.word())?;
    out.push_str(" ")?;
    put_sum(out, payload.bytes.as_slice())
}

fn refusal(alloc: Global, fault: CheckFault) -> Result<String, Fail> {
    match fault {
        CheckFault::Refused(Refusal::BadBody(field)) => {
            let field = field.word();
            Ok(format!(in alloc; "bad {field}")?)
        }
        CheckFault::Refused(Refusal::WrongType) => Ok(String::from_str(alloc, "415")?),
        CheckFault::Refused(Refusal::PayloadTooLong) => Ok(String::from_str(alloc, "413")?),
        CheckFault::Refused(Refusal::NotOffered) => Ok(String::from_str(alloc, "400")?),
        CheckFault::Refused(_) => Ok(String::from_str(alloc, "another refusal")?),
        CheckFault::NoMemory => Err(Fail::from(NoMemory)),
    }
}

fn shown_secret(alloc: Global, secret: &NewSecret) -> Result<String, AllocError> {
    let mut out = String::new(alloc);
    put_optional(&mut out, &secret.name)?;
    put_optional(&mut out, &secret.algorithm)?;
    put_number(&mut out, secret.bit_length.map(u64::from))?;
    out.push_str("¦")?;
    put_optional(&mut out, &secret.mode)?;
    out.push_str("=")?;
    out.push_str(secret.kind.word())?;
    out.push_str("¦")?;
    put_number(&mut out, secret.expiration)?;
    out.push_str("¦")?;
    match &secret.payload {
        Some(payload) => {
            out.push_str("=")?;
            put_payload(&mut out, payload)?;
        }
        None => out.push_str("-")?,
    }
    Ok(out)
}

fn secret_answer(alloc: Global, fields: &[&str]) -> Result<String, Fail> {
    let body = SecretBody {
        name: text_at(alloc, fields, 0)?,
        algorithm: text_at(alloc, fields, 1)?,
        bit_length: number_of(fields.get(2).copied())?,
        mode: text_at(alloc, fields, 3)?,
        secret_type: text_at(alloc, fields, 4)?,
        expiration: text_at(alloc, fields, 5)?,
        payload: text_at(alloc, fields, 6)?,
        payload_content_type: text_at(alloc, fields, 7)?,
        payload_content_encoding: text_at(alloc, fields, 8)?,
    };
    match check_secret(alloc, &body, moment_of(fields.get(9).copied())?) {
        Ok(secret) => Ok(shown_secret(alloc, &secret)?),
        Err(fault) => refusal(alloc, fault),
    }
}

// The first row whose answer is another, and that answer; nothing where there is none.
fn wrong_secret(alloc: Global, rows: &[&str]) -> Result<String, Fail> {
    for row in rows {
        let (fields, want) = parts(alloc, row)?;
        let have = secret_answer(alloc, &fields)?;
        if have.as_str() != want {
            return Ok(format!(in alloc; "{row} has {have}")?);
        }
    }
    Ok(String::new(alloc))
}

#[test]
fn attributes(rt: HostRuntime) -> Result<(), Fail> {
    assert_eq!(rt; wrong_secret(rt.alloc(), &ATTRIBUTES)?.as_str(), "");
    Ok(())
}

#[test]
fn expirations(rt: HostRuntime) -> Result<(), Fail> {
    assert_eq!(rt; wrong_secret(rt.alloc(), &EXPIRATIONS)?.as_str(), "");
    Ok(())
}

#[test]
fn media_types(rt: HostRuntime) -> Result<(), Fail> {
    assert_eq!(rt; wrong_secret(rt.alloc(), &MEDIA_TYPES)?.as_str(), "");
    Ok(())
}

#[test]
fn texts(rt: HostRuntime) -> Result<(), Fail> {
    assert_eq!(rt; wrong_secret(rt.alloc(), &TEXTS)?.as_str(), "");
    Ok(())
}

#[test]
fn encoded(rt: HostRuntime) -> Result<(), Fail> {
    assert_eq!(rt; wrong_secret(rt.alloc(), &ENCODED)?.as_str(), "");
    Ok(())
}

#[test]
fn two_rules(rt: HostRuntime) -> Result<(), Fail> {
    assert_eq!(rt; wrong_secret(rt.alloc(), &TWO_RULES)?.as_str(), "");
    Ok(())
}

fn payload_answer(alloc: Global, fields: &[&str], body: &[u8]) -> Result<String, Fail> {
    let shape = PutShape {
        content_type: text_at(alloc, fields, 0)?,
        content_encoding: text_at(alloc, fields, 1)?,
    };
    match check_payload(alloc, &shape, body) {
        Ok(payload) => {
            let mut out = String::from_str(alloc, "=")?;
            put_payload(&mut out, &payload)?;
            Ok(out)
        }
        Err(fault) => refusal(alloc, fault),
    }
}

#[test]
fn payloads(rt: HostRuntime) -> Result<(), Fail> {
    let alloc = rt.alloc();
    for (row, body) in &PAYLOADS {
        let (fields, want) = parts(alloc, row)?;
        let have = payload_answer(alloc, &fields, body)?;
        assert_eq!(rt; have.as_str(), want, "{row}");
    }
    for (row, part, count, end) in &LONG_PAYLOADS {
        let (fields, want) = parts(alloc, row)?;
        let mut body = Vec::new(alloc);
        for _ in 0..*count {
            body.extend_from_slice(part)?;
        }
        body.extend_from_slice(end)?;
        let have = payload_answer(alloc, &fields, &body)?;
        assert_eq!(rt; have.as_str(), want, "{row}");
    }
    Ok(())
}

fn pair_answer(alloc: Global, fields: &[&str]) -> Result<String, Fail> {
    let body = PairBody {
        key: text_at(alloc, fields, 0)?,
        value: text_at(alloc, fields, 1)?,
    };
    match check_pair(alloc, &body) {
        Ok((key, value)) => {
            let mut out = String::new(alloc);
            put_text(&mut out, &key)?;
            out.push_str("¦")?;
            put_text(&mut out, &value)?;
            Ok(out)
        }
        Err(fault) => refusal(alloc, fault),
    }
}

#[test]
fn pairs(rt: HostRuntime) -> Result<(), Fail> {
    let alloc = rt.alloc();
    for row in &PAIRS {
        let (fields, want) = parts(alloc, row)?;
        let have = pair_answer(alloc, &fields)?;
        assert_eq!(rt; have.as_str(), want, "{row}");
    }
    Ok(())
}

// The pairs of a body, whose keys and values follow one another after the first field.
fn body_pairs(alloc: Global, fields: &[&str]) -> Result<Option<TextPairs>, Fail> {
    if fields.first().copied() == Some("-") {
        return Ok(None);
    }
    let mut pairs = TextPairs::new(alloc);
    let mut key = None;
    for field in fields.iter().skip(1) {
        let text = text_of(alloc, Some(*field))?;
        match key {
            None => key = text,
            Some(first) => {
                if let Some(text) = text {
                    pairs.push((first, text))?;
                }
                key = None;
            }
        }
    }
    Ok(Some(pairs))
}

fn shown_pairs(alloc: Global, pairs: &Pairs) -> Result<String, AllocError> {
    let mut out = String::new(alloc);
    let mut gap = "";
    for (key, value) in pairs.as_slice() {
        out.push_str(gap)?;
        put_text(&mut out, key)?;
        out.push_str("¦")?;
        put_text(&mut out, value)?;
        gap = "¦";
    }
    Ok(out)
}

fn metadata_answer(alloc: Global, fields: &[&str]) -> Result<String, Fail> {
    let body = MetadataBody {
        metadata: body_pairs(alloc, fields)?,
    };
    match check_metadata(alloc, &body) {
        Ok(pairs) => Ok(shown_pairs(alloc, &pairs)?),
        Err(fault) => refusal(alloc, fault),
    }
}

#[test]
fn metadata(rt: HostRuntime) -> Result<(), Fail> {
    let alloc = rt.alloc();
    for row in &METADATA {
        let (fields, want) = parts(alloc, row)?;
        let have = metadata_answer(alloc, &fields)?;
        assert_eq!(rt; have.as_str(), want, "{row}");
    }
    Ok(())
}

fn meta_of(alloc: Global, fields: &[&str]) -> Result<Option<MetaBody>, Fail> {
    if fields.get(1).copied() == Some("-") {
        return Ok(None);
    }
    Ok(Some(MetaBody {
        algorithm: text_at(alloc, fields, 2)?,
        bit_length: number_of(fields.get(3).copied())?,
        mode: text_at(alloc, fields, 4)?,
        name: text_at(alloc, fields, 5)?,
        payload_content_type: text_at(alloc, fields, 6)?,
        expiration: text_at(alloc, fields, 7)?,
    }))
}

fn shown_order(alloc: Global, order: &NewOrder) -> Result<String, AllocError> {
    let mut out = String::new(alloc);
    put_text(&mut out, &order.algorithm)?;
    out.push_str("¦")?;
    put_number(&mut out, Some(u64::from(order.bit_length)))?;
    out.push_str("¦")?;
    put_optional(&mut out, &order.mode)?;
    put_optional(&mut out, &order.name)?;
    put_number(&mut out, order.expiration)?;
    Ok(out)
}

fn order_answer(alloc: Global, fields: &[&str]) -> Result<String, Fail> {
    let body = OrderBody {
        kind: text_at(alloc, fields, 0)?,
        meta: meta_of(alloc, fields)?,
    };
    match check_order(&body, moment_of(fields.last().copied())?) {
        Ok(order) => Ok(shown_order(alloc, &order)?),
        Err(fault) => refusal(alloc, fault),
    }
}

#[test]
fn orders(rt: HostRuntime) -> Result<(), Fail> {
    let alloc = rt.alloc();
    for row in &ORDERS {
        let (fields, want) = parts(alloc, row)?;
        let have = order_answer(alloc, &fields)?;
        assert_eq!(rt; have.as_str(), want, "{row}");
    }
    Ok(())
}
