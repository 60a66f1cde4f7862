// Bodies that are made up.
use kms_world::{
    ContainerBody, MemberBodies, MemberBody, MetadataBody, NoMemory, SecretBody, Text, TextPairs,
};
use std::alloc::Global;

fn some(alloc: Global, text: &str) -> Result<Option<Text>, NoMemory> {
    Ok(Some(Text::of(alloc, text)?))
}

// The base64 of three zero bytes so many times, and of two more.
fn zeros(alloc: Global, groups: u32) -> Result<Option<Text>, NoMemory> {
    let mut text = String::new(alloc);
    for _ in 0..groups {
        text.push_str("AAAA")?;
    }
    text.push_str("AAA=")?;
    some(alloc, text.as_str())
}

/// A new secret with every field, and a payload of three bytes for each group and two more.
pub fn secret(alloc: Global, groups: u32) -> Result<SecretBody, NoMemory> {
    Ok(SecretBody {
        name: some(alloc, "the key of a disk")?,
        algorithm: some(alloc, "aes")?,
        bit_length: Some(256),
        mode: some(alloc, "cbc")?,
        secret_type: some(alloc, "symmetric")?,
        expiration: some(alloc, "2030-01-01T00:00:00.000Z")?,
        payload: zeros(alloc, groups)?,
        payload_content_type: some(alloc, "application/octet-stream")?,
        payload_content_encoding: some(alloc, "base64")?,
    })
}

// A text and then the number, in two digits.
fn numbered(alloc: Global, text: &str, number: u32) -> Result<Text, NoMemory> {
    let mut numbered = String::from_str(alloc, text)?;
    for digit in [number / 10 % 10, number % 10] {
        numbered.push(char::from_digit(digit, 10).unwrap_or('?'))?;
    }
    Text::of(alloc, numbered.as_str())
}

/// A container of 100 members, each with a name.
pub fn container(alloc: Global) -> Result<ContainerBody, NoMemory> {
    let mut members = MemberBodies::new(alloc);
    for number in 0..100 {
        let number = number * 37 % 100;
        let link = "https://keys.example/v1/secrets/01234567-89ab-8cde-8000-0000000000";
        members.push(MemberBody {
            name: Some(numbered(alloc, "secret ", number)?),
            secret_ref: Some(numbered(alloc, link, number)?),
        })?;
    }
    Ok(ContainerBody {
        name: some(alloc, "the keys of a house")?,
        kind: some(alloc, "generic")?,
        secret_refs: Some(members),
    })
}

/// Metadata of 100 pairs, in no order.
pub fn metadata(alloc: Global) -> Result<MetadataBody, NoMemory> {
    let mut pairs = TextPairs::new(alloc);
    for number in 0..100 {
        let key = numbered(alloc, "Some-Key.", number * 37 % 100)?;
        pairs.push((key, numbered(alloc, "its value is ", number)?))?;
    }
    Ok(MetadataBody {
        metadata: Some(pairs),
    })
}
