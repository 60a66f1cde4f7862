// Secrets that are made up by their numbers.
use kms_world::{Id, Name, NoMemory, Pairs, SecretKind, SecretRow, Text};
use std::alloc::{AllocError, Global};

fn text(alloc: Global, text: &str) -> Result<Text, AllocError> {
    match Text::of(alloc, text) {
        Ok(text) => Ok(text),
        Err(NoMemory) => Err(AllocError),
    }
}

// The name of a secret: in no order, and of 100,000 secrets ten share one.
fn name_of(alloc: Global, number: u64) -> Result<Text, AllocError> {
    let part = number.wrapping_mul(48_271) % 9_973;
    text(alloc, format!(in alloc; "secret {part}")?.as_str())
}

fn secret(alloc: Global, owner: Name, number: u64) -> Result<SecretRow, AllocError> {
    Ok(SecretRow {
        id: Id(number as u128),
        project: owner,
        creator: owner,
        created: number,
        updated: number,
        name: Some(name_of(alloc, number)?),
        algorithm: Some(text(alloc, "aes")?),
        bit_length: if number % 2 == 0 { Some(256) } else { None },
        mode: None,
        kind: SecretKind::Symmetric,
        expiration: None,
        payload: None,
        metadata: Pairs::new(alloc),
    })
}

/// So many secrets of one owner.
pub fn secrets(alloc: Global, owner: Name, count: u64) -> Result<Vec<SecretRow>, AllocError> {
    let mut rows = Vec::new(alloc);
    for number in 0..count {
        rows.push(secret(alloc, owner, number)?)?;
    }
    Ok(rows)
}
