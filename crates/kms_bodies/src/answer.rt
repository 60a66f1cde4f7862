// The answer to a line.
use crate::bodies::{container, metadata, secret};
use kms_box::check_container;
use kms_secret::{check_metadata, check_secret};
use kms_world::{ContainerBody, MetadataBody, SecretBody};
use std::alloc::Global;

/// The answer to a line: what the body holds; none where the line has no such form.
pub fn answer(alloc: Global, line: &str) -> Option<usize> {
    let (count, body) = line.split_once(' ')?;
    let count: u32 = count.parse().ok()?;
    match body {
        "secret" => checked_secrets(alloc, count, &secret(alloc, 10).ok()?),
        "payload" => checked_secrets(alloc, count, &secret(alloc, 6_666).ok()?),
        "members" => checked_containers(alloc, count, &container(alloc).ok()?),
        "pairs" => checked_metadata(alloc, count, &metadata(alloc).ok()?),
        _ => None,
    }
}

fn checked_secret(alloc: Global, body: &SecretBody) -> Option<usize> {
    let secret = check_secret(alloc, body, 499_162_800).ok()?;
    match &secret.payload {
        Some(payload) => Some(payload.bytes.as_slice().len()),
        None => None,
    }
}

fn checked_secrets(alloc: Global, count: u32, body: &SecretBody) -> Option<usize> {
    for _ in 1..count {
        let _ = checked_secret(alloc, body)?;
    }
    checked_secret(alloc, body)
}

fn checked_container(alloc: Global, body: &ContainerBody) -> Option<usize> {
    let container = check_container(alloc, body).ok()?;
    Some(container.secrets.as_slice().len())
}

fn checked_containers(alloc: Global, count: u32, body: &ContainerBody) -> Option<usize> {
    for _ in 1..count {
        let _ = checked_container(alloc, body)?;
    }
    checked_container(alloc, body)
}

fn checked_pairs(alloc: Global, body: &MetadataBody) -> Option<usize> {
    let pairs = check_metadata(alloc, body).ok()?;
    Some(pairs.as_slice().len())
}

fn checked_metadata(alloc: Global, count: u32, body: &MetadataBody) -> Option<usize> {
    for _ in 1..count {
        let _ = checked_pairs(alloc, body)?;
    }
    checked_pairs(alloc, body)
}
