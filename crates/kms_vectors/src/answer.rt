// The answer to a line.
use hex::FromHex;
use kms_aes::Key;
use kms_fernet::{FernetKey, OpenFault, mac, seal, unseal};
use std::alloc::{AllocError, Global};

/// The answer to a line.
pub fn answer(alloc: Global, line: &str) -> Result<String, AllocError> {
    match line.split_once(' ') {
        Some(("repeat", rest)) => repeated(alloc, rest),
        _ => answered(alloc, line),
    }
}

// The answer to what stands behind a count, after that many times.
fn repeated(alloc: Global, words: &str) -> Result<String, AllocError> {
    let Some((count, rest)) = words.split_once(' ') else {
        return String::from_str(alloc, "?");
    };
    for _ in 1..count.parse::<u32>().unwrap_or(0) {
        let _ = answered(alloc, rest)?;
    }
    answered(alloc, rest)
}

fn answered(alloc: Global, line: &str) -> Result<String, AllocError> {
    let found = match line.split_once(' ') {
        Some(("aes", rest)) => aes(alloc, rest)?,
        Some(("mac", rest)) => code(alloc, rest)?,
        Some(("seal", rest)) => sealed(alloc, rest)?,
        Some(("unseal", rest)) => opened(alloc, rest)?,
        _ => None,
    };
    match found {
        Some(text) => Ok(text),
        None => String::from_str(alloc, "?"),
    }
}

fn aes(alloc: Global, words: &str) -> Result<Option<String>, AllocError> {
    let Some((key, block)) = words.split_once(' ') else {
        return Ok(None);
    };
    let (Ok(key), Ok(block)) = (<[u8; 16]>::from_hex(key), <[u8; 16]>::from_hex(block)) else {
        return Ok(None);
    };
    let key = Key::new(key);
    let enciphered = hex::encode(alloc, key.encrypt(block))?;
    let deciphered = hex::encode(alloc, key.decrypt(block))?;
    Ok(Some(format!(in alloc; "{enciphered} {deciphered}")?))
}

fn code(alloc: Global, words: &str) -> Result<Option<String>, AllocError> {
    let Some((key, text)) = words.split_once(' ') else {
        return Ok(None);
    };
    let (Ok(key), Ok(text)) = (hex::decode(alloc, key), hex::decode(alloc, text)) else {
        return Ok(None);
    };
    Ok(Some(hex::encode(alloc, mac(&key, &text, b""))?))
}

fn sealed(alloc: Global, words: &str) -> Result<Option<String>, AllocError> {
    let Some((key, rest)) = words.split_once(' ') else {
        return Ok(None);
    };
    let Some((moment, rest)) = rest.split_once(' ') else {
        return Ok(None);
    };
    let Some((iv, plain)) = rest.split_once(' ') else {
        return Ok(None);
    };
    let (Ok(key), Ok(iv)) = (<[u8; 32]>::from_hex(key), <[u8; 16]>::from_hex(iv)) else {
        return Ok(None);
    };
    let (Ok(moment), Ok(plain)) = (moment.parse::<u64>(), hex::decode(alloc, plain)) else {
        return Ok(None);
    };
    if plain.len() > 65536 {
        return Ok(None);
    }
    let Ok(token) = seal(alloc, &FernetKey::of(key), moment, iv, &plain) else {
        return Err(AllocError);
    };
    Ok(String::from_utf8(token.as_slice().to_vec(alloc)?).ok())
}

fn opened(alloc: Global, words: &str) -> Result<Option<String>, AllocError> {
    let Some((key, token)) = words.split_once(' ') else {
        return Ok(None);
    };
    let Ok(key) = <[u8; 32]>::from_hex(key) else {
        return Ok(None);
    };
    match unseal(alloc, &FernetKey::of(key), token.as_bytes()) {
        Ok(plain) => Ok(Some(hex::encode(alloc, plain.as_slice())?)),
        Err(OpenFault::NoMemory) => Err(AllocError),
        Err(fault) => Ok(Some(format!(in alloc; "{fault:?}")?)),
    }
}
