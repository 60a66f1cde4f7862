// Words of every form.
use crate::commands::{init_of, pipe_of, read_init, read_pipe};
use std::alloc::{AllocError, Global};

// The words of a text, with a bar between each two.
fn words_in(alloc: Global, text: &str) -> Result<Vec<String>, AllocError> {
    let mut words = Vec::new(alloc);
    for word in text.split('|') {
        words.push(String::from_str(alloc, word)?)?;
    }
    Ok(words)
}

// What the words say: `make STORE`, `serve STORE,KEYS,ENDPOINT`, or nothing.
fn said(alloc: Global, words: &[String]) -> Result<String, AllocError> {
    if let Some(store) = init_of(words) {
        return format!(in alloc; "make {store}");
    }
    match pipe_of(words) {
        Some(given) => {
            format!(in alloc; "serve {},{},{}", given.store, given.keys, given.endpoint)
        }
        None => Ok(String::new(alloc)),
    }
}

// The same as clap reads it.
fn read(alloc: Global, words: &[String]) -> Result<String, AllocError> {
    if let Some(store) = read_init(alloc, words)? {
        return format!(in alloc; "make {store}");
    }
    match read_pipe(alloc, words)? {
        Some(pipe) => format!(in alloc; "serve {},{},{}", pipe.store, pipe.keys, pipe.endpoint),
        None => Ok(String::new(alloc)),
    }
}

// Words, and what they say: each option in both forms and at each place, twice, absent, abbreviated; values that are empty or
// begin with a dash; words that are no option; other commands.
const WORDS: [(&str, &str); 40] = [
    ("pipe|--store|s|--keys|k|--endpoint|e", "serve s,k,e"),
    ("pipe|--store=s|--keys=k|--endpoint=e", "serve s,k,e"),
    ("pipe|--endpoint|e|--store=s|--keys|k", "serve s,k,e"),
    ("pipe|--keys=k|--endpoint=e|--store|s", "serve s,k,e"),
    ("pipe|--store==s|--keys|=|--endpoint|e-", "serve =s,=,e-"),
    (
        "pipe|--store|pipe|--keys| |--endpoint=http://k/v1?a=--b",
        "serve pipe, ,http://k/v1?a=--b",
    ),
    ("pipe|--store|s|--store|s|--keys|k|--endpoint|e", ""),
    ("pipe|--store|s|--keys|k|--keys=k|--endpoint|e", ""),
    ("pipe|--store|s|--keys|k|--endpoint=e|--endpoint=e", ""),
    ("pipe|--keys|k|--endpoint|e", ""),
    ("pipe|--store|s|--endpoint|e", ""),
    ("pipe|--store|s|--keys|k", ""),
    ("pipe|--store|s|--keys|k|--endpoint", ""),
    ("pipe|--stor|s|--keys|k|--endpoint|e", ""),
    ("pipe|--store|s|--key=k|--endpoint|e", ""),
    ("pipe|--stores=s|--keys|k|--endpoint|e", ""),
    ("pipe|-store|s|--keys|k|--endpoint|e", ""),
    ("pipe|--STORE|s|--keys|k|--endpoint|e", ""),
    ("pipe|--store||--keys|k|--endpoint|e", ""),
    ("pipe|--store=|--keys|k|--endpoint|e", ""),
    ("pipe|--store|-|--keys|k|--endpoint|e", ""),
    ("pipe|--store=-s|--keys|k|--endpoint|e", ""),
    ("pipe|--store|--keys|k|--endpoint|e", ""),
    ("pipe|--|--store|s|--keys|k|--endpoint|e", ""),
    ("pipe|--store|s|--keys|k|--endpoint|e|--", ""),
    ("pipe|--store|s|--keys|k|--endpoint|e|--help", ""),
    ("pipe|--store|s|--keys|k|--endpoint|e|more", ""),
    ("--store|s|pipe|--keys|k|--endpoint|e", ""),
    ("init|--store|s", "make s"),
    ("init|--store=s", "make s"),
    ("init|--store=--", ""),
    ("init|--store", ""),
    ("init", ""),
    ("", ""),
    ("init|s", ""),
    ("init|--store|s|--keys|k", ""),
    ("init|--store|s|--endpoint=e", ""),
    ("inits|--store|s", ""),
    ("serve|--store|s", ""),
    ("pipe|--store|s", ""),
];

#[test]
fn words_of_every_form(rt: HostRuntime) -> Result<(), AllocError> {
    let alloc = rt.alloc();
    for (text, want) in &WORDS {
        let words = words_in(alloc, text)?;
        let have = said(alloc, &words)?;
        assert_eq!(rt; have.as_str(), *want, "{text}");
        let have = read(alloc, &words)?;
        assert_eq!(rt; have.as_str(), *want, "{text}, by clap");
    }
    Ok(())
}
