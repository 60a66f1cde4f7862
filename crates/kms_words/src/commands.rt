// The words of each command.
ghost use Rattle.std.specs.Prelude.{◌≡◌, MatchResult, option_map, IsSome, string_bytes};
ghost use Rattle.kms_words.specs.Clap.{pipe_texts};
ghost use Rattle.kms_words.specs.Commands as spec;
ghost use Rattle.kms_words.specs.Views.{texts, text_of, view, given_texts};

use crate::by_clap::{Pipe, clap_reads_init, clap_reads_pipe};
use crate::options::{Options, options_in};
use std::alloc::{AllocError, Global};

/// What a store is served with, as it stands in the words.
#[derive(Clone, Copy)]
pub struct PipeWords<'a> {
    /// The store's name.
    pub store: &'a str,
    /// The name of the file of its master keys.
    pub keys: &'a str,
    /// The text before each link.
    pub endpoint: &'a str,
}

// The options behind a command.
fn options_of<'a>(words: &'a [String], command: &str) -> Option<Options<'a>>
    ensures { option_map view result ≡ spec.options_of command.now (texts words.entry.now) }
{
    match words {
        [first, rest @ ..] => {
            if first.as_str() == command {
                options_in(rest)
            } else {
                None
            }
        }
        [] => None,
    }
}

fn store_alone<'a>(options: Options<'a>) -> Option<&'a str>
    ensures { text_of result ≡ spec.store_alone (view options.entry) }
{
    match (options.keys, options.endpoint) {
        (None, None) => options.store,
        _ => None,
    }
}

fn pipe_options<'a>(options: Options<'a>) -> Option<PipeWords<'a>>
    ensures { option_map given_texts result ≡ spec.pipe_options (view options.entry) }
{
    let store = options.store?;
    let keys = options.keys?;
    let endpoint = options.endpoint?;
    Some(PipeWords {
        store,
        keys,
        endpoint,
    })
}

/// The store that the words create: `init --store NAME`. None exactly where they are not such words. Takes no memory.
pub fn init_of<'a>(words: &'a [String]) -> Option<&'a str>
    ensures { text_of result ≡ spec.init_of (texts words.entry.now) }
{
    match options_of(words, "init") {
        Some(options) => store_alone(options),
        None => None,
    }
}

/// What the words serve a store with: `pipe --store NAME --keys NAME --endpoint TEXT`. None exactly where they are not such
/// words. Takes no memory.
pub fn pipe_of<'a>(words: &'a [String]) -> Option<PipeWords<'a>>
    ensures { option_map given_texts result ≡ spec.pipe_of (texts words.entry.now) }
{
    match options_of(words, "pipe") {
        Some(options) => pipe_options(options),
        None => None,
    }
}

/// The store that the words create, read by `clap`. None exactly where they are not such words; out of memory only where they
/// are.
pub fn read_init(alloc: Global, words: &[String]) -> Result<Option<String>, AllocError>
    ensures { MatchResult result (λ r. option_map string_bytes r ≡ spec.init_of (texts words.now))
        (λ e. IsSome (spec.init_of (texts words.now))) }
{
    match init_of(words) {
        None => Ok(None),
        Some(store) => {
            let store = clap_reads_init(alloc, store)?;
            Ok(Some(store))
        }
    }
}

/// What the words serve a store with, read by `clap`. None exactly where they are not such words; out of memory only where they
/// are.
pub fn read_pipe(alloc: Global, words: &[String]) -> Result<Option<Pipe>, AllocError>
    ensures { MatchResult result (λ r. option_map pipe_texts r ≡ spec.pipe_of (texts words.now))
        (λ e. IsSome (spec.pipe_of (texts words.now))) }
{
    match pipe_of(words) {
        None => Ok(None),
        Some(given) => {
            let pipe = clap_reads_pipe(alloc, given.store, given.keys, given.endpoint)?;
            Ok(Some(pipe))
        }
    }
}
