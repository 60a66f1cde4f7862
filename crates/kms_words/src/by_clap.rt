// What clap reads of words in one form.
ghost use Rattle.std.specs.Prelude.{◌≡◌, ◌++◌, [], IfOk, Some, map, unwrap_or, codes, string_bytes};
ghost use Rattle.clap.specs.Words.{app_of, with_rule, first_value, first_of, found_of};
ghost use Rattle.kms_words.specs.Clap.{init_app, pipe_app, init_rows, pipe_rows, init_words, pipe_words, pipe_texts, found_texts, row_texts, wanted};

use clap::{Arg, ArgMatches, Command};
use std::alloc::{AllocError, Global};

// With `--name value`, wanted.
fn with_wanted<'a>(
    alloc: Global,
    command: Command<'a>,
    name: &'a str,
) -> Result<Command<'a>, AllocError>
    ensures { IfOk result (λ out. app_of out ≡ with_rule (app_of command.entry) (wanted name.entry.now)) }
{
    let arg = Arg::new(alloc, name).long(name).required(true);
    command.arg(arg)
}

fn init_command<'a>(alloc: Global) -> Result<Command<'a>, AllocError>
    ensures { IfOk result (λ command. app_of command ≡ init_app) }
{
    let command = Command::new(alloc, "init");
    with_wanted(alloc, command, "store")
}

fn pipe_command<'a>(alloc: Global) -> Result<Command<'a>, AllocError>
    ensures { IfOk result (λ command. app_of command ≡ pipe_app) }
{
    let command = Command::new(alloc, "pipe");
    let command = with_wanted(alloc, command, "store")?;
    let command = with_wanted(alloc, command, "keys")?;
    with_wanted(alloc, command, "endpoint")
}

// Two texts in one.
fn joined(alloc: Global, name: &str, value: &str) -> Result<String, AllocError>
    ensures { IfOk result (λ text. string_bytes text ≡ name.now ++ value.now) }
{
    let mut text = String::from_str(alloc, name)?;
    text.push_str(value)?;
    Ok(text)
}

// The words of `init` in one form.
fn init_in_form(alloc: Global, store: &str) -> Result<Vec<String>, AllocError>
    ensures { IfOk result (λ words. map string_bytes words.items ≡ init_words store.now) }
{
    let mut words = Vec::new(alloc);
    words.push(String::from_str(alloc, "init")?)?;
    words.push(joined(alloc, "--store=", store)?)?;
    Ok(words)
}

// The words of `pipe` in one form.
fn pipe_in_form(
    alloc: Global,
    store: &str,
    keys: &str,
    endpoint: &str,
) -> Result<Vec<String>, AllocError>
    ensures { IfOk result (λ words. map string_bytes words.items ≡ pipe_words store.now keys.now endpoint.now) }
{
    let mut words = Vec::new(alloc);
    words.push(String::from_str(alloc, "pipe")?)?;
    words.push(joined(alloc, "--store=", store)?)?;
    words.push(joined(alloc, "--keys=", keys)?)?;
    words.push(joined(alloc, "--endpoint=", endpoint)?)?;
    Ok(words)
}

// The value of an option, as clap read it.
fn text_of(alloc: Global, matches: &ArgMatches, name: &str) -> Result<String, AllocError>
    ensures { IfOk result (λ text. string_bytes text ≡ unwrap_or (first_value (found_of matches.now) name.now) []) }
{
    String::from_str(alloc, matches.get_str(name).unwrap_or(""))
}

/// What a store is served with.
#[derive(Drop)]
pub struct Pipe {
    /// The store's name.
    pub store: String,
    /// The name of the file of its master keys.
    pub keys: String,
    /// The text before each link.
    pub endpoint: String,
}

fn read_matches(alloc: Global, matches: &ArgMatches) -> Result<Pipe, AllocError>
    ensures { IfOk result (λ pipe. pipe_texts pipe ≡ found_texts (found_of matches.now)) }
{
    let store = text_of(alloc, matches, "store")?;
    let keys = text_of(alloc, matches, "keys")?;
    let endpoint = text_of(alloc, matches, "endpoint")?;
    Ok(Pipe {
        store,
        keys,
        endpoint,
    })
}

// What clap reads of these words of `init`.
fn init_matched(alloc: Global, words: &[String]) -> Result<String, AllocError>
    ensures { IfOk result (λ store. string_bytes store ≡ unwrap_or (first_of (codes "store") (init_rows (map string_bytes words.now))) []) }
{
    let command = init_command(alloc)?;
    match command.try_get_matches_from(words) {
        Ok(matches) => text_of(alloc, &matches, "store"),
        Err(_) => Err(AllocError),
    }
}

// What clap reads of these words of `pipe`.
fn pipe_matched(alloc: Global, words: &[String]) -> Result<Pipe, AllocError>
    ensures { IfOk result (λ pipe. pipe_texts pipe ≡ row_texts (pipe_rows (map string_bytes words.now))) }
{
    let command = pipe_command(alloc)?;
    match command.try_get_matches_from(words) {
        Ok(matches) => read_matches(alloc, &matches),
        Err(_) => Err(AllocError),
    }
}

/// The store of `init`, read by clap from words in one form.
pub fn clap_reads_init(alloc: Global, store: &str) -> Result<String, AllocError>
    ensures { IfOk result (λ text. string_bytes text ≡ store.now) }
{
    let words = init_in_form(alloc, store)?;
    init_matched(alloc, &words)
}

/// The options of `pipe`, read by clap from words in one form.
pub fn clap_reads_pipe(
    alloc: Global,
    store: &str,
    keys: &str,
    endpoint: &str,
) -> Result<Pipe, AllocError>
    ensures { IfOk result (λ pipe. pipe_texts pipe ≡ record { store = store.now; keys = keys.now; endpoint = endpoint.now }) }
{
    let words = pipe_in_form(alloc, store, keys, endpoint)?;
    pipe_matched(alloc, &words)
}
