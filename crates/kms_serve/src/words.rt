// The words of the command line.
ghost use Rattle.std.specs.Prelude.{◌≡◌, option_copied, is_some, string_bytes};
ghost use Rattle.std.specs.Str.{bytes_eq};
ghost use Rattle.kms_serve.specs.Words as spec;

fn is(word: &String, text: &str) -> bool
    ensures { result ≡ bytes_eq (string_bytes word.now) text.now }
{
    word.as_str() == text
}

// A value isn't empty and doesn't begin with a dash.
fn is_value(word: &String) -> bool
    ensures { result ≡ spec.is_value (string_bytes word.now) }
{
    match word.as_bytes() {
        [] => false,
        [b, ..] => *b != b'-',
    }
}

fn is_init(words: &[String]) -> bool
    ensures { result ≡ is_some (spec.init_of (spec.texts words.now)) }
{
    match words {
        [a, b, c] => is(a, "init") && is(b, "--store") && is_value(c),
        _ => false,
    }
}

fn is_pipe(words: &[String]) -> bool
    ensures { result ≡ is_some (spec.pipe_of (spec.texts words.now)) }
{
    match words {
        [a, b, c, d, e, f, g] => {
            is(a, "pipe")
                && is(b, "--store")
                && is_value(c)
                && is(d, "--keys")
                && is_value(e)
                && is(f, "--endpoint")
                && is_value(g)
        }
        _ => false,
    }
}

/// The store that the words create. None exactly where they are not such words.
pub fn init_of(words: &[String]) -> Option<&str>
    ensures { option_copied result ≡ spec.init_of (spec.texts words.now) }
{
    if !is_init(words) {
        return None;
    }
    match words {
        [_, _, store] => Some(store.as_str()),
        _ => None,
    }
}

/// The store that the words serve. None exactly where they are not such words.
pub fn store_of(words: &[String]) -> Option<&str>
    ensures { option_copied result ≡ spec.store_of (spec.pipe_of (spec.texts words.now)) }
{
    if !is_pipe(words) {
        return None;
    }
    match words {
        [_, _, store, _, _, _, _] => Some(store.as_str()),
        _ => None,
    }
}

/// The key file with whose master keys they serve it. None exactly where they are not such words.
pub fn key_file_of(words: &[String]) -> Option<&str>
    ensures { option_copied result ≡ spec.key_file_of (spec.pipe_of (spec.texts words.now)) }
{
    if !is_pipe(words) {
        return None;
    }
    match words {
        [_, _, _, _, key_file, _, _] => Some(key_file.as_str()),
        _ => None,
    }
}

/// The endpoint under which they serve it. None exactly where they are not such words.
pub fn endpoint_of(words: &[String]) -> Option<&str>
    ensures { option_copied result ≡ spec.endpoint_of (spec.pipe_of (spec.texts words.now)) }
{
    if !is_pipe(words) {
        return None;
    }
    match words {
        [_, _, _, _, _, _, endpoint] => Some(endpoint.as_str()),
        _ => None,
    }
}
