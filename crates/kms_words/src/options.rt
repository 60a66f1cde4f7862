// The options behind a command.
ghost use Rattle.std.specs.Prelude.{◌≡◌, Some, is_some, option_map};
ghost use Rattle.kms_words.specs.Options as spec;
ghost use Rattle.kms_words.specs.Views.{texts, text_of, view, state_view, named_view};

/// An option, which has a value.
#[derive(Clone, Copy)]
pub enum Name {
    Store,
    Keys,
    Endpoint,
}

/// The options that were read.
#[derive(Clone, Copy)]
pub struct Options<'a> {
    pub store: Option<&'a str>,
    pub keys: Option<&'a str>,
    pub endpoint: Option<&'a str>,
}

/// What was read so far: the option that waits for its value in the next word, and the options.
#[derive(Clone, Copy)]
pub struct State<'a> {
    pub waiting: Option<Name>,
    pub options: Options<'a>,
}

impl Name {
    // How it is written.
    fn dashed(self) -> &'static str
        ensures { result.now ≡ spec.dashed self }
    {
        match self {
            Name::Store => "--store",
            Name::Keys => "--keys",
            Name::Endpoint => "--endpoint",
        }
    }
}

// A value isn't empty and doesn't begin with a dash.
fn is_value(text: &[u8]) -> bool
    ensures { result ≡ spec.is_value text.now }
{
    match text {
        [] => false,
        [b, ..] => *b != b'-',
    }
}

impl<'a> Options<'a> {
    fn none() -> Options<'a>
        ensures { view result ≡ spec.no_options }
    {
        Options {
            store: None,
            keys: None,
            endpoint: None,
        }
    }

    fn has(&self, name: Name) -> bool
        ensures { result ≡ is_some (spec.value_of name (view self.now)) }
    {
        match name {
            Name::Store => self.store.is_some(),
            Name::Keys => self.keys.is_some(),
            Name::Endpoint => self.endpoint.is_some(),
        }
    }

    fn with(self, name: Name, value: &'a str) -> Options<'a>
        ensures { view result ≡ spec.with_value name value.entry.now (view self.entry) }
    {
        match name {
            Name::Store => Options {
                store: Some(value),
                ..self
            },
            Name::Keys => Options {
                keys: Some(value),
                ..self
            },
            Name::Endpoint => Options {
                endpoint: Some(value),
                ..self
            },
        }
    }

    fn put(self, name: Name, value: &'a str) -> Option<Options<'a>>
        ensures { option_map view result ≡ spec.put name value.entry.now (view self.entry) }
    {
        if is_value(value.as_bytes()) && !self.has(name) {
            Some(self.with(name, value))
        } else {
            None
        }
    }
}

// What follows a text in a word that begins with it.
fn after<'a>(word: &'a str, front: &str) -> Option<&'a str>
    ensures { text_of result ≡ spec.past front.now word.entry.now }
{
    word.strip_prefix(front)
}

fn if_named<'a>(name: Name, word: &'a str) -> Option<(Name, &'a str)>
    ensures { option_map named_view result ≡ spec.if_named name word.entry.now }
{
    match after(word, name.dashed()) {
        Some(rest) => Some((name, rest)),
        None => None,
    }
}

#[tactic(auto, unfolding(crate::specs::Options::named))]
fn named<'a>(word: &'a str) -> Option<(Name, &'a str)>
    ensures { option_map named_view result ≡ spec.named word.entry.now }
{
    if let Some(found) = if_named(Name::Store, word) {
        return Some(found);
    }
    if let Some(found) = if_named(Name::Keys, word) {
        return Some(found);
    }
    if_named(Name::Endpoint, word)
}

fn put_option<'a>(options: Options<'a>, name: Name, value: &'a str) -> Option<State<'a>>
    ensures { option_map state_view result ≡ spec.put_option name value.entry.now (view options.entry) }
{
    match options.put(name, value) {
        Some(options) => Some(State {
            waiting: None,
            options,
        }),
        None => None,
    }
}

fn with_rest<'a>(options: Options<'a>, name: Name, rest: &'a str) -> Option<State<'a>>
    ensures { option_map state_view result ≡ spec.with_named (view options.entry) (Some (name, rest.entry.now)) }
{
    if rest.is_empty() {
        return Some(State {
            waiting: Some(name),
            options,
        });
    }
    match after(rest, "=") {
        Some(value) => put_option(options, name, value),
        None => None,
    }
}

fn word_alone<'a>(options: Options<'a>, word: &'a str) -> Option<State<'a>>
    ensures { option_map state_view result ≡ spec.with_named (view options.entry) (spec.named word.entry.now) }
{
    match named(word) {
        Some((name, rest)) => with_rest(options, name, rest),
        None => None,
    }
}

fn step<'a>(state: State<'a>, word: &'a str) -> Option<State<'a>>
    ensures { option_map state_view result ≡ spec.step (state_view state.entry) word.entry.now }
{
    match state.waiting {
        Some(name) => put_option(state.options, name, word),
        None => word_alone(state.options, word),
    }
}

/// The options that the words give. None exactly where the words are outside the grammar of options.
pub fn options_in<'a>(words: &'a [String]) -> Option<Options<'a>>
    ensures { option_map view result ≡ spec.options_in (texts words.entry.now) }
{
    let mut state = State {
        waiting: None,
        options: Options::none(),
    };
    for word in words {
        match step(state, word) {
            Some(next) => state = next,
            None => return None,
        }
    }
    match state.waiting {
        Some(_) => None,
        None => Some(state.options),
    }
}
