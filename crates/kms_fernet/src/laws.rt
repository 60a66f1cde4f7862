// What holds of tokens.
ghost use Rattle.kms_fernet.specs.Laws.{LengthsAreWithin, OpensOrFails, TokensHaveTheirLength, TokensHaveTheirParts, TokensOpenOnce};

/// What `seal` gives opens to what was sealed. A text opens to one plain text at most, and not where
/// it has a fault, of which it has one at most.
pub fn tokens_open_once()
    ensures { TokensOpenOnce }
{}

/// Under a key of 32 bytes each text either opens, to just one plain text, and has no fault, or has
/// just one fault, and opens to nothing.
pub fn opens_or_fails()
    ensures { OpensOrFails }
{}

/// The bytes of a token have the moment and the initialization vector that it was sealed with, and are 57 more than
/// those of the padded plain text.
pub fn tokens_have_their_parts()
    ensures { TokensHaveTheirParts }
{}

/// How many characters a token has is known by the number of its plain bytes: 100 to 26,764 of 1 to 20,000 bytes.
pub fn tokens_have_their_length()
    ensures length { TokensHaveTheirLength }
    ensures within { LengthsAreWithin }
{}
