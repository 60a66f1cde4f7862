//! What the grammar of the words means, and what clap alone would take.
ghost use Rattle.kms_words.specs.Spelled.{ReadsWhatIsSpelled};
ghost use Rattle.kms_words.specs.Wider.{IsWider};

/// The words of a command are read exactly where they are the command and its options in any order, each once and spelled in
/// one of its two forms, and as what they say.
pub fn what_is_spelled_is_read()
    ensures { ReadsWhatIsSpelled }
{}

/// clap alone takes values that the grammar refuses, and two dashes at the end.
pub fn clap_alone_is_wider()
    ensures { IsWider }
{}
