// Why bytes weren't read.
use kms_world::NoMemory;

/// The bytes are off the grammar.
#[derive(Clone, Copy, Debug, PartialEq, Eq)]
pub struct Malformed;

/// Why nothing was read. The bytes are off the grammar, or there was no memory.
#[derive(Clone, Copy, Debug, PartialEq, Eq)]
pub enum ReadError {
    NoMemory,
    Malformed,
}

impl From<NoMemory> for ReadError {
    ghost use Rattle.std.specs.Prelude.{◌≡◌};
    ghost use Rattle.kms_record.specs.declared.read_error.ReadError.TheVariants as errors;

    ghost from_gives = { λ _ e. e ≡ errors.NoMemory };

    fn from(_: NoMemory) -> Self {
        ReadError::NoMemory
    }
}

impl From<Malformed> for ReadError {
    ghost use Rattle.std.specs.Prelude.{◌≡◌};
    ghost use Rattle.kms_record.specs.declared.read_error.ReadError.TheVariants as errors;

    ghost from_gives = { λ _ e. e ≡ errors.Malformed };

    fn from(_: Malformed) -> Self {
        ReadError::Malformed
    }
}
