//! Laws of master keys, as functions that do nothing.
ghost use Rattle.std.specs.Prelude.{◌≡◌, ◌<◌, ◌^◌, ℕ, List, ◌∷◌};
ghost use Rattle.std.specs.List.{AllByRecursion};
ghost use Rattle.kms_aes.specs.Cipher.{IsBytes, IsBlock};
ghost use Rattle.kms_fernet.specs.Wrapped.{IsNotWrapped};
ghost use Rattle.kms_ring.specs.KeyFile.{IsKeyFile, IsBadLine};
ghost use Rattle.kms_ring.specs.Ring.{IsUnwrapped, IsUnderNone, IsWrapped};
ghost use Rattle.kms_ring.specs.declared.bad_line.BadLine.{BadLine};

/// A text is the key file of one list of keys at most, and has no bad line then.
pub fn a_key_file_is_one_list()
    ensures once { (text : List ℕ) (a b : List (List ℕ)) → IsKeyFile text a → IsKeyFile text b → a ≡ b }
    ensures sound { (text : List ℕ) (keys : List (List ℕ)) (bad : BadLine) → IsKeyFile text keys → ¬ IsBadLine text bad }
{}

/// A text has one first bad line at most, for one reason.
pub fn one_line_is_the_first_bad_one()
    ensures { (text : List ℕ) (a b : BadLine) → IsBadLine text a → IsBadLine text b → a ≡ b }
{}

/// What is wrapped under the first of the keys is unwrapped by them, to what was wrapped.
pub fn what_is_wrapped_is_unwrapped()
    ensures { (masters : List (List ℕ)) (moment : ℕ) (iv key wrapped : List ℕ) → AllByRecursion (IsBytes 32) masters → moment < 2 ^ 64 → IsBlock iv → IsBytes 32 key
        → IsWrapped masters moment iv key wrapped → IsUnwrapped masters wrapped key }
{}

/// A wrapped key is unwrapped to one key at most, and to none where no key opens it.
pub fn a_wrapped_key_is_one_key()
    ensures once { (masters : List (List ℕ)) (wrapped a b : List ℕ) → AllByRecursion (IsBytes 32) masters → IsUnwrapped masters wrapped a → IsUnwrapped masters wrapped b → a ≡ b }
    ensures none { (masters : List (List ℕ)) (wrapped key : List ℕ) → IsUnderNone masters wrapped → ¬ IsUnwrapped masters wrapped key }
{}

/// A master key that is put first leaves what is unwrapped as it is, where it doesn't open it.
pub fn another_first_key_changes_nothing()
    ensures { (first : List ℕ) (masters : List (List ℕ)) (wrapped key : List ℕ) → IsNotWrapped first wrapped → IsUnwrapped masters wrapped key → IsUnwrapped (first ∷ masters) wrapped key }
{}
