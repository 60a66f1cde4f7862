//! Laws of the spelling, as functions that do nothing.
ghost use Rattle.std.specs.Prelude.{◌≡◌, ◌+◌, ◌*◌, ◌^◌, ◌<◌, ◌≤◌, ℕ, List, ◌++◌, length, sum_by};
ghost use Rattle.std.specs.List.{AllByRecursion};
ghost use Rattle.kms_record.specs.declared.change.Change.{Change};
ghost use Rattle.kms_record.specs.Size.{most_bytes};
ghost use Rattle.kms_record.specs.Grammar.{IsStep, IsStepInRange, IsRecord, IsSnapshot, step_bytes, record_bytes};

/// No spelling of a step begins another's: where two steps are spelled at the front of the same bytes, they are one.
pub fn no_step_begins_another()
    ensures { (a b : List Change) (x y : List ℕ) → IsStep a → IsStep b → step_bytes a ++ x ≡ step_bytes b ++ y → (a ≡ b) × (x ≡ y) }
{}

/// A record has one reading.
pub fn record_has_one_reading()
    ensures { (bytes : List ℕ) (a b : List (List Change)) → IsRecord bytes a → IsRecord bytes b → a ≡ b }
{}

/// A snapshot has one reading.
pub fn snapshot_has_one_reading()
    ensures { (bytes : List ℕ) (a b : List Change) → IsSnapshot bytes a → IsSnapshot bytes b → a ≡ b }
{}

/// A step is spelled with two bytes, and at most so many for each change as its kind has.
pub fn step_is_short()
    ensures { (step : List Change) → IsStepInRange step → length (step_bytes step) ≤ 2 + sum_by most_bytes step }
{}

/// How many bytes a record has.
pub fn record_is_as_long_as_its_steps()
    ensures { (steps : List (List Change)) → length (record_bytes steps) ≡ 4 + sum_by (λ step. length (step_bytes step)) steps }
{}

/// A record of steps of fewer than 65,536 bytes each has at most 4 + 65,536 n bytes for n steps.
pub fn record_of_short_steps_is_short()
    ensures { (steps : List (List Change)) → AllByRecursion (λ step. length (step_bytes step) < 2 ^ 16) steps → length (record_bytes steps) ≤ 4 + 2 ^ 16 * length steps }
{}
