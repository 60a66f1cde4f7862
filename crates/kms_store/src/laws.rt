//! Laws of what stores stand for, as functions that do nothing.
ghost use Rattle.std.specs.Prelude.{◌≡◌, ℕ, ◌+◌, ◌<◌, ◌^◌, length, List, Some};
ghost use Rattle.kms_record.specs.declared.change.Change.{Change};
ghost use Rattle.kms_record.specs.Grammar.{AreSteps, IsStep, record_bytes, step_bytes};
ghost use Rattle.kms_kept.specs.Kept.{Kept, after_record, after_step, kept_first};
ghost use Rattle.kms_journal.specs.Commit.{frame};
ghost use Rattle.kms_journal.specs.Create.{fresh};
ghost use Rattle.kms_journal.specs.Standing.{Standing, standing_of, with_framed};
ghost use Rattle.kms_store.specs.Staged.{Staging, StagingLeads, nothing_staged, with_staged};
ghost use Rattle.kms_store.specs.Stands.{StandFor, KeptOf, HasSteps, AreBytes, IsDamagedAt, IsWholeOrDamaged};

/// Two files stand for one thing at most, and for one number of steps.
pub fn files_stand_for_one_thing()
    ensures { (two : List ℕ × List ℕ) (a b : Kept) (m n : ℕ) → StandFor two a m → StandFor two b n → (a ≡ b) × (m ≡ n) }
{}

/// What stands for something has no damage.
pub fn what_stands_is_undamaged()
    ensures { (s : Standing) (kept : Kept) (place : ℕ) → KeptOf s kept → ¬ IsDamagedAt s place }
{}

/// A store has one first damage at most.
pub fn a_store_has_one_first_damage()
    ensures { (s : Standing) (a b : ℕ) → IsDamagedAt s a → IsDamagedAt s b → a ≡ b }
{}

/// What two files of bytes stand for keeps something, or is damaged.
pub fn a_store_is_whole_or_damaged()
    ensures { (two : List ℕ × List ℕ) (s : Standing) → AreBytes two.0 → AreBytes two.1 → standing_of two ≡ Some s → IsWholeOrDamaged s }
{}

/// A fresh store keeps nothing, and has no steps.
pub fn a_fresh_store_keeps_nothing()
    ensures { (tag : ℕ) → tag < 2 ^ 60 → KeptOf (fresh tag) (kept_first tag 0) × HasSteps (fresh tag) 0 }
{}

/// With one framed record more a store keeps what its steps lead to.
pub fn a_record_leads_on()
    ensures { (s : Standing) (before after : Kept) (steps : List (List Change)) → KeptOf s before
        → AreSteps steps → length (record_bytes steps) < 2 ^ 32 → after_record steps before ≡ Some after
        → KeptOf (with_framed s (frame (record_bytes steps))) after }
{}

/// It has the record's steps more.
pub fn a_record_has_its_steps()
    ensures { (s : Standing) (n : ℕ) (steps : List (List Change)) → HasSteps s n
        → AreSteps steps → length (record_bytes steps) < 2 ^ 32
        → HasSteps (with_framed s (frame (record_bytes steps))) (n + length steps) }
{}

/// No staged step leads nowhere else.
pub fn nothing_staged_leads_nowhere()
    ensures { (kept : Kept) → StagingLeads nothing_staged kept kept }
{}

/// One staged step more leads one step further.
pub fn a_staged_step_leads_on()
    ensures { (staging : Staging) (settled kept next : Kept) (step : List Change) → staging.reserved ≡ step_bytes step → IsStep step
        → after_step step kept ≡ Some next → StagingLeads staging settled kept → StagingLeads (with_staged staging) settled next }
{}
