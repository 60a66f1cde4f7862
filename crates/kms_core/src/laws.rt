//! Laws of what stores stand for, as functions that do nothing.
ghost use Rattle.std.specs.Prelude.{◌≡◌, ℕ, ◌<◌, ◌^◌, List, Some, Result};
ghost use Rattle.std.specs.List.{AllByRecursion};
ghost use Rattle.kms_aes.specs.Cipher.{IsBytes};
ghost use Rattle.kms_host.specs.Disk.{files};
ghost use Rattle.kms_host.specs.History.{History};
ghost use Rattle.kms_world.specs.State.{State, empty_state};
ghost use Rattle.kms_journal.specs.Create.{fresh};
ghost use Rattle.kms_journal.specs.Standing.{Standing, standing_of};
ghost use Rattle.kms_store.specs.Stands.{IsDamagedAt};
ghost use Rattle.kms_core.specs.Stands.{Stands};
ghost use Rattle.kms_core.specs.Starting.{Starts, OpensTo};
ghost use Rattle.kms_core.specs.Steps.{Held, HasState, KeepsState};
ghost use Rattle.kms_core.specs.declared.start_fault.StartFault.{StartFault};

/// Files stand for one state at most under master keys, and for one number of steps.
pub fn files_stand_for_one_state()
    ensures { (masters : List (List ℕ)) → AllByRecursion (IsBytes 32) masters → (two : List ℕ × List ℕ) (a b : State) (m n : ℕ)
        → Stands masters two a m → Stands masters two b n → (a ≡ b) × (m ≡ n) }
{}

/// An engine has one state at most, and has it for as long as its master keys and what it keeps stay.
pub fn an_engine_has_one_state()
    ensures one { (engine : Held) → AllByRecursion (IsBytes 32) engine.masters → (a b : State) → HasState engine a → HasState engine b → a ≡ b }
    ensures stays { (old new : Held) (state : State) → KeepsState old new → HasState old state → HasState new state }
{}

/// What stands for a state has no damage.
pub fn what_stands_is_undamaged()
    ensures { (masters : List (List ℕ)) (two : List ℕ × List ℕ) (state : State) (steps : ℕ) (s : Standing) (place : ℕ)
        → Stands masters two state steps → standing_of two ≡ Some s → ¬ IsDamagedAt s place }
{}

/// What stands for a state opens to that state, unless a call of the store fails or there is no memory.
pub fn what_stands_opens()
    ensures { (masters : List (List ℕ)) (was now : History) (state : State) (steps : ℕ) (result : Result Held StartFault)
        → Stands masters (files was) state steps → Starts masters result was now → OpensTo state result }
{}

/// A fresh store stands for the empty state of its tag.
pub fn a_fresh_store_is_empty()
    ensures { (masters : List (List ℕ)) (two : List ℕ × List ℕ) (tag : ℕ) → tag < 2 ^ 60 → standing_of two ≡ Some (fresh tag) → Stands masters two (empty_state tag) 0 }
{}
