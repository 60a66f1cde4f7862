// Payloads that are put, and shown.
ghost use Rattle.std.specs.Prelude.{◌≡◌, ◌<◌, ◌^◌, Bool, List, true, not, is_err, is_some, None, IfOk, IfErr, IfSome, IsErrOf};
ghost use Rattle.kms_host.specs.History.{Stops};
ghost use Rattle.kms_host.specs.Moment.{Since};
ghost use Rattle.kms_operations.specs.Plan.{CanPut, put_effects};
ghost use Rattle.kms_record.specs.Fields.{IsToken as HasTokenLength};
ghost use Rattle.kms_record.specs.Grammar.{IsStepInRange};
ghost use Rattle.kms_record.specs.SecretPut.{IsInRange};
ghost use Rattle.kms_host.specs.declared.call.Call.{Call};
ghost use Rattle.kms_sealing.specs.Drawing.{AreSealingDraws, Draws, drawn_calls};
ghost use Rattle.kms_sealing.specs.Places.{has_key};
ghost use Rattle.kms_sealing.specs.ProjectKeys.{AreOf};
ghost use Rattle.kms_opened.specs.Opened.{OpensUnder};
ghost use Rattle.kms_sealing.specs.Sealed.{Adds, IsSealedFor, rows_with};
ghost use Rattle.kms_store.specs.Store.{IsReserved};
ghost use Rattle.kms_ring.specs.Ring.{IsUnwrapped};
ghost use Rattle.kms_world.specs.Effect.{after_effects};
ghost use Rattle.kms_world.specs.State.{State};
ghost use Rattle.kms_core.specs.Asking.{AsksWith, HasDrawCause, IsMadeOf, IsSealedStep, sealed_changes};
ghost use Rattle.kms_core.specs.Settling.{count_of};
ghost use Rattle.kms_core.specs.Showing.{IsShowable, ShowsPayload};
ghost use Rattle.kms_core.specs.Steps.{HasState, KeepsState, KeepsTheSame, Prepares};

use crate::{AskFault, Asked, Engine, PreparedStep};
use kms_host::{Failed, Host};
use kms_operations::NewPayload;
use kms_record::{SecretPut, Step};
use kms_sealing::{Drawn, NewKey, ProjectKeys, Sealed, draw};
use kms_store::Tables;
use kms_world::{Answer, Id, Media, NoMemory};
use std::alloc::Global;

// The step that puts a sealed payload: that of a new secret, or of the one with this count.
fn step_of(
    alloc: Global,
    sealed: Sealed,
    secret: Option<SecretPut>,
    id: u64,
    updated: u64,
    media: Media,
) -> Result<Step, NoMemory>
    requires range { IfSome secret IsInRange }
    requires id { id < 2 ^ 62 }
    requires updated { updated < 253402300800 }
    requires token { HasTokenLength sealed.token }
    ensures changes { IfOk result (λ step. step ≡ sealed_changes sealed secret id updated media) }
    ensures range { IfOk result IsStepInRange }
{
    match secret {
        Some(put) => sealed.post(alloc, put, media),
        None => sealed.put(alloc, id, updated, media),
    }
}

// Puts the new key of a project among the others, if there is one. It takes no memory.
pub(crate) fn add_key(keys: &mut ProjectKeys, tables: &Tables, new: &Option<NewKey>)
    requires keys { AreOf keys.old tables.now.kept.keys }
    requires opens { IfSome new.now (λ key. IsUnwrapped keys.old.masters key.wrapped key.key) }
    requires room { IfSome new.now (λ key. 0 < keys.old.spare) }
    ensures masters { keys.new.masters ≡ keys.old.masters }
    ensures keys { AreOf keys.new (rows_with new.now tables.now.kept.keys) }
{
    if let Some(new) = new {
        keys.add(tables, new);
    }
}

impl Engine {
    // The payload, sealed at this moment with what was drawn for it.
    fn sealed(&mut self, new: &NewPayload, moment: u64, drawn: Drawn) -> Result<Sealed, NoMemory>
        requires can { CanPut self.old.store.stored.kept new.now }
        requires drawn { is_some drawn.key ≡ not (has_key new.now.project self.old.store.stored.kept.keys) }
        ensures sealed { IfOk result (IsSealedFor self.old.masters self.old.store.stored.kept.keys new.now.project moment new.now.payload.bytes drawn) }
        ensures adds { IfOk result (λ s. Adds self.old.masters self.old.store.stored.kept new.now.project s.new) }
        ensures opens { IfOk result (λ s. OpensUnder self.old.masters (rows_with s.new self.old.store.stored.kept.keys) new.now.project s.number s.token new.now.payload.bytes) }
        ensures token { IfOk result (λ s. HasTokenLength s.token) }
        ensures room { IfOk result (λ s. is_some s.new ≡ true → 0 < self.new.spare) }
        ensures masters { self.new.masters ≡ self.old.masters }
        ensures store { self.new.store ≡ self.old.store }
    {
        let bytes = new.payload.bytes.as_slice();
        self.keys.seal(
            self.alloc,
            self.store.rows(),
            &new.project,
            moment,
            bytes,
            drawn,
        )
    }

    // The step that puts a sealed payload, with all memory that it needs.
    fn reserve_sealed(
        &mut self,
        sealed: Sealed,
        secret: Option<SecretPut>,
        id: u64,
        updated: u64,
        media: Media,
    ) -> Result<PreparedStep, NoMemory>
        requires few { count_of self.old.store < 1152 }
        requires range { IfSome secret IsInRange }
        requires id { id < 2 ^ 62 }
        requires updated { updated < 253402300800 }
        requires token { HasTokenLength sealed.token }
        ensures changes { IfOk result (λ p. p.step.changes ≡ sealed_changes sealed secret id updated media) }
        ensures range { IfOk result (λ p. IsStepInRange p.step.changes) }
        ensures reserved { IfOk result (λ p. IsReserved self.new.store.stored p.step) }
        ensures key { IfOk result (λ p. p.key ≡ sealed.new) }
        ensures spare { self.new.spare ≡ self.old.spare }
        ensures same { KeepsState self.old self.new }
        ensures store { KeepsTheSame self.old.store self.new.store }
    {
        let key = sealed.new;
        let step = step_of(self.alloc, sealed, secret, id, updated, media)?;
        let step = self.store.reserve_step(step)?;
        Ok(PreparedStep { step, key })
    }

    // The answer to a payload that is put, and the step that puts it, sealed.
    fn put_sealed(&mut self, new: NewPayload, sealed: Sealed) -> Result<Asked, AskFault>
        requires few { count_of self.old.store < 1152 }
        requires can { CanPut self.old.store.stored.kept new }
        requires token { HasTokenLength sealed.token }
        ensures answer { IfOk result (λ a. a.answer ≡ new.answer) }
        ensures step { IfOk result (λ a. IsSealedStep self.new new sealed a.step) }
        ensures err { IfErr result (λ fault. fault ≡ AskFault.NoMemory) }
        ensures spare { self.new.spare ≡ self.old.spare }
        ensures same { KeepsState self.old self.new }
        ensures store { KeepsTheSame self.old.store self.new.store }
    {
        let NewPayload {
            answer,
            secret,
            id,
            updated,
            project: _,
            payload,
        } = new;
        match self.reserve_sealed(sealed, secret, id, updated, payload.media) {
            Ok(step) => Ok(Asked {
                answer,
                step: Some(step),
            }),
            Err(_) => Err(AskFault::NoMemory),
        }
    }

    // The answer to a payload that is put, and the step that puts it, sealed with what was drawn for it.
    fn seal_drawn(&mut self, new: NewPayload, moment: u64, drawn: Drawn) -> Result<Asked, AskFault>
        requires few { count_of self.old.store < 1152 }
        requires can { CanPut self.old.store.stored.kept new }
        requires drawn { is_some drawn.key ≡ not (has_key new.project self.old.store.stored.kept.keys) }
        ensures answer { IfOk result (λ a. a.answer ≡ new.answer) }
        ensures step { IfOk result (λ a. (s : State) → HasState self.old s → Prepares a.step self.new (after_effects (put_effects self.old.store.stored.kept.state.tag new) s)) }
        ensures stores { IfOk result (λ a. is_some a.step ≡ true) }
        ensures made { IfOk result (λ a. IsMadeOf self.old moment a.step (drawn_calls drawn)) }
        ensures err { IfErr result (λ fault. fault ≡ AskFault.NoMemory) }
        ensures same { KeepsState self.old self.new }
        ensures store { KeepsTheSame self.old.store self.new.store }
    {
        let _ = &self.alloc;
        match self.sealed(&new, moment, drawn) {
            Ok(sealed) => self.put_sealed(new, sealed),
            Err(_) => Err(AskFault::NoMemory),
        }
    }

    // The same of a draw that may have failed.
    fn seal(
        &mut self,
        new: NewPayload,
        moment: u64,
        drawn: Result<Drawn, Failed>,
    ) -> Result<Asked, AskFault>
        requires few { count_of self.old.store < 1152 }
        requires can { CanPut self.old.store.stored.kept new }
        requires drawn { IfOk drawn (λ d. is_some d.key ≡ not (has_key new.project self.old.store.stored.kept.keys)) }
        ensures answer { IfOk result (λ a. a.answer ≡ new.answer) }
        ensures step { IfOk result (λ a. (s : State) → HasState self.old s → Prepares a.step self.new (after_effects (put_effects self.old.store.stored.kept.state.tag new) s)) }
        ensures stores { IfOk result (λ a. is_some a.step ≡ true) }
        ensures made { (needed : Bool) (calls : List Call) → Draws needed drawn calls → AsksWith self.old moment result calls }
        ensures fails { IsErrOf result AskFault.NoDraw → is_err drawn ≡ true }
        ensures same { KeepsState self.old self.new }
        ensures store { KeepsTheSame self.old.store self.new.store }
    {
        match drawn {
            Ok(drawn) => self.seal_drawn(new, moment, drawn),
            Err(_) => Err(AskFault::NoDraw),
        }
    }

    // The answer to a payload that is put, and the step that puts it.
    pub(crate) fn put<H: Host>(
        &mut self,
        host: &mut H,
        new: NewPayload,
        moment: u64,
    ) -> Result<Asked, AskFault>
        requires few { count_of self.old.store < 1152 }
        requires can { CanPut self.old.store.stored.kept new }
        ensures answer { IfOk result (λ a. a.answer ≡ new.answer) }
        ensures step { IfOk result (λ a. (s : State) → HasState self.old s → Prepares a.step self.new (after_effects (put_effects self.old.store.stored.kept.state.tag new) s)) }
        ensures stores { IfOk result (λ a. is_some a.step ≡ true) }
        ensures same { KeepsState self.old self.new }
        ensures store { KeepsTheSame self.old.store self.new.store }
        ensures told { Since (H.history host.old) (H.history host.new) (λ was calls. AsksWith self.old moment result calls × AreSealingDraws calls) }
        ensures cause { HasDrawCause (H.faults host.old) (H.faults host.new) result }
        ensures stops { Stops (H.wanted host.old) (H.wanted host.new) (H.history host.old) (H.history host.new) }
    {
        let drawn = draw(host, self.store.rows(), &new.project);
        self.seal(new, moment, drawn)
    }

    // The payload of the secret with this id, which has one.
    pub(crate) fn show(&self, id: Id) -> Result<Asked, AskFault>
        requires { IsShowable self.now.store.stored.kept id }
        ensures answer { IfOk result (λ a. ShowsPayload self.now id a.answer) }
        ensures step { IfOk result (λ a. a.step ≡ None) }
        ensures err { IfErr result (λ fault. fault ≡ AskFault.NoMemory) }
    {
        let Some(secret) = self.store.rows().secret(id) else {
            unreachable!()
        };
        match self.keys.payload(self.alloc, self.store.rows(), secret)? {
            Some(payload) => Ok(Asked {
                answer: Answer::Payload(payload),
                step: None,
            }),
            None => unreachable!(),
        }
    }
}
