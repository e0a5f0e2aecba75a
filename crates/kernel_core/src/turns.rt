//! The turns of a kernel. Each may be refused, and then it adds nothing.

ghost use Rattle.std.specs.Prelude.{◌≡◌, false, IfOk, IfErr, IfSome, OnOk};
ghost use Rattle.kernel_model.specs.declared.answers.Refusal.TheVariants.{NoMemory};
ghost use Rattle.kernel_model.specs.Known.{has_ended, apps_in};
ghost use Rattle.kernel_model.specs.Acts.{refused};
ghost use Rattle.kernel_model.specs.Limits.{IsRefusedFor};
ghost use Rattle.kernel_model.specs.Turns.{script_step, CarriesOut, CallbackTurn, FetchTurn, DeliverTurn, StoreTurn, SettleTurn, EndTurn, Stores, Settles, IsEndOf};
ghost use Rattle.kernel_core.specs.Jobs.{FitsApps};
ghost use Rattle.kernel_core.specs.Refused.{IsRefused};

use crate::job::{Done, Job};
use crate::kernel::Kernel;
use crate::main_turn::turn_main;
use dependency_graph::Monitor;
use kernel_model::{Delivered, Refusal, ScriptTurn};
use std::alloc::AllocError;

impl<M: Monitor> Kernel<M> {
    /// Main goes on by one want. `Over` where it had ended before; `Waiting` where it waits, since an
    /// earlier turn, for a task that isn't settled. It is refused where main's call would be one too
    /// many, or where a call or a printed value would pass the stored units.
    pub fn script_turn(&mut self) -> Result<ScriptTurn, Refusal>
        requires { has_ended self.old ≡ false }
        ensures answer { IfOk result (λ answer. answer ≡ (script_step self.old).0) }
        ensures after { OnOk result (self.new ≡ (script_step self.old).1) }
        ensures refused { IfErr result (IsRefused self.old self.new (λ v. v ≡ (script_step self.old).1)) }
    {
        let Kernel {
            state,
            agenda,
            main,
        } = self;
        match turn_main(state, agenda, main) {
            Ok(answer) => Ok(answer),
            Err(refusal) => {
                state.refuse(refusal);
                Err(refusal)
            }
        }
    }

    /// Carries out a callback. A task whose inputs are all settled is launched, or settled by what the memo has of
    /// it, by one of the first three rules of a call or for the length of its path, or the body of its join runs, and the calls
    /// of that are submitted. A join that waits for nothing any more is settled by the rule of joins. False
    /// exactly where no callback is ready. It is refused where the calls would be too many, or where calls
    /// or a value would pass the stored units. Where memory is wanting some monitors may have been told.
    pub fn callback_turn(&mut self) -> Result<bool, Refusal>
        requires { has_ended self.old ≡ false }
        ensures turn { IfOk result (λ did. CallbackTurn self.old did self.new) }
        ensures refused { IfErr result (IsRefused self.old self.new (CarriesOut self.old)) }
    {
        let Kernel { state, agenda, .. } = self;
        match agenda.carry_out(state) {
            Ok(did) => Ok(did),
            Err(refusal) => {
                state.refuse(refusal);
                Err(refusal)
            }
        }
    }

    /// Starts a launched attempt, and gives its job. None exactly where no attempt waits. Only want of
    /// memory refuses it.
    pub fn fetch(&mut self) -> Result<Option<Job>, Refusal>
        requires { has_ended self.old ≡ false }
        ensures turn { IfOk result (λ job. FetchTurn self.old job self.new) }
        ensures fits { IfOk result (λ job. IfSome job (FitsApps (apps_in self.old))) }
        ensures refused { IfErr result (λ refusal. (refusal ≡ NoMemory) × (self.new ≡ refused self.old NoMemory)) }
    {
        let Kernel { state, agenda, .. } = self;
        match agenda.take_job(state) {
            Ok(job) => Ok(job),
            Err(AllocError) => {
                state.refuse(Refusal::NoMemory);
                Err(Refusal::NoMemory)
            }
        }
    }

    /// Takes the end of an attempt. Stale exactly where the attempt isn't running or its job differs.
    pub fn deliver(&mut self, done: Done) -> Delivered
        requires going { has_ended self.old ≡ false }
        requires end { IsEndOf (apps_in self.old) done }
        ensures { DeliverTurn self.old done result self.new }
    {
        let Kernel { state, agenda, .. } = self;
        agenda.deliver(state, done)
    }

    /// Stores the value of a cached app's call whose attempt is over, by its key. False exactly where there is none
    /// that isn't stored. It is refused where the key, the value and its files would pass the stored units.
    pub fn store_turn(&mut self) -> Result<bool, Refusal>
        requires { has_ended self.old ≡ false }
        ensures turn { IfOk result (λ did. StoreTurn self.old did self.new) }
        ensures refused { IfErr result (IsRefused self.old self.new (Stores self.old)) }
    {
        let Kernel { state, agenda, .. } = self;
        match agenda.store_one(state) {
            Ok(did) => Ok(did),
            Err(refusal) => {
                state.refuse(refusal);
                Err(refusal)
            }
        }
    }

    /// Settles a task whose attempt is over; the value of a cached app's call only once it is stored. False exactly
    /// where there is none. It is refused where the value and files would pass the stored units.
    pub fn settle_turn(&mut self) -> Result<bool, Refusal>
        requires { has_ended self.old ≡ false }
        ensures turn { IfOk result (λ did. SettleTurn self.old did self.new) }
        ensures refused { IfErr result (IsRefused self.old self.new (Settles self.old)) }
    {
        let Kernel { state, agenda, .. } = self;
        match agenda.settle_one(state) {
            Ok(did) => Ok(did),
            Err(refusal) => {
                state.refuse(refusal);
                Err(refusal)
            }
        }
    }

    /// Adds the end. False exactly where main has not ended or a task isn't settled. Only want of memory
    /// refuses it.
    pub fn end_turn(&mut self) -> Result<bool, Refusal>
        requires { has_ended self.old ≡ false }
        ensures turn { IfOk result (λ did. EndTurn self.old did self.new) }
        ensures refused { IfErr result (λ refusal. (refusal ≡ NoMemory) × (self.new ≡ refused self.old NoMemory)) }
    {
        let Kernel { state, agenda, .. } = self;
        match agenda.end_run(state) {
            Ok(did) => Ok(did),
            Err(AllocError) => {
                state.refuse(Refusal::NoMemory);
                Err(Refusal::NoMemory)
            }
        }
    }
}
