//! Walks of main and of the bodies of joins, which wait for the answers to their requests.

ghost use Rattle.std.specs.Prelude.{◌≡◌, ◌<◌, ◌-◌, ◌^◌, suc, [], length, slice_get, IfOk};
ghost use Rattle.std.specs.Arc.{arc_value};
ghost use Rattle.flow_meaning.specs.Walk.{body_act, main_act};
ghost use Rattle.body_program.specs.Meaning as code;
ghost use Rattle.compiled_script.specs.Programs.{IsJoin};
ghost use Rattle.app_eval.specs.Walks.{Resumes, left_of, rest_of};

use crate::running::{Running, Want};
use body_program::Program;
use compiled_script::CompiledScript;
use flow_base::{Items, Value};
use flow_meaning::Answer;
use std::alloc::{AllocError, Global};
use std::marker::Model;
use std::sync::Arc;

/// What a walk is told.
#[derive(Drop)]
pub enum Reply {
    /// Nothing yet: before the first want.
    Begin,
    /// The answer to what it asked for.
    Told(Answer),
}

/// A walk. It begins again nowhere: each resume goes on in the statement that asked.
#[derive(Drop)]
pub struct Walker {
    running: Running,
    // how often it may still be resumed
    rest: u64,
}

impl Model for Walker {
    ghost use Rattle.std.specs.Coded.{codes};
    ghost use Rattle.flow_base.specs.contracts.value.Value as value;
    ghost use Rattle.body_program.specs.contracts.code.Code as code;
    ghost use Rattle.body_program.specs.contracts.code.Step as step;
    ghost use Rattle.app_eval.specs.contracts.position.InnerPosition as position;
    ghost use Rattle.app_eval.specs.Runnings.{Fits, Walk};

    ghost Value = { Walk };

    ghost coded = { Prim.hlevel (codes, value.the_row.coded, code.the_row.coded, step.the_row.coded, position.the_row.coded) };

    ghost view = { λ w. record { running = w.running; rest = w.rest } };

    ghost invariant = { λ w. Fits w.running };
}

impl Walker {
    /// The walk of main.
    pub fn main(alloc: Global, script: &CompiledScript) -> Result<Walker, AllocError>
        requires { length script.now.tree.0 < 2 ^ 32 }
        ensures left { IfOk result (λ w. left_of w ≡ main_act script.now.tree) }
        ensures rest { IfOk result (λ w. rest_of w ≡ 2 ^ 64 - 1) }
    {
        walk(alloc, script.main().clone()?, &[])
    }

    /// The walk of the body of the join of this number, with these arguments.
    pub fn body(
        alloc: Global,
        script: &CompiledScript,
        app: u32,
        arguments: Items,
    ) -> Result<Walker, AllocError>
        requires few { length script.now.tree.0 < 2 ^ 32 }
        requires app { app < length script.now.tree.0 }
        requires join { IsJoin (slice_get script.now.tree.0 app) }
        ensures left { IfOk result (λ w. left_of w ≡ body_act script.now.tree (slice_get script.now.tree.0 app) arguments) }
        ensures rest { IfOk result (λ w. rest_of w ≡ 2 ^ 64 - 1) }
    {
        walk(alloc, script.body(app).clone()?, arguments.as_slice())
    }

    /// How often it may still be resumed.
    pub fn rest(&self) -> u64
        ensures { result ≡ rest_of self.now }
    {
        self.rest
    }

    /// On to the next want. Its cost is that of the statement which asked, and of the blocks around it.
    /// A walk that has ended isn't to be resumed.
    pub fn resume(&mut self, alloc: Global, reply: Reply) -> Result<Want, AllocError>
        requires { 0 < rest_of self.old }
        ensures wants { Resumes self.old self.new reply result }
        ensures rest { suc (rest_of self.new) ≡ rest_of self.old }
    {
        self.rest -= 1;
        match reply {
            Reply::Begin => self.running.advance(alloc, &[]),
            Reply::Told(answer) => {
                self.running.tell(answer)?;
                self.running.advance(alloc, &[])
            }
        }
    }
}

fn walk(alloc: Global, program: Arc<Program>, arguments: &[Value]) -> Result<Walker, AllocError>
    ensures left { IfOk result (λ w. left_of w ≡ code.program_act (arc_value program) arguments.now []) }
    ensures rest { IfOk result (λ w. rest_of w ≡ 2 ^ 64 - 1) }
{
    let running = Running::begin(alloc, program, arguments, &[])?;
    Ok(Walker {
        running,
        rest: u64::MAX,
    })
}
