//! Walks of main and of joins.

ghost use Rattle.std.specs.Prelude.{◌≡◌, ◌+◌, ◌-◌, ◌<◌, ◌^◌, suc, length, slice_get, IfOk, OnOk};
ghost use Rattle.flow_meaning.specs.Walk.{body_act, main_act};
ghost use Rattle.compiled_script.specs.Programs.{IsJoin};
ghost use Rattle.app_eval.specs.Walks.{Resumes, left_of, rest_of};

use app_eval::{Reply, Walker, Want};
use compiled_script::CompiledScript;
use flow_base::Items;
use std::alloc::{AllocError, Global};

/// What a walk was told.
#[derive(Clone, Copy)]
pub enum Told {
    /// To begin.
    Start,
    /// An answer.
    Answer,
}

/// A walk, and what it was told.
#[derive(Drop)]
pub struct CountedWalk {
    pub walker: Walker,
    // what it was told so far: a vector never gets as long as a walk may be
    pub told: Vec<Told>,
}

impl CountedWalk {
    /// The walk of main at its beginning.
    pub fn main(alloc: Global, script: &CompiledScript) -> Result<CountedWalk, AllocError>
        requires { length script.now.tree.0 < 2 ^ 32 }
        ensures left { IfOk result (λ w. left_of w.walker ≡ main_act script.now.tree) }
        ensures rest { IfOk result (λ w. length w.told.items + rest_of w.walker ≡ 2 ^ 64 - 1) }
    {
        Ok(CountedWalk {
            walker: Walker::main(alloc, script)?,
            told: Vec::new(alloc),
        })
    }

    /// The walk of a join's body at its beginning.
    pub fn join(
        alloc: Global,
        script: &CompiledScript,
        app: u32,
        arguments: Items,
    ) -> Result<CountedWalk, AllocError>
        requires few { length script.now.tree.0 < 2 ^ 32 }
        requires app { app < length script.now.tree.0 }
        requires join { IsJoin (slice_get script.now.tree.0 app) }
        ensures left { IfOk result (λ w. left_of w.walker ≡ body_act script.now.tree (slice_get script.now.tree.0 app) arguments) }
        ensures rest { IfOk result (λ w. length w.told.items + rest_of w.walker ≡ 2 ^ 64 - 1) }
    {
        Ok(CountedWalk {
            walker: Walker::body(alloc, script, app, arguments)?,
            told: Vec::new(alloc),
        })
    }

    /// On to the next want.
    pub fn resume(&mut self, alloc: Global, reply: Reply) -> Result<Want, AllocError>
        requires { length self.old.told.items + rest_of self.old.walker ≡ 2 ^ 64 - 1 }
        ensures wants { Resumes self.old.walker self.new.walker reply result }
        ensures rest { OnOk result (length self.new.told.items + rest_of self.new.walker ≡ 2 ^ 64 - 1) }
        ensures fewer { OnOk result (suc (rest_of self.new.walker) ≡ rest_of self.old.walker) }
    {
        let told = match &reply {
            Reply::Begin => Told::Start,
            Reply::Told(_) => Told::Answer,
        };
        self.told.push(told)?;
        let _times = self.told.len();
        self.walker.resume(alloc, reply)
    }
}
