//! Main's walk, from one want to the next.

ghost use Rattle.std.specs.Prelude.{◌≡◌, ◌-◌, ◌^◌, ◌<◌, [], ◌∷◌, length, IfOk, OnOk, slice_get};
ghost use Rattle.flow_meaning.specs.Act.{after};
ghost use Rattle.flow_meaning.specs.Walk.{main_act};
ghost use Rattle.app_eval.specs.Walks.{left_of, first_want};
ghost use Rattle.app_eval.specs.Runnings.{Unended};
ghost use Rattle.kernel_core.specs.declared.main_walk.Standing.TheVariants as standing;
ghost use Rattle.kernel_core.specs.MainWalks.{left_in, rest_in, IsReady};

use app_eval::{Reply, Walker, Want};
use compiled_script::CompiledScript;
use flow_meaning::{Answer, Request};
use std::alloc::{AllocError, Global};
use std::mem;

/// Where a walk stands.
#[derive(Drop)]
pub enum Standing {
    /// It goes on with this.
    Told(Reply),
    /// It asked for this, and isn't answered.
    Asks(Request),
    /// What it asked for was taken.
    Taken,
}

/// Main's walk: what is left of main, and what main waits for.
#[derive(Drop)]
pub struct MainWalk {
    pub(crate) walker: Walker,
    pub(crate) standing: Standing,
}

impl MainWalk {
    /// The walk of main before its first statement.
    pub fn new(alloc: Global, script: &CompiledScript) -> Result<MainWalk, AllocError>
        requires { length script.now.tree.0 < 2 ^ 32 }
        ensures left { IfOk result (λ m. left_in m ≡ main_act script.now.tree) }
        ensures rest { IfOk result (λ m. rest_in m ≡ 2 ^ 64 - 1) }
        ensures ready { IfOk result IsReady }
    {
        Ok(MainWalk {
            walker: Walker::main(alloc, script)?,
            standing: Standing::Told(Reply::Begin),
        })
    }

    /// What main wants next. It stays open until `keep` or `tell`.
    pub fn take(&mut self, alloc: Global) -> Result<Want, AllocError>
        requires ready { IsReady self.old }
        requires rest { 0 < rest_in self.old }
        ensures wants { IfOk result (λ want. want ≡ first_want (left_in self.old)) }
        ensures left { IfOk result (λ want. Unended want (left_in self.new ≡ left_in self.old)) }
        ensures rest { OnOk result (rest_in self.new ≡ rest_in self.old) }
        ensures taken { OnOk result (self.new.standing ≡ standing.Taken) }
    {
        match mem::replace(&mut self.standing, Standing::Taken) {
            Standing::Told(reply) => self.walker.resume(alloc, reply),
            Standing::Asks(request) => Ok(Want::Asks(request)),
            Standing::Taken => unreachable!(),
        }
    }

    /// Main goes on waiting for this.
    pub fn keep(&mut self, request: Request)
        requires taken { self.old.standing ≡ standing.Taken }
        requires asked { first_want (left_in self.old) ≡ Want.Asks request }
        ensures left { left_in self.new ≡ left_in self.old }
        ensures rest { rest_in self.new ≡ rest_in self.old }
        ensures ready { IsReady self.new }
    {
        self.standing = Standing::Asks(request);
    }

    /// Main is to go on with this answer.
    pub fn tell(&mut self, answer: Answer)
        requires taken { self.old.standing ≡ standing.Taken }
        requires rest { 0 < rest_in self.old }
        ensures left { left_in self.new ≡ after (left_in self.old) (answer ∷ []) }
        ensures rest { rest_in self.new ≡ rest_in self.old - 1 }
        ensures ready { IsReady self.new }
    {
        self.standing = Standing::Told(Reply::Told(answer));
    }
}
