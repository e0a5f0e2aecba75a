//! A body that runs, from one request to the next.

ghost use Rattle.std.specs.Prelude.{◌≡◌, ◌++◌, ◌∷◌, [], List, None, Some, IfOk, OnOk, slice_set};
ghost use Rattle.std.specs.Arc.{arc_value};
ghost use Rattle.app_eval.specs.Runnings.{Advances, Fits, Halted, left_after, ran_of};
ghost use Rattle.body_program.specs.Meaning as code;
ghost use Rattle.flow_meaning.specs.Meaning as m;
ghost use Rattle.flow_meaning.specs.Operators.{Text as TextOf};
ghost use Rattle.flow_meaning.specs.Run.{run};

use crate::ending::end_of;
use crate::frame::Frame;
use crate::interpreter::Interpreter;
use crate::position::{Interrupt, Position};
use crate::variable::Variable;
use body_program::Program;
use flow_base::{Ended, Items, Names, Text, Value};
use flow_meaning::{Answer, Request};
use std::alloc::{AllocError, Global};
use std::mem;
use std::sync::Arc;

/// The turns that the loops of a body may make.
const MAX_TURNS: u32 = 1000000;

/// What a body wants.
#[derive(Drop)]
pub enum Want {
    /// The answer to this, before it goes on.
    Asks(Request),
    /// Nothing more: it has ended so.
    Ended(Ended),
}

/// A body that runs.
#[derive(Drop)]
pub struct Running {
    /// What it does.
    pub program: Arc<Program>,
    /// What it has.
    pub frame: Frame,
    /// Where it waits.
    pub place: Position,
    /// The answers that the statement at the place was told.
    pub told: Vec<Answer>,
}

/// The beginning of a body.
fn beginning() -> Position
    ensures { result ≡ record { step = 0; inside = None } }
{
    Position {
        step: 0,
        inside: None,
    }
}

impl Running {
    /// A body before its first statement.
    #[tactic(auto, using(crate::proofs::Begins::begins_at), unfolding(body_program::specs::Meaning::program_act))]
    pub fn begin(
        alloc: Global,
        program: Arc<Program>,
        arguments: &[Value],
        names: &[Text],
    ) -> Result<Running, AllocError>
        ensures runs { IfOk result (λ r. ran_of names.now r ≡ run (code.program_act (arc_value program) arguments.now names.now) []) }
        ensures fits { IfOk result Fits }
    {
        let slots = slots_of(alloc, &program, arguments)?;
        Ok(Running {
            program,
            frame: Frame {
                slots,
                written: unwritten(alloc, names)?,
                left: MAX_TURNS,
            },
            place: beginning(),
            told: Vec::new(alloc),
        })
    }

    /// One more answer.
    pub fn tell(&mut self, answer: Answer) -> Result<(), AllocError>
        requires { Fits self.old }
        ensures told { (names : List TextOf) → OnOk result (ran_of names self.new ≡ run (left_after names self.old) (self.old.told.items ++ answer ∷ [])) }
        ensures fits { Fits self.new }
    {
        self.told.push(answer)?;
        Ok(())
    }

    /// On to the next request, or to the end.
    #[tactic(auto, using(crate::proofs::Advances::ended_advances))]
    pub fn advance(&mut self, alloc: Global, names: &[Text]) -> Result<Want, AllocError>
        requires { Fits self.old }
        ensures advances { Advances names.now self.old self.new result }
        ensures fits { Fits self.new }
    {
        let body = Interpreter { alloc, names };
        let place = mem::replace(&mut self.place, beginning());
        let steps = self.program.steps.as_slice();
        match body.steps(steps, place, &mut self.frame, &mut self.told) {
            Ok(flow) => Ok(Want::Ended(end_of(alloc, names, self.frame.written.as_slice(), flow)?)),
            Err(halt) => self.halted(halt),
        }
    }

    /// The end by an exception, or a request, at whose place it waits.
    fn halted(&mut self, halt: Interrupt<Position>) -> Result<Want, AllocError>
        ensures { Halted halt self.old self.new result }
    {
        match halt {
            Interrupt::Raised(exception) => Ok(Want::Ended(Ended::Raised(exception))),
            Interrupt::Asks(request, place) => {
                self.place = place;
                Ok(Want::Asks(request))
            }
            Interrupt::NoMemory => Err(AllocError),
        }
    }
}

/// The variables of a body at its beginning: its parameters have their arguments.
fn slots_of(
    alloc: Global,
    program: &Program,
    arguments: &[Value],
) -> Result<Vec<Option<Variable>>, AllocError>
    ensures { IfOk result (λ slots. slots.items ≡ code.with_arguments program.now.parameters arguments.now (code.none_set program.now.slots)) }
{
    let mut slots = none_set(alloc, program.slots)?;
    set_arguments(alloc, program.parameters.as_slice(), arguments, &mut slots)?;
    Ok(slots)
}

/// No variable is set.
#[tactic(auto, using(crate::proofs::Begins::none_more))]
fn none_set(alloc: Global, count: usize) -> Result<Vec<Option<Variable>>, AllocError>
    ensures { IfOk result (λ slots. slots.items ≡ code.none_set count) }
{
    let mut slots = Vec::new(alloc);
    for _slot in 0..count {
        slots.push(None)?;
    }
    Ok(slots)
}

/// Sets parameters to their arguments, the last first.
fn set_arguments(
    alloc: Global,
    parameters: &[usize],
    arguments: &[Value],
    slots: &mut Vec<Option<Variable>>,
) -> Result<(), AllocError>
    ensures { OnOk result (slots.new.items ≡ code.with_arguments parameters.now arguments.now slots.old.items) }
{
    let mut count = parameters.len().min(arguments.len());
    'arguments: while count > 0 {
        count -= 1;
        set_slot(slots, parameters[count], arguments[count].copy(alloc)?);
    }
    Ok(())
}

/// Sets a variable, where there is a slot for it.
fn set_slot(slots: &mut Vec<Option<Variable>>, slot: usize, value: Value)
    ensures { slots.new.items ≡ slice_set slots.old.items slot (Some value) }
{
    if slot < slots.len() {
        slots[slot] = Some(Variable::of(value));
    }
}

/// No output is written yet.
fn unwritten(alloc: Global, names: &[Text]) -> Result<Vec<Option<Text>>, AllocError>
    ensures { IfOk result (λ written. written.items ≡ m.unwritten names.now) }
{
    let mut written = Vec::new(alloc);
    for _name in names {
        written.push(None)?;
    }
    Ok(written)
}
