//! What the statements of a body do.

ghost use Rattle.std.specs.Prelude.{◌≡◌, ◌<◌, ◌≤◌, ◌-◌, true, drop, length, OnOk, Ok};
ghost use Rattle.body_program.specs.declared.code.Code.{Code as CodeOf};
ghost use Rattle.body_program.specs.declared.code.Step.TheVariants as step;
ghost use Rattle.body_program.specs.Meaning.{Store, code_value, each_turn, item_turn, one_turn, repeated, simple_does, step_does, steps_do};
ghost use Rattle.app_eval.specs.Chains.{items_of, truth_calc};
ghost use Rattle.app_eval.specs.Does as does;
ghost use Rattle.app_eval.specs.Does.{Reads, Runs, RunsHere, RunsTurn, inside_does, items_at, step_at, steps_at, turns_at};
ghost use Rattle.app_eval.specs.Frames.{flow_of, store_of};
ghost use Rattle.app_eval.specs.Gives.{GivesRun};
ghost use Rattle.app_eval.specs.Positions.{StandsInItem, StandsInOtherwise, StandsInThen, StandsInTurn, inside_fits, step_fits, steps_fit};
ghost use Rattle.flow_meaning.specs.Run.{run};

use crate::answers::Answers;
use crate::expression::Scope;
use crate::frame::{Flow, Frame};
use crate::operators::{Stop, text_of};
use crate::position::{
    Inner, InnerPosition, Interrupt, Position, in_items, in_turns, otherwise_in, then_in,
};
use body_program::{Code, Simple, Step};
use flow_base::{Exception, Items, Text, Value};
use flow_meaning::{Answer, Request};
use sqlite_items::{Boxed, at};
use std::alloc::Global;

/// What a body runs in.
#[derive(Drop)]
pub struct Interpreter<'a> {
    /// Where its values are made.
    pub alloc: Global,
    /// The names of its outputs.
    pub names: &'a [Text],
}

/// What a turn of `while` came to.
#[derive(Drop)]
pub enum Iteration {
    /// The condition is false: there is no turn.
    Over,
    /// On to the next turn.
    Goes,
    /// The body returns this value.
    Returns(Value),
}

/// Keeps the last so many answers: those before them are used up.
fn keep_last(told: &mut Vec<Answer>, left: usize)
    ensures { told.new.items ≡ drop (length told.old.items - left) told.old.items }
{
    if left == 0 {
        told.clear();
        return;
    }
    let used = told.len().saturating_sub(left);
    if used > 0 {
        told.drain(..used);
    }
}

impl Interpreter<'_> {
    // ---- conditions and lists

    /// Whether a condition holds.
    #[tactic(auto, using(crate::proofs::Lefts::last_left))]
    fn holds(&self, e: &Code, frame: &Frame, told: &mut Vec<Answer>) -> Result<bool, Interrupt<()>>
        ensures { Reads result told.old.items told.new.items (run (truth_calc frame.now.slots.items e.now) told.old.items) }
    {
        let scope = Scope {
            alloc: self.alloc,
            slots: frame.slots.as_slice(),
        };
        let mut answers = Answers {
            left: told.as_slice(),
        };
        match scope.holds(e, &mut answers) {
            Ok(holds) => {
                let left = answers.left.len();
                keep_last(told, left);
                Ok(holds)
            }
            Err(stop) => Err(Interrupt::of(stop)),
        }
    }

    /// The items of a list.
    #[tactic(auto, using(crate::proofs::Lefts::last_left))]
    fn list(&self, e: &Code, frame: &Frame, told: &mut Vec<Answer>) -> Result<Items, Interrupt<()>>
        ensures { Reads result told.old.items told.new.items (run (items_of frame.now.slots.items e.now) told.old.items) }
    {
        let scope = Scope {
            alloc: self.alloc,
            slots: frame.slots.as_slice(),
        };
        let mut answers = Answers {
            left: told.as_slice(),
        };
        match scope.list_of(e, &mut answers) {
            Ok(items) => {
                let left = answers.left.len();
                keep_last(told, left);
                Ok(items)
            }
            Err(stop) => Err(Interrupt::of(stop)),
        }
    }

    // ---- statements without blocks

    #[tactic(auto, using(crate::proofs::Rules::step_rules))]
    fn simple(
        &self,
        simple: &Simple,
        frame: &mut Frame,
        answers: &mut Answers,
    ) -> Result<Flow, Stop>
        ensures runs { RunsHere result (store_of frame.old) (store_of frame.new) answers.new.left.now (run (simple_does self.now.names.now simple.now (store_of frame.old)) answers.old.left.now) }
        ensures left { OnOk result (frame.new.left ≡ frame.old.left) }
    {
        match simple {
            Simple::Set(slot, e) => self.set(*slot, e, frame, answers),
            Simple::Append(slot, e) => self.append(*slot, e, frame, answers),
            Simple::Return(e) => self.give_back(e, frame, answers),
            Simple::Raise(e) => self.raise(e, frame, answers),
            Simple::Write(output, content) => self.write(output, content, frame, answers),
            Simple::Print(e) => self.print(e, frame, answers),
            Simple::Checkpoint => self.checkpoint(answers),
            Simple::Do(e) => self.evaluate(e, frame, answers),
        }
    }

    fn value(&self, e: &Code, frame: &Frame, answers: &mut Answers) -> Result<Value, Stop>
        ensures { GivesRun result answers.new.left.now (run (code_value frame.now.slots.items e.now) answers.old.left.now) }
    {
        let scope = Scope {
            alloc: self.alloc,
            slots: frame.slots.as_slice(),
        };
        scope.value(e, answers)
    }

    #[tactic(auto, using(crate::proofs::Rules::step_rules))]
    fn set(
        &self,
        slot: usize,
        e: &Code,
        frame: &mut Frame,
        answers: &mut Answers,
    ) -> Result<Flow, Stop>
        ensures runs { RunsHere result (store_of frame.old) (store_of frame.new) answers.new.left.now (run (does.sets slot e.now (store_of frame.old)) answers.old.left.now) }
        ensures left { OnOk result (frame.new.left ≡ frame.old.left) }
    {
        let value = self.value(e, frame, answers)?;
        frame.set(slot, value);
        Ok(Flow::Goes)
    }

    #[tactic(auto, using(crate::proofs::Rules::step_rules))]
    fn append(
        &self,
        slot: usize,
        e: &Code,
        frame: &mut Frame,
        answers: &mut Answers,
    ) -> Result<Flow, Stop>
        ensures runs { RunsHere result (store_of frame.old) (store_of frame.new) answers.new.left.now (run (does.appends_value slot e.now (store_of frame.old)) answers.old.left.now) }
        ensures left { OnOk result (frame.new.left ≡ frame.old.left) }
    {
        frame.is_set(slot)?;
        let item = self.value(e, frame, answers)?;
        frame.append(slot, item)?;
        Ok(Flow::Goes)
    }

    #[tactic(auto, using(crate::proofs::Rules::step_rules))]
    fn give_back(&self, e: &Code, frame: &Frame, answers: &mut Answers) -> Result<Flow, Stop>
        ensures { RunsHere result (store_of frame.now) (store_of frame.now) answers.new.left.now (run (does.gives_back e.now (store_of frame.now)) answers.old.left.now) }
    {
        Ok(Flow::Returns(self.value(e, frame, answers)?))
    }

    #[tactic(auto, using(crate::proofs::Rules::step_rules))]
    fn evaluate(&self, e: &Code, frame: &Frame, answers: &mut Answers) -> Result<Flow, Stop>
        ensures { RunsHere result (store_of frame.now) (store_of frame.now) answers.new.left.now (run (does.evaluates e.now (store_of frame.now)) answers.old.left.now) }
    {
        let _ = self.value(e, frame, answers)?;
        Ok(Flow::Goes)
    }

    #[tactic(auto, using(crate::proofs::Rules::step_rules))]
    fn raise(&self, e: &Code, frame: &Frame, answers: &mut Answers) -> Result<Flow, Stop>
        ensures { RunsHere result (store_of frame.now) (store_of frame.now) answers.new.left.now (run (does.raises e.now (store_of frame.now)) answers.old.left.now) }
    {
        let text = text_of(self.value(e, frame, answers)?)?;
        Err(Stop::Raised(Exception::AppError(text)))
    }

    #[tactic(auto, using(crate::proofs::Rules::step_rules))]
    fn write(
        &self,
        output: &Code,
        content: &Code,
        frame: &mut Frame,
        answers: &mut Answers,
    ) -> Result<Flow, Stop>
        ensures runs { RunsHere result (store_of frame.old) (store_of frame.new) answers.new.left.now (run (does.writes_value self.now.names.now output.now content.now (store_of frame.old)) answers.old.left.now) }
        ensures left { OnOk result (frame.new.left ≡ frame.old.left) }
    {
        let output = self.value(output, frame, answers)?;
        let content = self.value(content, frame, answers)?;
        frame.write(self.names, &output, content)?;
        Ok(Flow::Goes)
    }

    #[tactic(auto, using(crate::proofs::Rules::step_rules))]
    fn print(&self, e: &Code, frame: &Frame, answers: &mut Answers) -> Result<Flow, Stop>
        ensures { RunsHere result (store_of frame.now) (store_of frame.now) answers.new.left.now (run (does.prints e.now (store_of frame.now)) answers.old.left.now) }
    {
        let value = self.value(e, frame, answers)?;
        match answers.next() {
            None => Err(Stop::Asks(Request::Print(value))),
            Some(_) => Ok(Flow::Goes),
        }
    }

    fn checkpoint(&self, answers: &mut Answers) -> Result<Flow, Stop>
        ensures { (s : Store) → RunsHere result s s answers.new.left.now (run (does.checkpoints s) answers.old.left.now) }
    {
        match answers.next() {
            None => Err(Stop::Asks(Request::Checkpoint)),
            Some(_) => Ok(Flow::Goes),
        }
    }

    /// A statement without blocks, with the answers that it was told.
    #[tactic(auto, using(crate::proofs::Lefts::last_left, crate::proofs::Insides::simple_steps))]
    fn simple_step(
        &self,
        simple: &Simple,
        frame: &mut Frame,
        told: &mut Vec<Answer>,
    ) -> Result<Flow, Interrupt<Inner>>
        ensures runs { Runs flow_of (step_at self.now.names.now (step.Simple simple.now)) result (store_of frame.new) told.new.items (run (simple_does self.now.names.now simple.now (store_of frame.old)) told.old.items) }
        ensures left { OnOk result (frame.new.left ≡ frame.old.left) }
    {
        let mut answers = Answers {
            left: told.as_slice(),
        };
        match self.simple(simple, frame, &mut answers) {
            Ok(flow) => {
                let left = answers.left.len();
                keep_last(told, left);
                Ok(flow)
            }
            Err(stop) => Err(Interrupt::of(stop).here()),
        }
    }

    // ---- blocks, from a place in them

    /// What a block does from a place that it has on, by the answers that its statement there was told.
    /// Where it asks it tells the place from which it goes on, and leaves the answers of the statement
    /// there.
    #[cycle(step)]
    #[tactic(auto, using(crate::proofs::Rules::step_rules, crate::proofs::Insides::place_rules))]
    pub fn steps(
        &self,
        steps: &[Step],
        place: Position,
        frame: &mut Frame,
        told: &mut Vec<Answer>,
    ) -> Result<Flow, Interrupt<Position>>
        requires { steps_fit steps.now place ≡ true }
        ensures runs { Runs flow_of (λ p. steps_at self.now.names.now steps.now p.step p.inside) result (store_of frame.new) told.new.items (run (steps_at self.now.names.now steps.now place.step place.inside (store_of frame.old)) told.old.items) }
        ensures turns { OnOk result (frame.new.left ≤ frame.old.left) }
    {
        let Position {
            step: number,
            inside,
        } = place;
        match at(steps, number) {
            None => Ok(Flow::Goes),
            Some(step) => match self.step(step, inside, frame, told) {
                Ok(Flow::Goes) => self.rest(steps, number + 1, frame, told),
                Ok(Flow::Returns(value)) => Ok(Flow::Returns(value)),
                Err(halt) => Err(halt.in_step(number)),
            },
        }
    }

    /// The statements from a number on.
    #[cycle(step)]
    #[tactic(auto, using(crate::proofs::Rules::step_rules, crate::proofs::Insides::place_rules))]
    fn rest(
        &self,
        steps: &[Step],
        from: usize,
        frame: &mut Frame,
        told: &mut Vec<Answer>,
    ) -> Result<Flow, Interrupt<Position>>
        ensures runs { Runs flow_of (λ p. steps_at self.now.names.now steps.now p.step p.inside) result (store_of frame.new) told.new.items (run (steps_do self.now.names.now (drop from steps.now) (store_of frame.old)) told.old.items) }
        ensures turns { OnOk result (frame.new.left ≤ frame.old.left) }
    {
        for number in from..steps.len() {
            match self.step(&steps[number], None, frame, told) {
                Ok(Flow::Goes) => {}
                Ok(Flow::Returns(value)) => return Ok(Flow::Returns(value)),
                Err(halt) => return Err(halt.in_step(number)),
            }
        }
        Ok(Flow::Goes)
    }

    /// A statement, from its beginning or from inside.
    #[cycle(step)]
    #[tactic(auto, using(crate::proofs::Rules::step_rules, crate::proofs::Insides::place_rules))]
    fn step(
        &self,
        step: &Step,
        inside: Inner,
        frame: &mut Frame,
        told: &mut Vec<Answer>,
    ) -> Result<Flow, Interrupt<Inner>>
        requires { step_fits step.now inside ≡ true }
        ensures runs { Runs flow_of (step_at self.now.names.now step.now) result (store_of frame.new) told.new.items (run (step_at self.now.names.now step.now inside (store_of frame.old)) told.old.items) }
        ensures turns { OnOk result (frame.new.left ≤ frame.old.left) }
    {
        match inside {
            None => self.begin(step, frame, told),
            Some(inside) => self.go_on(step, inside.into_inner(), frame, told),
        }
    }

    #[cycle(step)]
    #[tactic(auto, using(crate::proofs::Rules::step_rules, crate::proofs::Insides::place_rules))]
    fn begin(
        &self,
        step: &Step,
        frame: &mut Frame,
        told: &mut Vec<Answer>,
    ) -> Result<Flow, Interrupt<Inner>>
        ensures runs { Runs flow_of (step_at self.now.names.now step.now) result (store_of frame.new) told.new.items (run (step_does self.now.names.now step.now (store_of frame.old)) told.old.items) }
        ensures turns { OnOk result (frame.new.left ≤ frame.old.left) }
    {
        match step {
            Step::While(condition, body) => self.repeat(body.as_slice(), condition, frame, told),
            Step::For(slot, list, body) => match self.list(list, frame, told) {
                Ok(items) => self.each(body.as_slice(), *slot, items, 0, frame, told),
                Err(halt) => Err(halt.here()),
            },
            Step::If(condition, steps, others) => match self.holds(condition, frame, told) {
                Ok(true) => then_in(self.alloc, self.rest(steps.as_slice(), 0, frame, told)),
                Ok(false) => otherwise_in(self.alloc, self.rest(others.as_slice(), 0, frame, told)),
                Err(halt) => Err(halt.here()),
            },
            Step::Simple(simple) => self.simple_step(simple, frame, told),
        }
    }

    #[cycle(step)]
    #[tactic(auto, using(crate::proofs::Rules::step_rules, crate::proofs::Insides::place_rules))]
    fn go_on(
        &self,
        step: &Step,
        inside: InnerPosition,
        frame: &mut Frame,
        told: &mut Vec<Answer>,
    ) -> Result<Flow, Interrupt<Inner>>
        requires { inside_fits inside step.now ≡ true }
        ensures runs { Runs flow_of (step_at self.now.names.now step.now) result (store_of frame.new) told.new.items (run (inside_does self.now.names.now inside step.now (store_of frame.old)) told.old.items) }
        ensures turns { OnOk result (frame.new.left ≤ frame.old.left) }
    {
        match inside {
            InnerPosition::Then(number, inside) => match step {
                Step::If(_, steps, _) => {
                    let place = Position {
                        step: number,
                        inside,
                    };
                    let steps = steps.as_slice();
                    stands_in_then(step, steps, &place);
                    then_in(self.alloc, self.steps(steps, place, frame, told))
                }
                _ => unreachable!(),
            },
            InnerPosition::Otherwise(number, inside) => match step {
                Step::If(_, _, others) => {
                    let place = Position {
                        step: number,
                        inside,
                    };
                    let others = others.as_slice();
                    stands_in_otherwise(step, others, &place);
                    otherwise_in(self.alloc, self.steps(others, place, frame, told))
                }
                _ => unreachable!(),
            },
            InnerPosition::Iteration(number, inside) => match step {
                Step::While(condition, body) => {
                    let place = Position {
                        step: number,
                        inside,
                    };
                    let body = body.as_slice();
                    stands_in_turn(step, body, &place);
                    self.go_on_turns(body, condition, place, frame, told)
                }
                _ => unreachable!(),
            },
            InnerPosition::Item(items, next, number, inside) => match step {
                Step::For(slot, _, body) => {
                    let place = Position {
                        step: number,
                        inside,
                    };
                    let body = body.as_slice();
                    stands_in_item(step, body, items.as_slice(), next, &place);
                    self.go_on_items(body, *slot, items, next, place, frame, told)
                }
                _ => unreachable!(),
            },
        }
    }

    // ---- loops

    #[cycle(step)]
    #[tactic(auto, using(crate::proofs::Rules::step_rules, crate::proofs::Insides::place_rules))]
    fn repeat(
        &self,
        body: &[Step],
        condition: &Code,
        frame: &mut Frame,
        told: &mut Vec<Answer>,
    ) -> Result<Flow, Interrupt<Inner>>
        ensures runs { Runs flow_of (step_at self.now.names.now (step.While condition.now body.now)) result (store_of frame.new) told.new.items (run (repeated condition.now (steps_do self.now.names.now body.now) (store_of frame.old)) told.old.items) }
        ensures turns { OnOk result (frame.new.left ≤ frame.old.left) }
    {
        'turns: loop {
            match self.turn(body, condition, frame, told) {
                Ok(Iteration::Over) => return Ok(Flow::Goes),
                Ok(Iteration::Goes) => {}
                Ok(Iteration::Returns(value)) => return Ok(Flow::Returns(value)),
                Err(halt) => return Err(in_turns(self.alloc, halt)),
            }
        }
    }

    #[cycle(step)]
    #[tactic(auto, using(crate::proofs::Rules::step_rules, crate::proofs::Insides::place_rules))]
    fn turn(
        &self,
        body: &[Step],
        condition: &Code,
        frame: &mut Frame,
        told: &mut Vec<Answer>,
    ) -> Result<Iteration, Interrupt<Option<Position>>>
        ensures runs { RunsTurn self.now.names.now body.now result (store_of frame.old) (store_of frame.new) told.old.items told.new.items (run (one_turn condition.now (steps_do self.now.names.now body.now) (store_of frame.old)) told.old.items) }
        ensures turns { OnOk result (frame.new.left ≤ frame.old.left) }
        ensures over { result ≡ Ok Iteration.Over → store_of frame.new ≡ store_of frame.old }
        ensures goes { result ≡ Ok Iteration.Goes → frame.new.left < frame.old.left }
    {
        match self.holds(condition, frame, told) {
            Err(halt) => return Err(halt.here()),
            Ok(false) => return Ok(Iteration::Over),
            Ok(true) => {}
        }
        frame.turn()?;
        match self.rest(body, 0, frame, told) {
            Ok(Flow::Goes) => Ok(Iteration::Goes),
            Ok(Flow::Returns(value)) => Ok(Iteration::Returns(value)),
            Err(halt) => Err(halt.further()),
        }
    }

    /// A turn from a place on, and the turns behind it.
    #[cycle(step)]
    #[tactic(auto, using(crate::proofs::Rules::step_rules, crate::proofs::Insides::place_rules))]
    fn go_on_turns(
        &self,
        body: &[Step],
        condition: &Code,
        place: Position,
        frame: &mut Frame,
        told: &mut Vec<Answer>,
    ) -> Result<Flow, Interrupt<Inner>>
        requires { steps_fit body.now place ≡ true }
        ensures runs { Runs flow_of (step_at self.now.names.now (step.While condition.now body.now)) result (store_of frame.new) told.new.items (run (turns_at self.now.names.now condition.now body.now place.step place.inside (store_of frame.old)) told.old.items) }
        ensures turns { OnOk result (frame.new.left ≤ frame.old.left) }
    {
        match self.steps(body, place, frame, told) {
            Ok(Flow::Goes) => self.repeat(body, condition, frame, told),
            Ok(Flow::Returns(value)) => Ok(Flow::Returns(value)),
            Err(halt) => Err(in_turns(self.alloc, halt.further())),
        }
    }

    #[cycle(step)]
    #[tactic(auto, using(crate::proofs::Rules::step_rules, crate::proofs::Insides::place_rules))]
    fn each(
        &self,
        body: &[Step],
        slot: usize,
        items: Items,
        from: usize,
        frame: &mut Frame,
        told: &mut Vec<Answer>,
    ) -> Result<Flow, Interrupt<Inner>>
        ensures runs { (e : CodeOf) → Runs flow_of (step_at self.now.names.now (step.For slot e body.now)) result (store_of frame.new) told.new.items (run (each_turn slot (steps_do self.now.names.now body.now) (drop from items) (store_of frame.old)) told.old.items) }
        ensures turns { OnOk result (frame.new.left ≤ frame.old.left) }
    {
        let mut next = from;
        'turns: loop {
            let item = match at(items.as_slice(), next) {
                None => return Ok(Flow::Goes),
                Some(item) => item.copy(self.alloc)?,
            };
            next += 1;
            match self.item(body, slot, item, frame, told) {
                Ok(Flow::Goes) => {}
                Ok(Flow::Returns(value)) => return Ok(Flow::Returns(value)),
                Err(halt) => return Err(in_items(self.alloc, items, next, halt)),
            }
        }
    }

    /// A turn with an item.
    #[cycle(step)]
    #[tactic(auto, using(crate::proofs::Rules::step_rules, crate::proofs::Insides::place_rules))]
    fn item(
        &self,
        body: &[Step],
        slot: usize,
        item: Value,
        frame: &mut Frame,
        told: &mut Vec<Answer>,
    ) -> Result<Flow, Interrupt<Position>>
        ensures runs { Runs flow_of (λ p. steps_at self.now.names.now body.now p.step p.inside) result (store_of frame.new) told.new.items (run (item_turn slot (steps_do self.now.names.now body.now) item (store_of frame.old)) told.old.items) }
        ensures turns { OnOk result (frame.new.left ≤ frame.old.left) }
    {
        frame.turn()?;
        frame.set(slot, item);
        self.rest(body, 0, frame, told)
    }

    /// A turn from a place on, and the turns with the items behind it.
    #[cycle(step)]
    #[tactic(auto, using(crate::proofs::Rules::step_rules, crate::proofs::Insides::place_rules))]
    fn go_on_items(
        &self,
        body: &[Step],
        slot: usize,
        items: Items,
        next: usize,
        place: Position,
        frame: &mut Frame,
        told: &mut Vec<Answer>,
    ) -> Result<Flow, Interrupt<Inner>>
        requires { steps_fit body.now place ≡ true }
        ensures runs { (e : CodeOf) → Runs flow_of (step_at self.now.names.now (step.For slot e body.now)) result (store_of frame.new) told.new.items (run (items_at self.now.names.now slot body.now (drop next items) place.step place.inside (store_of frame.old)) told.old.items) }
        ensures turns { OnOk result (frame.new.left ≤ frame.old.left) }
    {
        match self.steps(body, place, frame, told) {
            Ok(Flow::Goes) => self.each(body, slot, items, next, frame, told),
            Ok(Flow::Returns(value)) => Ok(Flow::Returns(value)),
            Err(halt) => Err(in_items(self.alloc, items, next, halt)),
        }
    }
}

/// A place in the block of an `if` is one that the block has.
fn stands_in_then(step: &Step, block: &[Step], place: &Position)
    requires { StandsInThen step.now block.now place.now }
    ensures { steps_fit block.now place.now ≡ true }
{}

/// The same of the block behind `else`.
fn stands_in_otherwise(step: &Step, block: &[Step], place: &Position)
    requires { StandsInOtherwise step.now block.now place.now }
    ensures { steps_fit block.now place.now ≡ true }
{}

/// The same of the block of a `while`.
fn stands_in_turn(step: &Step, block: &[Step], place: &Position)
    requires { StandsInTurn step.now block.now place.now }
    ensures { steps_fit block.now place.now ≡ true }
{}

/// The same of the block of a `for`.
fn stands_in_item(step: &Step, block: &[Step], items: &[Value], next: usize, place: &Position)
    requires { StandsInItem step.now block.now items.now next place.now }
    ensures { steps_fit block.now place.now ≡ true }
{}
