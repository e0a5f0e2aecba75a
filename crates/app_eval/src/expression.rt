//! The value of an expression.

ghost use Rattle.std.specs.Prelude.{Some, ◌∷◌, [], map, slice_get};
ghost use Rattle.app_eval.specs.Gives.{Answers as Exactly, GivesRun};
ghost use Rattle.body_program.specs.Meaning as code;
ghost use Rattle.body_program.specs.Meaning.{code_value};
ghost use Rattle.flow_meaning.specs.Meaning as m;
ghost use Rattle.flow_meaning.specs.Run.{run};
ghost use Rattle.app_eval.specs.Chains as calc;
ghost use Rattle.flow_meaning.specs.Operators as meaning;

use crate::answers::Answers;
use crate::built_ins;
use crate::comparisons::compared;
use crate::indexing::indexed;
use crate::limits::limited;
use crate::operand::Operand;
use crate::operators::{Stop, added, list_of, multiplied, negated, texts_of, truth, truth_of};
use crate::variable::Variable;
use body_program::Code;
use flow_base::{Exception, Items, Names, Value};
use flow_meaning::{Answer, Request};
use script_tree::tree::{BuiltIn, CompareOp, SumOp, TermOp, UnaryOp};
use sqlite_items::{Items as ListOf, at};
use std::alloc::Global;

/// What an expression is evaluated in: the variables of the body.
#[derive(Drop)]
pub struct Scope<'a> {
    /// Where values are made.
    pub alloc: Global,
    /// The variables, by their slots.
    pub slots: &'a [Option<Variable>],
}

impl<'a> Scope<'a> {
    /// The value of an expression, by the answers to its requests.
    #[cycle(expr)]
    #[tactic(auto, using(crate::proofs::Rules::run_rules))]
    pub fn value(&self, e: &'a Code, answers: &mut Answers) -> Result<Value, Stop>
        ensures { GivesRun result answers.new.left.now (run (code_value self.now.slots.now e.now) answers.old.left.now) }
    {
        Ok(self.got(e, answers)?.into_value(self.alloc)?)
    }

    /// Whether a condition holds.
    #[cycle(expr)]
    #[tactic(auto, using(crate::proofs::Rules::run_rules))]
    pub fn holds(&self, e: &'a Code, answers: &mut Answers) -> Result<bool, Stop>
        ensures { GivesRun result answers.new.left.now (run (calc.truth_calc self.now.slots.now e.now) answers.old.left.now) }
    {
        Ok(truth_of(self.got(e, answers)?.get())?)
    }

    /// The items of a list.
    #[tactic(auto, using(crate::proofs::Rules::run_rules))]
    pub fn list_of(&self, e: &'a Code, answers: &mut Answers) -> Result<Items, Stop>
        ensures { GivesRun result answers.new.left.now (run (calc.items_of self.now.slots.now e.now) answers.old.left.now) }
    {
        Ok(list_of(self.value(e, answers)?)?)
    }

    /// What an expression gives.
    #[cycle(expr)]
    #[tactic(auto, using(crate::proofs::Rules::code_rules))]
    pub fn got(&self, e: &'a Code, answers: &mut Answers) -> Result<Operand<'a>, Stop>
        ensures { GivesRun result answers.new.left.now (run (code_value self.now.slots.now e.now) answers.old.left.now) }
    {
        match e {
            Code::Constant(value) => Ok(Operand::kept(value)),
            Code::TooLarge => Err(Stop::Raised(Exception::SizeError)),
            Code::Slot(slot) => Ok(self.variable(*slot)?),
            Code::List(es) => self.list(es.as_slice(), answers),
            Code::One(built_in, e) => self.one(e.get(), *built_in, answers),
            Code::Two(built_in, d, e) => {
                let first = self.got(d.get(), answers)?;
                self.two(e.get(), *built_in, first, answers)
            }
            Code::Three(built_in, c, d, e) => {
                let first = self.got(c.get(), answers)?;
                let second = self.got(d.get(), answers)?;
                self.three(e.get(), *built_in, first, second, answers)
            }
            Code::Unknown(es) => self.unknown(es.as_slice(), answers),
            Code::Call(app, arguments, names) => {
                let arguments = self.values(arguments.as_slice(), answers)?;
                self.call(names.as_slice(), *app, arguments, answers)
            }
            Code::Any(first, others) => {
                let holds = self.holds(first.get(), answers)?;
                self.any(others.as_slice(), holds, answers)
            }
            Code::All(first, others) => {
                let holds = self.holds(first.get(), answers)?;
                self.all(others.as_slice(), holds, answers)
            }
            Code::Compared(op, d, e) => {
                let left = self.got(d.get(), answers)?;
                self.comparison(e.get(), *op, left, answers)
            }
            Code::Sum(first, others) => {
                let left = self.got(first.get(), answers)?;
                self.sums(others.as_slice(), left, answers)
            }
            Code::Product(first, others) => {
                let left = self.got(first.get(), answers)?;
                self.products(others.as_slice(), left, answers)
            }
            Code::At(from, indices) => {
                let from = self.got(from.get(), answers)?;
                self.items_at(indices.as_slice(), from, answers)
            }
            Code::Signed(op, e) => self.signed(e.get(), *op, answers),
        }
    }

    fn variable(&self, slot: usize) -> Result<Operand<'a>, Exception>
        ensures { Exactly result (code.held (slice_get self.now.slots.now slot)) }
    {
        match at(self.slots, slot) {
            None => Err(Exception::TypeError),
            Some(None) => Err(Exception::TypeError),
            Some(Some(held)) => Ok(Operand::kept(held.get())),
        }
    }

    #[cycle(expr)]
    #[tactic(auto, using(crate::proofs::Rules::run_rules))]
    fn signed(&self, e: &'a Code, op: UnaryOp, answers: &mut Answers) -> Result<Operand<'a>, Stop>
        ensures { GivesRun result answers.new.left.now (run (calc.signed_calc self.now.slots.now op e.now) answers.old.left.now) }
    {
        let value = self.got(e, answers)?;
        Ok(Operand::made(signed_value(op, value.get())?))
    }

    #[cycle(expr)]
    #[tactic(auto, using(crate::proofs::Rules::run_rules))]
    fn one(
        &self,
        e: &'a Code,
        built_in: BuiltIn,
        answers: &mut Answers,
    ) -> Result<Operand<'a>, Stop>
        ensures { GivesRun result answers.new.left.now (run (calc.one_calc self.now.slots.now built_in e.now) answers.old.left.now) }
    {
        let value = self.got(e, answers)?;
        Ok(Operand::made(built_ins::one(self.alloc, built_in, value.get(), answers)?))
    }

    #[cycle(expr)]
    #[tactic(auto, using(crate::proofs::Rules::run_rules))]
    fn two(
        &self,
        e: &'a Code,
        built_in: BuiltIn,
        first: Operand<'a>,
        answers: &mut Answers,
    ) -> Result<Operand<'a>, Stop>
        ensures { GivesRun result answers.new.left.now (run (calc.two_from self.now.slots.now built_in first.entry e.now) answers.old.left.now) }
    {
        let second = self.got(e, answers)?;
        Ok(Operand::made(built_ins::two(self.alloc, built_in, first.get(), second.get())?))
    }

    #[cycle(expr)]
    #[tactic(auto, using(crate::proofs::Rules::run_rules))]
    fn three(
        &self,
        e: &'a Code,
        built_in: BuiltIn,
        first: Operand<'a>,
        second: Operand<'a>,
        answers: &mut Answers,
    ) -> Result<Operand<'a>, Stop>
        ensures { GivesRun result answers.new.left.now (run (calc.three_from self.now.slots.now built_in first.entry second.entry e.now) answers.old.left.now) }
    {
        let third = self.got(e, answers)?;
        Ok(Operand::made(built_ins::three(
            self.alloc,
            built_in,
            first.get(),
            second.get(),
            third.get(),
        )?))
    }

    #[cycle(expr)]
    #[tactic(auto, using(crate::proofs::Rules::run_rules))]
    fn comparison(
        &self,
        e: &'a Code,
        op: CompareOp,
        left: Operand<'a>,
        answers: &mut Answers,
    ) -> Result<Operand<'a>, Stop>
        ensures { GivesRun result answers.new.left.now (run (calc.compared_from self.now.slots.now op left.entry e.now) answers.old.left.now) }
    {
        let right = self.got(e, answers)?;
        Ok(Operand::made(compared(op, left.get(), right.get())?))
    }

    #[cycle(expr)]
    #[tactic(auto, using(crate::proofs::Rules::run_rules))]
    fn unknown(&self, es: &'a [Code], answers: &mut Answers) -> Result<Operand<'a>, Stop>
        ensures { GivesRun result answers.new.left.now (run (calc.unknown_calc self.now.slots.now es.now) answers.old.left.now) }
    {
        let _ = self.values(es, answers)?;
        Err(Stop::Raised(Exception::TypeError))
    }

    #[cycle(expr)]
    #[tactic(auto, using(crate::proofs::Rules::run_rules))]
    fn any(
        &self,
        others: &'a [Code],
        first: bool,
        answers: &mut Answers,
    ) -> Result<Operand<'a>, Stop>
        ensures { GivesRun result answers.new.left.now (run (calc.any_from self.now.slots.now first others.now) answers.old.left.now) }
    {
        let mut holds = first;
        for other in others {
            if holds {
                return Ok(Operand::made(truth(true)));
            }
            holds = self.holds(other, answers)?;
        }
        Ok(Operand::made(truth(holds)))
    }

    #[cycle(expr)]
    #[tactic(auto, using(crate::proofs::Rules::run_rules))]
    fn all(
        &self,
        others: &'a [Code],
        first: bool,
        answers: &mut Answers,
    ) -> Result<Operand<'a>, Stop>
        ensures { GivesRun result answers.new.left.now (run (calc.all_from self.now.slots.now first others.now) answers.old.left.now) }
    {
        let mut holds = first;
        for other in others {
            if !holds {
                return Ok(Operand::made(truth(false)));
            }
            holds = self.holds(other, answers)?;
        }
        Ok(Operand::made(truth(holds)))
    }

    #[cycle(expr)]
    #[tactic(auto, using(crate::proofs::Rules::run_rules))]
    fn sums(
        &self,
        others: &'a [(SumOp, Code)],
        first: Operand<'a>,
        answers: &mut Answers,
    ) -> Result<Operand<'a>, Stop>
        ensures { GivesRun result answers.new.left.now (run (code.sums first.entry (calc.operands self.now.slots.now others.now)) answers.old.left.now) }
    {
        let mut left = first;
        for other in others {
            let right = self.got(&other.1, answers)?;
            left = Operand::made(added(self.alloc, other.0, left, right.get())?);
        }
        Ok(left)
    }

    #[cycle(expr)]
    #[tactic(auto, using(crate::proofs::Rules::run_rules))]
    fn products(
        &self,
        others: &'a [(TermOp, Code)],
        first: Operand<'a>,
        answers: &mut Answers,
    ) -> Result<Operand<'a>, Stop>
        ensures { GivesRun result answers.new.left.now (run (code.products first.entry (calc.operands self.now.slots.now others.now)) answers.old.left.now) }
    {
        let mut left = first;
        for other in others {
            let right = self.got(&other.1, answers)?;
            left = Operand::made(multiplied(other.0, left.get(), right.get())?);
        }
        Ok(left)
    }

    #[cycle(expr)]
    #[tactic(auto, using(crate::proofs::Rules::run_rules))]
    fn items_at(
        &self,
        others: &'a [Code],
        first: Operand<'a>,
        answers: &mut Answers,
    ) -> Result<Operand<'a>, Stop>
        ensures { GivesRun result answers.new.left.now (run (code.items_at first.entry (map (code_value self.now.slots.now) others.now)) answers.old.left.now) }
    {
        let mut from = first;
        for other in others {
            let index = self.got(other, answers)?;
            from = indexed(self.alloc, from, index.get())?;
        }
        Ok(from)
    }

    #[cycle(expr)]
    #[tactic(auto, using(crate::proofs::Rules::run_rules))]
    fn list(&self, es: &'a [Code], answers: &mut Answers) -> Result<Operand<'a>, Stop>
        ensures { GivesRun result answers.new.left.now (run (calc.list_calc self.now.slots.now es.now) answers.old.left.now) }
    {
        let values = self.values(es, answers)?;
        Ok(Operand::made(limited(Value::List(values))?))
    }

    #[cycle(expr)]
    #[tactic(auto, using(crate::proofs::Rules::run_rules))]
    fn values(&self, es: &'a [Code], answers: &mut Answers) -> Result<Items, Stop>
        ensures { GivesRun result answers.new.left.now (run (calc.values_calc self.now.slots.now es.now) answers.old.left.now) }
    {
        let mut values = ListOf::new(self.alloc);
        for e in es {
            values.push(self.value(e, answers)?)?;
        }
        Ok(values)
    }

    /// The future of a call of these arguments, and of names of outputs.
    #[cycle(expr)]
    #[tactic(auto, using(crate::proofs::Rules::run_rules))]
    fn call(
        &self,
        names: &'a [Code],
        app: u32,
        arguments: Items,
        answers: &mut Answers,
    ) -> Result<Operand<'a>, Stop>
        ensures { GivesRun result answers.new.left.now (run (calc.call_from self.now.slots.now app arguments names.now) answers.old.left.now) }
    {
        let names = self.values(names, answers)?;
        let names = texts_of(self.alloc, names.as_slice())?;
        self.called(app, arguments, names, answers)
    }

    /// The future of a call of these arguments and names.
    fn called(
        &self,
        app: u32,
        arguments: Items,
        names: Names,
        answers: &mut Answers,
    ) -> Result<Operand<'a>, Stop>
        ensures { GivesRun result answers.new.left.now (run (calc.asks_call app arguments names) answers.old.left.now) }
    {
        match answers.next() {
            None => Err(Stop::Asks(Request::Call {
                app,
                arguments,
                names,
            })),
            Some(Answer::Called(future)) => Ok(Operand::made(future.copy(self.alloc)?)),
            Some(_) => Err(Stop::Raised(Exception::TypeError)),
        }
    }
}

/// A value behind its sign.
fn signed_value(op: UnaryOp, value: &Value) -> Result<Value, Exception>
    ensures { Exactly result (m.signed (Some op) value.now) }
{
    match op {
        UnaryOp::Minus => negated(value),
        UnaryOp::Not => Ok(truth(!truth_of(value)?)),
    }
}
