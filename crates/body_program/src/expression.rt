//! Expressions with their variables in slots.

ghost use Rattle.std.specs.Prelude.{◌≡◌, ◌<◌, ◌^◌, ◌++◌, ◌∷◌, [], Some, length, map, IfOk};
ghost use Rattle.flow_base.specs.declared.value.Value.TheVariants as value;
ghost use Rattle.flow_meaning.specs.Operators.{limited};
ghost use Rattle.flow_meaning.specs.Meaning as m;
ghost use Rattle.flow_meaning.specs.Walk.{names_in};
ghost use Rattle.body_program.specs.Classes as calc;
ghost use Rattle.body_program.specs.Meaning.{code_value, Slots};
ghost use Rattle.body_program.specs.Resolved.{AllMean, Applies, Grows, Means, OperandsMean};

use crate::code::Code;
use crate::slot_names::SlotNames;
use app_index::Apps;
use flow_base::{Text, Value};
use script_tree::built_ins::named;
use script_tree::tree::{
    Added, Atom, BuiltIn, CallExpr, Comp, Conj, Expr, Factor, Post, Sum, SumOp, Term, TermOp, Unary,
};
use sqlite_items::{Boxed, Items as ListOf};
use std::alloc::{AllocError, Global};

/// Resolves names: variables to slots, and apps to numbers.
#[derive(Drop)]
pub struct Resolver<'s, 'a> {
    /// Where it makes what it gives.
    pub alloc: Global,
    /// The apps of the script.
    pub apps: &'s Apps<'a>,
    ghost few: { length apps.now < 2 ^ 32 },
}

impl<'s, 'a> Resolver<'s, 'a> {
    /// The code of an expression.
    #[cycle(expression)]
    pub fn expr(&self, e: &'a Expr, names: &mut SlotNames<'a>) -> Result<Code, AllocError>
        ensures grows { Grows names.old names.new }
        ensures means { IfOk result (λ c. Means names.new c (calc.expr_calc (names_in self.now.apps.now) e.now)) }
    {
        let first = self.conj(&e.first, names)?;
        if e.others.is_empty() {
            return Ok(first);
        }
        let others = self.conjs(e.others.as_slice(), names)?;
        Ok(Code::Any(Boxed::new(self.alloc, first)?, others))
    }

    #[cycle(expression)]
    fn conjs(&self, es: &'a [Conj], names: &mut SlotNames<'a>) -> Result<ListOf<Code>, AllocError>
        ensures grows { Grows names.old names.new }
        ensures mean { IfOk result (λ cs. AllMean names.new cs (map (calc.conj_calc (names_in self.now.apps.now)) es.now)) }
    {
        let mut codes = ListOf::new(self.alloc);
        for e in es {
            codes.push(self.conj(e, names)?)?;
        }
        Ok(codes)
    }

    #[cycle(expression)]
    fn conj(&self, e: &'a Conj, names: &mut SlotNames<'a>) -> Result<Code, AllocError>
        ensures grows { Grows names.old names.new }
        ensures means { IfOk result (λ c. Means names.new c (calc.conj_calc (names_in self.now.apps.now) e.now)) }
    {
        let first = self.comp(&e.first, names)?;
        if e.others.is_empty() {
            return Ok(first);
        }
        let others = self.comps(e.others.as_slice(), names)?;
        Ok(Code::All(Boxed::new(self.alloc, first)?, others))
    }

    #[cycle(expression)]
    fn comps(&self, es: &'a [Comp], names: &mut SlotNames<'a>) -> Result<ListOf<Code>, AllocError>
        ensures grows { Grows names.old names.new }
        ensures mean { IfOk result (λ cs. AllMean names.new cs (map (calc.comp_calc (names_in self.now.apps.now)) es.now)) }
    {
        let mut codes = ListOf::new(self.alloc);
        for e in es {
            codes.push(self.comp(e, names)?)?;
        }
        Ok(codes)
    }

    #[cycle(expression)]
    fn comp(&self, e: &'a Comp, names: &mut SlotNames<'a>) -> Result<Code, AllocError>
        ensures grows { Grows names.old names.new }
        ensures means { IfOk result (λ c. Means names.new c (calc.comp_calc (names_in self.now.apps.now) e.now)) }
    {
        let left = self.sum(&e.left, names)?;
        match &e.test {
            None => Ok(left),
            Some(test) => {
                let right = self.sum(&test.right, names)?;
                Ok(Code::Compared(
                    test.op,
                    Boxed::new(self.alloc, left)?,
                    Boxed::new(self.alloc, right)?,
                ))
            }
        }
    }

    #[cycle(expression)]
    fn sum(&self, e: &'a Sum, names: &mut SlotNames<'a>) -> Result<Code, AllocError>
        ensures grows { Grows names.old names.new }
        ensures means { IfOk result (λ c. Means names.new c (calc.sum_calc (names_in self.now.apps.now) e.now)) }
    {
        let first = self.term(&e.first, names)?;
        if e.others.is_empty() {
            return Ok(first);
        }
        let others = self.added(e.others.as_slice(), names)?;
        Ok(Code::Sum(Boxed::new(self.alloc, first)?, others))
    }

    #[cycle(expression)]
    fn added(
        &self,
        es: &'a [Added],
        names: &mut SlotNames<'a>,
    ) -> Result<ListOf<(SumOp, Code)>, AllocError>
        ensures grows { Grows names.old names.new }
        ensures mean { IfOk result (λ cs. OperandsMean names.new cs (map (calc.added_calc (names_in self.now.apps.now)) es.now)) }
    {
        let mut codes = ListOf::new(self.alloc);
        for e in es {
            codes.push((e.op, self.term(&e.term, names)?))?;
        }
        Ok(codes)
    }

    #[cycle(expression)]
    fn term(&self, e: &'a Term, names: &mut SlotNames<'a>) -> Result<Code, AllocError>
        ensures grows { Grows names.old names.new }
        ensures means { IfOk result (λ c. Means names.new c (calc.term_calc (names_in self.now.apps.now) e.now)) }
    {
        let first = self.unary(&e.first, names)?;
        if e.others.is_empty() {
            return Ok(first);
        }
        let others = self.factors(e.others.as_slice(), names)?;
        Ok(Code::Product(Boxed::new(self.alloc, first)?, others))
    }

    #[cycle(expression)]
    fn factors(
        &self,
        es: &'a [Factor],
        names: &mut SlotNames<'a>,
    ) -> Result<ListOf<(TermOp, Code)>, AllocError>
        ensures grows { Grows names.old names.new }
        ensures mean { IfOk result (λ cs. OperandsMean names.new cs (map (calc.factor_calc (names_in self.now.apps.now)) es.now)) }
    {
        let mut codes = ListOf::new(self.alloc);
        for e in es {
            codes.push((e.op, self.unary(&e.unary, names)?))?;
        }
        Ok(codes)
    }

    #[cycle(expression)]
    fn unary(&self, e: &'a Unary, names: &mut SlotNames<'a>) -> Result<Code, AllocError>
        ensures grows { Grows names.old names.new }
        ensures means { IfOk result (λ c. Means names.new c (calc.unary_calc (names_in self.now.apps.now) e.now)) }
    {
        let post = self.post(&e.post, names)?;
        match e.op {
            None => Ok(post),
            Some(op) => Ok(Code::Signed(op, Boxed::new(self.alloc, post)?)),
        }
    }

    #[cycle(expression)]
    fn post(&self, e: &'a Post, names: &mut SlotNames<'a>) -> Result<Code, AllocError>
        ensures grows { Grows names.old names.new }
        ensures means { IfOk result (λ c. Means names.new c (calc.post_calc (names_in self.now.apps.now) e.now)) }
    {
        let atom = self.atom(&e.atom, names)?;
        if e.indices.is_empty() {
            return Ok(atom);
        }
        let indices = self.exprs(e.indices.as_slice(), names)?;
        Ok(Code::At(Boxed::new(self.alloc, atom)?, indices))
    }

    #[cycle(expression)]
    fn atom(&self, e: &'a Atom, names: &mut SlotNames<'a>) -> Result<Code, AllocError>
        ensures grows { Grows names.old names.new }
        ensures means { IfOk result (λ c. Means names.new c (calc.atom_calc (names_in self.now.apps.now) e.now)) }
    {
        match e {
            Atom::Number(n) => Ok(Code::Constant(Value::Int(*n))),
            Atom::Text(text) => self.text(text),
            Atom::Nothing => Ok(Code::Constant(Value::Nothing)),
            Atom::Variable(name) => Ok(Code::Slot(names.slot(name)?)),
            Atom::Paren(e) => self.expr(e.get(), names),
            Atom::List(es) => Ok(Code::List(self.exprs(es.as_slice(), names)?)),
            Atom::BuiltIn(name, es) => {
                let arguments = self.exprs(es.as_slice(), names)?;
                built_in(self.alloc, named(name), arguments)
            }
            Atom::Call(call) => self.call(call.get(), names),
        }
    }

    #[tactic(auto, using(crate::proofs::Codes::code_rules))]
    fn text(&self, text: &Text) -> Result<Code, AllocError>
        ensures { IfOk result (λ c. (slots : Slots) → code_value slots c ≡ limited (value.Text text.now)) }
    {
        let value = Value::Text(text.copy(self.alloc)?);
        if value.fits() {
            Ok(Code::Constant(value))
        } else {
            Ok(Code::TooLarge)
        }
    }

    fn number_of(&self, name: &Text) -> u32
        ensures { result ≡ m.number_of (names_in self.now.apps.now) name.now }
    {
        self.apps.number_of(name.as_str()) as u32
    }

    /// The code of a call.
    #[cycle(expression)]
    pub fn call(&self, e: &'a CallExpr, names: &mut SlotNames<'a>) -> Result<Code, AllocError>
        ensures grows { Grows names.old names.new }
        ensures means { IfOk result (λ c. Means names.new c (calc.call_calc (names_in self.now.apps.now) e.now)) }
    {
        let arguments = self.exprs(e.arguments.as_slice(), names)?;
        let outputs = self.exprs(e.names.as_slice(), names)?;
        Ok(Code::Call(self.number_of(&e.app), arguments, outputs))
    }

    #[cycle(expression)]
    fn exprs(&self, es: &'a [Expr], names: &mut SlotNames<'a>) -> Result<ListOf<Code>, AllocError>
        ensures grows { Grows names.old names.new }
        ensures mean { IfOk result (λ cs. AllMean names.new cs (map (calc.expr_calc (names_in self.now.apps.now)) es.now)) }
    {
        let mut codes = ListOf::new(self.alloc);
        for e in es {
            codes.push(self.expr(e, names)?)?;
        }
        Ok(codes)
    }
}

/// A built-in of these arguments.
#[tactic(auto, using(crate::proofs::Arguments::argument_rules))]
fn built_in(
    alloc: Global,
    built_in: Option<BuiltIn>,
    arguments: ListOf<Code>,
) -> Result<Code, AllocError>
    ensures { IfOk result (λ c. Applies c built_in arguments) }
{
    match built_in {
        None => Ok(Code::Unknown(arguments)),
        Some(built_in) => match arguments.len() {
            1 => one(alloc, built_in, arguments),
            2 => two(alloc, built_in, arguments),
            3 => three(alloc, built_in, arguments),
            _ => Ok(Code::Unknown(arguments)),
        },
    }
}

/// Takes the last argument.
fn last(alloc: Global, arguments: &mut ListOf<Code>) -> Result<Boxed<Code>, AllocError>
    requires { 0 < length arguments.old }
    ensures { IfOk result (λ last. arguments.old ≡ arguments.new ++ last ∷ []) }
{
    Boxed::new(alloc, arguments.pop().unwrap())
}

fn one(alloc: Global, built_in: BuiltIn, mut arguments: ListOf<Code>) -> Result<Code, AllocError>
    requires { length arguments ≡ 1 }
    ensures { IfOk result (λ c. Applies c (Some built_in) arguments) }
{
    let first = last(alloc, &mut arguments)?;
    Ok(Code::One(built_in, first))
}

fn two(alloc: Global, built_in: BuiltIn, mut arguments: ListOf<Code>) -> Result<Code, AllocError>
    requires { length arguments ≡ 2 }
    ensures { IfOk result (λ c. Applies c (Some built_in) arguments) }
{
    let second = last(alloc, &mut arguments)?;
    let first = last(alloc, &mut arguments)?;
    Ok(Code::Two(built_in, first, second))
}

fn three(alloc: Global, built_in: BuiltIn, mut arguments: ListOf<Code>) -> Result<Code, AllocError>
    requires { length arguments ≡ 3 }
    ensures { IfOk result (λ c. Applies c (Some built_in) arguments) }
{
    let third = last(alloc, &mut arguments)?;
    let second = last(alloc, &mut arguments)?;
    let first = last(alloc, &mut arguments)?;
    Ok(Code::Three(built_in, first, second, third))
}
