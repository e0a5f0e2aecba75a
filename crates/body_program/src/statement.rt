//! Statements with their variables in slots.

ghost use Rattle.std.specs.Prelude.{◌≡◌, None, Some, IfOk, IsTrue};
ghost use Rattle.script_tree.specs.declared.tree.Statement.TheVariants as statement;
ghost use Rattle.flow_meaning.specs.Walk.{names_in};
ghost use Rattle.body_program.specs.Classes as calc;
ghost use Rattle.body_program.specs.Resolved.{AllFollow, ChangesInPlace, Follows, Grows, IsAppend, Means, Sets};
ghost use Rattle.body_program.specs.declared.code.Code.TheVariants as code;
ghost use Rattle.body_program.specs.declared.code.Step.TheVariants as step;

use crate::code::{Code, Simple, Step};
use crate::expression::Resolver;
use crate::slot_names::SlotNames;
use flow_base::Text;
use script_tree::tree::{Block, BuiltIn, CallExpr, Expr, Statement};
use sqlite_items::Items as ListOf;
use std::alloc::AllocError;

impl<'s, 'a> Resolver<'s, 'a> {
    /// The steps of a block.
    #[cycle(statement)]
    pub fn block(
        &self,
        block: &'a Block,
        names: &mut SlotNames<'a>,
    ) -> Result<ListOf<Step>, AllocError>
        ensures grows { Grows names.old names.new }
        ensures follow { IfOk result (λ steps. AllFollow names.new steps (calc.block_parts (names_in self.now.apps.now) block.now)) }
    {
        let mut steps = ListOf::new(self.alloc);
        let statements = block.statements.as_slice();
        for statement in statements {
            steps.push(self.statement(statement, names)?)?;
        }
        Ok(steps)
    }

    #[cycle(statement)]
    fn statement(
        &self,
        statement: &'a Statement,
        names: &mut SlotNames<'a>,
    ) -> Result<Step, AllocError>
        ensures grows { Grows names.old names.new }
        ensures follows { IfOk result (λ step. Follows names.new step (calc.statement_part (names_in self.now.apps.now) statement.now)) }
    {
        match statement {
            Statement::Let(name, e) => self.declared(name, e, names),
            Statement::Set(name, e) => self.assigned(name, e, names),
            Statement::While(e, body) => self.turns(body.get(), e, names),
            Statement::For(name, e, body) => self.items(body.get(), name, e, names),
            Statement::If(e, block, other) => match other {
                None => self.branch(block.get(), e, names),
                Some(other) => {
                    let (condition, steps) = self.head(block.get(), e, names)?;
                    let others = self.block(other.get(), names)?;
                    Ok(Step::If(condition, steps, others))
                }
            },
            Statement::Return(e) => self.returned(e, names),
            Statement::Raise(e) => self.raised(e, names),
            Statement::Write(output, content) => self.written(output, content, names),
            Statement::Print(e) => self.printed(e, names),
            Statement::Checkpoint => Ok(Step::Simple(Simple::Checkpoint)),
            Statement::Call(e) => self.called(e, names),
        }
    }

    #[cycle(statement)]
    fn turns(
        &self,
        body: &'a Block,
        e: &'a Expr,
        names: &mut SlotNames<'a>,
    ) -> Result<Step, AllocError>
        ensures grows { Grows names.old names.new }
        ensures follows { IfOk result (λ step. Follows names.new step (calc.statement_part (names_in self.now.apps.now) (statement.While e.now body.now))) }
    {
        let condition = self.expr(e, names)?;
        let steps = self.block(body, names)?;
        Ok(Step::While(condition, steps))
    }

    #[cycle(statement)]
    fn items(
        &self,
        body: &'a Block,
        name: &'a Text,
        e: &'a Expr,
        names: &mut SlotNames<'a>,
    ) -> Result<Step, AllocError>
        ensures grows { Grows names.old names.new }
        ensures follows { IfOk result (λ step. Follows names.new step (calc.statement_part (names_in self.now.apps.now) (statement.For name.now e.now body.now))) }
    {
        let list = self.expr(e, names)?;
        let slot = names.slot(name)?;
        let steps = self.block(body, names)?;
        Ok(Step::For(slot, list, steps))
    }

    #[cycle(statement)]
    fn branch(
        &self,
        block: &'a Block,
        e: &'a Expr,
        names: &mut SlotNames<'a>,
    ) -> Result<Step, AllocError>
        ensures grows { Grows names.old names.new }
        ensures follows { IfOk result (λ step. Follows names.new step (calc.statement_part (names_in self.now.apps.now) (statement.If e.now block.now None))) }
    {
        let condition = self.expr(e, names)?;
        let steps = self.block(block, names)?;
        Ok(Step::If(condition, steps, ListOf::new(self.alloc)))
    }

    /// The condition and the steps of its block.
    #[cycle(statement)]
    fn head(
        &self,
        block: &'a Block,
        e: &'a Expr,
        names: &mut SlotNames<'a>,
    ) -> Result<(Code, ListOf<Step>), AllocError>
        ensures grows { Grows names.old names.new }
        ensures means { IfOk result (λ both. Means names.new both.0 (calc.expr_calc (names_in self.now.apps.now) e.now)) }
        ensures follow { IfOk result (λ both. AllFollow names.new both.1 (calc.block_parts (names_in self.now.apps.now) block.now)) }
    {
        let condition = self.expr(e, names)?;
        let steps = self.block(block, names)?;
        Ok((condition, steps))
    }

    fn declared(
        &self,
        name: &'a Text,
        e: &'a Expr,
        names: &mut SlotNames<'a>,
    ) -> Result<Step, AllocError>
        ensures grows { Grows names.old names.new }
        ensures follows { IfOk result (λ step. Follows names.new step (calc.statement_part (names_in self.now.apps.now) (statement.Let name.now e.now))) }
    {
        let step = self.set(name, e, names)?;
        Ok(step)
    }

    fn assigned(
        &self,
        name: &'a Text,
        e: &'a Expr,
        names: &mut SlotNames<'a>,
    ) -> Result<Step, AllocError>
        ensures grows { Grows names.old names.new }
        ensures follows { IfOk result (λ step. Follows names.new step (calc.statement_part (names_in self.now.apps.now) (statement.Set name.now e.now))) }
    {
        let step = self.set(name, e, names)?;
        Ok(step)
    }

    fn returned(&self, e: &'a Expr, names: &mut SlotNames<'a>) -> Result<Step, AllocError>
        ensures grows { Grows names.old names.new }
        ensures follows { IfOk result (λ step. Follows names.new step (calc.statement_part (names_in self.now.apps.now) (statement.Return e.now))) }
    {
        let value = self.expr(e, names)?;
        Ok(Step::Simple(Simple::Return(value)))
    }

    fn raised(&self, e: &'a Expr, names: &mut SlotNames<'a>) -> Result<Step, AllocError>
        ensures grows { Grows names.old names.new }
        ensures follows { IfOk result (λ step. Follows names.new step (calc.statement_part (names_in self.now.apps.now) (statement.Raise e.now))) }
    {
        let value = self.expr(e, names)?;
        Ok(Step::Simple(Simple::Raise(value)))
    }

    fn written(
        &self,
        output: &'a Expr,
        content: &'a Expr,
        names: &mut SlotNames<'a>,
    ) -> Result<Step, AllocError>
        ensures grows { Grows names.old names.new }
        ensures follows { IfOk result (λ step. Follows names.new step (calc.statement_part (names_in self.now.apps.now) (statement.Write output.now content.now))) }
    {
        let place = self.expr(output, names)?;
        let text = self.expr(content, names)?;
        Ok(Step::Simple(Simple::Write(place, text)))
    }

    fn printed(&self, e: &'a Expr, names: &mut SlotNames<'a>) -> Result<Step, AllocError>
        ensures grows { Grows names.old names.new }
        ensures follows { IfOk result (λ step. Follows names.new step (calc.statement_part (names_in self.now.apps.now) (statement.Print e.now))) }
    {
        let value = self.expr(e, names)?;
        Ok(Step::Simple(Simple::Print(value)))
    }

    fn called(&self, e: &'a CallExpr, names: &mut SlotNames<'a>) -> Result<Step, AllocError>
        ensures grows { Grows names.old names.new }
        ensures follows { IfOk result (λ step. Follows names.new step (calc.statement_part (names_in self.now.apps.now) (statement.Call e.now))) }
    {
        let value = self.call(e, names)?;
        Ok(Step::Simple(Simple::Do(value)))
    }

    fn set(
        &self,
        name: &'a Text,
        e: &'a Expr,
        names: &mut SlotNames<'a>,
    ) -> Result<Step, AllocError>
        ensures grows { Grows names.old names.new }
        ensures follows { IfOk result (λ step. Follows names.new step (calc.sets_by (names_in self.now.apps.now) name.now e.now)) }
    {
        let value = self.expr(e, names)?;
        let slot = names.slot(name)?;
        Ok(Step::Simple(set_slot(slot, value)))
    }
}

/// Sets a slot. A list that gets one more item is changed where it stands.
fn set_slot(slot: usize, value: Code) -> Simple
    ensures sets { Sets (step.Simple result) slot value }
    ensures in_place { IsAppend slot value → ChangesInPlace slot result }
{
    match value {
        Code::Two(built_in, list, item) => {
            if appends_to(slot, built_in, list.get()) {
                Simple::Append(slot, item.into_inner())
            } else {
                Simple::Set(slot, Code::Two(built_in, list, item))
            }
        }
        other => Simple::Set(slot, other),
    }
}

/// Whether a built-in of this list and an item appends to the list in this slot.
fn appends_to(slot: usize, built_in: BuiltIn, list: &Code) -> bool
    ensures is { IsTrue result → (built_in ≡ BuiltIn.Append) × (list.now ≡ code.Slot slot) }
    ensures isnt { built_in ≡ BuiltIn.Append → list.now ≡ code.Slot slot → IsTrue result }
{
    match built_in {
        BuiltIn::Append => is_slot(slot, list),
        _ => false,
    }
}

/// Whether it is the variable in this slot.
fn is_slot(slot: usize, e: &Code) -> bool
    ensures is { IsTrue result → e.now ≡ code.Slot slot }
    ensures isnt { e.now ≡ code.Slot slot → IsTrue result }
{
    match e {
        Code::Slot(other) => *other == slot,
        _ => false,
    }
}
