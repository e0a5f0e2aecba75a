//! Expressions and statements whose variables stand in slots: each variable of a body has a number.

use flow_base::Value;
use script_tree::tree::{BuiltIn, CompareOp, SumOp, TermOp, UnaryOp};
use sqlite_items::{Boxed, Items as ListOf};

/// An expression.
#[derive(Drop)]
pub enum Code {
    /// This value.
    Constant(Value),
    /// A text that is past the limits of a value.
    TooLarge,
    /// The variable in this slot.
    Slot(usize),
    /// The list of these.
    List(ListOf<Code>),
    /// A built-in of one argument.
    One(BuiltIn, Boxed<Code>),
    /// A built-in of two arguments.
    Two(BuiltIn, Boxed<Code>, Boxed<Code>),
    /// A built-in of three arguments.
    Three(BuiltIn, Boxed<Code>, Boxed<Code>, Boxed<Code>),
    /// A built-in that isn't known, or one with another number of arguments.
    Unknown(ListOf<Code>),
    /// A call of the app of this number: its arguments, and the names of its outputs.
    Call(u32, ListOf<Code>, ListOf<Code>),
    /// The first or one of the others holds.
    Any(Boxed<Code>, ListOf<Code>),
    /// The first and all of the others hold.
    All(Boxed<Code>, ListOf<Code>),
    /// Whether a comparison holds.
    Compared(CompareOp, Boxed<Code>, Boxed<Code>),
    /// The first with each other added or subtracted.
    Sum(Boxed<Code>, ListOf<(SumOp, Code)>),
    /// The first with each other multiplied, divided, or the rest of that.
    Product(Boxed<Code>, ListOf<(TermOp, Code)>),
    /// An item, an item of that, and so on.
    At(Boxed<Code>, ListOf<Code>),
    /// A value behind its sign.
    Signed(UnaryOp, Boxed<Code>),
}

/// A statement: one without blocks, a loop or a branch.
#[derive(Drop)]
pub enum Step {
    /// A statement without blocks.
    Simple(Simple),
    /// Turns while the condition holds.
    While(Code, ListOf<Step>),
    /// A turn with each item of the list in the slot.
    For(usize, Code, ListOf<Step>),
    /// The first block where the condition holds, or else the other.
    If(Code, ListOf<Step>, ListOf<Step>),
}

/// A statement without blocks.
#[derive(Drop)]
pub enum Simple {
    /// The variable in this slot gets the value.
    Set(usize, Code),
    /// The list in this slot gets one more item.
    Append(usize, Code),
    /// The body returns the value.
    Return(Code),
    /// The body raises AppError with the text.
    Raise(Code),
    /// The output of this number gets the text.
    Write(Code, Code),
    /// The value is printed.
    Print(Code),
    /// A checkpoint is written.
    Checkpoint,
    /// An expression whose value is dropped.
    Do(Code),
}

/// A body.
#[derive(Drop)]
pub struct Program {
    /// The slot of each parameter.
    pub parameters: ListOf<usize>,
    /// How many slots there are.
    pub slots: usize,
    /// What it does.
    pub steps: ListOf<Step>,
}
