//! What is wrong with a text, and which rule a script breaks.

ghost use Rattle.std.specs.Prelude.{◌≡◌};
ghost use Rattle.script_tree.specs.Faults.{rule_number, syntax_number};

/// Why a text is no script.
#[derive(Clone, Copy, Debug, PartialEq, Eq)]
pub enum SyntaxFault {
    /// A byte with which no token, blank or comment begins, or which a comment can't hold.
    WrongByte,
    /// A text, a name or a lone `!` that is no token.
    WrongToken,
    /// Letters, digits and `_` together, the first a digit, that are no number.
    WrongNumber,
    /// A token with which no script goes on, or a text that ends too early.
    Unexpected,
    /// A bracket that would be the 65th one open.
    TooDeep,
    /// More bytes than a script may have.
    TooLong,
}

impl SyntaxFault {
    /// Its number in the output, from 1 to 6. Of two faults at one place that of the smaller number is told.
    pub fn number(self) -> u8
        ensures { result ≡ syntax_number self }
    {
        match self {
            SyntaxFault::WrongByte => 1,
            SyntaxFault::WrongToken => 2,
            SyntaxFault::WrongNumber => 3,
            SyntaxFault::Unexpected => 4,
            SyntaxFault::TooDeep => 5,
            SyntaxFault::TooLong => 6,
        }
    }
}

/// The static rules of scripts.
#[derive(Clone, Copy, Debug, PartialEq, Eq)]
pub enum Rule {
    /// A variable that isn't visible, or a built-in that isn't known.
    UnknownName,
    /// A call that names no app.
    UnknownApp,
    /// Another number of arguments, or a 17th parameter.
    Arity,
    /// A `call` in an app that is no join app.
    CallInApp,
    /// What only `main` may do.
    WaitOutsideMain,
    /// Another number of outputs, a `write` outside of plain apps, or outputs that an app can't have.
    Outputs,
    /// A second app of a name, or a variable where its name is visible.
    Repeated,
    /// A cached join app.
    CachedJoin,
    /// A cached app whose text is too long.
    CachedTooLong,
}

impl Rule {
    /// Its number in the output, from 1 to 9. Of two rules that are broken at one place that of the smaller number
    /// is told.
    pub fn number(self) -> u8
        ensures { result ≡ rule_number self }
    {
        match self {
            Rule::UnknownName => 1,
            Rule::UnknownApp => 2,
            Rule::Arity => 3,
            Rule::CallInApp => 4,
            Rule::WaitOutsideMain => 5,
            Rule::Outputs => 6,
            Rule::Repeated => 7,
            Rule::CachedJoin => 8,
            Rule::CachedTooLong => 9,
        }
    }
}
