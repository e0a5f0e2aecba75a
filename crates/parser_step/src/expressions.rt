//! One more token of an expression.

ghost use Rattle.std.specs.Prelude.{◌≡◌, IfOk};
ghost use Rattle.parser_model.specs.Reading as spec;
ghost use Rattle.parser_model.specs.Reading.{Became};

use crate::frames::{close, empty, open};
use crate::lists::{called, closer_of, named};
use crate::operands::{call_word, first, wanted};
use crate::operators::{after, behind_of};
use crate::posts::nothing_before;
use parser_model::expression_state::{ExprMove, ExprState, ExprStep, Listing, OpenBracket};
use script_tree::token::{Symbol, Token};
use sqlite_items::Items as ListOf;
use std::alloc::{AllocError, Global};

fn opens(frame: OpenBracket, focus: ExprState, token: &Token) -> ExprMove
    ensures { result ≡ spec.opens frame focus token.now }
{
    match token {
        Token::Symbol(Symbol::OpenParen) => ExprMove::Open(frame, focus),
        _ => ExprMove::Stuck,
    }
}

fn move_of(alloc: Global, focus: ExprState, token: Token) -> Result<ExprMove, AllocError>
    ensures { IfOk result (λ m. m ≡ spec.move focus token) }
{
    match focus {
        ExprState::Operand(before) => Ok(wanted(alloc, before, token)),
        ExprState::First => Ok(first(alloc, token)),
        ExprState::Named(before, name) => named(alloc, before, name, &token),
        ExprState::CallWord(before) => Ok(call_word(before, token)),
        ExprState::CallName(before, name) => {
            let frame = OpenBracket::Listed(Listing::Call(before, name), ListOf::new(alloc));
            Ok(opens(frame, ExprState::First, &token))
        }
        ExprState::Called(before, name, arguments) => called(
            alloc, before, name, arguments, &token,
        ),
        ExprState::CallTo(before, name, arguments) => {
            let frame = OpenBracket::Listed(
                Listing::Names(before, name, arguments),
                ListOf::new(alloc),
            );
            Ok(opens(frame, ExprState::Operand(nothing_before()), &token))
        }
        ExprState::After(before, post) => after(alloc, before, post, behind_of(&token)),
    }
}

/// One more token of an expression.
#[tactic(auto, unfolding(parser_model::specs::Reading::step))]
pub fn step(
    alloc: Global,
    frames: &mut ListOf<OpenBracket>,
    focus: ExprState,
    token: Token,
) -> Result<ExprStep, AllocError>
    ensures { IfOk result (λ r. Became (spec.step frames.old focus token) r frames.new) }
{
    let closer = closer_of(&token);
    match move_of(alloc, focus, token) {
        Ok(ExprMove::To(focus)) => Ok(ExprStep::Stay(focus)),
        Ok(ExprMove::Open(frame, focus)) => open(frames, frame, focus),
        Ok(ExprMove::Ends(inner)) => close(alloc, frames, inner, closer),
        Ok(ExprMove::Empty) => empty(alloc, frames, closer),
        Ok(ExprMove::Stuck) => Ok(ExprStep::Stop),
        Err(error) => Err(error),
    }
}
