//! What a token does with the open brackets, the last of which stands at the end.

ghost use Rattle.std.specs.Prelude.{◌≡◌, IfOk, if◌then◌else◌, Option, Some, None, MatchOption, [], ◌∷◌, ◌++◌};
ghost use Rattle.parser_model.specs.Reading as spec;
ghost use Rattle.parser_model.specs.Reading.{Became};
ghost use Rattle.parser_model.specs.declared.expression_state.ExprNext.TheVariants as next;

use crate::lists::{ends_list, list_done, may_be_empty};
use crate::posts::{nothing_before, paren, with_index, with_item};
use parser_model::expression_state::{Before, Closer, ExprState, ExprStep, Listing, OpenBracket};
use script_tree::tree::{Expr, Post};
use sqlite_items::Items as ListOf;
use std::alloc::{AllocError, Global};

fn list_end(
    alloc: Global,
    frames: &mut ListOf<OpenBracket>,
    listing: Listing,
    items: ListOf<Expr>,
    closer: Closer,
) -> Result<ExprStep, AllocError>
    ensures { IfOk result (λ r. Became (if spec.ends_list listing closer then next.Stay frames.old (spec.list_done listing items) else next.Stop) r frames.new) }
{
    if !ends_list(&listing, closer) {
        return Ok(ExprStep::Stop);
    }
    let focus = list_done(alloc, listing, items)?;
    Ok(ExprStep::Stay(focus))
}

fn next_item(
    frames: &mut ListOf<OpenBracket>,
    listing: Listing,
    items: ListOf<Expr>,
) -> Result<ExprStep, AllocError>
    ensures { IfOk result (λ r. Became (spec.listed_on frames.old listing items Closer.Comma) r frames.new) }
{
    frames.push(OpenBracket::Listed(listing, items))?;
    Ok(ExprStep::Stay(ExprState::Operand(nothing_before())))
}

fn listed_on(
    alloc: Global,
    frames: &mut ListOf<OpenBracket>,
    listing: Listing,
    items: ListOf<Expr>,
    closer: Closer,
) -> Result<ExprStep, AllocError>
    ensures { IfOk result (λ r. Became (spec.listed_on frames.old listing items closer) r frames.new) }
{
    match closer {
        Closer::Comma => next_item(frames, listing, items),
        Closer::Round => list_end(alloc, frames, listing, items, Closer::Round),
        Closer::Square => list_end(alloc, frames, listing, items, Closer::Square),
        Closer::Other => list_end(alloc, frames, listing, items, Closer::Other),
    }
}

fn in_paren(
    alloc: Global,
    frames: &mut ListOf<OpenBracket>,
    before: Before,
    inner: Expr,
    closer: Closer,
) -> Result<ExprStep, AllocError>
    ensures { IfOk result (λ r. Became (spec.in_frame frames.old (OpenBracket.Paren before) inner closer) r frames.new) }
{
    match closer {
        Closer::Round => {
            let post = paren(alloc, inner)?;
            Ok(ExprStep::Stay(ExprState::After(before, post)))
        }
        Closer::Square => Ok(ExprStep::Stop),
        Closer::Comma => Ok(ExprStep::Stop),
        Closer::Other => Ok(ExprStep::Stop),
    }
}

fn in_index(
    frames: &mut ListOf<OpenBracket>,
    before: Before,
    post: Post,
    index: Expr,
    closer: Closer,
) -> Result<ExprStep, AllocError>
    ensures { IfOk result (λ r. Became (spec.in_frame frames.old (OpenBracket.Index before post) index closer) r frames.new) }
{
    match closer {
        Closer::Square => {
            let post = with_index(post, index)?;
            Ok(ExprStep::Stay(ExprState::After(before, post)))
        }
        Closer::Round => Ok(ExprStep::Stop),
        Closer::Comma => Ok(ExprStep::Stop),
        Closer::Other => Ok(ExprStep::Stop),
    }
}

fn in_list(
    alloc: Global,
    frames: &mut ListOf<OpenBracket>,
    listing: Listing,
    items: ListOf<Expr>,
    item: Expr,
    closer: Closer,
) -> Result<ExprStep, AllocError>
    ensures { IfOk result (λ r. Became (spec.in_frame frames.old (OpenBracket.Listed listing items) item closer) r frames.new) }
{
    match with_item(items, item) {
        Ok(items) => listed_on(alloc, frames, listing, items, closer),
        Err(error) => Err(error),
    }
}

fn in_frame(
    alloc: Global,
    frames: &mut ListOf<OpenBracket>,
    frame: OpenBracket,
    inner: Expr,
    closer: Closer,
) -> Result<ExprStep, AllocError>
    ensures { IfOk result (λ r. Became (spec.in_frame frames.old frame inner closer) r frames.new) }
{
    match frame {
        OpenBracket::Paren(before) => in_paren(alloc, frames, before, inner, closer),
        OpenBracket::Index(before, post) => in_index(frames, before, post, inner, closer),
        OpenBracket::Listed(listing, items) => in_list(
            alloc, frames, listing, items, inner, closer,
        ),
    }
}

/// The innermost bracket is closed behind an expression; where none is open the expression is whole.
pub fn close(
    alloc: Global,
    frames: &mut ListOf<OpenBracket>,
    inner: Expr,
    closer: Closer,
) -> Result<ExprStep, AllocError>
    ensures { IfOk result (λ r. Became (spec.close inner closer (spec.split frames.old)) r frames.new) }
{
    match taken(frames) {
        None => Ok(ExprStep::Done(inner)),
        Some(frame) => in_frame(alloc, frames, frame, inner, closer),
    }
}

/// The last open bracket, which is taken off.
#[tactic(auto, using(crate::proofs::Splits::split_rules))]
fn taken(frames: &mut ListOf<OpenBracket>) -> Option<OpenBracket>
    ensures { MatchOption result (spec.split frames.old ≡ None) (λ frame. spec.split frames.old ≡ Some (frames.new, frame)) }
{
    match frames.pop() {
        None => None,
        Some(frame) => Some(frame),
    }
}

fn empty_end(
    alloc: Global,
    frames: &mut ListOf<OpenBracket>,
    listing: Listing,
    items: ListOf<Expr>,
    closer: Closer,
) -> Result<ExprStep, AllocError>
    requires { items ≡ [] }
    ensures { IfOk result (λ r. Became (spec.empty closer (Some (frames.old, OpenBracket.Listed listing []))) r frames.new) }
{
    if !may_be_empty(&listing) {
        return Ok(ExprStep::Stop);
    }
    if !ends_list(&listing, closer) {
        return Ok(ExprStep::Stop);
    }
    let focus = list_done(alloc, listing, items)?;
    Ok(ExprStep::Stay(focus))
}

#[tactic(auto, using(crate::proofs::Splits::empty_more))]
fn empty_list(
    alloc: Global,
    frames: &mut ListOf<OpenBracket>,
    listing: Listing,
    items: ListOf<Expr>,
    closer: Closer,
) -> Result<ExprStep, AllocError>
    ensures { IfOk result (λ r. Became (spec.empty closer (Some (frames.old, OpenBracket.Listed listing items))) r frames.new) }
{
    if items.is_empty() {
        empty_end(alloc, frames, listing, items, closer)
    } else {
        Ok(ExprStep::Stop)
    }
}

fn empty_frame(
    alloc: Global,
    frames: &mut ListOf<OpenBracket>,
    frame: OpenBracket,
    closer: Closer,
) -> Result<ExprStep, AllocError>
    ensures { IfOk result (λ r. Became (spec.empty closer (Some (frames.old, frame))) r frames.new) }
{
    match frame {
        OpenBracket::Paren(_) => Ok(ExprStep::Stop),
        OpenBracket::Index(_, _) => Ok(ExprStep::Stop),
        OpenBracket::Listed(listing, items) => empty_list(alloc, frames, listing, items, closer),
    }
}

/// The innermost bracket is closed with nothing in it; where that can't be, the expression stops.
pub fn empty(
    alloc: Global,
    frames: &mut ListOf<OpenBracket>,
    closer: Closer,
) -> Result<ExprStep, AllocError>
    ensures { IfOk result (λ r. Became (spec.empty closer (spec.split frames.old)) r frames.new) }
{
    match taken(frames) {
        None => Ok(ExprStep::Stop),
        Some(frame) => empty_frame(alloc, frames, frame, closer),
    }
}

/// A bracket is opened, and the expression goes on inside it.
pub fn open(
    frames: &mut ListOf<OpenBracket>,
    frame: OpenBracket,
    focus: ExprState,
) -> Result<ExprStep, AllocError>
    ensures { IfOk result (λ r. Became (next.Stay (frames.old ++ frame ∷ []) focus) r frames.new) }
{
    match frames.push(frame) {
        Ok(()) => Ok(ExprStep::Stay(focus)),
        Err(error) => Err(error),
    }
}
