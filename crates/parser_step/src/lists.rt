//! Names, calls and lists.

ghost use Rattle.std.specs.Prelude.{◌≡◌, IfOk};
ghost use Rattle.parser_model.specs.Reading as spec;

use crate::operators::{after, behind_of};
use crate::posts::{bare, call_post};
use parser_model::expression_state::{Before, Closer, ExprMove, ExprState, Listing, OpenBracket};
use script_tree::token::{Keyword, Symbol, Token};
use script_tree::tree::{Atom, Expr, Name};
use sqlite_items::Items as ListOf;
use std::alloc::{AllocError, Global};

/// Whether the token is `(`.
pub fn opens_paren(token: &Token) -> bool
    ensures { result ≡ spec.opens_paren token.now }
{
    match token {
        Token::Symbol(Symbol::OpenParen) => true,
        _ => false,
    }
}

fn is_to(token: &Token) -> bool
    ensures { result ≡ spec.is_to token.now }
{
    match token {
        Token::Keyword(Keyword::To) => true,
        _ => false,
    }
}

/// Behind a name: a call of a built-in where `(` follows, else a variable.
pub fn named(
    alloc: Global,
    before: Before,
    name: Name,
    token: &Token,
) -> Result<ExprMove, AllocError>
    ensures { IfOk result (λ m. m ≡ spec.named before name token.now) }
{
    if opens_paren(token) {
        let frame = OpenBracket::Listed(Listing::Arguments(before, name), ListOf::new(alloc));
        return Ok(ExprMove::Open(frame, ExprState::First));
    }
    let post = bare(alloc, Atom::Variable(name));
    after(alloc, before, post, behind_of(token))
}

/// Behind the arguments of a call: `to` and its names, or the call is whole.
pub fn called(
    alloc: Global,
    before: Before,
    app: Name,
    arguments: ListOf<Expr>,
    token: &Token,
) -> Result<ExprMove, AllocError>
    ensures { IfOk result (λ m. m ≡ spec.called before app arguments token.now) }
{
    if is_to(token) {
        return Ok(ExprMove::To(ExprState::CallTo(before, app, arguments)));
    }
    let post = call_post(alloc, app, arguments, ListOf::new(alloc))?;
    after(alloc, before, post, behind_of(token))
}

/// A list is whole: what it was opened for becomes an operand.
pub fn list_done(
    alloc: Global,
    listing: Listing,
    items: ListOf<Expr>,
) -> Result<ExprState, AllocError>
    ensures { IfOk result (λ f. f ≡ spec.list_done listing items) }
{
    match listing {
        Listing::List(before) => Ok(ExprState::After(before, bare(alloc, Atom::List(items)))),
        Listing::Arguments(before, name) => {
            Ok(ExprState::After(before, bare(alloc, Atom::BuiltIn(name, items))))
        }
        Listing::Call(before, app) => Ok(ExprState::Called(before, app, items)),
        Listing::Names(before, app, arguments) => {
            let post = call_post(alloc, app, arguments, items)?;
            Ok(ExprState::After(before, post))
        }
    }
}

/// The kind of bracket or comma that the token is.
pub fn closer_of(token: &Token) -> Closer
    ensures { result ≡ spec.closer_of token.now }
{
    match token {
        Token::Symbol(Symbol::CloseParen) => Closer::Round,
        Token::Symbol(Symbol::CloseList) => Closer::Square,
        Token::Symbol(Symbol::Comma) => Closer::Comma,
        _ => Closer::Other,
    }
}

/// Whether this ends such a list.
pub fn ends_list(listing: &Listing, closer: Closer) -> bool
    ensures { result ≡ spec.ends_list listing.now closer }
{
    match (listing, closer) {
        (Listing::List(_), Closer::Square) => true,
        (Listing::List(_), _) => false,
        (_, Closer::Round) => true,
        _ => false,
    }
}

/// Whether such a list may have no items: all may but the names behind `to`.
pub fn may_be_empty(listing: &Listing) -> bool
    ensures { result ≡ spec.may_be_empty listing.now }
{
    !matches!(listing, Listing::Names(..))
}
