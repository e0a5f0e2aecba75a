//! Operands.

ghost use Rattle.std.specs.Prelude.{◌≡◌, IfOk, [], ◌∷◌, ◌++◌};
ghost use Rattle.parser_model.specs.Reading as spec;
ghost use Rattle.script_tree.specs.declared.tree.Atom.TheVariants as atom;

use parser_model::expression_state::Before;
use script_tree::tree::{Atom, CallExpr, Expr, Name, Post};
use sqlite_items::{Boxed, Items as ListOf};
use std::alloc::{AllocError, Global};

/// An expression of which nothing has been read.
pub fn nothing_before() -> Before
    ensures { result ≡ spec.nothing_before }
{
    Before {
        ors: None,
        ands: None,
        left: None,
        sum: None,
        term: None,
        sign: None,
    }
}

/// An atom without indices.
pub fn bare(alloc: Global, atom: Atom) -> Post
    ensures { result ≡ spec.bare atom }
{
    Post {
        atom,
        indices: ListOf::new(alloc),
    }
}

/// A call as an operand.
pub fn call_post(
    alloc: Global,
    app: Name,
    arguments: ListOf<Expr>,
    names: ListOf<Expr>,
) -> Result<Post, AllocError>
    ensures { IfOk result (λ p. p ≡ spec.call_post app arguments names) }
{
    let call = Boxed::new(
        alloc,
        CallExpr {
            app,
            arguments,
            names,
        },
    )?;
    Ok(bare(alloc, Atom::Call(call)))
}

/// The operand with one more index.
pub fn with_index(post: Post, index: Expr) -> Result<Post, AllocError>
    ensures { IfOk result (λ p. p ≡ spec.with_index post index) }
{
    let mut post = post;
    post.indices.push(index)?;
    Ok(post)
}

/// An expression in parentheses as an operand.
pub fn paren(alloc: Global, inner: Expr) -> Result<Post, AllocError>
    ensures { IfOk result (λ p. p ≡ spec.bare (atom.Paren inner)) }
{
    let inner = Boxed::new(alloc, inner)?;
    Ok(bare(alloc, Atom::Paren(inner)))
}

/// The list with one more item.
pub fn with_item(items: ListOf<Expr>, item: Expr) -> Result<ListOf<Expr>, AllocError>
    ensures { IfOk result (λ all. all ≡ items ++ item ∷ []) }
{
    let mut all = items;
    all.push(item)?;
    Ok(all)
}
