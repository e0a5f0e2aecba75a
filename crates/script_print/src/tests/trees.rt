//! Expressions.

use flow_base::Text;
use script_tree::tree::{
    Added, Atom, CallExpr, Comp, CompareOp, Compared, Conj, Expr, Factor, Post, Sum, SumOp, Term,
    TermOp, Unary, UnaryOp,
};
use sqlite_items::{Boxed, Items as ListOf};
use std::alloc::{AllocError, Global};

// Leaves out what no text holds.
pub fn text(alloc: Global, bytes: &str) -> Result<Text, AllocError> {
    let mut text = Text::new(alloc);
    for byte in bytes.as_bytes() {
        if *byte == b'\n' || (*byte >= b' ' && *byte <= b'~') {
            text.push(*byte)?;
        }
    }
    Ok(text)
}

fn unary(alloc: Global, atom: Atom) -> Unary {
    Unary {
        op: None,
        post: Post {
            atom,
            indices: ListOf::new(alloc),
        },
    }
}

fn term(alloc: Global, first: Unary) -> Term {
    Term {
        first,
        others: ListOf::new(alloc),
    }
}

fn sum(alloc: Global, first: Unary) -> Sum {
    Sum {
        first: term(alloc, first),
        others: ListOf::new(alloc),
    }
}

fn comp(alloc: Global, first: Unary) -> Comp {
    Comp {
        left: sum(alloc, first),
        test: None,
    }
}

fn conj(alloc: Global, first: Comp) -> Conj {
    Conj {
        first,
        others: ListOf::new(alloc),
    }
}

fn expr(alloc: Global, first: Comp) -> Expr {
    Expr {
        first: conj(alloc, first),
        others: ListOf::new(alloc),
    }
}

pub fn alone(alloc: Global, atom: Atom) -> Expr {
    expr(alloc, comp(alloc, unary(alloc, atom)))
}

fn named(alloc: Global, name: &str) -> Result<Unary, AllocError> {
    Ok(unary(alloc, Atom::Variable(text(alloc, name)?)))
}

pub fn variable(alloc: Global, name: &str) -> Result<Expr, AllocError> {
    Ok(expr(alloc, comp(alloc, named(alloc, name)?)))
}

fn minus_b(alloc: Global) -> Result<Unary, AllocError> {
    let mut b = named(alloc, "b")?;
    b.op = Some(UnaryOp::Minus);
    Ok(b)
}

fn two_times_minus_b(alloc: Global) -> Result<Term, AllocError> {
    let mut product = term(alloc, unary(alloc, Atom::Number(2)));
    product.others.push(Factor {
        op: TermOp::Times,
        unary: minus_b(alloc)?,
    })?;
    Ok(product)
}

/// `a + 2 * -b - c`
pub fn chain(alloc: Global) -> Result<Expr, AllocError> {
    let mut left = sum(alloc, named(alloc, "a")?);
    left.others.push(Added {
        op: SumOp::Plus,
        term: two_times_minus_b(alloc)?,
    })?;
    left.others.push(Added {
        op: SumOp::Minus,
        term: term(alloc, named(alloc, "c")?),
    })?;
    Ok(expr(alloc, Comp { left, test: None }))
}

fn not_b(alloc: Global) -> Result<Unary, AllocError> {
    let mut b = named(alloc, "b")?;
    b.op = Some(UnaryOp::Not);
    Ok(b)
}

fn c_at_most_three(alloc: Global) -> Result<Comp, AllocError> {
    let mut c = comp(alloc, named(alloc, "c")?);
    c.test = Some(Compared {
        op: CompareOp::AtMost,
        right: sum(alloc, unary(alloc, Atom::Number(3))),
    });
    Ok(c)
}

/// `a or not b and c <= 3`
pub fn choice(alloc: Global) -> Result<Expr, AllocError> {
    let mut both = conj(alloc, comp(alloc, not_b(alloc)?));
    both.others.push(c_at_most_three(alloc)?)?;
    let mut either = variable(alloc, "a")?;
    either.others.push(both)?;
    Ok(either)
}

fn list(alloc: Global) -> Result<Atom, AllocError> {
    let mut list = ListOf::new(alloc);
    list.push(alone(alloc, Atom::Number(1)))?;
    list.push(alone(alloc, Atom::List(ListOf::new(alloc))))?;
    let paren = Atom::Paren(Boxed::new(alloc, variable(alloc, "a")?)?);
    list.push(alone(alloc, paren))?;
    Ok(Atom::List(list))
}

/// `[1, [], (a)][0][b]`
pub fn items(alloc: Global) -> Result<Expr, AllocError> {
    let mut list = unary(alloc, list(alloc)?);
    list.post.indices.push(alone(alloc, Atom::Number(0)))?;
    list.post.indices.push(variable(alloc, "b")?)?;
    Ok(expr(alloc, comp(alloc, list)))
}

/// A text with each byte that is spelt as two.
pub fn literal(alloc: Global) -> Result<Expr, AllocError> {
    Ok(alone(alloc, Atom::Text(text(alloc, "a \"b\" \\ c\n")?)))
}

/// `slice(a, 0, 12)`
pub fn built_in(alloc: Global) -> Result<Expr, AllocError> {
    let mut arguments = ListOf::new(alloc);
    arguments.push(variable(alloc, "a")?)?;
    arguments.push(alone(alloc, Atom::Number(0)))?;
    arguments.push(alone(alloc, Atom::Number(12)))?;
    Ok(alone(alloc, Atom::BuiltIn(text(alloc, "slice")?, arguments)))
}

/// `call f(a) to (b, 7)`
pub fn call(alloc: Global) -> Result<Expr, AllocError> {
    let mut arguments = ListOf::new(alloc);
    arguments.push(variable(alloc, "a")?)?;
    let mut names = ListOf::new(alloc);
    names.push(variable(alloc, "b")?)?;
    names.push(alone(alloc, Atom::Number(7)))?;
    let app = text(alloc, "f")?;
    let call = CallExpr {
        app,
        arguments,
        names,
    };
    Ok(alone(alloc, Atom::Call(Boxed::new(alloc, call)?)))
}
