//! A script: its tree, and the places of its tokens where it was read from a text.

ghost use Rattle.std.specs.Prelude.{◌≡◌};
ghost use Rattle.script_tree.specs.Grammar.{IsSpellable};

use crate::tree::{AppDef, Block};
use sqlite_items::Items as ListOf;
use std::marker::Model;

/// Contracts see a tree, and the place of each of its tokens.
#[derive(Drop)]
pub struct Script {
    apps: ListOf<AppDef>,
    main: Block,
    places: ListOf<u32>,
}

impl Model for Script {
    ghost use Rattle.std.specs.Coded.{codes};
    ghost use Rattle.script_tree.specs.contracts.tree.Statement as statement;
    ghost use Rattle.script_tree.specs.contracts.tree.Expr as expr;
    ghost use Rattle.script_tree.specs.contracts.tree.CallExpr as call;
    ghost use Rattle.script_tree.specs.Grammar.{PlacedTree};

    ghost Value = { PlacedTree };

    ghost coded = { Prim.hlevel (codes, statement.the_row.coded, expr.the_row.coded, call.the_row.coded) };

    ghost use Rattle.script_tree.specs.Grammar.{IsSpellable};

    ghost view = { λ s. record { tree = (s.apps, s.main); places = s.places } };

    ghost invariant = { λ s. IsSpellable (s.apps, s.main) };
}

impl Script {
    /// The script of a tree that some text has, with a place for each of its tokens.
    pub fn of(apps: ListOf<AppDef>, main: Block, places: ListOf<u32>) -> Script
        requires { IsSpellable (apps, main) }
        ensures { result ≡ record { tree = (apps, main); places = places } }
    {
        Script { apps, main, places }
    }

    /// The apps, in the order of their numbers. Some text has the script's tree, but for its length.
    pub fn apps(&self) -> &[AppDef]
        ensures apps { result.now ≡ self.now.tree.0 }
        ensures spellable { IsSpellable self.now.tree }
    {
        self.apps.as_slice()
    }

    /// The body of `main`.
    pub fn main(&self) -> &Block
        ensures { result.now ≡ self.now.tree.1 }
    {
        &self.main
    }

    /// The place of each token, in bytes from 0.
    pub fn places(&self) -> &[u32]
        ensures { result.now ≡ self.now.places }
    {
        self.places.as_slice()
    }
}
