//! A script that breaks no static rule.

ghost use Rattle.std.specs.Prelude.{◌≡◌};
ghost use Rattle.script_tree.specs.Rules.{IsWellFormed};

use crate::script::Script;
use std::marker::Model;

/// Contracts see the script.
#[derive(Drop)]
pub struct Checked {
    script: Script,
}

impl Model for Checked {
    ghost use Rattle.script_tree.specs.Grammar.{PlacedTree};
    ghost use Rattle.std.specs.Coded.{codes};
    ghost use Rattle.script_tree.specs.contracts.tree.Statement as statement;
    ghost use Rattle.script_tree.specs.contracts.tree.Expr as expr;
    ghost use Rattle.script_tree.specs.contracts.tree.CallExpr as call;
    ghost use Rattle.script_tree.specs.Rules.{IsWellFormed};

    ghost Value = { PlacedTree };

    ghost coded = { Prim.hlevel (codes, statement.the_row.coded, expr.the_row.coded, call.the_row.coded) };

    ghost view = { λ c. c.script };

    ghost invariant = { λ c. IsWellFormed c.script.tree };
}

impl Checked {
    /// A script that is known to break no static rule.
    pub fn of(script: Script) -> Checked
        requires { IsWellFormed script.tree }
        ensures { result ≡ script }
    {
        Checked { script }
    }

    /// The script, which breaks no static rule.
    pub fn script(&self) -> &Script
        ensures script { result.now ≡ self.now }
        ensures right { IsWellFormed self.now.tree }
    {
        &self.script
    }
}
