//! The apps of a script by their names.

ghost use Rattle.std.specs.Prelude.{◌≡◌, ◌++◌, ◌∷◌, [], List, length, take, bytes_eq, option_copied, IfOk, OnOk};
ghost use Rattle.std.specs.List.{list_any, position_or_len};
ghost use Rattle.script_tree.specs.Rules.{app_named};
ghost use Rattle.script_tree.specs.declared.tree.AppDef.{AppDef};
ghost use Rattle.app_index.specs.Numbers.{AreNumbers};

use indexmap::IndexMap;
use script_tree::tree::AppDef;
use sqlite_items::at;
use std::alloc::{AllocError, Global};
use std::marker::Model;

/// Apps, found by their names. Contracts see the list of them.
#[derive(Drop)]
pub struct Apps<'a> {
    apps: &'a [AppDef],
    // for each name the number of its first app
    numbers: IndexMap<&'a str, usize>,
}

impl<'a> Model for Apps<'a> {
    ghost use Rattle.std.specs.Prelude.{List};
    ghost use Rattle.std.specs.Coded.{codes};
    ghost use Rattle.script_tree.specs.contracts.tree.Statement as statement;
    ghost use Rattle.script_tree.specs.contracts.tree.Expr as expr;
    ghost use Rattle.script_tree.specs.contracts.tree.CallExpr as call;
    ghost use Rattle.script_tree.specs.declared.tree.AppDef.{AppDef as App};
    ghost use Rattle.app_index.specs.Numbers.{AreNumbers};

    ghost Value = { List App };

    ghost coded = { Prim.hlevel (codes, statement.the_row.coded, expr.the_row.coded, call.the_row.coded) };

    ghost view = { λ f. f.apps.now };

    ghost invariant = { λ f. AreNumbers f.apps.now f.numbers.entries };
}

impl<'a> Apps<'a> {
    /// These apps.
    pub fn of(alloc: Global, apps: &'a [AppDef]) -> Result<Apps<'a>, AllocError>
        ensures { IfOk result (λ f. f ≡ apps.now) }
    {
        match numbered(alloc, apps) {
            Ok(numbers) => Ok(Apps { apps, numbers }),
            Err(fault) => Err(fault),
        }
    }

    /// The first app of a name.
    pub fn named(&self, name: &str) -> Option<&'a AppDef>
        ensures { option_copied result ≡ app_named self.now name.now }
    {
        match self.numbers.get(name) {
            None => None,
            Some(number) => at(self.apps, *number),
        }
    }

    /// The number of the first app of a name, or how many there are where there is none.
    pub fn number_of(&self, name: &str) -> usize
        ensures { result ≡ position_or_len (λ app. bytes_eq app.name name.now) self.now }
    {
        match self.numbers.get(name) {
            None => self.apps.len(),
            Some(number) => *number,
        }
    }

    /// Whether one of the first so many apps has this name.
    pub fn is_taken(&self, name: &str, number: usize) -> bool
        ensures { result ≡ list_any (λ app. bytes_eq app.name name.now) (take number self.now) }
    {
        match self.numbers.get(name) {
            None => false,
            Some(first) => *first < number,
        }
    }
}

// For each name the number of its first app.
fn numbered<'a>(alloc: Global, apps: &'a [AppDef]) -> Result<IndexMap<&'a str, usize>, AllocError>
    ensures { IfOk result (λ numbers. AreNumbers apps.now numbers.entries) }
{
    let mut numbers = IndexMap::new(alloc);
    for (number, app) in apps.iter().enumerate() {
        add(&mut numbers, app, number)?;
    }
    Ok(numbers)
}

// Adds an app behind so many others.
fn add<'a>(
    numbers: &mut IndexMap<&'a str, usize>,
    app: &'a AppDef,
    number: usize,
) -> Result<(), AllocError>
    ensures { OnOk result ((apps : List AppDef) → length apps ≡ number → AreNumbers apps numbers.old.entries → AreNumbers (apps ++ app.now ∷ []) numbers.new.entries) }
{
    match numbers.get(app.name.as_str()) {
        Some(_) => Ok(()),
        None => {
            numbers.insert(app.name.as_str(), number)?;
            Ok(())
        }
    }
}
