//! The programs of a script's bodies, made once.

ghost use Rattle.std.specs.Prelude.{◌≡◌, ◌<◌, ◌^◌, [], length, map, slice_get, IfOk, IfSome};
ghost use Rattle.std.specs.Arc.{arc_value};
ghost use Rattle.script_tree.specs.Rules.{IsWellFormed};
ghost use Rattle.flow_meaning.specs.Walk.{names_in};
ghost use Rattle.body_program.specs.Resolved.{IsProgramOf};
ghost use Rattle.compiled_script.specs.Programs.{ArePrograms, IsProgramOfApp};

use app_index::Apps;
use body_program::{Program, program};
use script_tree::checked::Checked;
use script_tree::script::Script;
use script_tree::tree::AppDef;
use std::alloc::{AllocError, Global};
use std::marker::Model;
use std::sync::Arc;

/// A script with the programs of main and of each app's body, which are made once. Contracts see the script.
#[derive(Drop)]
pub struct CompiledScript {
    script: Arc<Checked>,
    main: Arc<Program>,
    // by the numbers of the apps
    bodies: Vec<Arc<Program>>,
}

impl Model for CompiledScript {
    ghost use Rattle.std.specs.Prelude.{[], map};
    ghost use Rattle.std.specs.Arc.{arc_value};
    ghost use Rattle.std.specs.Coded.{codes};
    ghost use Rattle.script_tree.specs.contracts.tree.Statement as statement;
    ghost use Rattle.script_tree.specs.contracts.tree.Expr as expr;
    ghost use Rattle.script_tree.specs.contracts.tree.CallExpr as call;
    ghost use Rattle.script_tree.specs.Grammar.{PlacedTree};
    ghost use Rattle.flow_meaning.specs.Walk.{names_in};
    ghost use Rattle.body_program.specs.Resolved.{IsProgramOf};
    ghost use Rattle.compiled_script.specs.Programs.{ArePrograms};

    ghost Value = { PlacedTree };

    ghost coded = { Prim.hlevel (codes, statement.the_row.coded, expr.the_row.coded, call.the_row.coded) };

    ghost view = { λ c. arc_value c.script };

    ghost invariant = { λ c.
        IsProgramOf (arc_value c.main) (names_in (arc_value c.script).tree.0) (arc_value c.script).tree.1 []
        × ArePrograms (arc_value c.script).tree.0 (arc_value c.script).tree.0 (map arc_value c.bodies.items) };
}

impl CompiledScript {
    /// The script with its programs.
    pub fn of(alloc: Global, script: Arc<Checked>) -> Result<CompiledScript, AllocError>
        requires few { length (arc_value script).tree.0 < 2 ^ 32 }
        ensures { IfOk result (λ s. s ≡ arc_value script) }
    {
        let (main, bodies) = programs(alloc, script.script())?;
        Ok(CompiledScript {
            script,
            main,
            bodies,
        })
    }

    /// The script, which breaks no static rule.
    pub fn script(&self) -> &Script
        ensures script { result.now ≡ self.now }
        ensures right { IsWellFormed self.now.tree }
    {
        self.script.script()
    }

    /// The program of main.
    pub fn main(&self) -> &Arc<Program>
        ensures { IsProgramOf (arc_value result.now) (names_in self.now.tree.0) self.now.tree.1 [] }
    {
        &self.main
    }

    /// The program of the body of the app of this number.
    pub fn body(&self, app: u32) -> &Arc<Program>
        requires { app < length self.now.tree.0 }
        ensures { IfSome (slice_get self.now.tree.0 app) (λ found. IsProgramOfApp self.now.tree.0 found (arc_value result.now)) }
    {
        &self.bodies[app as usize]
    }
}

/// The programs of main and of the apps.
fn programs(alloc: Global, script: &Script) -> Result<(Arc<Program>, Vec<Arc<Program>>), AllocError>
    requires { length script.now.tree.0 < 2 ^ 32 }
    ensures main { IfOk result (λ both. IsProgramOf (arc_value both.0) (names_in script.now.tree.0) script.now.tree.1 []) }
    ensures bodies { IfOk result (λ both. ArePrograms script.now.tree.0 script.now.tree.0 (map arc_value both.1.items)) }
{
    let apps = script.apps();
    let known = Apps::of(alloc, apps)?;
    let none = Apps::of(alloc, &[])?;
    let main = program(alloc, &known, &[], script.main())?;
    let mut bodies = Vec::new(alloc);
    for app in apps {
        bodies.push(app_program(alloc, &known, &none, app)?)?;
    }
    Ok((Arc::new(alloc, main)?, bodies))
}

/// The program of an app's body. A plain app's body knows no app.
fn app_program<'a>(
    alloc: Global,
    known: &Apps<'a>,
    none: &Apps<'a>,
    app: &'a AppDef,
) -> Result<Arc<Program>, AllocError>
    requires few { length known.now < 2 ^ 32 }
    requires none { none.now ≡ [] }
    ensures { IfOk result (λ program. IsProgramOfApp known.now app.now (arc_value program)) }
{
    let apps = if app.join { known } else { none };
    let program = program(alloc, apps, app.parameters.as_slice(), &app.body)?;
    Ok(Arc::new(alloc, program)?)
}
