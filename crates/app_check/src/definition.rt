//! The marks of apps and scripts.

ghost use Rattle.std.specs.Prelude.{◌≡◌, ◌++◌, ◌∷◌, [], OnOk};
ghost use Rattle.script_tree.specs.Marks as marks;
ghost use Rattle.script_tree.specs.Marks.{Defines, Joins, Other};
ghost use Rattle.app_check.specs.Seeing.{seen};

use crate::checker::Checker;
use crate::statement::see_block;
use script_tree::tree::{AppDef, Block, Name};
use std::alloc::{AllocError, Global};

// With commas between them.
#[tactic(auto, using(crate::proofs::Equations::mark_rules))]
fn see_names<'a>(checker: &mut Checker<'a>, names: &'a [Name]) -> Result<(), AllocError>
    ensures { OnOk result (checker.new ≡ seen checker.old (marks.listed (marks.parameters_from 0 names.now))) }
{
    if let Some((first, rest)) = names.split_first() {
        checker.take_parameter(0, first)?;
        for (before, name) in rest.iter().enumerate() {
            checker.pass_other();
            checker.take_parameter(before + 1, name)?;
        }
    }
    Ok(())
}

#[tactic(auto, using(crate::proofs::Equations::mark_rules))]
fn see_parameters<'a>(checker: &mut Checker<'a>, names: &'a [Name]) -> Result<(), AllocError>
    ensures { OnOk result (checker.new ≡ seen checker.old (marks.in_parens (marks.listed (marks.parameters_from 0 names.now)))) }
{
    checker.pass_other();
    see_names(checker, names)?;
    checker.pass_other();
    Ok(())
}

#[tactic(auto, using(crate::proofs::Equations::mark_rules))]
fn see_outputs(checker: &mut Checker<'_>, outputs: Option<i64>)
    ensures { checker.new ≡ seen checker.old (marks.outputs_part outputs) }
{
    match outputs {
        None => {}
        Some(count) => {
            checker.declare_outputs();
            checker.output_count(count);
        }
    }
}

#[tactic(auto, using(crate::proofs::Equations::mark_rules))]
fn see_cached(checker: &mut Checker<'_>, cached: bool)
    ensures { checker.new ≡ seen checker.old (marks.when cached Other) }
{
    if cached {
        checker.pass_other();
    }
}

#[tactic(auto, using(crate::proofs::Equations::mark_rules))]
fn see_join(checker: &mut Checker<'_>, join: bool, cached: bool)
    ensures { checker.new ≡ seen checker.old (marks.when join (Joins cached)) }
{
    if join {
        checker.join(cached);
    }
}

// What stands before the parameters of an app.
#[tactic(auto, using(crate::proofs::Equations::mark_rules))]
fn see_head(
    checker: &mut Checker<'_>,
    alloc: Global,
    number: usize,
    app: &AppDef,
) -> Result<(), AllocError>
    ensures { OnOk result (checker.new ≡ seen checker.old (marks.when app.now.cached Other ++ (marks.when app.now.join (Joins app.now.cached) ++ (Other ∷ Defines number app.now ∷ [])))) }
{
    see_cached(checker, app.cached);
    see_join(checker, app.join, app.cached);
    checker.pass_other();
    checker.define_app(alloc, number, app)
}

// An app, before which so many were defined.
#[tactic(auto, using(crate::proofs::Equations::mark_rules))]
fn see_app<'a>(
    checker: &mut Checker<'a>,
    alloc: Global,
    number: usize,
    app: &'a AppDef,
) -> Result<(), AllocError>
    ensures { OnOk result (checker.new ≡ seen checker.old (marks.app number app.now)) }
{
    see_head(checker, alloc, number, app)?;
    see_parameters(checker, app.parameters.as_slice())?;
    see_outputs(checker, app.outputs);
    see_block(checker, &app.body, None)
}

#[tactic(auto, using(crate::proofs::Equations::mark_rules))]
fn see_apps<'a>(
    checker: &mut Checker<'a>,
    alloc: Global,
    apps: &'a [AppDef],
) -> Result<(), AllocError>
    ensures { OnOk result (checker.new ≡ seen checker.old (marks.apps_from 0 apps.now)) }
{
    for (number, app) in apps.iter().enumerate() {
        see_app(checker, alloc, number, app)?;
    }
    Ok(())
}

/// Sees a script.
#[tactic(auto, using(crate::proofs::Equations::mark_rules))]
pub fn see_script<'a>(
    checker: &mut Checker<'a>,
    alloc: Global,
    apps: &'a [AppDef],
    main: &'a Block,
) -> Result<(), AllocError>
    ensures { OnOk result (checker.new ≡ seen checker.old (marks.script (apps.now, main.now))) }
{
    see_apps(checker, alloc, apps)?;
    checker.begin_main();
    see_block(checker, main, None)
}
