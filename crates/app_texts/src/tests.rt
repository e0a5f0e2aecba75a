//! The texts of a script of two apps.

ghost use Rattle.std.specs.Prelude.{◌≡◌, ◌≤◌, length, IfOk};
ghost use Rattle.script_tree.specs.Spelling as spelling;
ghost use Rattle.print_parse_roundtrip.specs.Lexes.{IsName, AreTokens};

use crate::AppTexts;
use flow_base::Text;
use script_tree::script::Script;
use script_tree::tree::{AppDef, Block};
use sqlite_items::Items as ListOf;
use std::alloc::{AllocError, Global};
use std::test::Fail;

/// A block without statements.
fn nothing(alloc: Global) -> Block
    ensures tokens { AreTokens (spelling.block result) }
    ensures short { length (spelling.block result) ≡ 2 }
{
    Block {
        statements: ListOf::new(alloc),
    }
}

/// An app of this name, with nothing in it.
fn app(alloc: Global, name: &str, join: bool) -> Result<AppDef, AllocError>
    requires { IsName name.now }
    ensures tokens { IfOk result (λ app. AreTokens (spelling.app app)) }
    ensures short { IfOk result (λ app. length (spelling.app app) ≤ 10) }
{
    Ok(AppDef {
        cached: false,
        join,
        name: Text::of(alloc, name)?,
        parameters: ListOf::new(alloc),
        outputs: None,
        body: nothing(alloc),
    })
}

/// A script of an app and a join, with nothing in them.
fn two_apps(alloc: Global) -> Result<Script, AllocError>
    ensures { IfOk result (λ script. length script.tree.0 ≡ 2) }
{
    let first = app(alloc, "first", false)?;
    let second = app(alloc, "second", true)?;
    let mut apps = ListOf::new(alloc);
    apps.push(first)?;
    apps.push(second)?;
    Ok(Script::of(apps, nothing(alloc), ListOf::new(alloc)))
}

#[test]
fn texts_by_number(rt: HostRuntime) -> Result<(), Fail> {
    let alloc = rt.alloc();
    let script = two_apps(alloc)?;
    let texts = AppTexts::of(alloc, &script)?;
    assert_eq!(rt; texts.get(0).as_str(), "app first() {\n}\n");
    assert_eq!(rt; texts.get(1).as_str(), "join app second() {\n}\n");
    Ok(())
}
