//! The text of apps and scripts.

ghost use Rattle.std.specs.Prelude.{◌≡◌, ◌++◌, ◌∷◌, [], IfOk, OnOk, codes, flat_map};
ghost use Rattle.script_tree.specs.Canonical as canonical;

use crate::indent::Indent;
use crate::parts::{write_number, write_parameters};
use crate::statement::write_block;
use script_tree::tree::{AppDef, Block};
use std::alloc::{AllocError, Global};
use text_writer::Writer;

// The word, where it holds.
fn write_when(writer: &mut Writer, holds: bool, word: &[u8]) -> Result<(), AllocError>
    ensures { OnOk result (writer.new ≡ writer.old ++ canonical.when holds word.now) }
{
    if holds { writer.add(word) } else { Ok(()) }
}

fn write_outputs(writer: &mut Writer, outputs: Option<i64>) -> Result<(), AllocError>
    ensures { OnOk result (writer.new ≡ writer.old ++ canonical.outputs_part outputs) }
{
    match outputs {
        None => Ok(()),
        Some(n) => {
            writer.add(b" outputs ")?;
            write_number(writer, n)
        }
    }
}

// What stands before an app's block.
fn write_head(writer: &mut Writer, app: &AppDef) -> Result<(), AllocError>
    ensures { OnOk result (writer.new ≡ writer.old ++ canonical.when app.now.cached (codes "cached ") ++ canonical.when app.now.join (codes "join ") ++ codes "app " ++ app.now.name ++ canonical.in_parens (canonical.listed app.now.parameters) ++ canonical.outputs_part app.now.outputs ++ codes " ") }
{
    write_when(writer, app.cached, b"cached ")?;
    write_when(writer, app.join, b"join ")?;
    writer.add(b"app ")?;
    writer.add(app.name.as_slice())?;
    write_parameters(writer, app.parameters.as_slice())?;
    write_outputs(writer, app.outputs)?;
    writer.add(b" ")
}

// Adds an app.
#[tactic(auto, unfolding(script_tree::specs::Canonical::app))]
fn write_app(writer: &mut Writer, alloc: Global, app: &AppDef) -> Result<(), AllocError>
    ensures { OnOk result (writer.new ≡ writer.old ++ canonical.app app.now) }
{
    write_head(writer, app)?;
    write_block(writer, &app.body, &Indent::none(alloc))?;
    writer.add(b"\n")
}

// A blank line behind each.
fn write_apps(writer: &mut Writer, alloc: Global, apps: &[AppDef]) -> Result<(), AllocError>
    ensures { OnOk result (writer.new ≡ writer.old ++ flat_map (λ app. canonical.app app ++ 10 ∷ []) apps.now) }
{
    for app in apps {
        write_app(writer, alloc, app)?;
        writer.add(b"\n")?;
    }
    Ok(())
}

// Adds a script.
#[tactic(auto, unfolding(script_tree::specs::Canonical::canonical))]
fn write_script(
    writer: &mut Writer,
    alloc: Global,
    apps: &[AppDef],
    main: &Block,
) -> Result<(), AllocError>
    ensures { OnOk result (writer.new ≡ writer.old ++ canonical.canonical (apps.now, main.now)) }
{
    write_apps(writer, alloc, apps)?;
    writer.add(b"main ")?;
    write_block(writer, main, &Indent::none(alloc))?;
    writer.add(b"\n")
}

/// The canonical text of a script.
pub fn print(alloc: Global, apps: &[AppDef], main: &Block) -> Result<Vec<u8>, AllocError>
    ensures { IfOk result (λ text. text.items ≡ canonical.canonical (apps.now, main.now)) }
{
    let mut writer = Writer::new(alloc);
    write_script(&mut writer, alloc, apps, main)?;
    Ok(writer.into_bytes())
}

/// The canonical text of an app.
pub fn print_app(alloc: Global, app: &AppDef) -> Result<Vec<u8>, AllocError>
    ensures { IfOk result (λ text. text.items ≡ canonical.app app.now) }
{
    let mut writer = Writer::new(alloc);
    write_app(&mut writer, alloc, app)?;
    Ok(writer.into_bytes())
}
