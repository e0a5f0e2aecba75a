//! Canonical texts, as the definitions give them by hand.

use crate::expression::write_expr;
use crate::tests::scripts::{cached_app, join_app, looping_app, main_block};
use crate::tests::trees::{built_in, call, chain, choice, items, literal};
use crate::{print, print_app};
use script_tree::tree::{AppDef, Block, Expr};
use sqlite_items::Items as ListOf;
use std::alloc::{AllocError, Global};
use std::test::Fail;
use text_writer::Writer;

mod scripts;
mod trees;

fn shown(alloc: Global, e: &Expr) -> Result<String, Fail> {
    let mut writer = Writer::new(alloc);
    write_expr(&mut writer, e)?;
    Ok(String::from_utf8(writer.into_bytes())?)
}

#[test]
fn expressions(rt: HostRuntime) -> Result<(), Fail> {
    let alloc = rt.alloc();
    for (e, text) in [
        (chain(alloc)?, "a + 2 * -b - c"),
        (choice(alloc)?, "a or not b and c <= 3"),
        (items(alloc)?, "[1, [], (a)][0][b]"),
        (literal(alloc)?, r#""a \"b\" \\ c\n""#),
        (built_in(alloc)?, "slice(a, 0, 12)"),
        (call(alloc)?, "call f(a) to (b, 7)"),
    ] {
        assert_eq!(rt; shown(alloc, &e)?.as_str(), text);
    }
    Ok(())
}

fn shown_app(alloc: Global, app: &AppDef) -> Result<String, Fail> {
    Ok(String::from_utf8(print_app(alloc, app)?)?)
}

const LOOPING: &str = "app f(a, b) {
  while a {
    if a {
      return b;
    } else {
      if b {
        raise \"no\";
      }
    }
  }
  return nothing;
}
";

const CACHED: &str = "cached app g(a) outputs 2 {
  write 1, a;
  checkpoint;
}
";

#[test]
fn apps(rt: HostRuntime) -> Result<(), Fail> {
    let alloc = rt.alloc();
    for (app, text) in [
        (looping_app(alloc)?, LOOPING),
        (cached_app(alloc)?, CACHED),
        (join_app(alloc)?, "join app h() {\n}\n"),
    ] {
        assert_eq!(rt; shown_app(alloc, &app)?.as_str(), text);
    }
    Ok(())
}

fn two_apps(alloc: Global) -> Result<ListOf<AppDef>, AllocError> {
    let mut apps = ListOf::new(alloc);
    apps.push(cached_app(alloc)?)?;
    apps.push(join_app(alloc)?)?;
    Ok(apps)
}

fn shown_script(alloc: Global, apps: &[AppDef], main: &Block) -> Result<String, Fail> {
    Ok(String::from_utf8(print(alloc, apps, main)?)?)
}

const SCRIPT: &str = "cached app g(a) outputs 2 {
  write 1, a;
  checkpoint;
}

join app h() {
}

main {
  let a = call f(a) to (b, 7);
  for b in [1, [], (a)][0][b] {
    b = slice(a, 0, 12);
    print b;
  }
  call h();
}
";

#[test]
fn scripts_have_a_blank_line_behind_each_app(rt: HostRuntime) -> Result<(), Fail> {
    let alloc = rt.alloc();
    let apps = two_apps(alloc)?;
    let main = main_block(alloc)?;
    assert_eq!(rt;
        shown_script(alloc, apps.as_slice(), &main)?.as_str(),
        SCRIPT
    );
    Ok(())
}
