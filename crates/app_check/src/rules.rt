//! What the rules ask of numbers and of texts.

ghost use Rattle.std.specs.Prelude.{◌≡◌, ◌&&◌, length, nat_lt, IfOk};
ghost use Rattle.script_tree.specs.Canonical as canonical;
ghost use Rattle.script_tree.specs.Rules as rules;

use script_print::print_app;
use script_tree::BodyKind;
use script_tree::tree::{AppDef, BuiltIn};
use std::alloc::{AllocError, Global};

/// The most parameters of an app, and the most outputs.
pub const MAX_COUNT: usize = 16;

/// The most bytes of the text of a cached app.
const MAX_KEY_TEXT: usize = 16_384;

/// Whether an app may have so many outputs.
pub fn is_count(count: i64) -> bool
    ensures { result ≡ rules.is_count count }
{
    1 <= count && count <= MAX_COUNT as i64
}

/// How many outputs an app has.
pub fn outputs_of(outputs: Option<i64>) -> u64
    ensures { result ≡ rules.outputs_of outputs }
{
    match outputs {
        None => 0,
        Some(count) => { if count < 0 { 0 } else { count as u64 } }
    }
}

/// Whether only `main` may use it.
pub fn waits(built_in: BuiltIn) -> bool
    ensures { result ≡ rules.waits built_in }
{
    match built_in {
        BuiltIn::Result | BuiltIn::Exception => true,
        BuiltIn::Len
        | BuiltIn::Text
        | BuiltIn::Number
        | BuiltIn::Slice
        | BuiltIn::Range
        | BuiltIn::Append
        | BuiltIn::Split
        | BuiltIn::Concat
        | BuiltIn::File
        | BuiltIn::Name
        | BuiltIn::Content
        | BuiltIn::Output => false,
    }
}

/// Whether an app is cached, and its text is too long.
pub fn is_long(alloc: Global, app: &AppDef) -> Result<bool, AllocError>
    ensures { IfOk result (λ long. long ≡ (app.now.cached && nat_lt rules.max_key_text (length (canonical.app app.now)))) }
{
    if !app.cached {
        return Ok(false);
    }
    let text = print_app(alloc, app)?;
    Ok(text.len() > MAX_KEY_TEXT)
}

/// The body of an app.
pub fn body_of(app: &AppDef) -> BodyKind
    ensures { result ≡ rules.body_of app.now }
{
    if app.join {
        BodyKind::Join
    } else {
        BodyKind::Plain
    }
}

/// Whether it is a plain app's.
pub fn is_plain(body: BodyKind) -> bool
    ensures { result ≡ rules.is_plain body }
{
    match body {
        BodyKind::Plain => true,
        BodyKind::Join | BodyKind::OfMain => false,
    }
}

/// Whether it is a join app's.
pub fn is_join(body: BodyKind) -> bool
    ensures { result ≡ rules.is_join body }
{
    match body {
        BodyKind::Join => true,
        BodyKind::Plain | BodyKind::OfMain => false,
    }
}

/// Whether it is that of `main`.
pub fn is_main(body: BodyKind) -> bool
    ensures { result ≡ rules.is_main body }
{
    match body {
        BodyKind::OfMain => true,
        BodyKind::Plain | BodyKind::Join => false,
    }
}
