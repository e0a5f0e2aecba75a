//! The canonical texts of a script's apps, made once.

ghost use Rattle.std.specs.Prelude.{◌≡◌, ◌<◌, All, Some, length, map, slice_get, IfOk};
ghost use Rattle.std.specs.Arc.{arc_value};
ghost use Rattle.flow_base.specs.TextBytes.{IsTextByte};
ghost use Rattle.script_tree.specs.Canonical as canonical;

use flow_base::Text;
use script_print::print_app;
use script_tree::script::Script;
use script_tree::tree::AppDef;
use std::alloc::{AllocError, Global};
use std::marker::Model;
use std::sync::Arc;

/// The canonical texts of a script's apps, by their numbers. Contracts see the list of them.
#[derive(Drop)]
pub struct AppTexts {
    texts: Vec<Arc<Text>>,
}

impl Model for AppTexts {
    ghost use Rattle.std.specs.Prelude.{List, ℕ, map};
    ghost use Rattle.std.specs.Arc.{arc_value};

    ghost Value = { List (List ℕ) };

    ghost view = { λ t. map arc_value t.texts.items };
}

impl AppTexts {
    /// The texts of the apps of a script.
    pub fn of(alloc: Global, script: &Script) -> Result<AppTexts, AllocError>
        ensures { IfOk result (λ texts. texts ≡ map canonical.app script.now.tree.0) }
    {
        let mut texts = Vec::new(alloc);
        for app in script.apps() {
            texts.push(app_text(alloc, app)?)?;
        }
        Ok(AppTexts { texts })
    }

    /// The text of the app of this number.
    pub fn get(&self, app: u32) -> &Arc<Text>
        requires { app < length self.now }
        ensures { Some (arc_value result.now) ≡ slice_get self.now app }
    {
        &self.texts[app as usize]
    }
}

/// The text of an app.
fn app_text(alloc: Global, app: &AppDef) -> Result<Arc<Text>, AllocError>
    requires { All IsTextByte (canonical.app app.now) }
    ensures { IfOk result (λ text. arc_value text ≡ canonical.app app.now) }
{
    let text = Text::from_bytes(print_app(alloc, app)?);
    Ok(Arc::new(alloc, text)?)
}
