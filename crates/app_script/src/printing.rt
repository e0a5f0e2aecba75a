//! Prints scripts.

ghost use Rattle.std.specs.Prelude.{◌≡◌, ◌≤◌, length, IfOk};
ghost use Rattle.script_tree.specs.Canonical.{canonical};
ghost use Rattle.script_tree.specs.Grammar.{max_text};
ghost use Rattle.app_script.specs.Parsing.{IsTextOf};

use script_tree::script::Script;
use std::alloc::{AllocError, Global};

/// The canonical text of a script. Where it has at most 1 MiB it is a text of the script's tree, and
/// of no other, so `parse` gives that tree back.
#[tactic(auto, using(crate::proofs::Printed::is_text))]
pub fn print(alloc: Global, script: &Script) -> Result<Vec<u8>, AllocError>
    ensures text { IfOk result (λ text. text.items ≡ canonical script.now.tree) }
    ensures reads { IfOk result (λ text. length text.items ≤ max_text → IsTextOf script.now.tree text.items) }
{
    script_print::print(alloc, script.apps(), script.main())
}
