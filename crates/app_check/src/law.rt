//! What holds of the marks of every script.

ghost use Rattle.std.specs.Prelude.{◌≡◌, length};
ghost use Rattle.script_tree.specs.Grammar.{Tree};
ghost use Rattle.script_tree.specs.Marks as marks;
ghost use Rattle.script_tree.specs.Spelling as spelling;

/// A script has as many marks as tokens, so that each mark has the place of its token.
pub fn marks_are_tokens()
    ensures { (tree : Tree) → length (marks.script tree) ≡ length (spelling.script tree) }
{}
