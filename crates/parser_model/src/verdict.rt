//! What the machine's verdict on a text says.

ghost use Rattle.script_tree.specs.Lexing.{Text};
ghost use Rattle.parser_model.specs.Parsing.{Says, text_verdict};

/// The verdict on each text is true: the text has the tree that it gives, or the fault that it gives is
/// that of the text, the least by place and there by number.
pub fn verdict_is_right()
    ensures { (text : Text) → Says text (text_verdict text) }
{}
