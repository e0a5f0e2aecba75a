//! Which logs have a line for each entry, as contracts.

ghost use Rattle.log_lines.specs.Lines.{LegalLogsHaveLines, TextsHaveNames, TasksAreOfApps};

/// Each entry of a legal log has a line.
pub fn legal_logs_have_lines()
    ensures { LegalLogsHaveLines }
{}

/// A tree that has a text has names.
pub fn texts_have_names()
    ensures { TextsHaveNames }
{}

/// Each task of a sequential evaluation is of an app of the script.
pub fn tasks_are_of_apps()
    ensures { TasksAreOfApps }
{}
