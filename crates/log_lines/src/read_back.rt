//! The history of a run is read back from its report.

ghost use Rattle.log_lines.specs.ReadBack.{ReportsAreReadBack};

/// The text behind the first line of a report that begins with `log ` is of the entries of its log, and of no others.
pub fn reports_are_read_back()
    ensures { ReportsAreReadBack }
{}
