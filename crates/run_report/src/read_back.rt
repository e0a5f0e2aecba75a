//! The log is found in the report.

ghost use Rattle.run_report.specs.ReadBack.{LogsAreFound};

/// The log of a report is what stands behind the first line that begins with `log `.
pub fn logs_are_found()
    ensures { LogsAreFound }
{}
