//! The whole report.

ghost use Rattle.std.specs.Prelude.{◌≡◌, ◌++◌, IfOk, OnOk};
ghost use Rattle.run_report.specs.Reported.{count_line, report_text};

use crate::lines::print_head;
use event_log::{Entry, write_log};
use flow_base::Evaluation;
use std::alloc::{AllocError, Global};
use text_writer::Writer;

// The line that tells how many entries come below it.
fn print_count(alloc: Global, writer: &mut Writer, count: usize) -> Result<(), AllocError>
    ensures { OnOk result (writer.new ≡ writer.old ++ count_line count) }
{
    let text = count.to_string(alloc)?;
    writer.add(b"log ")?;
    writer.add(text.as_bytes())?;
    writer.add(b"\n")
}

/// The whole report: what stands before its log, how many entries the log has, and the log.
pub fn report(
    alloc: Global,
    evaluation: &Evaluation,
    entries: &[Entry],
) -> Result<Vec<u8>, AllocError>
    ensures { IfOk result (λ text. text.items ≡ report_text evaluation.now entries.now) }
{
    let mut writer = Writer::new(alloc);
    print_head(&mut writer, evaluation)?;
    print_count(alloc, &mut writer, entries.len())?;
    write_log(&mut writer, entries)?;
    Ok(writer.into_bytes())
}
