//! The text of a log.

ghost use Rattle.std.specs.Prelude.{◌≡◌, ◌++◌, IfOk, OnOk};
ghost use Rattle.std.specs.Prelude.{codes};
ghost use Rattle.std.specs.Fmt.{decimal};
ghost use Rattle.event_log.specs.LogText.{attempt_text, managed_text, decision_text, entry_text, log_text};

use crate::entry::{Entries, Entry};
use crate::words::block_word;
use flow_base::{Decision, Path};
use std::alloc::{AllocError, Global};
use text_writer::Writer;

// As `1.2 try 1`.
fn print_attempt(writer: &mut Writer, path: &Path, attempt: u32) -> Result<(), AllocError>
    ensures { OnOk result (writer.new ≡ writer.old ++ attempt_text path.now attempt) }
{
    writer.path(path)?;
    writer.add(b" try ")?;
    writer.number(attempt)
}

// As `1.2 try 1 manager 3`.
fn print_managed(
    writer: &mut Writer,
    path: &Path,
    attempt: u32,
    manager: u32,
) -> Result<(), AllocError>
    ensures { OnOk result (writer.new ≡ writer.old ++ managed_text path.now attempt manager) }
{
    print_attempt(writer, path, attempt)?;
    writer.add(b" manager ")?;
    writer.number(manager)
}

// As `keep` or `out 2`.
fn print_decision(writer: &mut Writer, decision: Decision) -> Result<(), AllocError>
    ensures { OnOk result (writer.new ≡ writer.old ++ decision_text decision) }
{
    match decision {
        Decision::Keep => writer.add(b"keep"),
        Decision::Out(count) => {
            writer.add(b"out ")?;
            writer.number(count)
        }
        Decision::In(count) => {
            writer.add(b"in ")?;
            writer.number(count)
        }
    }
}

// As `1 block 2 slots 4`.
fn print_registration(
    writer: &mut Writer,
    manager: u32,
    block: u32,
    slots: u32,
) -> Result<(), AllocError>
    ensures { OnOk result (writer.new ≡ writer.old ++ decimal manager ++ codes " block " ++ decimal block ++ codes " slots " ++ decimal slots) }
{
    writer.number(manager)?;
    writer.add(b" block ")?;
    writer.number(block)?;
    writer.add(b" slots ")?;
    writer.number(slots)
}

fn print_entry(writer: &mut Writer, entry: &Entry) -> Result<(), AllocError>
    ensures { OnOk result (writer.new ≡ writer.old ++ entry_text entry.now) }
{
    match entry {
        Entry::Submit { path, app } => {
            writer.add(b"submit ")?;
            writer.path(path)?;
            writer.add(b" ")?;
            writer.add(app.as_slice())
        }
        Entry::JoinRun { path } => {
            writer.add(b"join ")?;
            writer.path(path)
        }
        Entry::MemoHit { path } => {
            writer.add(b"memo ")?;
            writer.path(path)
        }
        Entry::Launch { path, attempt } => {
            writer.add(b"launch ")?;
            print_attempt(writer, path, *attempt)
        }
        Entry::Dispatch {
            path,
            attempt,
            manager,
        } => {
            writer.add(b"dispatch ")?;
            print_managed(writer, path, *attempt, *manager)
        }
        Entry::Start {
            path,
            attempt,
            manager,
        } => {
            writer.add(b"start ")?;
            print_managed(writer, path, *attempt, *manager)
        }
        Entry::Ended {
            path,
            attempt,
            manager,
            ended,
        } => {
            writer.add(b"ended ")?;
            print_managed(writer, path, *attempt, *manager)?;
            writer.add(b" ")?;
            writer.add(ended.as_slice())
        }
        Entry::Held {
            path,
            attempt,
            manager,
        } => {
            writer.add(b"held ")?;
            print_managed(writer, path, *attempt, *manager)
        }
        Entry::LostTry {
            path,
            attempt,
            manager,
        } => {
            writer.add(b"losttry ")?;
            print_managed(writer, path, *attempt, *manager)
        }
        Entry::Stored { path } => {
            writer.add(b"stored ")?;
            writer.path(path)
        }
        Entry::Settled { path, status } => {
            writer.add(b"settled ")?;
            writer.path(path)?;
            writer.add(b" ")?;
            writer.add(status.name().as_bytes())
        }
        Entry::Block { block, state } => {
            writer.add(b"block ")?;
            writer.number(*block)?;
            writer.add(b" ")?;
            writer.add(block_word(*state).as_bytes())
        }
        Entry::Register {
            manager,
            block,
            slots,
        } => {
            writer.add(b"register ")?;
            print_registration(writer, *manager, *block, *slots)
        }
        Entry::Refused { block, version } => {
            writer.add(b"refused ")?;
            writer.number(*block)?;
            writer.add(b" ")?;
            writer.quote(version)
        }
        Entry::Tick { at } => {
            writer.add(b"tick ")?;
            writer.long(*at)
        }
        Entry::Beat { manager } => {
            writer.add(b"beat ")?;
            writer.number(*manager)
        }
        Entry::Silent { manager } => {
            writer.add(b"silent ")?;
            writer.number(*manager)
        }
        Entry::Lost { manager } => {
            writer.add(b"lost ")?;
            writer.number(*manager)
        }
        Entry::Drain { manager } => {
            writer.add(b"drain ")?;
            writer.number(*manager)
        }
        Entry::Drained { manager } => {
            writer.add(b"drained ")?;
            writer.number(*manager)
        }
        Entry::Hold { manager } => {
            writer.add(b"hold ")?;
            writer.number(*manager)
        }
        Entry::Scale { decision } => {
            writer.add(b"scale ")?;
            print_decision(writer, *decision)
        }
        Entry::Checkpoint { count } => {
            writer.add(b"checkpoint ")?;
            writer.long(*count)
        }
        Entry::End => writer.add(b"end"),
    }
}

/// Adds the text of these entries: a line for each.
pub fn write_log(writer: &mut Writer, entries: &[Entry]) -> Result<(), AllocError>
    ensures { OnOk result (writer.new ≡ writer.old ++ log_text entries.now) }
{
    for entry in entries {
        print_entry(writer, entry)?;
        writer.add(b"\n")?;
    }
    Ok(())
}

/// The text of a log: a line for each entry.
pub fn print_log(alloc: Global, entries: &Entries) -> Result<Vec<u8>, AllocError>
    ensures { IfOk result (λ text. text.items ≡ log_text entries.now) }
{
    let mut writer = Writer::new(alloc);
    write_log(&mut writer, entries.as_slice())?;
    Ok(writer.into_bytes())
}
