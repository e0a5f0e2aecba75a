//! The verdict on a log: the first law that it breaks, and where.

ghost use Rattle.std.specs.Prelude.{◌≡◌, ◌↔◌, IsTrue, MatchOption, reverse};
ghost use Rattle.history_laws.specs.Legal.{Holds, IsLegal, IsComplete};
ghost use Rattle.history_laws.specs.Reads.{history_of};
ghost use Rattle.history_verdict.specs.Scan.{Stands};
ghost use Rattle.history_laws.specs.Verdict.{IsFirstBreak, IsBreach, IsVerdict};

use crate::laws::{attempt_law, launch_law, manager_law, settling_law};
use event_log::{Entries, Entry};
use history_laws::{Breach, Law, Retries, Table};

fn stands(law: Law, retries: &Retries, table: &Table, before: &[Entry], entry: &Entry) -> bool
    ensures { IsTrue result ↔ Stands retries.now table.now law (reverse before.now) entry.now }
{
    match law {
        Law::Settling => settling_law(table, before, entry),
        Law::Launch => launch_law(table, before, entry),
        Law::Attempt => attempt_law(retries, table, before, entry),
        Law::Manager => manager_law(before, entry),
        Law::Completeness => true,
    }
}

// The place of the first entry that breaks the law.
fn first_break(law: Law, retries: &Retries, table: &Table, entries: &[Entry]) -> Option<usize>
    ensures { MatchOption result (Holds (Stands retries.now table.now law) (reverse entries.now)) (IsFirstBreak (Stands retries.now table.now law) (reverse entries.now)) }
{
    for (place, entry) in entries.iter().enumerate() {
        if !stands(law, retries, table, &entries[..place], entry) {
            return Some(place + 1);
        }
    }
    None
}

fn is_complete(entries: &[Entry]) -> bool
    ensures { IsTrue result ↔ IsComplete (reverse entries.now) }
{
    matches!(entries.last(), Some(Entry::End))
}

fn breach_of(law: Law, entry: usize) -> Breach
    ensures { result ≡ record { law = law; entry = entry } }
{
    Breach { law, entry }
}

// The first break of the laws that each entry is tested by.
fn broken(retries: &Retries, table: &Table, entries: &[Entry]) -> Option<Breach>
    ensures { MatchOption result (IsLegal retries.now table.now (reverse entries.now)) (λ breach. IsBreach retries.now table.now (reverse entries.now) breach.law breach.entry) }
{
    if let Some(entry) = first_break(Law::Settling, retries, table, entries) {
        return Some(breach_of(Law::Settling, entry));
    }
    if let Some(entry) = first_break(Law::Launch, retries, table, entries) {
        return Some(breach_of(Law::Launch, entry));
    }
    if let Some(entry) = first_break(Law::Attempt, retries, table, entries) {
        return Some(breach_of(Law::Attempt, entry));
    }
    if let Some(entry) = first_break(Law::Manager, retries, table, entries) {
        return Some(breach_of(Law::Manager, entry));
    }
    None
}

/// The first break of the first law that is broken, where the log isn't legal and complete.
pub fn verdict(table: &Table, retries: &Retries, entries: &Entries) -> Option<Breach>
    ensures { IsVerdict retries.now table.now (history_of entries.now) result }
{
    let all = entries.as_slice();
    if let Some(breach) = broken(retries, table, all) {
        return Some(breach);
    }
    if is_complete(all) {
        return None;
    }
    Some(breach_of(Law::Completeness, all.len() + 1))
}
