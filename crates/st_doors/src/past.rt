//! What a door was told before its journal begins, as the lines of its trace.
ghost use Rattle.std.specs.Prelude.{◌≡◌, ◌+◌, ◌<◌, ◌^◌, [], ◌++◌, length, IfOk, OnOk, OnErr, MatchResult, string_bytes};
ghost use Rattle.std.specs.Io.KnownBytes.{Appends};
ghost use Rattle.st_cell.specs.Calls.{cut};
ghost use Rattle.st_trace.specs.Totals.{totals_of};
ghost use Rattle.st_trace.specs.Trace.{entry_lines};
ghost use Rattle.st_doors.specs.Past.{IsSmall, latest_of, sum_of, with_entries};
ghost use Rattle.st_doors.specs.Printing.{state_name_of};
ghost use Rattle.st_doors.specs.Streams.{AppendsFront};

use crate::door_states::DoorStates;
use crate::failed::Failed;
use crate::output::write_by_lines;
use crate::{Door, DoorContent, DoorState, Sink};
use st_cell::{Cell, PlainList};
use st_trace::{JournalEntry, Totals, entry_line, latest_after, totals_in};
use std::alloc::{AllocError, Global};
use std::marker::Model;
use std::snapshot::Snapshot;

/// An entry of a door's journal.
pub(crate) type DoorEntry = JournalEntry<DoorState, DoorContent>;

/// The journal of a door's cell.
pub(crate) fn journal_of(cell: &Cell<Door>) -> &[DoorEntry]
    ensures { result.now ≡ cell.now.journal }
{
    cell.entries()
}

/// Entries that have left a door's journal, as the lines of its trace. Contracts see the entries too, which take no memory.
#[derive(Drop)]
struct Piece {
    text: String,
    entries: Snapshot<PlainList<DoorEntry>>,
}

/// What a door was told before its journal begins: the lines of the entries, the latest moment that the door had seen before
/// them and after them, and what they come to. Contracts see the entries, and the moment before them.
#[derive(Drop)]
pub(crate) struct Past {
    alloc: Global,
    from: u64,
    latest: u64,
    totals: Totals,
    pieces: Vec<Piece>,
}

impl Model for Past {
    ghost use Rattle.st_doors.specs.Doors.{History};
    ghost use Rattle.st_doors.specs.Past.{IsPast, entries_in};

    ghost Value = { History };

    ghost view = { λ past. record { from = past.from; entries = entries_in past.pieces.items } };

    ghost invariant = { λ past. IsPast past.from past.latest past.totals past.pieces.items };
}

/// Entries as the lines of a trace, by the latest moment before them, and the latest moment after them.
fn lines_of(alloc: Global, from: u64, entries: &[DoorEntry]) -> Result<(String, u64), AllocError>
    ensures text { IfOk result (λ made. string_bytes made.0 ≡ entry_lines state_name_of from entries.now) }
    ensures latest { IfOk result (λ made. made.1 ≡ latest_of from entries.now) }
{
    let mut text = String::new(alloc);
    let mut latest = from;
    for entry in entries {
        latest = latest_after(latest, &entry.command);
        let line = entry_line(alloc, &DoorStates, latest, entry)?;
        text.push_str(line.as_str())?;
    }
    text.shrink_to_fit();
    Ok((text, latest))
}

/// What two lists of entries come to together.
fn sum(one: Totals, other: Totals) -> Totals
    requires { IsSmall (sum_of one other) }
    ensures { result ≡ sum_of one other }
{
    Totals {
        posts: one.posts + other.posts,
        turns: one.turns + other.turns,
        finished: one.finished + other.finished,
        put_off: one.put_off + other.put_off,
    }
}

impl Past {
    /// No entries yet, and the latest moment that the door has seen.
    pub(crate) fn new(alloc: Global, from: u64) -> Past
        ensures { result ≡ record { from = from; entries = [] } }
    {
        Past {
            alloc,
            from,
            latest: from,
            totals: Totals {
                posts: 0,
                turns: 0,
                finished: 0,
                put_off: 0,
            },
            pieces: Vec::new(alloc),
        }
    }

    /// The latest moment that the door had seen after the entries.
    pub(crate) fn latest(&self) -> u64
        ensures { result ≡ latest_of self.now.from self.now.entries }
    {
        self.latest
    }

    /// What the entries come to, with more behind them.
    pub(crate) fn totals_with(&self, entries: &[DoorEntry]) -> Totals
        requires { length self.now.entries + length entries.now < 2 ^ 63 }
        ensures { result ≡ totals_of (self.now.entries ++ entries.now) }
    {
        sum(self.totals, totals_in(entries))
    }

    /// Takes the journal of a cell in as the lines of its entries, and cuts it there. Where memory is wanted and there is
    /// none, the journal stays.
    pub(crate) fn take_in(&mut self, cell: &mut Cell<Door>) -> Result<(), AllocError>
        requires { length self.old.entries + length cell.old.journal < 2 ^ 63 }
        ensures taken { OnOk result (self.new ≡ with_entries self.old cell.old.journal) }
        ensures cut { OnOk result (cell.new ≡ cut cell.old) }

        ensures stays { OnErr result (self.new ≡ self.old) }
        ensures uncut { OnErr result (cell.new ≡ cell.old) }
    {
        self.pieces.reserve(1)?;
        let (text, latest) = lines_of(self.alloc, self.latest, journal_of(cell))?;
        let Ok(journal) = cell.take_journal("") else {
            return Err(AllocError);
        };
        let totals = self.totals_with(journal.entries.as_slice());
        self.latest = latest;
        self.totals = totals;
        self.pieces.push_reserved(Piece {
            text,
            entries: Snapshot::of(&journal.entries),
        });
        Ok(())
    }

    /// Writes the lines of the entries.
    pub(crate) fn write<W: Sink>(&self, writer: &mut W) -> Result<(), Failed>
        ensures written { OnOk result (Appends (W.held writer.old) (W.held writer.new) (entry_lines state_name_of self.now.from self.now.entries)) }
        ensures front { OnErr result (AppendsFront (W.held writer.old) (W.held writer.new) (entry_lines state_name_of self.now.from self.now.entries)) }
        ensures failures { MatchResult result (λ _. W.failures writer.new ≡ W.failures writer.old)
            (λ _. W.failures writer.new ≡ W.failures writer.old + 1) }
    {
        for piece in &self.pieces {
            write_by_lines(writer, piece.text.as_str().as_bytes())?;
        }
        Ok(())
    }
}
