//! What retiring keeps of a journal, by the table of it.
ghost use Rattle.std.specs.Prelude.{◌≡◌, ◌<◌, length, true, IfOk, vec_capacity};
ghost use Rattle.std.specs.List.{list_any};
ghost use Rattle.mx_history.specs.History.{HasRoomForDue, is_legal, is_of_such, only_of, retire, same_ticket};
ghost use Rattle.mx_history.specs.Table.{HasCounters, IsTableOf};
ghost use Rattle.mx_journal.specs.Core.{IsTabled};

use mx_table::Table;
use mx_types::{Event, OutOfMemory, What};
use std::alloc::Global;

// rule core-retire-keeps
// Whether the event is of a ticket that has a row.
fn stays(table: &Table, what: &What) -> bool
    ensures { result ≡ is_of_such (λ t. list_any (λ r. same_ticket t r.ticket) table.now.rows) what.now }
{
    match what {
        What::Added(_, ticket)
        | What::Removed(_, ticket)
        | What::Done(ticket, _, _)
        | What::Read(ticket)
        | What::Paused(ticket)
        | What::Resumed(ticket) => table.has_ticket(*ticket),
        What::Wake => false,
    }
}

/// The events of the tickets that have a row, in order.
pub fn kept_of(alloc: Global, journal: &[Event], table: &Table) -> Result<Vec<Event>, OutOfMemory>
    ensures { IfOk result (λ v. v.items ≡ only_of (λ t. list_any (λ r. same_ticket t r.ticket) table.now.rows) journal.now) }
{
    let mut list = Vec::new(alloc);
    for event in journal {
        if stays(table, &event.what) {
            list.push(*event)?;
        }
    }
    Ok(list)
}

// Drops the events of no ticket that has a row.
fn drop_the_gone(journal: &mut Vec<Event>, table: &Table)
    ensures items { journal.new.items ≡ only_of (λ t. list_any (λ r. same_ticket t r.ticket) table.now.rows) journal.old.items }
    ensures capacity { vec_capacity journal.new ≡ vec_capacity journal.old }
{
    journal.retain(|event| stays(table, &event.what));
}

// Makes it the table of these events.
fn fill(table: &mut Table, journal: &[Event])
    requires legal { is_legal journal.now ≡ true }
    requires few { length journal.now < 4294967295 }
    ensures table { IsTableOf journal.now table.new }
    ensures sized { HasCounters table.new.makers }
{
    table.clear();
    for event in journal {
        table.apply(*event);
    }
}

// rule core-retire-keeps
/// Keeps of a journal the events of the tickets that are added, and makes its table that of those.
pub fn keep_the_added(history: u32, journal: &mut Vec<Event>, table: &mut Table)
    requires kept { HasRoomForDue history journal.old.items }
    requires tabled { IsTabled history journal.old.items table.old (vec_capacity journal.old) }
    ensures items { journal.new.items ≡ retire journal.old.items }
    ensures tabled { IsTabled history journal.new.items table.new (vec_capacity journal.new) }
{
    drop_the_gone(journal, table);
    fill(table, journal);
}
