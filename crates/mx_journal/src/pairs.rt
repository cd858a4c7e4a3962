//! Lists of values under tickets.
ghost use Rattle.std.specs.Prelude.{◌≡◌, ◌<◌, count_by, nat_lt, not, vec_capacity, vec_len};
ghost use Rattle.std.specs.List.{filter, insert, list_any};
ghost use Rattle.mx_types.specs.declared.names.Ticket.{Ticket};
ghost use Rattle.mx_history.specs.History.{same_ticket};

use mx_types::Ticket;

/// Drops what is under the ticket.
pub fn drop_ticket<T: Drop>(pairs: &mut Vec<(Ticket, T)>, ticket: Ticket)
    ensures items { pairs.new.items ≡ filter (λ x. not (same_ticket x.0 ticket)) pairs.old.items }
    ensures capacity { vec_capacity pairs.new ≡ vec_capacity pairs.old }
{
    pairs.retain(|x| x.0 != ticket);
}

/// Whether something is under the ticket.
pub fn has_ticket<T>(pairs: &[(Ticket, T)], ticket: Ticket) -> bool
    ensures { result ≡ list_any (λ x. same_ticket ticket x.0) pairs.now }
{
    pairs.iter().any(|x| ticket == x.0)
}

// How many are under lower tickets.
fn place_of<T>(pairs: &[(Ticket, T)], ticket: Ticket) -> usize
    ensures { result ≡ count_by (λ x. nat_lt x.0.0 ticket.0) pairs.now }
{
    pairs.iter().filter(|x| x.0.0 < ticket.0).count()
}

/// Puts a value under a ticket, after those under lower tickets. There is space for it.
pub fn insert_ticket<T: Drop>(pairs: &mut Vec<(Ticket, T)>, ticket: Ticket, value: T)
    requires { vec_len pairs.old < vec_capacity pairs.old }
    ensures items { pairs.new.items ≡ insert pairs.old.items (count_by (λ x. nat_lt x.0.0 ticket.0) pairs.old.items) (ticket, value) }
    ensures capacity { vec_capacity pairs.new ≡ vec_capacity pairs.old }
{
    let place = place_of(pairs, ticket);
    if pairs.insert(place, (ticket, value)).is_err() {
        unreachable!()
    }
}
