ghost use Rattle.pb_steal.specs.Turns.{StealsOne, Takes};

use crate::deque::OwnDeque;
use crate::source::Source;
use crate::ticket::Ticket;
use pb_cells::NamesTable;
use pb_taskgraph::NamesWork;

/// Tries each of these deques once, in order, until one gives a ticket.
fn steal<N: NamesWork, B: NamesTable>(others: &mut Vec<Source<N, B>>) -> Option<Ticket<N, B>>
    ensures { StealsOne others.old.items result others.new.items }
{
    for place in 0..others.len() {
        if let Some(ticket) = others[place].steal() {
            return Some(ticket);
        }
    }
    None
}

/// The first ticket of the own deque, or else one that is stolen.
pub(crate) fn take<N: NamesWork, B: NamesTable>(
    own: &mut OwnDeque<N, B>,
    others: &mut Vec<Source<N, B>>,
) -> Option<Ticket<N, B>>
    ensures { Takes own.old others.old.items result own.new others.new.items }
{
    match own.pop() {
        Some(ticket) => Some(ticket),
        None => steal(others),
    }
}
