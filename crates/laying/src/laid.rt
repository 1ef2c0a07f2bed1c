//! What is laid: events, one after another.

ghost use Rattle.std.specs.Prelude.{◌≡◌, ◌+◌, ◌^◌, ◌<◌, ◌≤◌, length, [], bit_or};
ghost use Rattle.questions.specs.Limits.{most_events, most_roots};
ghost use Rattle.rows.specs.Row.{value, no_row};

use grammar::Order;
use questions::limits::{MOST_EVENTS, MOST_ROOTS};
use rows::Row;

/// A laid event: its type, the place of the nearest event around it, and the row of the places that it precedes.
#[derive(Clone, Copy)]
pub struct LaidEvent {
    pub event: u8,
    pub around: Option<u8>,
    pub precedes: Row,
}

impl LaidEvent {
    /// An event that precedes none yet.
    fn new(event: u8, around: Option<u8>) -> LaidEvent
        ensures { result ≡ record { event = event; around = around; precedes = no_row } }
    {
        LaidEvent {
            event,
            around,
            precedes: Row::none(),
        }
    }
}

/// A laid beginning: the events of the first roots in laying order, and the place where each root starts, which is that of its own event.
// How many there are stands beside the arrays, because a vector of fixed room is not Copy, and a beginning is.
#[derive(Clone, Copy)]
pub struct Laid {
    pub events: [LaidEvent; MOST_EVENTS],
    pub len: usize,
    pub starts: [u8; MOST_ROOTS],
    pub roots: usize,
    ghost events_few: { len ≤ most_events },
    ghost events_here: { most_events ≤ length events },
    ghost roots_few: { roots ≤ most_roots },
}

impl Laid {
    ghost use Rattle.laying.specs.Beginning.{beginning_of};
    ghost use Rattle.laying.specs.Lays.{laid_events, preceding, shown, Pushed, Ordered, Between};

    /// Nothing is laid.
    pub(crate) fn nothing() -> Laid
        ensures shown { shown result ≡ beginning_of [] }
        ensures events { result.len ≡ 0 }
        ensures roots { result.roots ≡ 0 }
    {
        Laid {
            events: [LaidEvent::new(0, None); MOST_EVENTS],
            len: 0,
            starts: [0; MOST_ROOTS],
            roots: 0,
        }
    }

    /// The events, in laying order.
    pub fn events(&self) -> &[LaidEvent]
        ensures events { result.now ≡ laid_events self.now }
        ensures few { length result.now ≤ most_events }
    {
        &self.events[..self.len]
    }

    /// The place where each root starts.
    pub fn starts(&self) -> &[u8]
        ensures starts { result.now ≡ (shown self.now).starts }
        ensures few { length result.now ≤ most_roots }
    {
        &self.starts[..self.roots]
    }

    /// Adds an event, and gives the row of its place.
    pub(crate) fn push(&mut self, event: u8, around: Option<u8>) -> Row
        requires { self.old.len < most_events }
        ensures pushed { Pushed event around self.old self.new }
        ensures top { value result ≡ 2 ^ self.old.len }
    {
        let place = self.len;
        self.events[place] = LaidEvent::new(event, around);
        self.len = place + 1;
        Row::one(place)
    }

    /// Lets the events of `earlier` precede those of `later`, among these, which lie from `from` on.
    fn precede(events: &mut [LaidEvent], from: usize, earlier: Row, later: Row)
        requires { from + length events.old ≤ most_events }
        ensures { events.new ≡ preceding (value earlier) (value later) from events.old }
    {
        for (i, event) in events.iter_mut().enumerate() {
            if earlier.has(from + i) {
                event.precedes |= later;
            }
        }
    }

    // A part's row with its places: a struct of them would be made for this call alone, at its two callers.

    /// Orders the top events of two parts, where they are in order, and gives them all. Those of the earlier part lie from `from` on and below
    /// `to`.
    pub(crate) fn order(
        &mut self,
        order: Order,
        from: usize,
        to: usize,
        earlier: Row,
        later: Row,
    ) -> Row
        requires places { to ≤ self.old.len }
        requires between { Between from to (value earlier) }
        ensures ordered { Ordered order (value earlier) (value later) self.old self.new }
        ensures tops { value result ≡ bit_or (value earlier) (value later) }
    {
        match order {
            Order::InOrder => {
                let from = from.min(to);
                let events = &mut self.events[..];
                Laid::precede(&mut events[from..to], from, earlier, later);
            }
            Order::AsSet => {}
        }
        earlier | later
    }
}
