ghost use Rattle.std.specs.Prelude.{◌≡◌};
ghost use Rattle.gate_tables.specs.Timers.{timer_of, as_counted, is_due, as_fired, as_marked, bit};

use row_value::Scheme;
use stab_base::{ClientNo, StoreNo, TableNo};

/// When a client is notified of a table's changes.
#[derive(Debug, Clone, Copy, PartialEq, Eq)]
pub struct Timer {
    /// In ticks, from 1.
    pub period: u32,
    /// In ticks.
    pub tolerance: u32,
    /// Ticks since it fired last, or was set.
    pub count: u32,
    /// Whether the table has changed since then.
    pub marked: bool,
}

impl Timer {
    /// Set now.
    pub fn new(period: u32, tolerance: u32, marked: bool) -> Self
        ensures { result ≡ timer_of period tolerance marked }
    {
        Timer {
            period,
            tolerance,
            count: 0,
            marked,
        }
    }

    /// One tick later. A count that is full stands still.
    pub fn counted(self) -> Self
        ensures { result ≡ as_counted self }
    {
        Timer {
            count: self.count.saturating_add(1),
            ..self
        }
    }

    /// Whether it fires at this tick.
    pub fn is_due(self) -> bool
        ensures { result ≡ is_due self }
    {
        self.marked && u64::from(self.period) + u64::from(self.tolerance) <= u64::from(self.count)
    }

    /// When its client's timers fire: it does where it is marked.
    pub fn fired(self) -> Self
        ensures { result ≡ as_fired self }
    {
        if self.marked {
            Timer {
                count: 0,
                marked: false,
                ..self
            }
        } else {
            self
        }
    }

    /// When its table changes.
    pub fn marked(self) -> Self
        ensures { result ≡ as_marked self }
    {
        Timer {
            marked: true,
            ..self
        }
    }
}

/// The bit of a table in a `Notify`: bit T - 1 of table T, and none above 64.
pub fn bit(table: TableNo) -> u64
    ensures { result ≡ bit table }
{
    if 1 <= table && table <= 64 {
        1 << (table - 1)
    } else {
        0
    }
}

/// Where a table is, and how it is kept consistent.
#[derive(Debug, Clone, Copy, PartialEq, Eq)]
pub struct Placed {
    pub owner: StoreNo,
    pub scheme: Scheme,
}

/// What a client's message changes at a gateway before it goes on.
#[derive(Debug, Clone, Copy, PartialEq, Eq)]
pub enum Wish {
    /// Nothing: the message goes on as it is.
    Pass,
    /// A timer is set.
    Subscribe { period: u32, tolerance: u32 },
    /// A timer is taken away.
    Unsubscribe,
}

/// A client's message to a table.
#[derive(Debug, Clone, Copy, PartialEq, Eq)]
pub struct Asked {
    pub client: ClientNo,
    pub token: u64,
    pub table: TableNo,
    /// The number of the message's kind.
    pub kind: u8,
    pub wish: Wish,
}
