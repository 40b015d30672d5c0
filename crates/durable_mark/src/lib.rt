//! A number that only rises, which threads raise and see without waiting.
#![tactic(auto)]

ghost use Rattle.std.specs.Prelude.{◌≡◌, ◌≤◌, max, IfOk};

pub mod laws;
mod rule;

use crate::rule::{Both, Raises, Rises, Same, Sees};
use atomic_table::Table;
use std::alloc::{AllocError, Global};
use std::marker::Model;

/// A number that only rises. To contracts it is which mark it is.
#[derive(Drop)]
pub struct Mark {
    table: Table<(), u64, (), Rises, Global>,
}

impl Model for Mark {
    ghost use Rattle.std.specs.Prelude.{◌≡◌};
    ghost use Rattle.durable_mark.specs.Rising.{MarkId};

    ghost Value = { MarkId };

    ghost view = { λ m. m.table.shared.table_id };

    ghost invariant = { λ m. m.table.shared.table_id.words ≡ 1 };
}

/// Of which mark it is, and what its holder has seen of it. It has no bytes.
#[derive(Drop)]
pub struct Seat {
    seat: atomic_table::Seat<(), u64>,
}

impl Model for Seat {
    ghost use Rattle.std.specs.Prelude.{◌≡◌, []};
    ghost use Rattle.durable_mark.specs.Rising.{Known};

    ghost Value = { Known };

    ghost view = { λ s. record { mark = s.seat.table_id; seen = s.seat.me.0 } };

    ghost invariant = { λ s. s.seat.me.1 ≡ [] };
}

impl Mark {
    /// A mark at 0, and its first seat.
    pub fn new(alloc: Global) -> Result<(Mark, Seat), AllocError>
        ensures mark { IfOk result (λ r. r.1.mark ≡ r.0) }
        ensures seen { IfOk result (λ r. r.1.seen ≡ 0) }
    {
        let (table, seat) = Table::of_words(alloc, &[0], &())?;
        Ok((Mark { table }, Seat { seat }))
    }

    /// Another seat, which has seen as much.
    pub fn split(&self, seat: &mut Seat) -> Seat
        requires { seat.old.mark ≡ self.now }
        ensures kept { seat.new ≡ seat.old }
        ensures given { result ≡ seat.old }
    {
        let seat = self.table.shared.split_seat::<Same>(&mut seat.seat);
        Seat { seat }
    }

    /// The seat takes another one in, and has seen what either had.
    pub fn join(&self, seat: &mut Seat, other: Seat)
        requires seat { seat.old.mark ≡ self.now }
        requires other { other.mark ≡ self.now }
        ensures mark { seat.new.mark ≡ self.now }
        ensures seen { seat.new.seen ≡ max seat.old.seen other.seen }
    {
        let Seat { seat: other } = other;
        self.table.shared.join_seat::<Both>(&mut seat.seat, other);
    }

    /// Raises the number to `n`, where it is less.
    pub fn raise(&self, seat: &mut Seat, n: u64)
        requires { seat.old.mark ≡ self.now }
        ensures mark { seat.new.mark ≡ self.now }
        ensures raised { n ≤ seat.new.seen }
        ensures risen { seat.old.seen ≤ seat.new.seen }
    {
        self.table.shared.fetch_max::<Raises>(&mut seat.seat, 0, n);
    }

    /// The number, which is at least what the seat has seen, raised or was given.
    pub fn seen(&self, seat: &mut Seat) -> u64
        requires { seat.old.mark ≡ self.now }
        ensures mark { seat.new.mark ≡ self.now }
        ensures seen { seat.new.seen ≡ result }
        ensures risen { seat.old.seen ≤ result }
    {
        self.table.shared.load::<Sees>(&mut seat.seat, 0)
    }
}

#[cfg(test)]
mod tests;
