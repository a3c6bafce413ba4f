// The rule of the cell's table, and what each kind of step tells.
ghost use Rattle.stx_turn.specs.inner.Steps.{Wins, Publishes, Leaves, counting, newcomer, joined};

use crate::logged::Logged;
use crate::view::View;
use atomic_table::{Join, Play, Split, TableRule};
use std::snapshot::Snapshot;

/// One history, which is as long as half the word says, and the value in the slot has it.
pub struct InTurns;

impl<V: Logged> TableRule<Option<V>, View<V::Entry, V::Fixed>, Snapshot<V>> for InTurns {
    ghost use Rattle.stx_turn.specs.inner.Rule.{Kept, first_view};

    ghost holds = { λ key. Kept V.fixed V.entries V.maker V.legal (V.fixed key.value) };

    ghost first = { λ key. first_view (V.fixed key.value) };
}

/// A seat tries to win its turn.
pub struct Win;

impl<V: Logged> Play<Option<V>, View<V::Entry, V::Fixed>> for Win {
    ghost then = { Wins V.fixed V.entries V.maker V.legal };
}

/// A seat ends its turn with an entry.
pub struct Publish;

impl<V: Logged> Play<Option<V>, View<V::Entry, V::Fixed>> for Publish {
    ghost then = { Publishes V.entries V.maker };
}

/// A seat ends its turn with nothing done.
pub struct Leave;

impl<V: Logged> Play<Option<V>, View<V::Entry, V::Fixed>> for Leave {
    ghost then = { Leaves };
}

/// The first seat splits off a new one.
pub struct SplitOff;

impl<E, F> Split<View<E, F>> for SplitOff {
    ghost left = { counting };

    ghost right = { newcomer };
}

/// The first seat takes another in.
pub struct JoinIn;

impl<E, F> Join<View<E, F>> for JoinIn {
    ghost use Rattle.stx_turn.specs.inner.Rule.{spent};
    ghost use Rattle.stx_turn.specs.inner.Steps.{joined};

    ghost both = { joined };

    ghost spent = { spent };
}
