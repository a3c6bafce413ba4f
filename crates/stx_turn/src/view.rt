// What the rule of the cell knows of each seat. No value of these types is ever made.
use std::collections::LinkedList;

/// What a seat knows of its cell.
pub struct View<E, F> {
    pub number: u32,
    /// The cell's fixed data, and `None` once another seat has taken this view in: then it is spent.
    pub fixed: Option<F>,
    /// The history as far as the seat has seen it.
    pub seen: LinkedList<E>,
    /// The seat's own entries.
    pub mine: LinkedList<E>,
    /// The whole history, while the seat has its turn.
    pub turn: Option<LinkedList<E>>,
    /// Of the first seat: how many seats were split off.
    pub made: u32,
    /// Of the first seat: the seats that were joined in.
    pub ended: LinkedList<Ended<E>>,
}

/// What a seat knew when it was joined in.
pub struct Ended<E> {
    pub number: u32,
    /// Its own entries.
    pub mine: LinkedList<E>,
    /// The history as far as it had seen it.
    pub seen: LinkedList<E>,
}
