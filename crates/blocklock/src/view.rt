use std::collections::LinkedList;

// What a seat knows, of a book about an `S` with entries `E`. No value of it is made.
pub struct View<S, E> {
    pub subject: S,
    // The workers that the seat stands for: from the first, and below the second.
    pub from: u32,
    pub until: u32,
    // The journal as the seat saw it last.
    pub seen: LinkedList<E>,
    // It has taken the book.
    pub holds: bool,
    // Seats that were taken in.
    pub told: LinkedList<Told<S, E>>,
    // How many workers have seats.
    pub seats: u32,
    // How many entries the journal had at first.
    pub start: usize,
}

// A seat that was taken in: its worker, what its book is about, what it had seen, and how many
// workers have seats.
pub struct Told<S, E> {
    pub worker: u32,
    pub subject: S,
    pub seen: LinkedList<E>,
    pub seats: u32,
}
