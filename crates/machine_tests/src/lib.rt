//! Worked examples of what runs requests: requests over a base, blocks run one request after
//! another, blocks run through a book event by event, in orders that workers side by side may take,
//! journals of books replayed, blocks run through a shared book by one worker alone, and by a pool.
//! It has tests alone.
#![tactic(auto)]

#[cfg(test)]
mod blocks;
#[cfg(test)]
mod book_inputs;
#[cfg(test)]
mod book_steps;
#[cfg(test)]
mod books;
#[cfg(test)]
mod conflicts;
#[cfg(test)]
mod counters;
#[cfg(test)]
mod event_orders;
#[cfg(test)]
mod gate_entries;
#[cfg(test)]
mod hints;
#[cfg(test)]
mod lean_notes;
#[cfg(test)]
mod lies;
#[cfg(test)]
mod lines;
#[cfg(test)]
mod lock_holds;
#[cfg(test)]
mod name_lists;
#[cfg(test)]
mod numbered_blocks;
#[cfg(test)]
mod pools;
#[cfg(test)]
mod refusals;
#[cfg(test)]
mod replays;
#[cfg(test)]
mod requests;
#[cfg(test)]
mod sharing;
#[cfg(test)]
mod single_worker;
#[cfg(test)]
mod turns;
#[cfg(test)]
mod waiting_calls;
#[cfg(test)]
mod waits;
