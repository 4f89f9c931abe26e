//! Worked examples of quads in sorted orders, of sets of quads and of shards, beside plain filters,
//! and of changes that are joined, beside each in turn. It has tests alone.
#![tactic(auto)]

#[cfg(test)]
mod joined_changes;
#[cfg(test)]
mod quads;
#[cfg(test)]
mod scans;
#[cfg(test)]
mod set_walks;
#[cfg(test)]
mod shard_parts;
