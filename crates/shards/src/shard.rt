//! The shard of a predicate.
ghost use Rattle.std.specs.Prelude.{◌≡◌, ◌<◌};
ghost use Rattle.shards.specs.Shards.{shard_of as the_shard_of};

use datasets::Id;

/// How many shards there are.
pub const SHARDS: u32 = 16;

/// The shard of a predicate: its number modulo sixteen, and 0 of a made node, which no quad has as
/// its predicate.
pub fn shard_of(predicate: &Id) -> u32
    ensures value { result ≡ the_shard_of predicate.now }
    ensures within { result < 16 }
{
    match predicate {
        Id::Known(number) => *number % SHARDS,
        Id::Made { .. } => 0,
    }
}
