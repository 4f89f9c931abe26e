//! Laws of shards. Each function has one law and an empty body.
ghost use Rattle.shards.specs.Laws.{PartOfCut, PartAfter, UntouchedCovers, CoversInParts, MergedParts, PartsOfMerged, OnePart};

/// A part of what a read says after a change depends only on what the change speaks of in that
/// shard.
pub fn part_of_cut()
    ensures { PartOfCut }
{}

/// A part of what a read says after a change depends only on that part before.
pub fn part_after()
    ensures { PartAfter }
{}

/// In a shard that a read does not touch, a change speaks of nothing that the read asks for.
pub fn untouched_covers()
    ensures { UntouchedCovers }
{}

/// A change speaks of something that a read asks for if it does so in some shard that the read
/// touches.
pub fn covers_in_parts()
    ensures { CoversInParts }
{}

/// What a read says is made of its parts.
pub fn merged_parts()
    ensures { MergedParts }
{}

/// Each part of an answer that is made of parts is that part, wherever each was found.
pub fn parts_of_merged()
    ensures { PartsOfMerged }
{}

/// Where a read touches one shard, that part is the whole answer.
pub fn one_part()
    ensures { OnePart }
{}
