//! Laws of histories in sixteen shards. Each function has an empty body, or calls other laws alone.
ghost use Rattle.std.specs.Prelude.{◌≡◌, ◌<◌, ◌≤◌, ◌+◌, ◌^◌, ◌∷◌, ◌++◌, [], ℕ, List, Some, length, slice_get, take, map, true, false};
ghost use Rattle.reads.specs.Reads.{Read};
ghost use Rattle.incarnations.specs.Slots.{Noted};
ghost use Rattle.incarnations.specs.declared.state.Entry.{Entry};
ghost use Rattle.incarnations.specs.declared.state.Event.TheVariants.{Read as ReadOf, Check};
ghost use Rattle.incarnations.specs.declared.state.Pass.{Pass};
ghost use Rattle.incarnations.specs.declared.state.Reply.{Reply};
ghost use Rattle.incarnations.specs.declared.state.Status.TheVariants.{Executed};
ghost use Rattle.validate.specs.Below.{slot_at, view_at, touching};
ghost use Rattle.validate.specs.declared.checks.Verdict.{Verdict};
ghost use Rattle.slots.specs.Slots.{status_of};
ghost use Rattle.block_machine.specs.Machine.{State, state_after, HasRoom, HasNext, IsAllowed, verdict_reply};
ghost use Rattle.block_machine.specs.Serial.{Setting, IsSetting, IsHistory, state_of, FrontIsSerial};
ghost use Rattle.shards.specs.Shards.{shards_of};
ghost use Rattle.sharded_machine.specs.Histories.{ShardedEntry, entries, parts_found, SameParts, lists_found, lists_noted, cut_slot, state_at, opening_of, found_lengths, pass_checked, KeepsLengths, ListsVerdict, IsAllowedAfter, IsShardedHistory};
ghost use Rattle.sharded_machine.specs.Later.{Later};
ghost use Rattle.sharded_machine.specs.Shelves.{HasShelved, shelf, view_in, touching_in, part_after, touches, last_touch};

use change_laws::rises_after;
use datasets::Id;
use delta::laws::equal_deltas_are_one;
use shards::laws::{covers_in_parts, merged_parts, part_after, part_of_cut};

/// After any lawful events of any workers in sixteen shards, the front's view and replies are those
/// of that many first requests, one after another.
pub fn sharded_front_is_serial()
    ensures { (m : Setting) (history : List ShardedEntry) → IsSetting m → IsShardedHistory m history
        → FrontIsSerial m (state_of m (entries history)) }
{
    equal_deltas_are_one();
    part_of_cut();
    part_after();
    merged_parts();
    rises_after::<Id>();
}

/// A beginning of a history is one, in one shard and in sixteen.
pub fn beginning_is_history()
    ensures whole { (m : Setting) (beginning more : List Entry) → IsHistory m (beginning ++ more)
        → IsHistory m beginning }
    ensures sharded { (m : Setting) (beginning more : List ShardedEntry)
        → IsShardedHistory m (beginning ++ more) → IsShardedHistory m beginning }
{}

/// Of each request a history has the delta that its beginning has, or its change counts above the
/// beginning's clock.
pub fn since_a_beginning()
    ensures { (s : State) (beginning more : List Entry)
        → Later (state_after s beginning) (state_after s (beginning ++ more)) }
{
    equal_deltas_are_one();
}

/// After lawful events in sixteen shards whose number and one more fit a word, the machine has room
/// for a step, and each pass that stands has a next note.
pub fn sharded_ready_after()
    ensures { (m : Setting) (history : List ShardedEntry) → IsSetting m → IsShardedHistory m history
        → length history + 1 < 2 ^ 64 → HasRoom (state_of m (entries history))
        × ((i : ℕ) → HasNext (state_of m (entries history)) i) }
{
    equal_deltas_are_one();
    part_of_cut();
    part_after();
    merged_parts();
    rises_after::<Id>();
}

/// A read that may be answered so in one shard may be answered so in sixteen, where every part is
/// found after the whole history.
pub fn read_in_one_hold()
    ensures { (m : Setting) (history : List ShardedEntry) (worker i n : ℕ) (read : Read)
        (reply : Reply) → IsSetting m
        → IsAllowed m.base (state_of m (entries history)) worker (ReadOf i n read) reply
        → IsAllowedAfter m history worker (ReadOf i n read) reply
        (length history ∷ map (λ k. length history) (shards_of read)) }
{
    equal_deltas_are_one();
    part_of_cut();
    part_after();
    merged_parts();
    covers_in_parts();
    rises_after::<Id>();
}

// CHECKS BY TOUCHING LISTS ALONE

/// After any lawful events in sixteen shards each noted read of an executed request has its
/// touching lists.
pub fn noted_has_lists()
    ensures { (m : Setting) (history : List ShardedEntry) (i n k : ℕ) (note : Noted) → IsSetting m
        → IsShardedHistory m history
        → status_of (state_of m (entries history)).slots i ≡ Some (Executed n)
        → slice_get (slot_at (state_of m (entries history)).slots i).notes k ≡ Some note
        → (lists : List (List (ℕ × ℕ))) × (slice_get (lists_noted m history i n) k ≡ Some lists) }
{}

/// After any lawful events in sixteen shards the touching lists that were noted in parts name the
/// noted answer: where the lists found now are the noted ones, every part of the answer found is
/// that of the noted one.
pub fn sharded_lists_are_enough()
    ensures { (m : Setting) (history : List ShardedEntry) (i n k : ℕ) (note : Noted)
        (lengths : List ℕ) → IsSetting m → IsShardedHistory m history
        → status_of (state_of m (entries history)).slots i ≡ Some (Executed n)
        → slice_get (slot_at (state_of m (entries history)).slots i).notes k ≡ Some note
        → length lengths ≡ length (shards_of note.read)
        → slice_get (lists_noted m history i n) k ≡ Some (lists_found
        (parts_found m history (shards_of note.read) lengths) i note.read)
        → SameParts m.base (parts_found m history (shards_of note.read) lengths) i note }
{}

/// In sixteen shards too a check by touching lists alone gives a reply that the machine may give.
pub fn check_by_lists()
    ensures { (m : Setting) (history : List ShardedEntry) (i n worker : ℕ) (lengths : List ℕ)
        (pass : Pass) (note : Noted) (lists : List (List (ℕ × ℕ))) (verdict : Verdict)
        → IsSetting m → IsShardedHistory m history
        → status_of (state_of m (entries history)).slots i ≡ Some (Executed n)
        → pass_checked m history i lengths ≡ Some pass
        → slice_get (slot_at (state_of m (entries history)).slots i).notes pass.next ≡ Some note
        → slice_get (lists_noted m history i n) pass.next ≡ Some lists
        → KeepsLengths history worker (shards_of note.read) lengths
        → ListsVerdict (state_at m history (opening_of lengths)).slots
        (parts_found m history (shards_of note.read) (found_lengths lengths)) lists i note.read verdict
        → IsAllowedAfter m history worker (Check i n) (verdict_reply verdict) lengths }
{}

// WHAT LIES IN A SHARD

/// After any lawful events in sixteen shards each slot has what its request published last, as the
/// publications alone say.
pub fn shelves_are_kept()
    ensures { (m : Setting) (history : List ShardedEntry) (j : ℕ) → IsShardedHistory m history
        → HasShelved (slot_at (state_of m (entries history)).slots j) (shelf j (entries history)) }
{}

/// After any lawful events in sixteen shards, what is found in a shard, the view and the touching
/// list, is found in the shard's part alone.
pub fn found_in_a_part()
    ensures { (m : Setting) (history : List ShardedEntry) (k i : ℕ) (read : Read)
        → IsShardedHistory m history
        → (view_at m.base (map (cut_slot k) (state_of m (entries history)).slots) i
        ≡ view_in m.base (part_after k (entries history)) i)
        × (touching (map (cut_slot k) (state_of m (entries history)).slots) i read
        ≡ touching_in (part_after k (entries history)) i read) }
{}

/// An entry that does not touch a shard leaves its part, and where the shard was last touched. One
/// that does is the last that touches it.
pub fn touches_tell()
    ensures kept { (k : ℕ) (before : List Entry) (entry : Entry) → touches k before entry ≡ false
        → (j : ℕ) → part_after k (before ++ entry ∷ []) j ≡ part_after k before j }
    ensures last { (k : ℕ) (before : List Entry) (entry : Entry) → touches k before entry ≡ false
        → last_touch k (before ++ entry ∷ []) ≡ last_touch k before }
    ensures ends { (k : ℕ) (before : List Entry) (entry : Entry) → touches k before entry ≡ true
        → last_touch k (before ++ entry ∷ []) ≡ length before + 1 }
{}

/// A shard's part is the one after any beginning that has all entries up to the last that touches
/// it.
pub fn part_since_last_touch()
    ensures { (k : ℕ) (history : List Entry) (n : ℕ) → last_touch k history ≤ n
        → (j : ℕ) → part_after k (take n history) j ≡ part_after k history j }
{}
