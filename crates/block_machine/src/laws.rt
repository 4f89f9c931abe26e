//! Laws of the machine, over every history.
ghost use Rattle.std.specs.Prelude.{◌≡◌, ◌<◌, ◌≤◌, ◌+◌, ◌^◌, ◌∷◌, ◌++◌, [], ℕ, List, Some, length};
ghost use Rattle.incarnations.specs.Slots.{Noted, Slot};
ghost use Rattle.incarnations.specs.declared.state.Entry.{Entry};
ghost use Rattle.validate.specs.Verdicts.{ListVerdict};
ghost use Rattle.validate.specs.declared.checks.Verdict.{Verdict};
ghost use Rattle.block_machine.specs.Machine.{State, after, state_after, IsReady, NamesAnswer, NextNamesAnswer, NoteReply, verdict_reply};
ghost use Rattle.block_machine.specs.Serial.{Setting, IsSetting, IsHistory, IsLawful, state_of, FrontIsSerial};
ghost use Rattle.reads.specs.Reads.{View};

use delta::laws::equal_deltas_are_one;

/// After any lawful events of any workers, the front's view and replies are those of that many
/// first requests, one after another.
pub fn front_is_serial()
    ensures { (m : Setting) (history : List Entry) → IsSetting m → IsHistory m history
        → FrontIsSerial m (state_of m history) }
{
    equal_deltas_are_one();
}

/// After any lawful events of any workers, each request has its slot, and no more are committed
/// than there are.
pub fn front_is_within()
    ensures slots { (m : Setting) (history : List Entry) → IsSetting m → IsHistory m history
        → length (state_of m history).slots ≡ m.size }
    ensures front { (m : Setting) (history : List Entry) → IsSetting m → IsHistory m history
        → (state_of m history).front ≤ m.size }
{
    equal_deltas_are_one();
}

/// After lawful events whose number and one more fit a word, the machine is ready for a step.
pub fn ready_after()
    ensures { (m : Setting) (history : List Entry) → IsSetting m → IsHistory m history
        → length history + 1 < 2 ^ 64 → IsReady m.base (state_of m history) }
{
    equal_deltas_are_one();
}

/// A history and an entry that is lawful after it are a history, which leads one step further.
pub fn history_goes_on()
    ensures { (m : Setting) (history : List Entry) (entry : Entry) → IsHistory m history
        → IsLawful m (state_of m history) entry → IsHistory m (history ++ entry ∷ [])
        × (state_of m (history ++ entry ∷ [])
        ≡ after (state_of m history) entry.worker entry.event entry.reply) }
{}

/// After any lawful events of any workers, each standing pass's next note names its answer: if the
/// touching list now is the noted one, then the answer now is the noted one.
pub fn names_after()
    ensures { (m : Setting) (history : List Entry) (i : ℕ) → IsSetting m → IsHistory m history
        → NextNamesAnswer m.base (state_of m history) i }
{}

/// Where a note's list names its answer, the verdict by the lists alone gives a reply that the
/// machine may give.
pub fn lists_are_enough()
    ensures { (base : View) (slots : List Slot) (i : ℕ) (note : Noted) (verdict : Verdict)
        → NamesAnswer base slots i note → ListVerdict slots i note.read note.touching verdict
        → NoteReply base slots i (Some note) (verdict_reply verdict) }
{}

/// A longer history has no lower front: no event takes a commit back.
pub fn front_never_falls()
    ensures { (s : State) (history more : List Entry)
        → (state_after s history).front ≤ (state_after s (history ++ more)).front }
{}
