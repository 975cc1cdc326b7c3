//! Why requests are refused: over every legal history, a write is answered `nospace` only where its lead, or its second
//! server, had no free slot for it, and a settle only where a copy, or an entry that moves, found none; a client is told that a block is
//! busy only where another operation is pending on it, or a copy is under way; that its request is held only where a fence, or a ballot
//! for the link's Caught, keeps it back; and that the new map has nothing only where that is so, in a region that is on its way.
//!
//! It speaks of definitions alone, and knows nothing of the plain machine.

ghost use Rattle.std.specs.Prelude.{◌≡◌, ◌++◌, ℕ, List, [], ◌∷◌, Some, true};
ghost use Rattle.petal_msg.specs.declared.body.Body.TheVariants.{BlockBusy, FillFull, Held, NotHere};
ghost use Rattle.petal_msg.specs.declared.letter.Actor.TheVariants.{Client};
ghost use Rattle.petal_msg.specs.declared.letter.Letter.{Letter};
ghost use Rattle.petal_base.specs.declared.cell.Key.{Key};
ghost use Rattle.script_lines.specs.declared.answer.Answer.TheVariants.{NoSpace};
ghost use Rattle.spec_rules.specs.Lists.{In};
ghost use Rattle.law_state.specs.Histories.{AreSteps, IsSound, Record, Script, setting_of, start, world_after};
ghost use Rattle.law_answers.specs.Refusals.{FoundBusy, FoundHeld, FoundNothing, HasReason};
ghost use Rattle.law_answers.specs.FullCauses.{HadNoFill, HasFoundNone};

/// Where a client's line is answered `nospace`, an earlier step refused this request since there was no slot: its lead, which
/// had not finished it and had nothing pending on its cell, had none free when the write came; or the second server had none,
/// neither free nor left over on the cell, when it was asked for one for this request's operation, which was new to it. Or the line is a
/// settle, and one of its glances found a server that remembered a want of slots, as `a_full_copy_found_no_slot` has it.
pub fn nospace_has_a_reason()
    ensures { (script : Script) (prefix : List Record) (own : Record) → IsSound script → AreSteps script (prefix ++ own ∷ []) → (client line : ℕ)
        → own.actor ≡ Client client → own.answer ≡ Some (line, NoSpace) → HasReason (setting_of script) prefix client line }
{}

/// A letter that says that a block is busy is sent by the block's lead, in the step that found another operation pending on
/// it, or a copy of it under way.
pub fn a_busy_block_has_another_operation()
    ensures { (script : Script) (prefix : List Record) (own : Record)
        → IsSound script → AreSteps script (prefix ++ own ∷ []) → (letter : Letter) (seq : ℕ) → In letter own.sent → letter.body ≡ BlockBusy seq
        → FoundBusy (setting_of script) (world_after (setting_of script) (start (setting_of script)) prefix) own.actor seq }
{}

/// A letter that says that a request is held is sent in the step that handled the request, by a server by whose own state a fence holds the
/// cell's writes, or its reads; or by the cell's lead, which has started a ballot for the Caught of the cell's link.
pub fn a_held_request_has_a_reason()
    ensures { (script : Script) (prefix : List Record) (own : Record) → IsSound script → AreSteps script (prefix ++ own ∷ [])
        → (letter : Letter) (seq : ℕ) → In letter own.sent → letter.body ≡ Held seq
        → FoundHeld (setting_of script) (world_after (setting_of script) (start (setting_of script)) prefix) own.actor seq }
{}

/// A letter that says that the new map has nothing is sent in the step that handled the client's read, by a server that may read the cell,
/// which is coming by its own state, and whose reads no fence holds; and whose chain has no entry at the read's epoch or below.
pub fn not_here_has_a_reason()
    ensures { (script : Script) (prefix : List Record) (own : Record)
        → IsSound script → AreSteps script (prefix ++ own ∷ []) → (letter : Letter) (seq : ℕ) → In letter own.sent → letter.body ≡ NotHere seq
        → FoundNothing (setting_of script) (world_after (setting_of script) (start (setting_of script)) prefix) own.actor letter.to seq }
{}

/// A letter that says that there is no slot for an entry that moves is sent by the lead of the new map's cell, in a job in which it handled
/// the entry and had no free slot, or heard that its second server has none for the operation that is pending for the entry. That server sent
/// the letter in an earlier step, in which it was asked for a slot for this operation, which was new to it, and had none: neither free nor left
/// over on the cell.
pub fn a_full_fill_found_no_slot()
    ensures { (script : Script) (prefix : List Record) (own : Record) → IsSound script → AreSteps script (prefix ++ own ∷ []) → (letter : Letter) (key : Key)
        → In letter own.sent → letter.body ≡ FillFull key
        → HadNoFill (setting_of script) prefix own.actor own.step key }
{}

/// Where a running server remembers that a slot was wanting, it heard so in a job of this life: while a copy of its was under way and waited for
/// its next entry to be put, from the link's other server, which was to put that entry in an earlier job and found no free slot; or of the next
/// entry of a link that it was to move, from the new map's lead, which had none in an earlier job, or whose second server had none in one still
/// earlier.
pub fn a_full_copy_found_no_slot()
    ensures { (script : Script) (records : List Record) → IsSound script → AreSteps script records → (server : ℕ)
        → ((world_after (setting_of script) (start (setting_of script)) records).servers server).life.running ≡ true
        → ((world_after (setting_of script) (start (setting_of script)) records).servers server).own.copies.full ≡ true
        → HasFoundNone (setting_of script) records server ((world_after (setting_of script) (start (setting_of script)) records).servers server).life.inc }
{}
