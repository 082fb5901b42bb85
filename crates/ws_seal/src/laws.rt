// Laws of logs, each as the contract of a function that does nothing.
ghost use Rattle.std.specs.Prelude.{◌≡◌, ◌≤◌, ◌<◌, ◌⊎◌, ◌∷◌, ℕ, List, length};
ghost use Rattle.base_roll.specs.Rolls.{gate_of};
ghost use Rattle.base_roll.specs.Lives.{AreKept, AreLives, Life};
ghost use Rattle.ws_seal.specs.Changes.{Collision, IsLastGate, IsOtherAt};
ghost use Rattle.ws_seal.specs.Logs.{HasTexts, IsLog, IsLogRead, IsRead, opening};
ghost use Rattle.ws_seal.specs.Seals.{last_mark, mark, payloads};

use base_devices::Disk;
use base_roll::rolls_have_one_reading;

/// Bytes are a log of at most one list of texts.
pub fn logs_have_one_reading()
    ensures { (texts others : List (List ℕ)) (bytes : List ℕ) → IsLog texts bytes
        → IsLog others bytes → texts ≡ others }
{
    rolls_have_one_reading();
}

/// Many processes append to one log, one after the other. Each opens what the one before it left, and may be ended at any moment.
/// The log that is left has each text that any of them acknowledged, in order. Of each process it has at most one further text,
/// unless a fault of the disk broke more of its appends.
pub fn processes_keep_what_is_acknowledged<D: Disk>()
    ensures { (before m : List ℕ) (texts : List (List ℕ)) (found : List ℕ)
        (lives : List (Life (List ℕ) D)) (left : List ℕ) → HasTexts before m texts found
        → AreLives (HasTexts before m) D.state found lives left
        → AreKept (HasTexts before m) D.state texts lives left }
{
    rolls_have_one_reading();
}

/// The mark of the last text vouches for all texts: two lists of the same length with the same last mark are equal, or two
/// different inputs of the digest have one mark.
pub fn the_last_mark_tells_all_texts()
    ensures { (m : List ℕ) (texts others : List (List ℕ)) → length texts ≡ length others
        → last_mark m texts ≡ last_mark m others → (texts ≡ others) ⊎ Collision }
{}

/// A changed byte is detected, unless it stands at the gate before the last text or after the last text: if the changed bytes can
/// be read, two different inputs of the digest have one mark. The first clause is for the records, the second for the head.
pub fn changes_are_told()
    ensures records { (before m : List ℕ) (texts : List (List ℕ)) (bytes other : List ℕ) (place : ℕ)
        → HasTexts before m texts bytes → IsOtherAt place bytes other → length before ≤ place
        → place < gate_of before (payloads m texts) → (IsLastGate before m texts place → ⊥)
        → (others : List (List ℕ)) (gate : ℕ) (last : List ℕ)
        → IsRead before m other others gate last → Collision }
    ensures head { (texts : List (List ℕ)) (bytes other : List ℕ) (place : ℕ) → IsLog texts bytes
        → IsOtherAt place bytes other → (head : List ℕ) (records : List (List ℕ))
        → texts ≡ head ∷ records → place < length (opening head)
        → (others : List (List ℕ)) (gate : ℕ) (last : List ℕ) → IsLogRead other others gate last
        → Collision }
{}
