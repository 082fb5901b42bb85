// Laws of rolls, each as the contract of a function that does nothing.
ghost use Rattle.std.specs.Prelude.{◌≡◌, ◌≤◌, ℕ, List};
ghost use Rattle.base_roll.specs.Rolls.{IsRoll};
ghost use Rattle.base_roll.specs.Lives.{AreKept, AreLives, Life};
ghost use Rattle.base_roll.specs.Histories.{InHand, IsAtRest, IsHistory, IsKept, Turn, last_disk};

use base_devices::Disk;

/// After the same first bytes, bytes have at most one roll.
pub fn rolls_have_one_reading()
    ensures { (before : List ℕ) (payloads others : List (List ℕ)) (bytes : List ℕ)
        → IsRoll before payloads bytes → IsRoll before others bytes → payloads ≡ others }
{}

/// For any list of appends, with any faults of the disk, and a crash at any moment: the bytes left are a roll that has each
/// record acknowledged by then, in order, and no record that was not handed in.
pub fn crashes_keep_what_is_acknowledged<D: Disk>()
    ensures { (before : List ℕ) (payloads : List (List ℕ)) (start : D)
        (turns : List (Turn (List ℕ) D)) (k : ℕ) (bytes : List ℕ)
        → IsAtRest (IsRoll before) (D.state start) payloads
        → IsHistory (IsRoll before) D.state start (InHand payloads) turns
        → (D.state start).now ≤ k → k ≤ (D.state (last_disk start turns)).now
        → (D.state (last_disk start turns)).image k bytes
        → IsKept (IsRoll before) k D.state payloads turns bytes }
{
    rolls_have_one_reading();
}

/// For the lives of many processes, each of which opens the bytes that the one before it left, and is ended at any moment: the
/// bytes left are a roll that has, in order, each record that any of them acknowledged. Of each process it has at most one record
/// more than it acknowledged, unless faults of the disk broke more of its appends.
pub fn processes_keep_what_is_acknowledged<D: Disk>()
    ensures { (before : List ℕ) (payloads : List (List ℕ)) (found : List ℕ)
        (lives : List (Life (List ℕ) D)) (left : List ℕ) → IsRoll before payloads found
        → AreLives (IsRoll before) D.state found lives left
        → AreKept (IsRoll before) D.state payloads lives left }
{
    rolls_have_one_reading();
}
