//! A law above the check: which damage to a payload it always shows.
ghost use Rattle.std.specs.Prelude.{◌≡◌, ◌≢◌, ℕ, ◌%◌, ◌≤◌, Err, List};
ghost use Rattle.abt_cell.specs.Codec.{read_of};
ghost use Rattle.abt_cell.specs.Damage.{IsDamaged, IsBurst, error_of, changed_bits};
ghost use Rattle.abt_cell.specs.declared.fault.RmFault.TheVariants.{Crc};
ghost use Rattle.abt_cell.specs.declared.message.Rm.{Rm};

/// What [`read_rm`](crate::read_rm) returns if a cell that it reads gets another payload on its way: the fault
/// [`Crc`](crate::RmFault::Crc), if one, two or three bits of the payload changed, or any odd number of them, or some
/// that lie within ten successive bits (docs/FORMATS.md, "The check").
pub fn damage_is_refused()
    ensures few { (rm : Rm) (sent received : List ℕ) → IsDamaged rm sent received →
        changed_bits sent received ≢ 0 → changed_bits sent received ≤ 3 → read_of received ≡ Err Crc }
    ensures odd { (rm : Rm) (sent received : List ℕ) → IsDamaged rm sent received →
        changed_bits sent received % 2 ≡ 1 → read_of received ≡ Err Crc }
    ensures burst { (rm : Rm) (sent received : List ℕ) → IsDamaged rm sent received →
        IsBurst 10 (error_of sent received) → read_of received ≡ Err Crc }
{}
