//! A store is laid out in a new file.
ghost use Rattle.std.specs.Prelude.{◌≡◌, [], OnOk};
ghost use Rattle.abt_disk.specs.Stores.{IsWhole};

use crate::block_file::BlockFile;
use crate::disk::DiskFault;
use crate::slots::new_blocks;
use abt_keep::Record;

#[tactic(auto, using(crate::proofs::LaidOut::whole_after))]
// Writes the blocks of a new store, and has them on the device at Ok.
pub(crate) fn lay_out<F: BlockFile>(file: &mut F, kept: Record) -> Result<(), DiskFault>
    requires { F.calls file.old ≡ [] }
    ensures { OnOk result (IsWhole (F.calls file.new) kept) }
{
    let [header, choice, first, second] = new_blocks(kept);
    file.write(0, &header)?;
    file.write(1, &choice)?;
    file.write(2, &first)?;
    file.write(3, &second)?;
    file.sync()
}
