//! Cells as a link worker counts them.
ghost use Rattle.std.specs.Prelude.{◌≡◌};
ghost use Rattle.std.specs.Option.{option_map};
ghost use Rattle.abt_links.specs.Counting as counting;

use crate::carrying::Carrying;
use crate::cell::CellOf;

// A cell that a link worker took, with its number, from 1.
#[derive(Drop)]
pub(crate) struct NumberedCell<K: Carrying> {
    pub(crate) number: u64,
    pub(crate) cell: CellOf<K>,
}

// How many cells a link worker has taken. The greatest number stays.
#[derive(Debug, Drop)]
pub(crate) struct CellCount {
    taken: u64,
}

impl CellCount {
    // None has been taken.
    pub(crate) fn new() -> CellCount
        ensures { result.taken ≡ 0 }
    {
        CellCount { taken: 0 }
    }

    // Counts the cell of a parcel, if it doesn't say stop, whatever the octets of the cell are.
    pub(crate) fn count<K: Carrying>(&mut self, parcel: K::Parcel) -> Option<NumberedCell<K>>
        ensures cell { option_map (λ n. record {
          number = n.number;
          port = n.cell.port;
          octets = n.cell.octets;
        }) result ≡ counting.numbered self.old.taken (K.plain parcel) }
        ensures taken { self.new.taken ≡ counting.taken_after self.old.taken (K.plain parcel) }
    {
        let (port, octets, front) = K::opened(parcel)?;
        self.taken = self.taken.saturating_add(1);
        Some(NumberedCell {
            number: self.taken,
            cell: CellOf::new(port, octets, front),
        })
    }
}
