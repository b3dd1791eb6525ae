// Packing loses nothing.
ghost use Rattle.values.specs.Packing.{NanPacks, ValuesPack, CellsUnpack, StatesPack, StatesUnpack, RowsPack, RowsUnpack};

pub fn packing_holds()
    ensures nan_packs { NanPacks }
    ensures values_pack { ValuesPack }
    ensures cells_unpack { CellsUnpack }
    ensures states_pack { StatesPack }
    ensures states_unpack { StatesUnpack }
    ensures rows_pack { RowsPack }
    ensures rows_unpack { RowsUnpack }
{}
