// What the memory of a current frame determines, each law the contract of a function.
ghost use Rattle.refine_frame.specs.Laws.{OpenCells, OpenLayout};

/// Under a current frame the address of each cell holds the word of the cell's value, and a write
/// there is the write of the cell.
pub fn open_cells()
    ensures { OpenCells }
{}

/// With no variables and nothing saved, a current frame at depth 1 is the layout of the store.
pub fn open_layout()
    ensures { OpenLayout }
{}
