// Laws as contracts of functions that do nothing.
ghost use Rattle.refine_heap.specs.Calls.{LaidCallsLaw};
ghost use Rattle.refine_heap.specs.Rooms.{RoomLaw};
ghost use Rattle.refine_heap.specs.Laid.{LayoutLaw, TakenLaw, GivenLaw};

/// The memory that represents a store holds its free lists, for the allocator.
pub fn layout_holds_its_book()
    ensures { LayoutLaw }
{}

/// What the allocator leaves is the memory that represents the same store over the free lists that
/// it left.
pub fn what_is_left_is_laid()
    ensures taken { TakenLaw }
    ensures given { GivenLaw }
{}

/// A call of the allocator over the memory that represents a store leads to the memory that
/// represents the same store over the free lists that it left. If there is no block, it traps.
pub fn calls_lead_to_laid()
    ensures { LaidCallsLaw }
{}

/// Objects whose allocated blocks have space for them are apart from the free blocks. This also
/// holds after an allocation, and after the freeing of a block that is no object's.
pub fn rooms_stand_apart()
    ensures { RoomLaw }
{}
