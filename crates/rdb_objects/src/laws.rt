//! What every list of objects in cells keeps to. Each call does nothing.
ghost use Rattle.rdb_objects.specs.Changes.{RestsOnObjects, LeavesObjects, StartsEmpty, HoldsOne, HoldsInAnyOrder, OfOneObject, HasObjectCells};
ghost use Rattle.rdb_objects.specs.Order.{ComeInOrder};

/// What objects a class has rests on its head, its slots and the links of its headers alone.
pub fn objects_rest_on_their_cells()
    ensures { RestsOnObjects }
{}

/// What is written to a free cell leaves the objects as they are.
pub fn a_free_cell_is_of_no_object()
    ensures { LeavesObjects }
{}

/// A class whose head is empty has no object and no slot.
pub fn an_empty_head_holds_nothing()
    ensures { StartsEmpty }
{}

/// The cells of a class hold one list of objects, but for its order.
pub fn a_class_holds_one_list()
    ensures { HoldsOne }
{}

/// The objects may be listed in any order.
pub fn objects_go_in_any_order()
    ensures { HoldsInAnyOrder }
{}

/// A version is one of one object alone.
pub fn a_version_is_of_one_object()
    ensures { OfOneObject }
{}

/// The objects of a class come in an order: that in which they are gone over.
pub fn objects_come_in_an_order()
    ensures { ComeInOrder }
{}

/// The head of a class is a class head, each of its slots one of an object, and each header of its versions one of a version,
/// so none of them is another, a row's cell or an index's node.
pub fn objects_have_cells_of_their_kinds()
    ensures { HasObjectCells }
{}
