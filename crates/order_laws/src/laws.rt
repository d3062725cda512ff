//! Laws of the order in which items are taken.
ghost use Rattle.order_laws.specs.Order.{ArrivalsKeepTheirOrder, FarewellsAreTakenLast, FreeItemsAreTaken};

/// The law of takes: an item that is taken or dropped is not deferred, and every older item that waits is.
pub fn free_items_are_taken()
    ensures { FreeItemsAreTaken }
{}

/// The law of arrivals: the items that wait at an end are a subsequence of the packets that were delivered to
/// it.
pub fn arrivals_keep_their_order()
    ensures { ArrivalsKeepTheirOrder }
{}

/// The law of farewells: a goodbye or a mark is taken when no other item waits.
pub fn farewells_are_taken_last()
    ensures { FarewellsAreTakenLast }
{}
