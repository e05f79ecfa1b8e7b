//! What was taken from the end of a list, put into the list's order.
ghost use Rattle.std.specs.Prelude.{◌≡◌, reverse};

use st_events::{SmallList, SmallListBuilder};

/// The list of the elements in the order opposite to that in which they came. It takes no memory.
pub(crate) fn in_order<T: Drop>(taken: SmallListBuilder<T>) -> SmallList<T>
    ensures { result ≡ reverse taken.items }
{
    let mut elements = taken.finish();
    elements.reverse();
    elements
}
