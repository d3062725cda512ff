//! Lists that keep no spare room.

ghost use Rattle.std.specs.Prelude.{◌≡◌};

use ipdl_base::Items;

/// Returns the elements of a vector as a list without spare room.
pub(crate) fn fitted<T>(items: Vec<T>) -> Items<T>
    ensures { result ≡ items.items }
{
    let mut items = items;
    items.shrink_to_fit();
    Items::from_vec(items)
}
