//! Memory that is given back early.
ghost use Rattle.std.specs.Prelude.{◌≡◌, ◌+◌, ◌≤◌, vec_len, vec_capacity};
ghost use Rattle.patricia_store.specs.Internal.Packing.{most};

/// Gives a list back, in a block that was made small before. Once glibc's allocator frees a large
/// block, it takes others of that size from its heap, whose end it keeps.
pub fn give_back<T: Drop>(mut list: Vec<T>) {
    list.truncate(1);
    list.shrink_to(1);
}

/// Gives back what was written behind the items, and makes room for half as many more, or for as
/// many as there was room for, if that is less. Where that is refused there is room for two.
pub fn renew_room<T>(items: &mut Vec<T>)
    requires { vec_len items.old ≤ most }
    ensures items { items.new.items ≡ items.old.items }
    ensures len { vec_len items.new ≡ vec_len items.old }
    ensures room { vec_len items.old + 2 ≤ vec_capacity items.old
        → vec_len items.old + 2 ≤ vec_capacity items.new }
{
    let len = items.len();
    let more = (items.capacity() - len).min(len / 2 + 4);
    items.shrink_to(len + 2);
    let _room = items.reserve_exact(more);
}
