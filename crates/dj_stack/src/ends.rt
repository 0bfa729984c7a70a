ghost use Rattle.std.specs.Prelude.{◌≡◌, ◌+◌, ◌++◌, ◌∷◌, [], ◌<◌, ◌≤◌, length};
ghost use Rattle.std.specs.Vec.{vec_capacity};

/// Appends what there is room for.
pub(crate) fn put_last<T: Drop>(items: &mut Vec<T>, item: T)
    requires { length items.old.items < vec_capacity items.old }
    ensures items { items.new.items ≡ items.old.items ++ item ∷ [] }
    ensures len { length items.new.items ≡ length items.old.items + 1 }
    ensures capacity { vec_capacity items.old ≤ vec_capacity items.new }
{
    match items.push(item) {
        Ok(()) => {}
        Err(_) => unreachable!(),
    }
}

/// Takes the last away.
pub(crate) fn take_last<T: Drop>(items: &mut Vec<T>) -> T
    requires { 0 < length items.old.items }
    ensures items { items.old.items ≡ items.new.items ++ result ∷ [] }
    ensures len { length items.new.items + 1 ≡ length items.old.items }
    ensures capacity { vec_capacity items.new ≡ vec_capacity items.old }
{
    match items.pop() {
        Some(item) => item,
        None => unreachable!(),
    }
}
