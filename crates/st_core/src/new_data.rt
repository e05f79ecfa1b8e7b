//! New data, where there are some, and the old.
ghost use Rattle.std.specs.Prelude.{◌≡◌};
ghost use Rattle.st_core.specs.Callbacks.{or_old};

/// The new data, or else the old.
pub(crate) fn or_old<'a, D>(old: &'a D, new: &'a Option<D>) -> &'a D
    ensures { result.now ≡ or_old old.now new.now }
{
    match new {
        Some(new) => new,
        None => old,
    }
}

/// Puts new data in the place of the old, where there are some.
pub(crate) fn replace<D: Drop>(held: &mut D, new: Option<D>)
    ensures { held.new ≡ or_old held.old new }
{
    if let Some(new) = new {
        *held = new;
    }
}
