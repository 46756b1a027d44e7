//! The steps of a path.

ghost use Rattle.std.specs.Prelude.{◌≡◌, ◌≤◌, length};

/// A step of a path.
#[derive(Clone, Copy)]
pub(crate) enum Step<'e> {
    /// To the children of a name.
    Named(&'e str),
    /// To all children.
    Children,
}

/// Steps, the first first: as many as stand behind the place.
#[derive(Clone, Copy)]
pub(crate) struct Steps<'e> {
    pub(crate) steps: [Step<'e>; 5],
    pub(crate) first: usize,
    ghost within: { first ≤ 5 },
    ghost five: { length steps ≡ 5 },
}
