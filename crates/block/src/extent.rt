// How far a block goes. The struct has a file of its own: what its ghost field names may not lead back to the file that declares it.

ghost use Rattle.std.specs.Prelude.{◌≤◌};
ghost use Rattle.theory.specs.Limits.{most_held};

// The extent of a block of `count` intervals.
#[derive(Clone, Copy)]
pub struct Extent {
    pub count: usize,
    ghost held: { count ≤ most_held },
}
