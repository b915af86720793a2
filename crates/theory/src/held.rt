// What rule 4 leaves of a component. The struct has a file of its own: what its ghost field names may not lead back to the file that declares it.

ghost use Rattle.std.specs.Prelude.{◌≤◌};
ghost use Rattle.theory.specs.Limits.{most_held};

use crate::Component;

// A component with at most eight intervals: the places that it says to use are there.
#[derive(Clone, Copy)]
pub struct HeldComponent<'a> {
    pub component: &'a Component,
    ghost held: { component.now.count ≤ most_held },
}
