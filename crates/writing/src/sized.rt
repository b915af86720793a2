// A plan that has a sheet's length. The struct has a file of its own: what its ghost field names may not lead back to the file that declares it.

ghost use Rattle.plan.specs.Rules.{Sized};

use plan::Plan;

// What the rules 3 and 4 leave of a plan: the places that it says to use are there.
#[derive(Clone, Copy)]
pub struct SizedPlan<'a> {
    pub plan: &'a Plan,
    ghost sized: { Sized plan.now },
}
