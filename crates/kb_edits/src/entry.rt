//! The plan of an entry.
ghost use Rattle.std.specs.Prelude.{◌≡◌};
ghost use Rattle.kb_book.specs.SubscriptionCommands as told;

use kb_timeline::PlanRef;

/// A plan that was found. Where none was, what asks for it is refused.
pub fn some_plan(plan: Option<PlanRef>) -> PlanRef
    ensures { result ≡ told.some_plan plan }
{
    plan.unwrap_or(PlanRef {
        version: 0,
        list: 0,
        plan: 0,
    })
}
