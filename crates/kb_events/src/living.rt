//! Whether a subscription is live, by the end of its life as an add-on.
ghost use Rattle.std.specs.Prelude.{◌≡◌, ◌&&◌, ◌||◌, not};
ghost use Rattle.kb_due.specs.Life.{is_running};
ghost use Rattle.kb_events.specs.Private.Ends.{is_before};

use kb_days::Reach;
use kb_due::is_running;
use kb_timeline::Subscription;

/// Whether a subscription is live on a day, where its life as an add-on has an end or none.
pub(crate) fn is_alive(subscription: &Subscription, end: Option<u32>, day: Reach) -> bool
    ensures { result ≡ (is_running subscription.now day
        && (not subscription.now.addon || is_before end day)) }
{
    is_running(subscription, day) && (!subscription.addon || is_before(end, day))
}

/// Whether a day lies before an end, as each does where there is none.
fn is_before(end: Option<u32>, day: Reach) -> bool
    ensures { result ≡ is_before end day }
{
    match end {
        None => true,
        Some(end) => day.number() < end,
    }
}
