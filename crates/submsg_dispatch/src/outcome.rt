ghost use Rattle.std.specs.Prelude.{◌≡◌};
ghost use Rattle.submsg_dispatch.specs.Messages.{only_events};
ghost use Rattle.submsg_dispatch.specs.Under.{events_view};
ghost use Rattle.submsg_dispatch.specs.Views.{outcome_view};

use chain_msgs::Event;

/// What a message gave that was done.
#[derive(Debug, Drop)]
pub struct Outcome {
    pub events: Vec<Event>,
    /// What it gives back.
    pub out: Option<Vec<u8>>,
    /// What a reply to it is told.
    pub reply_out: Option<Vec<u8>>,
}

/// What a message gives that gives events alone.
pub(crate) fn only_events(events: Vec<Event>) -> Outcome
    ensures { outcome_view result ≡ only_events (events_view events) }
{
    Outcome {
        events,
        out: None,
        reply_out: None,
    }
}
