// Events files that are read and refused, by examples.
ghost use Rattle.event_list.specs.Examples.{EventsAreRead, EventsAreRefused};

/// Events are read, and put in order, as these examples say.
pub fn events_are_read()
    ensures { EventsAreRead }
{}

/// The first line that is refused counts.
pub fn events_are_refused()
    ensures { EventsAreRefused }
{}
