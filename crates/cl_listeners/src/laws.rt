//! What holds of listeners: each function here is a law, and does nothing.
ghost use Rattle.cl_listeners.specs.Laws.{NothingIsTold, NoEventsAreTold, MoreIsTold, EachHearsAPrefix, NobodyIsLost};

/// Events that are told one call after another are told as one list: the active heard it whole, and each that went deaf a proper
/// first part of it. So after a file each listener that is still active has heard the events of all its entries.
pub fn events_told_in_turn()
    ensures nothing { NothingIsTold }
    ensures silence { NoEventsAreTold }
    ensures more { MoreIsTold }
    ensures prefix { EachHearsAPrefix }
    ensures everyone { NobodyIsLost }
{}
