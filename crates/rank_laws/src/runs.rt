// What holds of every run of the machine of ranks.
ghost use Rattle.rank_laws.specs.Played.{EveryPickPlays, EveryPlayIsWell, NothingShows, PlaysAreComputed, PlaysAreOne};
ghost use Rattle.rank_laws.specs.Runs.{EndsAll, EventsDeliverEach, GoesOn, IsBounded, IsNumbered, KeepsMessages, MessagesDiffer};

/// No run has more than 5R^2 - R + 3A events, for R ranks and A cells that they need from others.
pub fn every_run_is_short()
    ensures { IsBounded }
{}

/// A state is finished exactly where no event is enabled; each number below `enabled` is that of an enabled event.
pub fn every_run_goes_on()
    ensures goes_on { GoesOn }
    ensures ends { EndsAll }
    ensures numbered { IsNumbered }
{}

/// At each moment each message is unsent, in the mail or delivered, exactly one of these. The events of a finished run deliver
/// each message once, A asks and A replies among them.
pub fn every_message_comes_once()
    ensures differ { MessagesDiffer }
    ensures kept { KeepsMessages }
    ensures delivered { EventsDeliverEach }
{}

/// From one start there is one play: one list of events, one end. It may be computed.
pub fn plays_are_one()
    ensures one { PlaysAreOne }
    ensures computed { PlaysAreComputed }
{}

/// However the events are picked: there is a play from the start, and each ends finished, after few events, with A asks and
/// A replies among them; its walks count as many as the interactions, and the owners of the bodies have the forces.
pub fn every_play_is_well()
    ensures there { EveryPickPlays }
    ensures well { EveryPlayIsWell }
{}

/// Two plays over the same bodies come to the same forces and the same count: neither the ranks, their bounds and the owners of
/// the bodies show in them, nor who picks the events.
pub fn nothing_shows()
    ensures { NothingShows }
{}
