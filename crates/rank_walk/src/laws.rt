// A law of seats, the contract of a function with an empty body.
ghost use Rattle.rank_walk.specs.Divided.{DivisionsHaveSeats};

/// However bodies are divided among ranks, with keys along the curve, each rank has a seat.
pub fn divisions_have_seats()
    ensures { DivisionsHaveSeats }
{}
