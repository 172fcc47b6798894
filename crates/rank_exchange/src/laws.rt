// A law of forces between ranks, the contract of a function with an empty body.
ghost use Rattle.rank_exchange.specs.Came.{KeepsPairsSmall};

/// Over bodies and a setup within their limits no force of an interaction is above 2^86, so what a home adds up fits.
pub fn pairs_are_small()
    ensures { KeepsPairsSmall }
{}
