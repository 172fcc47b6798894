// Whether a time of a list lies in a span.
ghost use Rattle.std.specs.Prelude.{◌≡◌};
ghost use Rattle.output_schedule.specs.Times.{is_due};

/// Whether some time of the list, in ticks, is at least `from` and below `to`.
pub fn due(outputs: &[u64], from: u64, to: u64) -> bool
    ensures { result ≡ is_due outputs.now from to }
{
    outputs.iter().any(|time| from <= *time && *time < to)
}
