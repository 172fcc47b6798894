// The law of catalogues and their bytes.
ghost use Rattle.group_file.specs.GroupFile.{ReadsWritten};

/// The bytes of a catalogue spell this catalogue.
#[tactic(auto, using(crate::proofs::RoundTrip::reads_written))]
pub fn written_catalogues_are_read()
    ensures { ReadsWritten }
{}
