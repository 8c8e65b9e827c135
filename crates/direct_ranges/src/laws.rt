// What ranges leave in a trace, as a law of the definitions.
ghost use Rattle.direct_ranges.specs.RangeLines.{RangesAreLines};

/// What a read or a write of a range does to a line is one list of legal transactions, whose text is put behind the
/// trace; where the wire failed, that of all but the last one.
#[tactic(auto, using(crate::proofs::LineLemmas::ranges_are_lines))]
pub fn ranges_are_lines()
    ensures { RangesAreLines }
{}
