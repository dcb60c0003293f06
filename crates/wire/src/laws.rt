//! Laws of streams, for the proofs of callers: functions that do nothing.

ghost use Rattle.wire.specs.Stream.{IsStreamInFrames, IsCutAnyhow, IsFaultForGood};

/// A stream's frames are the same, however it was cut into pieces and whenever frames were asked for; and a length at
/// fault ends them for good. It holds of the steps that the clauses `step` of `feed` and `next_frame` say.
pub fn streams_are_cut_anyhow()
    ensures stream { IsStreamInFrames }
    ensures same { IsCutAnyhow }
    ensures fault { IsFaultForGood }
{}
