// What is proved of the moves of a recording. The call does nothing: its contract is the theorem.
ghost use Rattle.recording.specs.Accepted.{AcceptedMoves};

// The moves of a recording that is read to its end are accepted one after another, under the rules of its store buffer.
pub fn the_moves_of_a_recording_are_accepted()
    ensures { AcceptedMoves }
{}
