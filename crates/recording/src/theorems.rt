// What is proved of recordings. The call does nothing: its contract is the theorem.
ghost use Rattle.recording.specs.Readback.{Readback};

// From the bytes of a record that record is read, and from no others.
pub fn the_layout_is_read_back()
    ensures { Readback }
{}
