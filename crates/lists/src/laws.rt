// The laws of the bytes of a year: each function's contract states one.
ghost use Rattle.lists.specs.Format.{ReadsWhatWasWritten, SlicesAreLists, WritesWhatWasRead};

// What is written of encodable lists is accepted, and read as the same lists.
pub fn reads_what_was_written()
    ensures { ReadsWhatWasWritten }
{}

// What is accepted gives encodable lists, and what is written of them is those very bytes.
pub fn writes_what_was_read()
    ensures { WritesWhatWasRead }
{}

// In accepted bytes, the slice that is handed out for a trader's list is that trader's list.
pub fn slices_are_lists()
    ensures { SlicesAreLists }
{}
