//! What standard error says of a run that could not be done.
ghost use Rattle.std.specs.Prelude.{◌≡◌};
ghost use Rattle.std.specs.Option.{option_map};
ghost use Rattle.mops_run.specs.Complaints.{complaint_of};

use crate::top::Status;

/// The forms of the program's words.
const USAGE: &str =
    "usage: mops_run watch | link | generate NUMBER NIGHTS OBJECTS | summary NUMBER NIGHTS OBJECTS";

/// The line that standard error has where a run ended so, if it has one (the definition
/// `complaint_of`).
pub fn complaint(status: Status) -> Option<&'static str>
    ensures { option_map (λ text. text.now) result ≡ complaint_of status }
{
    match status {
        Status::Done | Status::DoneWithRefusals => None,
        Status::Usage => Some(USAGE),
        Status::ReadFault => Some("read fault"),
        Status::WriteFault => Some("write fault"),
        Status::NoMemory => Some("out of memory"),
        Status::InputTooLong => Some("input too long"),
    }
}
