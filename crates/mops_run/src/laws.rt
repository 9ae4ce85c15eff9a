//! Laws over the definitions alone, each the contract of a function that does nothing else.
ghost use Rattle.mops_run.specs.Part.{EndedLinesAreUnique};
ghost use Rattle.mops_run.specs.Watch.{RepliesAreUnique, RepliesExist};

use window_incr::{asked_exists, report_exists, stats_exist};

/// The lines of an input have only one list of replies.
pub fn replies_are_unique()
    ensures { RepliesAreUnique }
{}

/// The lines of an input have a list of replies.
pub fn replies_exist()
    ensures { RepliesExist }
{
    report_exists();
    stats_exist();
    asked_exists();
}

/// Bytes have only one list of lines that a line feed ends.
pub fn ended_lines_are_unique()
    ensures { EndedLinesAreUnique }
{}
