//! Laws on the order in which exposures are given.
ghost use Rattle.window_incr.specs.Order.{EachIsTakenOnce, ReportInAnyOrder};

/// Exposures that can all be held are each taken once, in whatever order they are given and however
/// often: each repeat is refused as held, and exactly they are held at the end.
pub fn each_is_taken_once()
    ensures { EachIsTakenOnce }
{}

/// The report after them is the same in every such order.
pub fn report_in_any_order()
    ensures { ReportInAnyOrder }
{}
