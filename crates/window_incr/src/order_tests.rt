//! The laws on order are called.
use crate::order_laws::{each_is_taken_once, report_in_any_order};

#[test]
fn laws_on_order_do_nothing(_rt: HostRuntime) {
    each_is_taken_once();
    report_in_any_order();
}
