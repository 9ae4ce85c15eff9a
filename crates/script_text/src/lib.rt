//! Script lines: detections, comments, and commands that begin with `!`.
#![tactic(auto)]

pub use errors::ScriptError;
pub use lines::Line;
pub use reading::read_script_line;

mod commands;
mod errors;
mod lines;
mod reading;
#[cfg(test)]
mod tests;
