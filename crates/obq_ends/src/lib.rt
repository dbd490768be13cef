//! How a run ends: its status, and the lines of its report and of its links.
#![tactic(auto)]

mod lines;
mod status;

pub use lines::{LinkLine, ReportLine, link_line, report_line};
pub use status::status_of;
