//! One site of a program that runs by codes: its cells, the windows of its threads, and how threads ended.
#![tactic(auto)]

mod acting;
mod cell_turns;
mod endings;
mod host;
mod names;
mod new_cells;
mod on_cells;
mod places;
mod refused;
mod running;
mod site;
mod threads;
mod turns;
mod watching;

pub use acting::act_at_one;
pub use host::{Ending, Host};
pub use new_cells::make_cell;
pub use on_cells::{CellAct, act_on_cells};
pub use refused::Refused;
pub use running::PureSteps;
pub use site::Site;
pub use watching::{retake, waits};
