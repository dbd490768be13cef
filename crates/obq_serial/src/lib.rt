//! The mutexes of serialized objects.
#![tactic(auto)]

mod mutex;

pub use mutex::{Entered, Touch, enter, leave, may_touch};
