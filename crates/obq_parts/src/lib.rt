//! Steps of the parser that read no nested part: what stands next, lists of names, the nodes of a
//! tree, and what an item assigns to.
#![tactic(auto)]

mod blocks;
mod literals;
mod names;
mod nodes;
mod objects;
mod openings;
mod operators;
mod steps;
mod targets;
pub mod words;

pub use blocks::{Onward, behind_item, with_arm};
pub use literals::read_literal;
pub use names::{read_closed_names, read_parameters};
pub use nodes::{
    alias_node, application, array_node, bind_node, chained, clone_node, field_node, finally_node,
    for_node, foreach_node, front, if_node, index_node, invocation, loop_node, method_node,
    object_node, procedure_node, raise_node, rec_bind_node, redirect_node, selection, suffixed,
    try_node, value_node, watch_node,
};
pub use objects::{ObjectHead, read_object_head};
pub use openings::{Opening, take_opening, take_procedure};
pub use operators::{operand_level, take_operator};
pub use steps::{
    Refused, Word, begins_suffix, ended, ends_block, ends_expr, ends_item, is_end, place_of,
    take_name, take_word,
};
pub use targets::{
    Chain, FieldTarget, Target, ValueTarget, assignment, field_assignment, target_of,
};
