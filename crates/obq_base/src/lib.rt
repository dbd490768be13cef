//! The types that every layer of the interpreter stands on: names, texts, tokens, syntax trees,
//! code, values, acts and journal entries. No function here does more than make, show or copy a value.
#![tactic(auto)]

mod acts;
mod bytes;
mod code;
mod faults;
pub mod limits;
mod memory;
mod occurrences;
mod places;
mod raised;
mod shared;
mod tokens;
mod trees;
mod values;

pub use acts::{Act, ActKind, Entry, Report};
pub use bytes::{Name, Text};
pub use code::{Code, CodeNo, Node, Slot, SourceCode};
pub use faults::{LexKind, SourceFault};
pub use memory::NoMemory;
pub use occurrences::Occurrence;
pub use places::{Kind, Ref, SiteId, ThreadId};
pub use raised::Raised;
pub use shared::Shared;
pub use tokens::{Token, TokenKind};
pub use trees::{
    Arm, Bind, Block, Expr, Field, FieldExpr, Flags, Item, Link, Operator, Proc, RecBind, Suffix,
};
pub use values::{FieldBody, Group, GroupNo, GroupRef, Value, same, value_is_shared};
