//! Syntax trees: one node for each production of the grammar. A `place` is the byte of the source,
//! from 0, at which the first token of the node begins; a link's is that of its operator.

use crate::bytes::{Name, Text};
use sqlite_items::{Boxed, Items};

/// The flags of an object.
#[derive(Clone, Copy, Debug, PartialEq, Eq)]
pub struct Flags {
    pub protected: bool,
    pub serialized: bool,
}

/// The operators, from the weakest level to the strongest.
#[derive(Clone, Copy, Debug, PartialEq, Eq)]
pub enum Operator {
    Orif,
    Andif,
    Is,
    IsNot,
    Less,
    LessEqual,
    Greater,
    GreaterEqual,
    Add,
    Subtract,
    Join,
    Multiply,
    Divide,
    Remainder,
}

/// Items in order. The place of an empty block is that of the token behind it.
#[cycle(tree)]
#[derive(Drop)]
pub struct Block {
    pub items: Items<Item>,
    pub place: u32,
}

/// An item of a block. The place of an assignment of a field or an item of an array is that of the first token of its object
/// or array, also where that is a parenthesis. A `Plain` one has the place of its expression.
#[cycle(tree)]
#[derive(Drop)]
pub enum Item {
    /// `let` and binds, of which there is one at least; so for `Var` and `LetRec`.
    Let {
        binds: Items<Bind>,
        place: u32,
    },
    /// `var` and binds
    Var {
        binds: Items<Bind>,
        place: u32,
    },
    /// `let rec` and binds of procedures
    LetRec {
        binds: Items<RecBind>,
        place: u32,
    },
    /// `name := value`
    Assign {
        name: Name,
        value: Expr,
        place: u32,
    },
    /// `object.name := body`
    SetField {
        object: Expr,
        name: Name,
        body: FieldExpr,
        place: u32,
    },
    /// `array[index] := value`
    SetItem {
        array: Expr,
        index: Expr,
        value: Expr,
        place: u32,
    },
    /// An expression alone
    Plain(Expr),
}

/// `name = value`
#[cycle(tree)]
#[derive(Drop)]
pub struct Bind {
    pub name: Name,
    pub value: Expr,
    pub place: u32,
}

/// `name = proc ..` of a `let rec`.
#[cycle(tree)]
#[derive(Drop)]
pub struct RecBind {
    pub name: Name,
    pub procedure: Proc,
    pub place: u32,
}

/// The parameters and the body of a `proc` or `meth`.
#[cycle(tree)]
#[derive(Drop)]
pub struct Proc {
    pub parameters: Items<Name>,
    pub body: Block,
    pub place: u32,
}

/// What a field is given: a value, a method or an alias.
#[cycle(tree)]
#[derive(Drop)]
pub enum FieldExpr {
    Value(Expr),
    Method(Proc),
    /// `alias name of target end`
    Alias {
        name: Name,
        target: Expr,
        place: u32,
    },
}

/// An expression. Parentheses leave no node. A `Procedure` has the place of its `proc`, `Chain` and `Suffixed` that of their
/// first operand; every other one has its own.
#[cycle(tree)]
#[derive(Drop)]
pub enum Expr {
    /// An integer literal; `~` before its digits is the minus.
    Int {
        value: i64,
        place: u32,
    },
    /// A text literal, its escapes resolved.
    Str {
        text: Text,
        place: u32,
    },
    /// `true` or `false`
    Truth {
        value: bool,
        place: u32,
    },
    /// `ok`
    Okay {
        place: u32,
    },
    /// An occurrence of a name.
    Use {
        name: Name,
        place: u32,
    },
    /// `proc (parameters) body end`
    Procedure(Boxed<Proc>),
    /// `[items]`
    Array {
        items: Items<Expr>,
        place: u32,
    },
    /// `{flags, fields}`, fields in order; two may have one name.
    Object {
        flags: Flags,
        fields: Items<Field>,
        place: u32,
    },
    /// `if` and each `elsif` are one arm, so there is one at least; `last` is the `else` block.
    If {
        arms: Items<Arm>,
        last: Option<Block>,
        place: u32,
    },
    /// `loop body end`
    Loop {
        body: Block,
        place: u32,
    },
    /// `exit`
    Exit {
        place: u32,
    },
    /// `for name = from to to do body end`
    For {
        name: Name,
        from: Boxed<Expr>,
        to: Boxed<Expr>,
        body: Block,
        place: u32,
    },
    /// `foreach name in array do body end`
    Foreach {
        name: Name,
        array: Boxed<Expr>,
        body: Block,
        place: u32,
    },
    /// Each `except` is one arm, whose test is the guard, and there is one at least; `last` is the `else` block.
    Try {
        body: Block,
        arms: Items<Arm>,
        last: Option<Block>,
        place: u32,
    },
    /// `try body finally last end`
    Finally {
        body: Block,
        last: Block,
        place: u32,
    },
    /// `raise(value)`
    Raise {
        value: Boxed<Expr>,
        place: u32,
    },
    /// `watch condition until guard end`
    Watch {
        condition: Boxed<Expr>,
        guard: Boxed<Expr>,
        place: u32,
    },
    /// `redirect object to target end`
    Redirect {
        object: Boxed<Expr>,
        target: Boxed<Expr>,
        place: u32,
    },
    /// `clone(objects)`, of which there is one at least.
    Clone {
        objects: Items<Expr>,
        place: u32,
    },
    /// Operands joined by operators of one level, which group to the left. Its place is that of
    /// its first operand.
    Chain {
        first: Boxed<Expr>,
        links: Items<Link>,
    },
    /// An operand with what is done to it, from left to right. Its place is that of the operand.
    Suffixed {
        head: Boxed<Expr>,
        suffixes: Items<Suffix>,
    },
}

/// A further operand of a chain, behind its operator.
#[cycle(tree)]
#[derive(Drop)]
pub struct Link {
    pub operator: Operator,
    pub operand: Expr,
    pub place: u32,
}

/// What is done to an operand. The place is that of the `(`, `.` or `[`.
#[cycle(tree)]
#[derive(Drop)]
pub enum Suffix {
    /// `(arguments)`
    Apply {
        arguments: Items<Expr>,
        place: u32,
    },
    /// `.name`
    Select {
        name: Name,
        place: u32,
    },
    /// `.name(arguments)`
    Invoke {
        name: Name,
        arguments: Items<Expr>,
        place: u32,
    },
    /// `[index]`
    Index {
        index: Expr,
        place: u32,
    },
}

/// A test and the block that it leads to: of an `if`, or of an `except`.
#[cycle(tree)]
#[derive(Drop)]
pub struct Arm {
    pub test: Expr,
    pub body: Block,
}

/// `name => body`
#[cycle(tree)]
#[derive(Drop)]
pub struct Field {
    pub name: Name,
    pub body: FieldExpr,
    pub place: u32,
}
