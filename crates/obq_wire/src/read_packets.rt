//! Reads operations, outcomes and packets.

ghost use Rattle.obq_base.specs.declared.places.Kind.TheVariants as kind;
ghost use Rattle.obq_wire.specs.declared.packets.Operation.TheVariants as op;
ghost use Rattle.obq_wire.specs.Reading.{Gives, cell_at, current_at, head_at, operation_at, outcome_at, packet_at, procedure_at, reply_at, request_at, text_at, two_parts, value_at, wake_at};

use crate::packets::{Current, Operation, Outcome, Packet, Reply, Request, Wake};
use crate::parts::{
    byte_of, cell_of, depth_of, flags_of, integer_of, name_of, reference_of, text_of, thread_of,
    truth_of, u32_of, u64_of,
};
use crate::read_values::{body_of, closure_of, fields_of, table_of, value_of, values_of};
use crate::refusal::Refused;
use crate::tags::{
    AGAIN, ARRAY_ITEM, ARRAY_SET, ARRAY_SIZE, BROADCAST, CALL, COPY, ENGINE, EXPORT, GET, GIVE_UP,
    IMPORT, JOIN, LINE, PUT, REDIRECT, SET, SIGNAL, VAR_GET, VAR_SET,
};
use crate::values::{TableEntry, TableMember};
use obq_base::{Kind, ThreadId};
use std::alloc::Global;

#[tactic(auto, unfolding(crate::specs::Reading::procedure_at))]
fn procedure_of<'a>(
    table: &[TableEntry],
    bytes: &'a [u8],
) -> Result<(TableMember, &'a [u8]), Refused>
    ensures { Gives (λ x. (x.0, x.1.now)) result (procedure_at table.now bytes.now) }
{
    let (tag, rest) = byte_of(bytes)?;
    match tag {
        5 => closure_of(table, rest),
        _ => Err(Refused::Bad { left: bytes.len() }),
    }
}

fn var_set_of<'a>(
    alloc: Global,
    table: &[TableEntry],
    bytes: &'a [u8],
) -> Result<(Operation, &'a [u8]), Refused>
    ensures { Gives (λ x. (x.0, x.1.now)) result (two_parts (cell_at kind.Variable) (value_at table.now) op.VarSet bytes.now) }
{
    let (variable, rest) = cell_of(Kind::Variable, bytes)?;
    let (value, rest) = value_of(alloc, table, rest)?;
    Ok((Operation::VarSet { variable, value }, rest))
}

fn put_of(alloc: Global, bytes: &[u8]) -> Result<(Operation, &[u8]), Refused>
    ensures { Gives (λ x. (x.0, x.1.now)) result (two_parts (cell_at kind.Writer) text_at op.Put bytes.now) }
{
    let (writer, rest) = cell_of(Kind::Writer, bytes)?;
    let (text, rest) = text_of(alloc, rest)?;
    Ok((Operation::Put { writer, text }, rest))
}

// An arm for each operation: its number, and its fields in order, each with what reads it. What is read by a function of its
// own comes first.
macro_rules! read_operation {
    ($tag:expr, $bytes:expr, $first:expr;
        [$($whole:ident => $by:expr),*]
        $($number:ident => $name:ident { $($field:ident: $read:ident($($argument:expr),*)),* },)*
    ) => {
        match $tag {
            $($whole => $by,)*
            $($number => {
                let rest = $first;
                $(let ($field, rest) = $read($($argument,)* rest)?;)*
                Ok((Operation::$name { $($field),* }, rest))
            })*
            _ => Err(Refused::Bad { left: $bytes.len() }),
        }
    };
}

#[tactic(auto, unfolding(crate::specs::Reading::operation_at))]
fn operation_of<'a>(
    alloc: Global,
    table: &[TableEntry],
    bytes: &'a [u8],
) -> Result<(Operation, &'a [u8]), Refused>
    ensures { Gives (λ x. (x.0, x.1.now)) result (operation_at table.now bytes.now) }
{
    let (tag, behind) = byte_of(bytes)?;
    read_operation! { tag, bytes, behind;
        [VAR_SET => var_set_of(alloc, table, behind), PUT => put_of(alloc, behind)]
        GET => Get { object: cell_of(Kind::Object), name: name_of(alloc) },
        CALL => Call { object: cell_of(Kind::Object), name: name_of(alloc), arguments: values_of(alloc, table) },
        SET => Set { object: cell_of(Kind::Object), name: name_of(alloc), body: body_of(alloc, table) },
        COPY => Copy { object: cell_of(Kind::Object) },
        REDIRECT => Redirect { object: cell_of(Kind::Object), target: cell_of(Kind::Object) },
        ARRAY_ITEM => ArrayItem { array: cell_of(Kind::Array), index: integer_of() },
        ARRAY_SIZE => ArraySize { array: cell_of(Kind::Array) },
        ARRAY_SET => ArraySet { array: cell_of(Kind::Array), index: integer_of(), value: value_of(alloc, table) },
        VAR_GET => VarGet { variable: cell_of(Kind::Variable) },
        JOIN => Join { thread: thread_of() },
        LINE => Line { condition: cell_of(Kind::Condition), object: cell_of(Kind::Object) },
        GIVE_UP => GiveUp { object: cell_of(Kind::Object) },
        AGAIN => Again { object: cell_of(Kind::Object), condition: cell_of(Kind::Condition) },
        SIGNAL => Signal { condition: cell_of(Kind::Condition) },
        BROADCAST => Broadcast { condition: cell_of(Kind::Condition) },
        EXPORT => Export { name: text_of(alloc), value: value_of(alloc, table) },
        IMPORT => Import { name: text_of(alloc), engine: truth_of() },
        ENGINE => Engine { engine: cell_of(Kind::Engine), procedure: procedure_of(table) },
    }
}

#[tactic(auto, unfolding(crate::specs::Reading::outcome_at))]
fn outcome_of<'a>(
    alloc: Global,
    table: &[TableEntry],
    bytes: &'a [u8],
) -> Result<(Outcome, &'a [u8]), Refused>
    ensures { Gives (λ x. (x.0, x.1.now)) result (outcome_at table.now bytes.now) }
{
    let (tag, rest) = byte_of(bytes)?;
    match tag {
        0 => {
            let (value, rest) = value_of(alloc, table, rest)?;
            Ok((Outcome::Value(value), rest))
        }
        1 => {
            let (text, rest) = text_of(alloc, rest)?;
            Ok((Outcome::Raised(text), rest))
        }
        2 => Ok((Outcome::Exit, rest)),
        3 => {
            let (to, rest) = reference_of(rest)?;
            let (name, rest) = name_of(alloc, rest)?;
            Ok((Outcome::Hop { to, name }, rest))
        }
        4 => {
            let (flags, rest) = flags_of(rest)?;
            let (fields, rest) = fields_of(alloc, table, rest)?;
            Ok((Outcome::Object { flags, fields }, rest))
        }
        _ => Err(Refused::Bad { left: bytes.len() }),
    }
}

#[tactic(auto, unfolding(crate::specs::Reading::current_at))]
fn current_of(bytes: &[u8]) -> Result<(Current, &[u8]), Refused>
    ensures { Gives (λ x. (x.0, x.1.now)) result (current_at bytes.now) }
{
    let (tag, rest) = byte_of(bytes)?;
    match tag {
        0 => Ok((Current::Nothing, rest)),
        1 => {
            let (object, rest) = cell_of(Kind::Object, rest)?;
            Ok((Current::Plain(object), rest))
        }
        2 => {
            let (object, rest) = cell_of(Kind::Object, rest)?;
            Ok((Current::Held(object), rest))
        }
        _ => Err(Refused::Bad { left: bytes.len() }),
    }
}

/// What requests and replies begin with.
#[derive(Clone, Copy)]
struct Head {
    thread: ThreadId,
    call: u64,
    used: u32,
    made: u64,
}

#[tactic(auto, unfolding(crate::specs::Reading::head_at))]
fn head_of(bytes: &[u8]) -> Result<(Head, &[u8]), Refused>
    ensures { Gives (λ x. ((x.0.thread, (x.0.call, (x.0.used, x.0.made))), x.1.now)) result (head_at bytes.now) }
{
    let (thread, rest) = thread_of(bytes)?;
    let (call, rest) = u64_of(rest)?;
    let (used, rest) = u32_of(rest)?;
    let (made, rest) = u64_of(rest)?;
    let head = Head {
        thread,
        call,
        used,
        made,
    };
    Ok((head, rest))
}

#[tactic(auto, unfolding(crate::specs::Reading::request_at))]
fn request_of(alloc: Global, bytes: &[u8]) -> Result<(Request, &[u8]), Refused>
    ensures { Gives (λ x. (x.0, x.1.now)) result (request_at bytes.now) }
{
    let (head, rest) = head_of(bytes)?;
    let (depth, rest) = depth_of(rest)?;
    let (current, rest) = current_of(rest)?;
    let (table, rest) = table_of(alloc, rest)?;
    let (operation, rest) = operation_of(alloc, table.as_slice(), rest)?;
    let request = Request {
        thread: head.thread,
        call: head.call,
        used: head.used,
        made: head.made,
        depth,
        current,
        table,
        operation,
    };
    Ok((request, rest))
}

#[tactic(auto, unfolding(crate::specs::Reading::reply_at))]
fn reply_of(alloc: Global, bytes: &[u8]) -> Result<(Reply, &[u8]), Refused>
    ensures { Gives (λ x. (x.0, x.1.now)) result (reply_at bytes.now) }
{
    let (head, rest) = head_of(bytes)?;
    let (table, rest) = table_of(alloc, rest)?;
    let (outcome, rest) = outcome_of(alloc, table.as_slice(), rest)?;
    let reply = Reply {
        thread: head.thread,
        call: head.call,
        used: head.used,
        made: head.made,
        table,
        outcome,
    };
    Ok((reply, rest))
}

#[tactic(auto, unfolding(crate::specs::Reading::wake_at))]
fn wake_of(bytes: &[u8]) -> Result<(Wake, &[u8]), Refused>
    ensures { Gives (λ x. (x.0, x.1.now)) result (wake_at bytes.now) }
{
    let (thread, rest) = thread_of(bytes)?;
    let (object, rest) = u32_of(rest)?;
    Ok((Wake { thread, object }, rest))
}

/// The packet at the front of the bytes.
#[tactic(auto, unfolding(crate::specs::Reading::packet_at))]
pub(crate) fn packet_of(alloc: Global, bytes: &[u8]) -> Result<(Packet, &[u8]), Refused>
    ensures { Gives (λ x. (x.0, x.1.now)) result (packet_at bytes.now) }
{
    let (tag, rest) = byte_of(bytes)?;
    match tag {
        1 => {
            let (request, rest) = request_of(alloc, rest)?;
            Ok((Packet::Request(request), rest))
        }
        2 => {
            let (reply, rest) = reply_of(alloc, rest)?;
            Ok((Packet::Reply(reply), rest))
        }
        3 => {
            let (wake, rest) = wake_of(rest)?;
            Ok((Packet::Wake(wake), rest))
        }
        _ => Err(Refused::Bad { left: bytes.len() }),
    }
}
