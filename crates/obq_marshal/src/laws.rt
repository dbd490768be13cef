//! Laws of what travels.

ghost use Rattle.std.specs.Prelude.{◌≡◌, ◌<◌, ◌^◌, [], List, None, length, map};
ghost use Rattle.std.specs.List.{AllByRecursion};
ghost use Rattle.obq_base.specs.declared.values.Value.{Value};
ghost use Rattle.obq_marshal.specs.Groups.{Cached, unpacked, value_of};
ghost use Rattle.obq_marshal.specs.Meaning.{Agrees, AreMeant, Meaning};
ghost use Rattle.obq_marshal.specs.Packing.{packed};
ghost use Rattle.obq_marshal.specs.Sendable.{AreSendable};
ghost use Rattle.obq_wire.specs.Fits.{IsTable, IsValue};
ghost use Rattle.obq_wire.specs.Order.{misplaced_from, needs, order};

/// What is packed is unpacked as it was, where the groups that the values need and those in the cache are the ones that their
/// numbers stand for, whatever that is; and the groups in the cache are so from then on.
pub fn closures_travel()
    ensures values { (meaning : Meaning) (cache : Cached) (xs : List Value) → AreMeant meaning xs → Agrees meaning cache → map (value_of (unpacked cache (packed xs).table).groups) (packed xs).values ≡ xs }
    ensures cache { (meaning : Meaning) (cache : Cached) (xs : List Value) → AreMeant meaning xs → Agrees meaning cache → Agrees meaning (unpacked cache (packed xs).table).cache }
{}

/// What is packed has each group once, and in the one order of a frame's table.
pub fn packed_in_order()
    ensures { (meaning : Meaning) (xs : List Value) → AreMeant meaning xs → misplaced_from (order (packed xs).table (needs (packed xs).values)) [] (packed xs).table ≡ None }
{}

/// What is packed of values that a frame can carry can stand in a frame: each field is in its range.
pub fn packed_in_range()
    ensures table { (meaning : Meaning) (xs : List Value) → AreSendable meaning xs → length (packed xs).table < 2 ^ 32 → IsTable (packed xs).table }
    ensures values { (meaning : Meaning) (xs : List Value) → AreSendable meaning xs → length (packed xs).table < 2 ^ 32 → AllByRecursion (IsValue (packed xs).table) (packed xs).values }
    ensures count { (meaning : Meaning) (xs : List Value) → AreSendable meaning xs → length (packed xs).values ≡ length xs }
    ensures meant { (meaning : Meaning) (xs : List Value) → AreSendable meaning xs → AreMeant meaning xs }
{}
