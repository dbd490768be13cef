//! Laws of frames.

ghost use Rattle.std.specs.Prelude.{◌≡◌, List, ℕ, slice_get};
ghost use Rattle.obq_wire.specs.declared.packets.Operation.{Operation};
ghost use Rattle.obq_wire.specs.declared.packets.Packet.{Packet};
ghost use Rattle.obq_wire.specs.Frames.{Spells};
ghost use Rattle.obq_wire.specs.Spelling.{operation};
ghost use Rattle.obq_wire.specs.Tags.{number_named, operation_name};

/// No packet has two frames.
pub fn one_frame()
    ensures { (p : Packet) (x y : List ℕ) → Spells x p → Spells y p → x ≡ y }
{}

/// No bytes are the frame of two packets.
pub fn one_packet()
    ensures { (bytes : List ℕ) (p q : Packet) → Spells bytes p → Spells bytes q → p ≡ q }
{}

/// An operation is spelled behind the number that the table `WIRE_TAGS` has for its name.
pub fn operations_have_their_numbers()
    ensures { (x : Operation) → slice_get (operation x) 0 ≡ number_named (operation_name x) }
{}
