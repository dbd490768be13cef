//! The exceptions that the machine itself raises.

/// An exception that the machine raises, one for each text of `RAISED` of `obq_tables`.
#[derive(Clone, Copy, Debug, PartialEq, Eq)]
pub enum Raised {
    /// A call has another number of arguments.
    Arity,
    /// An index is below 0 or not below the size of its array.
    ArrayIndex,
    /// An array would have a size below 0 or above 65,536.
    ArrayLimit,
    /// 1,000 activations are around the call.
    CallLimit,
    /// A closure would be deeper than 1,000.
    ClosureLimit,
    /// `is` or `isnot` has a closure as an operand.
    Compare,
    /// `exit` reached the bottom of its thread.
    ExitOutside,
    /// An object has no field of that name.
    FieldMissing,
    /// A new object would have two equal field names.
    FieldTwice,
    /// The 65th thread would be made.
    ForkLimit,
    /// A divisor is 0.
    IntDivide,
    /// A result isn't a whole number of 64 bits.
    IntOverflow,
    /// A value field is invoked.
    NotMethod,
    /// `watch` stands outside of every method of a serialized object.
    NotSerialized,
    /// A method field is selected.
    NotValue,
    /// The name that is assigned isn't that of a variable.
    NotVar,
    /// A protected object is updated, cloned or redirected from outside.
    Protected,
    /// A text would have more than 65,536 bytes.
    TextLimit,
    /// `text_sub` reaches outside of its text.
    TextRange,
    /// An operand is of the wrong kind; its text is `type`.
    WrongType,
}
