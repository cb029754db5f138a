//! Why an instruction doesn't go on to the next one.

/// Why the machine itself throws an exception (JVMS 2.10 and 6.5).
#[derive(Clone, Copy)]
pub enum Fault {
    /// `java/lang/NullPointerException`
    NullPointer,
    /// `java/lang/ArithmeticException`, with the message `/ by zero`.
    DividedByZero,
    /// `java/lang/ArrayIndexOutOfBoundsException`, with the index, by its bits, as its message.
    ArrayIndex(u32),
    /// `java/lang/StringIndexOutOfBoundsException`, with the index, by its bits, as its message.
    StringIndex(u32),
    /// `java/lang/NegativeArraySizeException`
    NegativeSize,
    /// `java/lang/ArrayStoreException`
    ArrayStore,
    /// `java/lang/ClassCastException`
    ClassCast,
}

/// Why an instruction doesn't go on to the next one.
#[derive(Clone, Copy)]
pub enum Stop {
    /// The instruction isn't defined here.
    Undefined,
    /// The machine throws a new exception.
    Throws(Fault),
    /// The object with the number is thrown.
    ThrowsObject(u64),
    /// The heap has no room for so many units.
    HeapFull(u64),
    /// The limits leave no room for one more frame.
    TooManyFrames,
}
