//! The numbers of the classes of the machine's own, which come first in each program.

/// `java/lang/Object`
pub const OBJECT: u32 = 0;
/// `java/lang/String`
pub const STRING: u32 = 1;
/// `java/lang/Integer`
pub const INTEGER: u32 = 2;
/// `java/lang/Long`
pub const LONG: u32 = 3;
/// `java/lang/Character`
pub const CHARACTER: u32 = 4;
/// `java/lang/Boolean`
pub const BOOLEAN: u32 = 5;
/// `scalaw/rt/Unit`
pub const UNIT: u32 = 6;
/// `scalaw/rt/Run`
pub const RUN: u32 = 7;
/// `java/lang/Throwable`
pub const THROWABLE: u32 = 8;
/// `java/lang/Exception`
pub const EXCEPTION: u32 = 9;
/// `java/lang/RuntimeException`
pub const RUNTIME_EXCEPTION: u32 = 10;
/// `java/lang/ArithmeticException`
pub const ARITHMETIC_EXCEPTION: u32 = 11;
/// `java/lang/ClassCastException`
pub const CLASS_CAST_EXCEPTION: u32 = 12;
/// `java/lang/NullPointerException`
pub const NULL_POINTER_EXCEPTION: u32 = 13;
/// `java/lang/IndexOutOfBoundsException`
pub const INDEX_EXCEPTION: u32 = 14;
/// `java/lang/ArrayIndexOutOfBoundsException`
pub const ARRAY_INDEX_EXCEPTION: u32 = 15;
/// `java/lang/StringIndexOutOfBoundsException`
pub const STRING_INDEX_EXCEPTION: u32 = 16;
/// `java/lang/NegativeArraySizeException`
pub const NEGATIVE_SIZE_EXCEPTION: u32 = 17;
/// `java/lang/ArrayStoreException`
pub const ARRAY_STORE_EXCEPTION: u32 = 18;
/// `java/lang/IllegalArgumentException`
pub const ILLEGAL_ARGUMENT_EXCEPTION: u32 = 19;
/// `java/lang/IllegalStateException`
pub const ILLEGAL_STATE_EXCEPTION: u32 = 20;
/// `java/lang/UnsupportedOperationException`
pub const UNSUPPORTED_EXCEPTION: u32 = 21;
/// `java/util/NoSuchElementException`
pub const NO_SUCH_ELEMENT_EXCEPTION: u32 = 22;
/// `scala/MatchError`
pub const MATCH_ERROR: u32 = 23;
