//! Texts and bytes, which contracts see as lists.

use sqlite_items::Items;

/// Characters.
pub type Text = Items<char>;

/// Bytes.
pub type Bytes = Items<u8>;

/// Code units of UTF-16.
pub type Units = Items<u16>;

/// Texts in order, as the words of a refusal.
pub type Texts = Items<Text>;
