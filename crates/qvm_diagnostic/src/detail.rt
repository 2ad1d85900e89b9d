//! What a refusal says beside its code and its name.

/// The value of a detail.
#[derive(Clone, Copy)]
pub enum Detail<'a> {
    /// A number that is never negative.
    Count(u64),
    /// A number of either sign.
    Signed(i64),
    /// Bytes of the text that was refused.
    Word(&'a [u8]),
}

impl<'a> Default for Detail<'a> {
    fn default() -> Detail<'a> {
        Detail::Count(0)
    }
}
