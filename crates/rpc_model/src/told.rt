use crate::event::End;

/// What the joins of a script tell, and which calls found no slot.
#[derive(Debug, Drop, PartialEq, Eq)]
pub enum Told {
    /// A join found the end of this call, which issued so many attempts.
    Ended(u32, End, u32),
    /// A join found no end of this call.
    Unended(u32),
    /// This call found no slot.
    Full(u32),
    /// A join of a call that was told, or that found no slot.
    Gone(u32),
}
