// Items that begin with `<?`, read at a place: instructions, and the declaration; and what several readers step over.
// Readers of items are total: any slice and any place, bytes that are no characters too. What each reads is defined in the crate readers,
// specs/Named.antt.
#![tactic(auto)]

pub mod steps; // a byte of two, white space, and [25] Eq
pub mod instruction; // another `<?`
pub mod declaration; // `<?xml` and white space, as first item; the encoding that it names
