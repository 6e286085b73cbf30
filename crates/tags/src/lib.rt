// Tags of a document, read at a place: start tags and empty tags with their attributes, and end tags; names compared; and the answer that
// readers give on an item of any kind, `Item`. Readers of tags are total: any slice and any place, bytes that are no characters too. What a
// tag means is in specs/ and in the crate readers.
#![tactic(auto)]

pub mod names; // names compared
mod gather; // the attributes of a tag
pub mod finish; // end tags
pub mod tag; // start tags and empty tags
pub mod usual; // the same, as they mostly stand

// What stands at a place. A sound item with the place of its end; a reference also with the code point that it says; a tag also with the
// length of its name, which begins after `<` or `</`; a start or empty tag also with the place of its final `>` or `/>`, and whether an
// attribute's name stands twice. Or the fault: a document type; a broken production; over a size. Nothing stands past the end.
#[derive(Clone, Copy)]
pub enum Item {
    Declaration(usize),
    Instruction(usize),
    Comment(usize),
    Section(usize),
    Reference(u32, usize),
    Text(usize),
    Start {
        name: usize,
        head: usize,
        end: usize,
        empty: bool,
        twice: bool,
    },
    Finish {
        name: usize,
        end: usize,
    },
    Doctype,
    Malformed,
    TooLarge,
    Nothing,
}

// The sizes of document 01 for an item: bytes of a name, attributes of a tag.
impl Item {
    pub const NAME: usize = 255;

    pub const ATTRIBUTES: usize = 32;
}
