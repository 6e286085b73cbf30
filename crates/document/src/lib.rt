// A document as a whole: each item in its place, and the answer on a document alone. What a place asks of an item is document 01's: one
// root, nothing but comments, instructions and white space outside it, end tags that match, no attribute name twice, depth 64.
#![tactic(auto)]

ghost use Rattle.std.specs.Prelude.{◌≡◌};
ghost use Rattle.document.specs.declared.DocumentError.TheVariants.{At};

pub mod place; // an item in its place
pub mod judge; // the answer on a document

// How many elements are open in the input: the level that is reached there.
#[derive(Clone, Copy)]
pub struct InputLevel(pub usize);

// What is open: the level, and whether a root was there. The names by level are kept by their places, two arrays beside it.
#[derive(Clone, Copy)]
pub struct Open {
    pub level: InputLevel,
    pub rooted: bool,
}

// The size of document 01 for levels, and that of a document.
impl Open {
    pub const LEVELS: usize = 64;

    pub const BYTES: usize = 16777216;
}

// Why an item is at fault: a document type; not well-formed; over a size.
#[derive(Clone, Copy, Debug, PartialEq, Eq)]
pub enum Why {
    Doctype,
    Malformed,
    TooLarge,
}

// An item at fault: why, and the place where it begins.
#[derive(Clone, Copy, Debug, PartialEq, Eq)]
pub struct ItemError {
    pub why: Why,
    pub at: usize,
}

// Why a document is refused: it is over 16,777,216 bytes; its declaration, at a place, names another encoding than UTF-8; the first
// sequence that is no character begins at a place; an item is at fault, why, and where it begins.
#[derive(Clone, Copy, Debug, PartialEq, Eq)]
pub enum DocumentError {
    TooLong,
    OtherEncoding(usize),
    NotChar(usize),
    At(Why, usize),
}

impl From<ItemError> for DocumentError {
    ghost from_gives = { λ e d. d ≡ At e.why e.at };

    fn from(e: ItemError) -> DocumentError {
        DocumentError::At(e.why, e.at)
    }
}

// Whether an item may stand where it stands: it may; it is at fault; or nothing is left, and the document is sound. Three cases and no
// `Result`: where nothing is left there is neither an item to go on behind nor a fault, and a fault is handed up with the item's place.
#[derive(Drop)]
pub enum Placement {
    Fine,
    Fault(Why),
    Over,
}
