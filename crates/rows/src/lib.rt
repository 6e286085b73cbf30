// Records for a spreadsheet, laid into a buffer as far as it reaches: a field, what an item says, the text directly in an element, a
// record. Which elements have one is not known here. What a record is stands in specs/Field.antt and specs/Text.antt.
//
//     <p>Aar<!-- river -->&#44; <b>or</b> Aare</p>      g/p,"Aar,  Aare"      the field is quoted, for it holds a comma
//        ^                                    ^
//        from behind the start tag on, text is gathered up to the element's end, and what stands in elements inside it is passed over
//
// A field's text is laid twice, first into one byte: that tells whether it holds a comma, a quote, CR or LF, and so is quoted. Each time
// the element is read from behind its start tag to its end, with all that is inside. So a byte is read twice for each element around it
// that has a record, 64 at most.
#![tactic(auto)]

mod field; // a byte of a field, and its quotes
mod said; // what an item says
mod gather; // the text directly in an element
pub mod row; // a record
