// What is written, noted: so that it can be laid into a buffer later, and the document need not be read again. A note is one number, for
// bytes of the document as they stand, or the bare tags of a name, or a tag's head with its end. What notes stand for is in
// specs/Notes.antt.
//
//     kind   0 part    1 <name>    2 </name>    3 head and >
//     note   from * 134217728 + size * 4 + kind
//
//     list  //v        item         note                    text
//                      <g>          1 g                     <g>
//                      <v k="1">    3 <v k="1"              <v k="1">
//                      </v>         2 v                     </v>
//
// A log has room for as many notes as it is long. Their number is one more than that as soon as one was left out.
#![tactic(auto)]

pub mod made; // a note is made
pub mod replay; // notes are laid into a buffer
mod word; // a note as a number
