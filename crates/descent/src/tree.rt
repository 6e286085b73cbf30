// Down the tree: "an element reads its content, and content reads the elements inside it, to depth 64". No element stands deeper, so the
// levels that are left fall from call to call. The names of the open elements are kept by level, by their places, and an element lends its
// content a copy with its own name: so going back up there is nothing to undo.
//
//     content of the document    element <g>      content of g     element <p>      content of p
//        item <g>  ------------> names: g
//                                says, start ---> item <p>  -----> names: g p
//                                                                  says, start ---> text, dropped
//                                                                  finish </p> <--- item </p>
//                                finish </g> <--- item </g>  <----
//        no item is left  <-----
ghost use Rattle.std.specs.Prelude.{◌≡◌, ◌+◌, ◌≤◌, ◌<◌, length, Ok};
ghost use Rattle.paths.specs.Judge.{list_answer};
ghost use Rattle.descent.specs.Ink.{is_marked};
ghost use Rattle.descent.specs.Tree.{Safe, ElementIs, ContentIs, WholeIs};

use crate::ink::{Run, Tag, aside, finish, start};
use crate::select::{Verdict, said_of};
use document::judge::start_of;
use document::place::{end_of, place};
use document::{InputLevel, ItemError, Open, Placement};
use items::told::item;
use points::class::Classes;
use tags::Item;

// What reading came to where no item is at fault: an end, from a place to its end, with what is written before it.
#[derive(Drop)]
pub struct End {
    pub at: usize,
    pub end: usize,
    pub run: Run,
}

// Whether an element is a kept entry.
fn is_entry(verdict: Verdict) -> bool
    ensures { result ≡ is_marked verdict }
{
    match verdict {
        Verdict::Unselected => false,
        Verdict::Selected => false,
        Verdict::Marked => true,
    }
}

// The element at a level whose start tag or empty tag is given, inside a kept entry or not; it may stand there. It ends where its end tag
// does, and that is written too.
#[cycle(content_element)]
fn element(
    table: &Classes,
    list: &[u8],
    doc: &[u8],
    starts: &[usize; Open::LEVELS],
    lens: &[usize; Open::LEVELS],
    out: &mut [u8],
    level: usize,
    kept: bool,
    tag: Tag,
    empty: bool,
    run: Run,
) -> Result<End, ItemError>
    requires { (list_answer list.now ≡ Ok tt) × (level < 64)
        × Safe doc.now starts.now lens.now level kept run tag.at × (tag.at + 1 + tag.name ≤ tag.head) × (tag.head < tag.end)
        × (tag.end ≤ length doc.now) }
    ensures { ElementIs list.now doc.now starts.now lens.now level kept tag empty run
        out.old result out.new }
{
    // "Take the names from the root to an element, places 1 to k": those around it, and its own
    let mut own = *starts;
    let mut sizes = *lens;
    let from = tag.at + 1;
    own[level] = from;
    sizes[level] = tag.name;
    // "At each element it tries the places of every path from the top": what the list says of it
    let a = from + tag.name;
    let head = tag.head;
    let said = said_of(table, list, doc, &own, &sizes, level + 1, &doc[a..head]);
    // "all bytes .. as they came, and so everything inside": whether what follows stands in a kept entry
    let inside = kept | is_entry(said);
    let end = tag.end;
    let begun = start(doc, &own, &sizes, out, level, kept, said, tag, run);
    // "an empty tag is its own end"
    if empty {
        let run = finish(doc, &own, &sizes, out, level, inside, end, end, begun);
        return Ok(End { at: end, end, run });
    }
    // "the kept children": its content, one level deeper
    let opened = Open {
        level: InputLevel(level + 1),
        rooted: true,
    };
    let read = content(
        table, list, doc, &own, &sizes, out, opened, inside, end, false, begun,
    );
    // "The first item at fault decides": nothing after it is read
    let inner = read?;
    // then its end tag
    let run = finish(
        doc, &own, &sizes, out, level, inside, inner.at, inner.end, inner.run,
    );
    Ok(End {
        at: inner.at,
        end: inner.end,
        run,
    })
}

// What stands from a place on inside the elements that are open, up to the end tag of the innermost; outside the root, up to the end of the
// document. The end tag is read, and not written.
#[cycle(content_element)]
fn content(
    table: &Classes,
    list: &[u8],
    doc: &[u8],
    starts: &[usize; Open::LEVELS],
    lens: &[usize; Open::LEVELS],
    out: &mut [u8],
    opened: Open,
    kept: bool,
    at: usize,
    first: bool,
    run: Run,
) -> Result<End, ItemError>
    requires { (list_answer list.now ≡ Ok tt)
        × Safe doc.now starts.now lens.now opened.level.0 kept run at }
    ensures { ContentIs list.now doc.now starts.now lens.now opened kept at first run
        out.old result out.new }
{
    let level = opened.level.0;
    let mut rooted = opened.rooted;
    let mut at = at;
    let mut first = first;
    let mut run = run;
    // Each turn goes on where the item or the element ended, so the place is no count.
    loop {
        let next = item(table, doc, at, first);
        let here = Open {
            level: InputLevel(level),
            rooted,
        };
        match place(doc, starts, lens, here, at, next) {
            // "An item is at fault in this order"; "The first item at fault decides"
            Placement::Fault(why) => {
                return Err(ItemError { why, at });
            }
            // the items have run out, with a root and no element open
            Placement::Over => {
                return Ok(End { at, end: at, run });
            }
            Placement::Fine => {
                // "as first item only": a declaration may stand at the front alone
                first = false;
                // "End tags match": this is the end tag of the element that reads this content
                if let Item::Finish { name: _, end } = next {
                    return Ok(End { at, end, run });
                }
                // an element inside: it is read to its end, and content goes on behind it
                if let Item::Start {
                    name,
                    head,
                    end,
                    empty,
                    twice: _,
                } = next
                {
                    let tag = Tag {
                        at,
                        name,
                        head,
                        end,
                    };
                    let inner = element(
                        table, list, doc, starts, lens, out, level, kept, tag, empty, run,
                    )?;
                    run = inner.run;
                    at = inner.end;
                    rooted = true;
                    continue;
                }
                // "Everything else is dropped: text, comments, instructions and the declaration too", unless it stands in a kept entry
                let end = end_of(at, next);
                run = aside(doc, out, kept, at, end, run);
                at = end;
            }
        }
    }
}

// A whole document of characters, from its first item on: its root is the element in the content outside all elements.
pub fn whole(table: &Classes, list: &[u8], doc: &[u8], out: &mut [u8]) -> Result<End, ItemError>
    requires { (list_answer list.now ≡ Ok tt) × (length doc.now ≤ 16777216) }
    ensures { WholeIs list.now doc.now out.old result out.new }
{
    let starts = [0usize; Open::LEVELS];
    let lens = [0usize; Open::LEVELS];
    let at = start_of(doc);
    let run = Run::none();
    let opened = Open::none();
    content(
        table, list, doc, &starts, &lens, out, opened, false, at, true, run,
    )
}
