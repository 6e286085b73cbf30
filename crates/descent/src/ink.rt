// What is written of an element: at its start, at its end, and of the items between. The level reached in the input and the level opened in
// the output are two counts: an element that no path selects waits, and is written bare when one under it is selected.
//
//     list //v        <g>          written, since it is the root
//                     <p k="1">    waits
//                     <v k="1">    <p><v k="1">    selected: those that wait come first, bare
//                     </v></p>     </v></p>        what was opened is closed
ghost use Rattle.std.specs.Prelude.{◌≡◌, true, false, cond, ◌||◌, List, ℕ, ◌+◌, ◌-◌, ◌≤◌, ◌<◌, ltb, length};
ghost use Rattle.writer.specs.Wrote.{Wrote};
ghost use Rattle.trees.specs.Cut.{one};
ghost use Rattle.trees.specs.Grown.{part};
ghost use Rattle.trees.specs.Engine.{chain, on_start, on_finish, on_aside};
ghost use Rattle.output.specs.Levels.{name_at, span, Placed};
ghost use Rattle.descent.specs.Lines.{verdict_by};
ghost use Rattle.descent.specs.Ink.{Moves, Ready, Reached, is_marked};

use crate::select::Verdict;
use document::Open;
use writer::{copy, end_tag, put, start_tag};

// How many elements are open in the output.
#[derive(Drop)]
pub struct OutputLevel(pub usize);

// What is written so far: the level opened in the output, the length, and the number of elements selected.
#[derive(Drop)]
pub struct Run {
    pub reached: OutputLevel,
    pub len: usize,
    pub count: usize,
}

impl Run {
    // Nothing is written.
    pub fn none() -> Run
        ensures { result ≡ record { reached = record { 0 = 0 }; len = 0; count = 0 } }
    {
        Run {
            reached: OutputLevel(0),
            len: 0,
            count: 0,
        }
    }
}

// A tag of the document: it stands at a place, its name has so many bytes, its head ends before `>` or `/>`, and it ends.
#[derive(Drop)]
pub struct Tag {
    pub at: usize,
    pub name: usize,
    pub head: usize,
    pub end: usize,
}

// The bytes of the document from a place to an end, as they came.
fn raw(doc: &[u8], out: &mut [u8], len: usize, at: usize, end: usize) -> usize
    requires { (length doc.now ≤ 16777216) × (at ≤ end) × (end ≤ length doc.now) × (len < 288230376151711744) }
    ensures { Wrote out.old len (part doc.now at end) result out.new }
{
    copy(out, len, &doc[at..end])
}

// The bare start tags of the levels after lo up to hi, which waited.
fn open_chain(
    doc: &[u8],
    starts: &[usize; Open::LEVELS],
    lens: &[usize; Open::LEVELS],
    out: &mut [u8],
    len: usize,
    lo: usize,
    hi: usize,
) -> usize
    requires { (lo ≤ hi) × (len < 144115188075855872) × (length doc.now ≤ 16777216) × Placed doc.now starts.now lens.now hi }
    ensures wrote { Wrote out.old len
        (chain (span (name_at doc.now starts.now lens.now) lo (hi - lo))) result out.new }
    ensures upper_bound { result ≤ len + 1073741952 }
{
    let mut len = len;
    for k in lo..hi {
        let a = starts[k];
        let e = a + lens[k];
        len = start_tag(out, len, &doc[a..e]);
    }
    len
}

// How many elements a verdict selects.
fn one_of(verdict: Verdict) -> usize
    ensures { (result ≡ one (verdict_by verdict)) × (result ≤ 1) }
{
    match verdict {
        Verdict::Unselected => 0,
        Verdict::Selected => 1,
        Verdict::Marked => 1,
    }
}

// The start of an element at a level, whose own name is kept there, inside a kept entry or not.
pub fn start(
    doc: &[u8],
    starts: &[usize; Open::LEVELS],
    lens: &[usize; Open::LEVELS],
    out: &mut [u8],
    level: usize,
    kept: bool,
    verdict: Verdict,
    tag: Tag,
    run: Run,
) -> Run
    requires { Ready doc.now run × (run.reached.0 ≤ level) × (tag.at ≤ tag.head) × (tag.head ≤ tag.end)
        × (tag.end ≤ length doc.now) × Placed doc.now starts.now lens.now (level + 1) }
    ensures moves { Moves doc.now starts.now lens.now level kept run out.old
        (on_start (verdict_by verdict) (name_at doc.now starts.now lens.now level)
        (part doc.now tag.at tag.head) (part doc.now tag.at tag.end)) (level + 1)
        (kept || is_marked verdict) result out.new }
    ensures level_after { Reached kept verdict level run.reached.0 result.reached.0 }
{
    let at = tag.at;
    let reached = run.reached.0;
    if kept {
        let n = one_of(verdict);
        let len = raw(doc, out, run.len, at, tag.end);
        return Run {
            reached: OutputLevel(reached),
            len,
            count: run.count + n,
        };
    }
    match verdict {
        // "Selected by a # path: all bytes .. as they came"
        Verdict::Marked => {
            let chain = open_chain(doc, starts, lens, out, run.len, reached, level);
            let len = raw(doc, out, chain, at, tag.end);
            Run {
                reached: OutputLevel(level),
                len,
                count: run.count + 1,
            }
        }
        // "Else selected: the tag's bytes from `<` up to but without the final `>` or `/>`, then `>`"
        Verdict::Selected => {
            let chain = open_chain(doc, starts, lens, out, run.len, reached, level);
            let head = raw(doc, out, chain, at, tag.head);
            let len = put(out, head, b'>');
            Run {
                reached: OutputLevel(level + 1),
                len,
                count: run.count + 1,
            }
        }
        // "Else the root .. : `<`, name, `>`"; any other waits
        Verdict::Unselected => {
            if level == 0 {
                let len = open_chain(doc, starts, lens, out, run.len, 0, 1);
                return Run {
                    reached: OutputLevel(1),
                    len,
                    count: run.count,
                };
            }
            run
        }
    }
}

// The end of an element at a level. Inside a kept entry, which it may be itself, its end tag as it came, from at to end; else, where it is
// open in the output, `</`, name, `>`.
pub fn finish(
    doc: &[u8],
    starts: &[usize; Open::LEVELS],
    lens: &[usize; Open::LEVELS],
    out: &mut [u8],
    level: usize,
    kept: bool,
    at: usize,
    end: usize,
    run: Run,
) -> Run
    requires { Ready doc.now run × (run.reached.0 ≤ level + 1) × (kept ≡ true → run.reached.0 < level + 1) × (at ≤ end)
        × (end ≤ length doc.now) × Placed doc.now starts.now lens.now (level + 1) }
    ensures moves { Moves doc.now starts.now lens.now (level + 1) kept run out.old
        (on_finish (part doc.now at end)) level (cond kept (ltb (run.reached.0 + 1) (level + 1)) false) result out.new }
    ensures level_stays { kept ≡ true → result.reached.0 ≡ run.reached.0 }
{
    let reached = run.reached.0;
    if kept {
        let len = raw(doc, out, run.len, at, end);
        return Run {
            reached: OutputLevel(reached),
            len,
            count: run.count,
        };
    }
    if level < reached {
        let a = starts[level];
        let e = a + lens[level];
        let len = end_tag(out, run.len, &doc[a..e]);
        return Run {
            reached: OutputLevel(level),
            len,
            count: run.count,
        };
    }
    run
}

// An item that is no tag: "Everything else is dropped", but inside a kept entry it stays.
pub fn aside(doc: &[u8], out: &mut [u8], kept: bool, at: usize, end: usize, run: Run) -> Run
    requires { Ready doc.now run × (at ≤ end) × (end ≤ length doc.now) }
    ensures moves { (starts lens : List ℕ) (level : ℕ) → run.reached.0 ≤ level
        → Moves doc.now starts lens level kept run out.old (on_aside (part doc.now at end)) level kept result
        out.new }
    ensures level_stays { result.reached.0 ≡ run.reached.0 }
{
    if kept {
        let len = raw(doc, out, run.len, at, end);
        let reached = run.reached.0;
        return Run {
            reached: OutputLevel(reached),
            len,
            count: run.count,
        };
    }
    run
}
