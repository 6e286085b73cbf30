// An item's step: what is written at it, and what the run is after it. The names of the open elements are kept by level, and that of a
// start tag or empty tag stands there before its step.
ghost use Rattle.std.specs.Prelude.{◌≡◌, true, false, ◌+◌, ◌-◌, ◌≤◌, length};
ghost use Rattle.items.specs.Inside.{Inside};
ghost use Rattle.document.specs.Place.{end_of};
ghost use Rattle.document.specs.Levels.{deeper};
ghost use Rattle.trees.specs.Cut.{one};
ghost use Rattle.trees.specs.Grown.{part};
ghost use Rattle.trees.specs.Engine.{on_start, on_finish};
ghost use Rattle.output.specs.Levels.{name_at, Placed, Ready, Moves, Stays, Silent};
ghost use Rattle.output.specs.Act.{on_tag, on_other, level_after};

use crate::chain::open_chain;
use crate::ink::{bare, ends, headed, raw};
use crate::{OutputLevel, Run};
use document::{InputLevel, Open};
use matcher::Verdict;
use tags::Item;

// How many elements a verdict selects.
fn one_of(verdict: Verdict) -> usize
    ensures { (result ≡ one verdict) × (result ≤ 1) }
{
    match verdict {
        Verdict::Unselected => 0,
        Verdict::Selected => 1,
        Verdict::Marked => 1,
    }
}

// Whether nothing is written at the end of the innermost of so many open elements: it waits, or is inside a kept entry that goes on.
fn silent(run: Run, level: usize) -> bool
    ensures { (result ≡ true → Silent run.reached.0 run.kept level)
        × (result ≡ false → Silent run.reached.0 run.kept level → ⊥) }
{
    let reached = run.reached.0;
    if level <= reached {
        return false;
    }
    if run.kept == 0 {
        return true;
    }
    if level - reached == 1 {
        return false;
    }
    true
}

// The end of the innermost element, which has an end tag from at to end; an empty tag's has no bytes. It is open in the output, or ends a
// kept entry, which is written.
fn finish(
    run: Run,
    level: InputLevel,
    doc: &[u8],
    starts: &[usize; Open::LEVELS],
    lens: &[usize; Open::LEVELS],
    out: &mut [u8],
    log: &mut [u64],
    at: usize,
    end: usize,
) -> Run
    requires { Ready doc.now log.old run 144115188075855872 × (run.kept ≤ at + 1) × (run.reached.0 ≤ level.0) × (at ≤ end)
        × (end ≤ length doc.now) × Placed doc.now starts.now lens.now level.0
        × (Silent run.reached.0 run.kept level.0 → ⊥) }
    ensures moves { Moves doc.now starts.now lens.now level.0 at run out.old log.old
        (on_finish (part doc.now at end)) 1 (level.0 - 1) end result out.new log.new }
    ensures stays { Stays run.kept result.kept }
{
    let l = level.0;
    if l == 0 {
        return run;
    }
    let reached = run.reached.0;
    if l <= reached {
        let a = starts[l - 1];
        let n = lens[l - 1];
        let r = ends(doc, out, log, run.len, run.noted, a, n);
        return Run {
            reached: OutputLevel(l - 1),
            kept: 0,
            len: r.len,
            count: run.count,
            noted: r.noted,
        };
    }
    let from = run.kept - 1;
    let r = raw(doc, out, log, run.len, run.noted, from, end);
    Run {
        reached: OutputLevel(reached),
        kept: 0,
        len: r.len,
        count: run.count,
        noted: r.noted,
    }
}

// A start tag from at to end, whose head ends at head. Inside a kept entry an element is counted, and its bytes are due.
fn start(
    run: Run,
    level: InputLevel,
    doc: &[u8],
    starts: &[usize; Open::LEVELS],
    lens: &[usize; Open::LEVELS],
    out: &mut [u8],
    log: &mut [u64],
    verdict: Verdict,
    at: usize,
    head: usize,
    end: usize,
) -> Run
    requires { Ready doc.now log.old run 144115188075855872 × (run.kept ≤ at + 1) × (run.reached.0 ≤ level.0) × (at ≤ head)
        × (head ≤ end) × (end ≤ length doc.now) × Placed doc.now starts.now lens.now (level.0 + 1) }
    ensures { Moves doc.now starts.now lens.now level.0 at run out.old log.old
        (on_start verdict (name_at doc.now starts.now lens.now level.0)
        (part doc.now at head) (part doc.now at end)) 1 (level.0 + 1) end result out.new log.new }
{
    let l = level.0;
    let reached = run.reached.0;
    if run.kept != 0 {
        let n = one_of(verdict);
        return Run {
            reached: OutputLevel(reached),
            kept: run.kept,
            len: run.len,
            count: run.count + n,
            noted: run.noted,
        };
    }
    match verdict {
        Verdict::Marked => {
            let r = open_chain(doc, starts, lens, out, log, run.len, run.noted, reached, l);
            Run {
                reached: OutputLevel(l),
                kept: at + 1,
                len: r.len,
                count: run.count + 1,
                noted: r.noted,
            }
        }
        Verdict::Selected => {
            let a = open_chain(doc, starts, lens, out, log, run.len, run.noted, reached, l);
            let r = headed(doc, out, log, a.len, a.noted, at, head);
            Run {
                reached: OutputLevel(l + 1),
                kept: 0,
                len: r.len,
                count: run.count + 1,
                noted: r.noted,
            }
        }
        Verdict::Unselected => {
            if l == 0 {
                let a = starts[l];
                let n = lens[l];
                let r = bare(doc, out, log, run.len, run.noted, a, n);
                return Run {
                    reached: OutputLevel(1),
                    kept: 0,
                    len: r.len,
                    count: run.count,
                    noted: r.noted,
                };
            }
            run
        }
    }
}

// The step of a start tag or empty tag from at to end, whose head ends at head, by the verdict on its element. An empty tag is its own end.
pub fn tag_step(
    run: Run,
    level: InputLevel,
    doc: &[u8],
    starts: &[usize; Open::LEVELS],
    lens: &[usize; Open::LEVELS],
    out: &mut [u8],
    log: &mut [u64],
    verdict: Verdict,
    at: usize,
    head: usize,
    end: usize,
    empty: bool,
) -> Run
    requires { Ready doc.now log.old run 72057594037927936 × (run.kept ≤ at + 1) × (run.reached.0 ≤ level.0) × (at ≤ head)
        × (head ≤ end) × (end ≤ length doc.now) × Placed doc.now starts.now lens.now (level.0 + 1) }
    ensures { Moves doc.now starts.now lens.now level.0 at run out.old log.old
        (on_tag verdict (name_at doc.now starts.now lens.now level.0)
        (part doc.now at head) (part doc.now at end) empty) 2 (deeper empty level.0) end result
        out.new log.new }
{
    let reached = level.0;
    let inner = start(
        run, level, doc, starts, lens, out, log, verdict, at, head, end,
    );
    if empty {
        if silent(inner, reached + 1) {
            return inner;
        }
        return finish(
            inner,
            InputLevel(reached + 1),
            doc,
            starts,
            lens,
            out,
            log,
            end,
            end,
        );
    }
    inner
}

// The step of an item that is no start tag and no empty tag. Of one that is no tag nothing is written here: it is dropped, or is due inside
// a kept entry.
pub fn other_step(
    run: Run,
    level: InputLevel,
    doc: &[u8],
    starts: &[usize; Open::LEVELS],
    lens: &[usize; Open::LEVELS],
    out: &mut [u8],
    log: &mut [u64],
    at: usize,
    item: Item,
) -> Run
    requires { Ready doc.now log.old run 72057594037927936 × (run.kept ≤ at + 1) × (run.reached.0 ≤ level.0)
        × Inside doc.now at item × (at ≤ length doc.now) × Placed doc.now starts.now lens.now level.0 }
    ensures { Moves doc.now starts.now lens.now level.0 at run out.old log.old
        (on_other doc.now at item) 1 (level_after item level.0) (end_of at item) result out.new log.new }
{
    if let Item::Finish { name: _, end } = item {
        if silent(run, level.0) {
            return run;
        }
        return finish(run, level, doc, starts, lens, out, log, at, end);
    }
    run
}
