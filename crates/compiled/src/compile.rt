// A list is judged, and a sound one compiled line by line. `read` takes any bytes; where the list is refused the tables are those of no
// path.
ghost use Rattle.std.specs.Prelude.{◌≡◌, ◌+◌, ◌≤◌, length, replicate, Ok};
ghost use Rattle.std.proofs.lemmas.List.Edits.{sets};
ghost use Rattle.paths.specs.Judge.{list_answer, list_paths};
ghost use Rattle.compiled.specs.Compiled.{tables_of};

use crate::build::{enter_line, if_marked, if_tested, tail_at};
use crate::rows::spread;
use crate::{Compiled, layout};
use paths::{ListError, answer};

// One table is laid into all of them, from a place on.
fn lay(t: &mut [u16], from: usize, part: &[u16])
    requires { from + length part.now ≤ length t.old }
    ensures { t.new ≡ sets t.old from part.now }
{
    let to = from + part.len();
    t[from..to].copy_from_slice(part);
}

// The tables of names are laid.
fn lay_names(
    t: &mut [u16],
    at: &[u16; layout::NAMES],
    len: &[u16; layout::NAMES],
    head: &[u16; layout::HEADS],
    next: &[u16; layout::NAMES],
)
    requires { (length at.now ≡ 512) × (length len.now ≡ 512) × (length head.now ≡ 256) × (length next.now ≡ 512)
        × (length t.old ≡ 18400) }
    ensures { t.new ≡ sets (sets (sets (sets t.old 0 at.now) 512 len.now) 1024
        head.now) 1280 next.now }
{
    lay(t, layout::AT, at);
    lay(t, layout::LEN, len);
    lay(t, layout::HEAD, head);
    lay(t, layout::NEXT, next);
}

// The columns are laid, behind the rows.
fn lay_columns(
    t: &mut [u16],
    stays: &[u16; layout::PATHS],
    goes: &[u16; layout::PATHS],
    far: &[u16; layout::PATHS],
    lasts: &[u16; layout::PATHS],
    marks: &[u16; layout::PATHS],
    tests: &[u16; layout::PATHS],
)
    requires { (length stays.now ≡ 32) × (length goes.now ≡ 32) × (length far.now ≡ 32) × (length lasts.now ≡ 32)
        × (length marks.now ≡ 32) × (length tests.now ≡ 32) × (length t.old ≡ 18400) }
    ensures { t.new ≡ sets (sets (sets (sets (sets (sets t.old 18208 stays.now) 18240 goes.now) 18272
        far.now) 18304 lasts.now) 18336 marks.now) 18368 tests.now }
{
    lay(t, layout::STAYS, stays);
    lay(t, layout::GOES, goes);
    lay(t, layout::FAR, far);
    lay(t, layout::LASTS, lasts);
    lay(t, layout::MARKS, marks);
    lay(t, layout::TESTS, tests);
}

// The tables of the paths of a sound list, in an array of zeros. The rows, which are most of it, are made in their place there.
fn compile(list: &[u8], t: &mut [u16])
    requires { (list_answer list.now ≡ Ok tt) × (t.old ≡ replicate 18400 0) }
    ensures { t.new ≡ tables_of (list_paths list.now) }
{
    let mut stays = [0u16; layout::PATHS];
    let mut goes = [0u16; layout::PATHS];
    let mut far = [0u16; layout::PATHS];
    let mut lasts = [0u16; layout::PATHS];
    let mut marks = [0u16; layout::PATHS];
    let mut tests = [0u16; layout::PATHS];
    let mut at = [0u16; layout::NAMES];
    let mut len = [0u16; layout::NAMES];
    let mut head = [0u16; layout::HEADS];
    let mut next = [0u16; layout::NAMES];
    let from = layout::ROWS;
    let to = layout::STAYS;
    let mut names: usize = 0;
    let mut p: usize = 0;
    let mut place: usize = 0;
    // Each turn goes on where the line before ended, so the place is no count.
    while place < list.len() {
        let line = enter_line(
            list,
            &mut at,
            &mut len,
            &mut head,
            &mut next,
            &mut t[from..to],
            names,
            p,
            place,
        );
        let tail = tail_at(list, line.end);
        stays[p] = line.stays;
        goes[p] = line.goes;
        far[p] = line.far;
        lasts[p] = line.last;
        marks[p] = if_marked(tail.marked, line.last);
        tests[p] = if_tested(tail.test, line.end);
        names = line.names;
        place = tail.next;
        p += 1;
    }
    spread(&mut t[from..to]);
    lay_names(t, &at, &len, &head, &next);
    lay_columns(t, &stays, &goes, &far, &lasts, &marks, &tests);
}

// Any list: what is said of it, and its tables, those of no path where it is refused.
pub fn read(list: &[u8], t: &mut Compiled) -> Result<(), ListError>
    ensures value { result ≡ list_answer list.now }
    ensures t_after { t.new ≡ tables_of (list_paths list.now) }
{
    *t = [0u16; layout::LENGTH];
    answer(list)?;
    compile(list, t);
    Ok(())
}
