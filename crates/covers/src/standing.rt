// Whether a wide path stands for a narrow one, from their lines and from whether a sending exists: "b must have no attribute test or the
// same one"; "A path with a self or descendant-or-self step covers only the same path, and only the same path covers it". Paths and tests
// are the same where their bytes are.
ghost use Rattle.std.specs.Prelude.{All, ◌≡◌};
ghost use Rattle.xml.specs.Productions.{same as same_bytes};
ghost use Rattle.covers.specs.Line.{Inside};
ghost use Rattle.covers.specs.Standing.{stands_by, some_by};

use crate::line::Line;

// Whether two texts have the same bytes.
fn same(a: &[u8], b: &[u8]) -> bool
    ensures { result ≡ same_bytes a.now b.now }
{
    a == b
}

// Whether the wide line b stands for the narrow line a, where `sent` says that b's steps can be sent to a's.
fn stands_for(narrow: &[u8], a: Line, wide: &[u8], b: Line, sent: bool) -> bool
    requires { Inside narrow.now a × Inside wide.now b }
    ensures { result ≡ stands_by narrow.now a wide.now b sent }
{
    if a.marked & !b.marked {
        return false;
    }
    let a_end = a.end;
    let b_end = b.end;
    if !(a.plain & b.plain) {
        let a_from = a.from;
        let b_from = b.from;
        return same(&wide[b_from..b_end], &narrow[a_from..a_end]);
    }
    if !sent {
        return false;
    }
    let a_steps = a.steps;
    let b_steps = b.steps;
    if b_steps == b_end {
        return true;
    }
    same(&wide[b_steps..b_end], &narrow[a_steps..a_end])
}

// Whether one of the wide lines stands for the narrow line a, where bit p of `sent` says that the steps of line p can be sent to a's.
pub fn some_stands(narrow: &[u8], a: Line, wide: &[u8], lines: &[Line], sent: u32) -> bool
    requires { Inside narrow.now a × All (Inside wide.now) lines.now }
    ensures { result ≡ some_by narrow.now a wide.now lines.now sent }
{
    let mut left = sent;
    for b in lines {
        if stands_for(narrow, a, wide, *b, left % 2 == 1) {
            return true;
        }
        left /= 2;
    }
    false
}
