// The attribute tests of a compiled list: whether a path has one, and which of them a tag passes. A test is read where it stands in the
// list; the attributes are those of a tag's head, behind `<` and the name.
#![tactic(auto)]

ghost use Rattle.std.specs.Prelude.{◌≡◌, ◌-◌, ◌^◌, ◌<◌, length, take, drop};
ghost use Rattle.paths.specs.Judge.{list_paths};
ghost use Rattle.attributes.specs.Held.{attributes_in};
ghost use Rattle.matcher.specs.Fit.{Serves};
ghost use Rattle.matcher.specs.Picked.{passing_of};
ghost use Rattle.tests.specs.Passing.{some_place, passes_at};

use attribute::has::has;
use compiled::{Compiled, layout};
use paths::end_at;
use points::class::Classes;

// Whether one of the places is not 0.
fn some_place(places: &[u16]) -> bool
    ensures { result ≡ some_place places.now }
{
    places.iter().any(|place| *place != 0)
}

// Whether a path of the list has a test.
pub fn any(t: &Compiled) -> bool
    ensures { result ≡ some_place (take 32 (drop 18368 t.now)) }
{
    let s = &t[..];
    some_place(&s[layout::TESTS..layout::LENGTH])
}

// Whether there is a path p, and the tag passes its test or it has none.
fn passes(classes: &Classes, list: &[u8], t: &[u16], tag: &[u8], p: usize) -> bool
    requires { Serves list.now t.now × (length t.now ≡ 18400) × (p < 32) }
    ensures { result ≡ passes_at (list_paths list.now) (attributes_in 0 tag.now) p }
{
    if t[layout::LASTS + p] == 0 {
        return false;
    }
    let place = t[layout::TESTS + p] as usize;
    if place == 0 {
        return true;
    }
    match end_at(list, place) {
        Some(end) => {
            let name = end.name;
            let name_end = name + end.len;
            let value = end.value;
            let value_end = value + end.size;
            has(classes, tag, &list[name..name_end], &list[value..value_end])
        }
        None => false,
    }
}

// Those that pass of path p and the paths after it, where bit 0 is path p's. It calls itself, and is no loop, so that it stays out of the
// loop over the items, which is faster for it.
fn passing_from(
    classes: &Classes,
    list: &[u8],
    t: &[u16],
    selecting: u32,
    tag: &[u8],
    p: usize,
) -> u32
    requires { Serves list.now t.now × (length t.now ≡ 18400) × (selecting < 2 ^ (32 - p)) }
    ensures { result ≡ passing_of (drop p (list_paths list.now)) selecting (attributes_in 0 tag.now) }
{
    if selecting == 0 {
        return 0;
    }
    let rest = passing_from(classes, list, t, selecting / 2, tag, p + 1) * 2;
    if selecting % 2 == 0 {
        return rest;
    }
    if passes(classes, list, t, tag, p) {
        return rest + 1;
    }
    rest
}

// Of the paths whose steps select an element, those whose test its tag passes or that have none: bit p is path p's. The tests of the paths
// that select alone are tried; bits past the last path say nothing, and are 0 in the answer.
pub fn passing(classes: &Classes, list: &[u8], t: &Compiled, selecting: u32, tag: &[u8]) -> u32
    requires { Serves list.now t.now }
    ensures { result ≡ passing_of (list_paths list.now) selecting (attributes_in 0 tag.now) }
{
    let s = &t[..];
    passing_from(classes, list, s, selecting, tag, 0)
}
