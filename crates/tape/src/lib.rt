// The tape: the tags of a document in its order, kept by those who read items for those who come after and need not read them again. An
// entry has five numbers, where it begins among them: what stands between two tags is not kept, and nothing of it is asked for later. The
// definitions are in specs/Tape.antt.
//
//     kind    begin    end    name    head      of
//     0       begin    end    name    0         an end tag
//     1       begin    end    name    head      a start tag
//     2       begin    end    name    head      an empty tag
#![tactic(auto)]

ghost use Rattle.std.specs.Prelude.{◌≡◌, ◌+◌, ◌*◌, ◌<◌};
ghost use Rattle.tape.specs.Tape.{tag_kind, shape, entry_at, begin_at, stored, put_at, tags_of};

use tags::Item;

// How many tags a tape has room for, and its length: 160 KiB.
pub const TAGS: usize = 4096;

pub type Tape = [usize; 5 * TAGS];

// The kind of a start tag or empty tag.
fn tag_kind(empty: bool) -> usize
    ensures { result ≡ tag_kind empty }
{
    if empty {
        return 2;
    }
    1
}

// Five numbers at an entry.
fn store(tape: &mut Tape, k: usize, kind: usize, begin: usize, end: usize, name: usize, head: usize)
    requires { k < 4096 }
    ensures { tape.new ≡ stored tape.old (k * 5) kind begin end name head }
{
    let i = k * 5;
    tape[i] = kind;
    tape[i + 1] = begin;
    tape[i + 2] = end;
    tape[i + 3] = name;
    tape[i + 4] = head;
}

// The entry of the item at a place, if it is a tag. Gives the number of entries.
pub fn put(tape: &mut Tape, k: usize, at: usize, item: Item) -> usize
    requires { k < 4096 }
    ensures value { result ≡ k + tags_of item }
    ensures tape_after { tape.new ≡ put_at tape.old k at item }
{
    if let Item::Start {
        name,
        head,
        end,
        empty,
        twice: _,
    } = item
    {
        let kind = tag_kind(empty);
        store(tape, k, kind, at, end, name, head);
        return k + 1;
    }
    if let Item::Finish { name, end } = item {
        store(tape, k, 0, at, end, name, 0);
        return k + 1;
    }
    k
}

// The tag of four numbers.
fn shaped(kind: usize, end: usize, name: usize, head: usize) -> Item
    ensures { result ≡ shape kind end name head }
{
    if kind == 0 {
        return Item::Finish { name, end };
    }
    if kind == 1 {
        return Item::Start {
            name,
            head,
            end,
            empty: false,
            twice: false,
        };
    }
    Item::Start {
        name,
        head,
        end,
        empty: true,
        twice: false,
    }
}

// Where the tag at an entry begins.
pub fn begin_on(tape: &Tape, k: usize) -> usize
    requires { k < 4096 }
    ensures { result ≡ begin_at tape.now k }
{
    tape[k * 5 + 1]
}

// The tag at an entry.
pub fn tag_on(tape: &Tape, k: usize) -> Item
    requires { k < 4096 }
    ensures { result ≡ entry_at tape.now k }
{
    let i = k * 5;
    let kind = tape[i];
    let end = tape[i + 2];
    let name = tape[i + 3];
    let head = tape[i + 4];
    shaped(kind, end, name, head)
}
