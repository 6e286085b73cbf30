// Names of a document, by their places.
// They are compared by their bytes.
ghost use Rattle.std.specs.Prelude.{◌≡◌, ◌+◌, ◌≤◌, length};
ghost use Rattle.xml.specs.Productions.{same};
ghost use Rattle.tags.specs.Kept.{name_from};

// Whether the name of n bytes at a is that of l bytes at x.
pub fn same_name(doc: &[u8], a: usize, n: usize, x: usize, l: usize) -> bool
    requires { (a + n ≤ length doc.now) × (x + l ≤ length doc.now) }
    ensures { result ≡ same (name_from doc.now a n) (name_from doc.now x l) }
{
    doc[a..a + n] == doc[x..x + l]
}
