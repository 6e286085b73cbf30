// CDATA sections: production [18].
// The first `]]>` ends one, whatever stands before it.
ghost use Rattle.std.specs.Prelude.{◌≡◌, drop};
ghost use Rattle.chars.specs.Name.{reading_at};
ghost use Rattle.readers.specs.Plain.{section_of};

use crate::between::between;

// Where the section from `at` on ends, if one stands there.
pub fn section(doc: &[u8], at: usize) -> Option<usize>
    ensures { result ≡ reading_at doc.now at (section_of (drop at doc.now)) }
{
    between(doc, at, b"<![CDATA[", b"]]>", b"]]>")
}
