// A field byte by byte: "A field is quoted exactly when it holds a comma, a quote, CR or LF, and quotes inside are doubled."
ghost use Rattle.std.specs.Prelude.{◌≡◌, [], ◌∷◌, ◌+◌, ◌≤◌};
ghost use Rattle.writer.specs.Wrote.{Wrote};
ghost use Rattle.rows.specs.Field.{is_special, quote as quote_of};
ghost use Rattle.rows.specs.Laid.{Lays};

use writer::put;

// What was laid of a text: the place after it, and whether it holds a byte for which a field is quoted.
#[derive(Drop)]
pub struct Laid {
    pub to: usize,
    pub special: bool,
}

// "a comma, a quote, CR or LF"
fn is_special(b: u8) -> bool
    ensures { result ≡ is_special b }
{
    (b == 0x2C) | (b == 0x22) | (b == 0x0D) | (b == 0x0A)
}

// Lays one byte, and a quote twice where the field is quoted.
pub fn lay(out: &mut [u8], to: usize, b: u8, quoted: bool) -> Laid
    requires { to + 2 ≤ 18446744073709551615 }
    ensures lays { Lays quoted out.old to (b ∷ []) result out.new }
    ensures to_bound { result.to ≤ to + 2 }
{
    let special = is_special(b);
    if quoted & (b == 0x22) {
        let first = put(out, to, 0x22);
        let both = put(out, first, 0x22);
        return Laid { to: both, special };
    }
    let one = put(out, to, b);
    Laid { to: one, special }
}

// Lays the quote before or after a field that is quoted.
pub fn quote(out: &mut [u8], to: usize, quoted: bool) -> usize
    requires { to + 1 ≤ 18446744073709551615 }
    ensures { Wrote out.old to (quote_of quoted) result out.new }
{
    if quoted {
        return put(out, to, 0x22);
    }
    to
}
