// The layout of a batch: a length that is read, and laid; and whether some bytes are a version byte and whole entries, from the first to
// the last. What is said of them is in specs/Batch.antt.
#![tactic(auto)]

ghost use Rattle.std.specs.Prelude.{◌≡◌, ◌+◌, ◌≤◌, ◌<◌, length, drop};
ghost use Rattle.std.proofs.lemmas.List.Edits.{sets};
ghost use Rattle.bundle.specs.Batch.{big, number_at, layout_of};

// The version byte or a length of a batch is at fault: the offset at which it stands.
#[derive(Clone, Copy, Debug, PartialEq, Eq)]
pub struct LayoutError {
    pub at: usize,
}

// The most bytes that a batch may have.
pub const BYTES: usize = 67108864;

// The length that stands at a place: four bytes, the first the highest.
pub fn length_at(batch: &[u8], at: usize) -> usize
    requires { at + 4 ≤ length batch.now }
    ensures { result ≡ number_at (drop at batch.now) }
{
    let bytes = [batch[at], batch[at + 1], batch[at + 2], batch[at + 3]];
    u32::from_be_bytes(bytes) as usize
}

// A length is laid at the front: four bytes, the first the highest.
pub fn lay_length(out: &mut [u8], n: usize)
    requires { 4 ≤ length out.old }
    ensures { out.new ≡ sets out.old 0 (big n) }
{
    out[0] = (n / 16777216 % 256) as u8;
    out[1] = (n / 65536 % 256) as u8;
    out[2] = (n / 256 % 256) as u8;
    out[3] = (n % 256) as u8;
}

// Any bytes: the version, then length by length.
#[tactic(auto, using(crate::proofs::Judging::judging))]
pub fn judge(batch: &[u8]) -> Result<(), LayoutError>
    ensures { result ≡ layout_of batch.now }
{
    if batch.is_empty() {
        return Err(LayoutError { at: 0 });
    }
    if batch.len() > BYTES {
        return Err(LayoutError { at: 0 });
    }
    if batch[0] != 1 {
        return Err(LayoutError { at: 0 });
    }
    let mut at: usize = 1;

    // Each turn goes on where the entry before ended, so the place is no count.
    while at < batch.len() {
        if batch.len() - at < 4 {
            return Err(LayoutError { at });
        }
        let n = length_at(batch, at);
        let from = at + 4;
        if batch.len() - from < n {
            return Err(LayoutError { at });
        }
        at = from + n;
    }
    Ok(())
}
