// A note is made.
ghost use Rattle.std.specs.Prelude.{◌≡◌, ◌≤◌, ◌<◌, length, set};
ghost use Rattle.notes.specs.Notes.{word_of, count_after, joins, count_joined, log_joined};

use crate::word::{from_of, size_of, word_of};

// So many bytes from a place on, as a note of a kind. Gives the number of notes.
pub fn note(log: &mut [u64], noted: usize, kind: usize, from: usize, size: usize) -> usize
    requires { (length log.old ≤ 16777216) × (kind < 4) × (from ≤ 16777216) × (size ≤ 16777216) }
    ensures value { result ≡ count_after log.old noted }
    ensures log_after { log.new ≡ set log.old noted (word_of kind from size) }
{
    if noted < log.len() {
        log[noted] = word_of(kind, from, size);
        return noted + 1;
    }
    log.len() + 1
}

// Whether the last note is of bytes as they stand, which end at a place.
fn ends_at(log: &[u64], noted: usize, place: usize) -> bool
    requires { length log.now ≤ 16777216 }
    ensures { result ≡ joins log.now noted place }
{
    if noted == 0 {
        return false;
    }
    if noted > log.len() {
        return false;
    }
    let last = log[noted - 1];
    if last % 4 == 0 {
        return from_of(last) + size_of(last) == place;
    }
    false
}

// So many bytes from a place on as they stand. Where the last note is such bytes that end there, it is made longer.
pub fn extend(log: &mut [u64], noted: usize, from: usize, size: usize) -> usize
    requires { (length log.old ≤ 16777216) × (from ≤ 16777216) × (size ≤ 16777216) }
    ensures value { result ≡ count_joined log.old noted from }
    ensures log_after { log.new ≡ log_joined log.old noted from size }
{
    if ends_at(log, noted, from) {
        let last = log[noted - 1];
        log[noted - 1] = word_of(0, from_of(last), size_of(last) + size);
        return noted;
    }
    note(log, noted, 0, from, size)
}
