// What the kinds of step share: three tests of a kind, here as the bit of a step that passes them.
//
//                          stays   goes   far
//     child                no      yes    no
//     descendant           no      yes    yes
//     self                 yes     no     no
//     descendant-or-self   yes     yes    yes
ghost use Rattle.std.specs.Prelude.{◌≡◌, ◌≤◌, cond};
ghost use Rattle.compiled.specs.Kinds.{stays, goes, far};

use paths::Kind;

// The bit of a step, if it may take the place of the step before.
pub fn stay_bit(kind: Kind, bit: usize) -> usize
    ensures { (result ≡ cond (stays kind) bit 0) × (result ≤ bit) }
{
    match kind {
        Kind::Child => 0,
        Kind::Descendant => 0,
        Kind::SelfStep => bit,
        Kind::DescendantOrSelf => bit,
    }
}

// The same, if it may take a place below.
pub fn go_bit(kind: Kind, bit: usize) -> usize
    ensures { (result ≡ cond (goes kind) bit 0) × (result ≤ bit) }
{
    match kind {
        Kind::Child => bit,
        Kind::Descendant => bit,
        Kind::SelfStep => 0,
        Kind::DescendantOrSelf => bit,
    }
}

// The same, if it may take one further down than right below.
pub fn far_bit(kind: Kind, bit: usize) -> usize
    ensures { (result ≡ cond (far kind) bit 0) × (result ≤ bit) }
{
    match kind {
        Kind::Child => 0,
        Kind::Descendant => bit,
        Kind::SelfStep => 0,
        Kind::DescendantOrSelf => bit,
    }
}
