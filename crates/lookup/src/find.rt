// Where a name stands among the names of a list: the chain of the name's number is gone through, and bytes are compared.
// Names are equal when their bytes are.
ghost use Rattle.std.specs.Prelude.{◌≡◌, ◌+◌, ◌≤◌, length, take, drop};
ghost use Rattle.xml.specs.Productions.{same as same_name};
ghost use Rattle.lookup.specs.Index.{Tables, Found};

use crate::hashing::hash;

// Whether the n bytes of the list at a are the name.
fn same(list: &[u8], a: usize, n: usize, name: &[u8]) -> bool
    requires { a + n ≤ length list.now }
    ensures { result ≡ same_name (take n (drop a list.now)) name.now }
{
    let e = a + n;
    &list[a..e] == name
}

// Where a name stands among those of the tables, from 1; 0 where it does not.
pub fn find(list: &[u8], at: &[u16], len: &[u16], head: &[u16], next: &[u16], name: &[u8]) -> usize
    requires { Tables list.now at.now len.now head.now next.now }
    ensures { Found list.now at.now len.now head.now next.now name.now result }
{
    let mut k = usize::from(head[hash(name)]);
    // Each turn goes on to the next name of the chain, so k is no count.
    while k > 0 {
        if same(list, usize::from(at[k - 1]), usize::from(len[k - 1]), name) {
            return k;
        }
        k = usize::from(next[k - 1]);
    }
    0
}
