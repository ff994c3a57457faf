use constraint_sys::{ArgKey, Key, Unknown};
use lockset_dom::Locks;

/// Function 0 is f, which is never called, 1 is main. Edges of `main`: 0 from 0 to 2; 1 `i = 0` to 3; 2
/// and 3 the guards, to 5 and to 4; 4 `i = i + 1` from 5 to 3; 5 the return from 4 to 1.
pub(crate) const LOOP: &[u8] = b"int g = 9;
int f(void) { return 7; }
int main(void) {
  int i = 0;
  while (i < 10) i++;
  return i;
}
";

/// A node of a function in the empty context.
pub(crate) fn node(func: u16, node: u16) -> Unknown {
    let key = Key {
        a: ArgKey::Absent,
        b: ArgKey::Absent,
        locks: Locks::empty(),
    };
    Unknown::Point { func, key, node }
}
