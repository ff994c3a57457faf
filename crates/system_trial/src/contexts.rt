use crate::seen::after;
use solved_texts::solved;
use std::test::Fail;

/// Function 0 is f, which never returns, 1 is main. Edges of `main`: 0 to the body; 1 the call; 2 the
/// return.
const ENDLESS: &[u8] = b"void f(void) { while (1) ; }
int main(void) {
  f();
  return 0;
}
";

#[test]
fn a_call_that_never_returns_leads_nowhere(rt: HostRuntime) -> Result<(), Fail> {
    let run = solved(rt.alloc(), ENDLESS)?;
    let found = after(rt.alloc(), &run, 1, 1, 0)?;
    assert!(rt; found == Some((None, 1, 1)));
    Ok(())
}
