//! Long texts.
use crate::ran::analysed;
use std::alloc::Global;
use std::test::Fail;

fn statements(alloc: Global, count: u64) -> Result<Vec<u8>, Fail> {
    let mut text = Vec::from_slice(alloc, b"int main(void) {\nint x = 0;\n")?;
    for _ in 0..count {
        text.extend_from_slice(b"x = 1;\n")?;
    }
    text.extend_from_slice(b"return x;\n}\n")?;
    Ok(text)
}

const END: &[u8] = b"main(){} 4002 4002:1 x=[1,1] {}
main(){} 4003 4003:1 x=[1,1] {}
complete
";

/// So more than 4,000 turns are made. The declaration is at node 2, and the statement on line n at
/// node n; the return is on line 4,003.
#[test]
fn a_text_of_4000_statements_is_solved(rt: HostRuntime) -> Result<(), Fail> {
    let text = statements(rt.alloc(), 4_000)?;
    let ran = analysed(rt.alloc(), text.as_slice())?;
    assert_eq!(rt; ran.status.number(), 0);
    assert!(rt; ran.written.ends_with(END));
    Ok(())
}

/// Nodes 0, 1 and the declaration's beside them are 4,096 with 4,092 statements and the return.
#[test]
fn a_text_of_4093_statements_is_refused(rt: HostRuntime) -> Result<(), Fail> {
    let text = statements(rt.alloc(), 4_093)?;
    let ran = analysed(rt.alloc(), text.as_slice())?;
    assert_eq!(rt; ran.status.number(), 5);
    assert_eq!(rt; ran.written.as_slice(), b"refused 1:5 Limit\n".as_slice());
    Ok(())
}
