//! Texts that are refused, each with the line that says where and why.
use crate::ran::analysed;
use std::alloc::Global;
use std::test::Fail;

/// Each text is refused with status 5 and its line.
#[test]
fn each_kind_of_fault_is_told_at_its_place(rt: HostRuntime) -> Result<(), Fail> {
    let rows: [(&[u8], &[u8]); 16] = [
        (b"", b"refused 1:1 NoMain\n"),
        (b"int f(void) { return 1; }", b"refused 1:1 NoMain\n"),
        (b"\n \xff", b"refused 2:2 NotText\n"),
        (
            b"int main(void) { return @; }",
            b"refused 1:25 BadCharacter\n",
        ),
        (b"int x;\n/* open", b"refused 2:1 OpenComment\n"),
        (
            b"int main(void) { return 07; }",
            b"refused 1:25 BadLiteral\n",
        ),
        (
            b"int g = 2147483648;\nint main(void) { return 0; }",
            b"refused 1:9 BadLiteral\n",
        ),
        (b"int main(void) { goto x; }", b"refused 1:18 Unsupported\n"),
        (
            b"int main(void) { long long x; return 0; }",
            b"refused 1:23 Unexpected\n",
        ),
        (b"int main(void) { return 0;", b"refused 1:27 Unexpected\n"),
        (
            b"int main(void) { return y; }",
            b"refused 1:25 Undeclared\n",
        ),
        (
            b"int main(void) { a = 1; int a; return a; }",
            b"refused 1:18 Undeclared\n",
        ),
        (
            b"int main(void) { int a; int a; return a; }",
            b"refused 1:29 Redeclared\n",
        ),
        (
            b"int f(void) { return; }\nint main(void) { return 0; }",
            b"refused 1:15 WrongKind\n",
        ),
        (
            b"int f(int n) { return n; }\nint main(void) { return f(); }",
            b"refused 2:25 WrongArity\n",
        ),
        (b"long main(void) { return 0; }", b"refused 1:6 WrongKind\n"),
    ];
    for (text, line) in rows {
        let refused = analysed(rt.alloc(), text)?;
        assert_eq!(rt; refused.status.number(), 5);
        assert_eq!(rt; refused.written.as_slice(), line);
    }
    Ok(())
}

fn sum_of(alloc: Global, plus: u64) -> Result<Vec<u8>, Fail> {
    let mut text = Vec::from_slice(alloc, b"int main(void) { return 1")?;
    for _ in 0..plus {
        text.extend_from_slice(b" + 1")?;
    }
    text.extend_from_slice(b"; }")?;
    Ok(text)
}

/// The first sign stands at column 27 and each further one 4 columns on.
#[test]
fn expressions_have_at_most_64_signs(rt: HostRuntime) -> Result<(), Fail> {
    let most = analysed(rt.alloc(), sum_of(rt.alloc(), 64)?.as_slice())?;
    assert_eq!(rt; most.status.number(), 0);
    let deep = analysed(rt.alloc(), sum_of(rt.alloc(), 65)?.as_slice())?;
    assert_eq!(rt; deep.status.number(), 5);
    assert_eq!(rt;
        deep.written.as_slice(),
        b"refused 1:283 TooDeep\n".as_slice()
    );
    Ok(())
}

fn declarations(alloc: Global, count: u64) -> Result<Vec<u8>, Fail> {
    let mut text = Vec::from_slice(alloc, b"int main(void) { ")?;
    for i in 0..count {
        let declaration = format!(in alloc; "int x{i}; ")?;
        text.extend_from_slice(declaration.as_bytes())?;
    }
    text.extend_from_slice(b"return x0; }")?;
    Ok(text)
}

/// With what is returned a function has at most 128 slots.
#[test]
fn functions_have_at_most_127_declarations(rt: HostRuntime) -> Result<(), Fail> {
    let most = analysed(rt.alloc(), declarations(rt.alloc(), 127)?.as_slice())?;
    assert_eq!(rt; most.status.number(), 0);
    let more = analysed(rt.alloc(), declarations(rt.alloc(), 128)?.as_slice())?;
    assert_eq!(rt; more.status.number(), 5);
    assert_eq!(rt; more.written.as_slice(), b"refused 1:5 Limit\n".as_slice());
    Ok(())
}

#[test]
fn texts_have_at_most_65536_bytes(rt: HostRuntime) -> Result<(), Fail> {
    let head = b"int main(void) { return 0; }";
    for (blanks, status) in [(65_508, 0), (65_509, 5)] {
        let mut text = vec![in rt.alloc(); b' '; blanks]?;
        text.extend_from_slice(head)?;
        let ran = analysed(rt.alloc(), text.as_slice())?;
        assert_eq!(rt; ran.status.number(), status, "{blanks} blanks");
    }
    let long = vec![in rt.alloc(); b'@'; 65_537]?;
    let ran = analysed(rt.alloc(), long.as_slice())?;
    assert_eq!(rt; ran.written.as_slice(), b"refused 1:1 TooLong\n".as_slice());
    Ok(())
}
