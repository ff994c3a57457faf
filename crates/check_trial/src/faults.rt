//! Texts that are refused for their bytes, tokens, grammar, names and literals, each at its exact
//! place.

use crate::texts::refuses;
use c_check::FrontKind;

/// Of the bytes.
#[test]
fn bytes(rt: HostRuntime) {
    let alloc = rt.alloc();
    assert!(rt;
        refuses(
            alloc,
            b"int main(void) { } // \xff",
            FrontKind::NotText,
            1,
            23
        )
    );
    assert!(rt;
        refuses(
            alloc,
            b"int main(void) { return @; }",
            FrontKind::BadCharacter,
            1,
            25
        )
    );
    assert!(rt;
        refuses(
            alloc,
            b"int main(void) { }\n/* x",
            FrontKind::OpenComment,
            2,
            1
        )
    );
}

/// Of the tokens.
#[test]
fn tokens(rt: HostRuntime) {
    let alloc = rt.alloc();
    assert!(rt;
        refuses(
            alloc,
            b"int main(void) { return 007; }",
            FrontKind::BadLiteral,
            1,
            25
        )
    );
    assert!(rt;
        refuses(
            alloc,
            b"int main(void) { goto x; }",
            FrontKind::Unsupported,
            1,
            18
        )
    );
    assert!(rt;
        refuses(
            alloc,
            b"#define N 1\nint main(void) { }",
            FrontKind::Unsupported,
            1,
            1
        )
    );
}

/// Of the grammar.
#[test]
fn grammar(rt: HostRuntime) {
    let alloc = rt.alloc();
    assert!(rt;
        refuses(
            alloc,
            b"int main(void) { return 1 }",
            FrontKind::Unexpected,
            1,
            27
        )
    );
    assert!(rt;
        refuses(
            alloc,
            b"int main(void) { long long x; return 0; }",
            FrontKind::Unexpected,
            1,
            23
        )
    );
    assert!(rt;
        refuses(
            alloc,
            b"int main(void) { break; } }",
            FrontKind::Unexpected,
            1,
            27
        )
    );
}

/// A name that no declaration is seen of: none at all, one in a block that has ended, a global further down.
#[test]
fn undeclared(rt: HostRuntime) {
    let alloc = rt.alloc();
    assert!(rt;
        refuses(
            alloc,
            b"int main(void) { return y; }",
            FrontKind::Undeclared,
            1,
            25
        )
    );
    assert!(rt;
        refuses(
            alloc,
            b"int main(void) { { int x; } return x; }",
            FrontKind::Undeclared,
            1,
            36
        )
    );
    assert!(rt;
        refuses(
            alloc,
            b"int f(void) { return g; } int g; int main(void) { }",
            FrontKind::Undeclared,
            1,
            22
        )
    );
}

/// A prototype without a definition, also where a use or a global of its name stands.
#[test]
fn undefined(rt: HostRuntime) {
    let alloc = rt.alloc();
    assert!(rt;
        refuses(
            alloc,
            b"int f(void); int main(void) { return f(); }",
            FrontKind::Undeclared,
            1,
            5
        )
    );
    assert!(rt;
        refuses(
            alloc,
            b"int g; int g(void); int main(void) { }",
            FrontKind::Undeclared,
            1,
            12
        )
    );
}

/// A second declaration in a function: a parameter and the outer block are one scope.
#[test]
fn redeclared_inside(rt: HostRuntime) {
    let alloc = rt.alloc();
    assert!(rt;
        refuses(
            alloc,
            b"int f(int n) { int n; return 0; } int main(void) { }",
            FrontKind::Redeclared,
            1,
            20
        )
    );
    assert!(rt;
        refuses(
            alloc,
            b"int f(int a, int a); int f(int a, int b) { } int main(void) { }",
            FrontKind::Redeclared,
            1,
            18
        )
    );
}

/// A second declaration outside of functions.
#[test]
fn redeclared_outside(rt: HostRuntime) {
    let alloc = rt.alloc();
    assert!(rt;
        refuses(
            alloc,
            b"int g; int g; int main(void) { }",
            FrontKind::Redeclared,
            1,
            12
        )
    );
    assert!(rt;
        refuses(
            alloc,
            b"int f(void) { } int f(void) { } int main(void) { }",
            FrontKind::Redeclared,
            1,
            21
        )
    );
    assert!(rt;
        refuses(
            alloc,
            b"int main(void) { } int main;",
            FrontKind::Redeclared,
            1,
            24
        )
    );
}

/// Of two faults the one at the earlier place is told.
#[test]
fn earlier_place(rt: HostRuntime) {
    let alloc = rt.alloc();
    assert!(rt;
        refuses(
            alloc,
            b"int main(void) { int x; z = 1; int x; }",
            FrontKind::Undeclared,
            1,
            25
        )
    );
    assert!(rt;
        refuses(
            alloc,
            b"int f(void) { break; }",
            FrontKind::WrongKind,
            1,
            15
        )
    );
}

/// A literal that the type of its global doesn't hold, at the number behind a sign.
#[test]
fn literals(rt: HostRuntime) {
    let alloc = rt.alloc();
    assert!(rt;
        refuses(
            alloc,
            b"int g = 2147483648; int main(void) { }",
            FrontKind::BadLiteral,
            1,
            9
        )
    );
    assert!(rt;
        refuses(
            alloc,
            b"int g = -2147483649; int main(void) { }",
            FrontKind::BadLiteral,
            1,
            10
        )
    );
}
