//! Texts of diagnostics.

use crate::{Detail, Diagnostic};
use std::alloc::Global;
use std::test::*;

fn text(alloc: Global, diagnostic: &Diagnostic<'_>) -> Result<String, Fail> {
    let mut bytes = Vec::new(alloc);
    diagnostic.push_text(alloc, &mut bytes)?;
    Ok(String::from_utf8_lossy(alloc, &bytes)?)
}

const TEXTS: &str = "\
29 Overflow line=3
14 OutOfRange index=2 length=2 line=5 region=0
14 OutOfRange index=-9223372036854775808 length=18446744073709551615 line=4294967295 region=1
11 ShareOutside word=b
6 Unexpected column=11 line=1
37 OutOfMemory
";

#[test]
fn diagnostics_have_these_texts(rt: HostRuntime) -> Result<(), Fail> {
    let overflow = Diagnostic::new(29, "Overflow", &[("line", Detail::Count(3))]);
    let range = Diagnostic::new(
        14,
        "OutOfRange",
        &[
            ("index", Detail::Signed(2)),
            ("length", Detail::Count(2)),
            ("line", Detail::Count(5)),
            ("region", Detail::Count(0)),
        ],
    );
    let far = Diagnostic::new(
        14,
        "OutOfRange",
        &[
            ("index", Detail::Signed(i64::MIN)),
            ("length", Detail::Count(u64::MAX)),
            ("line", Detail::Count(4_294_967_295)),
            ("region", Detail::Count(1)),
        ],
    );
    let share = Diagnostic::new(11, "ShareOutside", &[("word", Detail::Word(b"b"))]);
    let unexpected = Diagnostic::new(
        6,
        "Unexpected",
        &[("column", Detail::Count(11)), ("line", Detail::Count(1))],
    );
    let memory = Diagnostic::new(37, "OutOfMemory", &[]);
    let all = [&overflow, &range, &far, &share, &unexpected, &memory];
    for (diagnostic, want) in all.iter().zip(TEXTS.lines()) {
        assert_eq!(rt; text(rt.alloc(), diagnostic)?.as_str(), want);
    }
    Ok(())
}
