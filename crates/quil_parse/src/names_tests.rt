use quil_tree::{List, Name, NameSet, Place, Text};
use std::test::Fail;

// A name that stands twice counts once.
#[test]
fn sets_of_names_number_them(rt: HostRuntime) -> Result<(), Fail> {
    let alloc = rt.alloc();
    let place = Place { line: 1, column: 1 };
    let mut names: List<Name> = List::new(alloc);
    for word in ["%a", "%b", "%a", "%c"] {
        let text = Text::new(alloc, word.as_bytes())?;
        names.push(Name { place, text })?;
    }
    let set = NameSet::of(alloc, names.as_slice())?;
    assert!(rt; set.contains(b"%c") && !set.contains(b"%d"));
    assert!(rt; set.number_of(b"%c") == 2 && set.number_of(b"%d") == 3);
    let second = set.get(1) == Some(b"%b".as_slice());
    assert!(rt; second);
    let none = set.get(3).is_none();
    assert!(rt; none);
    Ok(())
}
