use crate::made::{
    BASE, BLANKS, CHOICE, COLON, COLON_W, IGNORABLE, MC, MUST_UNDERSTAND, P, P_28, P_29, P_100,
    P_128, P_129, P_COLON, P_W, P_W_28, P_W_29, P_W_100, P_W_128, P_W_129, PREFIXES,
    PROCESS_CONTENT, Q, REQUIRES, URN_A, URN_B, W, XML, texts,
};
use enter::element::try_element;
use enter::in_scope::InScope;
use file::checked::File;
use file::texts::Texts;
use judge::element::Element;
use judge::place::Spot;
use record::row::{PlacedRow, Row};
use std::alloc::{AllocError, Global};
use std::test::Fail;

// Where a start, its first declaration and its first attribute stand here.
const START: u32 = 10;

const DECLS: u32 = 11;

const ATTRS: u32 = 50;

// No attribute.
const NONE: (u32, u32, u32) = (0, 0, 0);

// Passes.
const FINE: (u32, u32) = (0, 0);

// Rows with these numbers from a place on; those whose second number is 0 are left out.
fn rows(
    heap: Global,
    from: u32,
    kind: u32,
    numbers: &[(u32, u32, u32)],
) -> Result<Vec<PlacedRow>, AllocError> {
    let mut made = Vec::new(heap);
    for (place, &(a, b, c)) in (from..).zip(numbers) {
        if b != 0 {
            let row = Row { kind, a, b, c };
            made.push(PlacedRow { place, row })?;
        }
    }
    Ok(made)
}

// What the trial of an element answers: the number and place of its refusal.
// Its start is a namespace and a name; it is `understood` or not, and stands directly in an AlternateContent or not.
fn tried(
    heap: Global,
    lent: Texts<'_>,
    scope: &mut InScope,
    start: (u32, u32),
    decls: &[(u32, u32, u32)],
    attrs: &[(u32, u32, u32)],
    understood: bool,
    inside: bool,
) -> Result<(u32, u32), AllocError> {
    let decls = rows(heap, DECLS, 2, decls)?;
    let attrs = rows(heap, ATTRS, 3, attrs)?;
    let element = Element {
        start: PlacedRow {
            place: START,
            row: Row {
                kind: 1,
                a: start.0,
                b: start.1,
                c: 0,
            },
        },
        decls: decls.as_slice(),
        attrs: attrs.as_slice(),
    };
    let spot = Spot::of(inside, false);
    Ok(match try_element(element, lent, understood, spot, scope) {
        Ok(()) => FINE,
        Err(refusal) => (refusal.number(), refusal.place()),
    })
}

// An element of no special kind.
fn plain(
    heap: Global,
    lent: Texts<'_>,
    scope: &mut InScope,
    decls: &[(u32, u32, u32)],
    attrs: &[(u32, u32, u32)],
) -> Result<(u32, u32), AllocError> {
    tried(heap, lent, scope, (URN_B, W), decls, attrs, false, false)
}

// The first so many of the 32 prefixes, bound to one namespace.
fn prefixes(heap: Global, count: u32) -> Result<Vec<(u32, u32, u32)>, AllocError> {
    let mut made = Vec::new(heap);
    for k in 0..count {
        made.push((PREFIXES.wrapping_add(k), URN_A, 0))?;
    }
    Ok(made)
}

// Elements inside one another, that declare the same prefixes again.
#[test]
fn bindings_at_their_limit(rt: HostRuntime) -> Result<(), Fail> {
    let bytes = texts(rt.alloc())?;
    let file = File::check(bytes.as_slice())?;
    let table = [
        ([32, 32, 32, 32], 0, FINE),
        ([32, 32, 32, 32], 1, (13, START)),
        ([32, 32, 32, 31], 1, FINE),
        ([32, 32, 32, 31], 2, (13, START)),
        ([32, 32, 31, 1], 32, FINE),
        ([32, 32, 32, 1], 32, (13, START)),
    ];
    for (outer, inner, expected) in table {
        let mut scope = InScope::new();
        for count in outer {
            let decls = prefixes(rt.alloc(), count)?;
            let found = plain(rt.alloc(), file.texts(), &mut scope, decls.as_slice(), &[])?;
            assert_eq!(rt; found, FINE);
        }
        let decls = prefixes(rt.alloc(), inner)?;
        let found = plain(rt.alloc(), file.texts(), &mut scope, decls.as_slice(), &[])?;
        assert_eq!(rt; found, expected);
    }
    Ok(())
}

// Each of 32 declarations of one element binds its prefix.
#[test]
fn thirty_two_declarations(rt: HostRuntime) -> Result<(), Fail> {
    let bytes = texts(rt.alloc())?;
    let file = File::check(bytes.as_slice())?;
    let decls = prefixes(rt.alloc(), 32)?;
    for (prefix, expected) in [
        (PREFIXES, FINE),
        (PREFIXES.wrapping_add(31), FINE),
        (P, (15, ATTRS)),
    ] {
        let mut scope = InScope::new();
        let attrs = [(MC, MUST_UNDERSTAND, prefix)];
        let found = plain(
            rt.alloc(),
            file.texts(),
            &mut scope,
            decls.as_slice(),
            &attrs,
        )?;
        assert_eq!(rt; found, expected);
        assert_eq!(rt; scope.lengths().bindings, 32);
    }
    Ok(())
}

// Items of an element and of one inside it; each item is an entry, also one that repeats another.
#[test]
fn items_at_their_limit(rt: HostRuntime) -> Result<(), Fail> {
    let bytes = texts(rt.alloc())?;
    let file = File::check(bytes.as_slice())?;
    let table = [
        ((0, 0), (P_128, 0), FINE),
        ((0, 0), (P_129, 0), (13, ATTRS)),
        ((P_100, 0), (P_28, 0), FINE),
        ((P_100, 0), (P_29, 0), (13, ATTRS)),
        ((P, 0), (0, P_W_128), FINE),
        ((P, 0), (0, P_W_129), (13, ATTRS + 1)),
        ((P, P_W_100), (0, P_W_28), FINE),
        ((P, P_W_100), (0, P_W_29), (13, ATTRS + 1)),
        ((P_100, P_W_100), (P_28, P_W_28), FINE),
    ];
    for (outer, inner, expected) in table {
        let mut scope = InScope::new();
        let decls = [(P, URN_A, 0)];
        let attrs = listed(outer);
        let found = plain(rt.alloc(), file.texts(), &mut scope, &decls, &attrs)?;
        assert_eq!(rt; found, FINE);
        let attrs = listed(inner);
        let found = plain(rt.alloc(), file.texts(), &mut scope, &[], &attrs)?;
        assert_eq!(rt; found, expected);
    }
    Ok(())
}

// Ignorable and ProcessContent with these values, 0 for none.
fn listed(values: (u32, u32)) -> [(u32, u32, u32); 2] {
    let ignorable = if values.0 == 0 {
        NONE
    } else {
        (MC, IGNORABLE, values.0)
    };
    let process = if values.1 == 0 {
        NONE
    } else {
        (MC, PROCESS_CONTENT, values.1)
    };
    [ignorable, process]
}

// One element, with `p` bound, directly in an AlternateContent or not.
#[test]
fn items_and_blanks(rt: HostRuntime) -> Result<(), Fail> {
    let bytes = texts(rt.alloc())?;
    let file = File::check(bytes.as_slice())?;
    let plain = (URN_B, W);
    let choice = (MC, CHOICE);
    let table = [
        (plain, false, (MC, IGNORABLE, COLON), NONE, (14, ATTRS)),
        (
            plain,
            false,
            (MC, PROCESS_CONTENT, COLON),
            NONE,
            (14, ATTRS),
        ),
        (
            plain,
            false,
            (MC, MUST_UNDERSTAND, COLON),
            NONE,
            (14, ATTRS),
        ),
        (choice, true, (0, REQUIRES, COLON), NONE, (14, ATTRS)),
        (plain, false, (MC, IGNORABLE, BLANKS), NONE, FINE),
        (plain, false, (MC, PROCESS_CONTENT, BLANKS), NONE, FINE),
        (plain, false, (MC, MUST_UNDERSTAND, BLANKS), NONE, FINE),
        (choice, true, (0, REQUIRES, BLANKS), NONE, (14, ATTRS)),
        (
            plain,
            false,
            (MC, IGNORABLE, P),
            (MC, PROCESS_CONTENT, P_COLON),
            (14, ATTRS + 1),
        ),
        (
            plain,
            false,
            (MC, IGNORABLE, P),
            (MC, PROCESS_CONTENT, COLON_W),
            (14, ATTRS + 1),
        ),
        (
            plain,
            false,
            (MC, IGNORABLE, P),
            (MC, PROCESS_CONTENT, P_W),
            FINE,
        ),
        (
            plain,
            false,
            (MC, PROCESS_CONTENT, P_W),
            (MC, IGNORABLE, P),
            FINE,
        ),
        (plain, false, (MC, PROCESS_CONTENT, P_W), NONE, (16, ATTRS)),
        (
            plain,
            false,
            (MC, PROCESS_CONTENT, COLON),
            (MC, IGNORABLE, COLON),
            (14, ATTRS + 1),
        ),
        (plain, false, (MC, IGNORABLE, Q), NONE, (15, ATTRS)),
        (
            plain,
            false,
            (MC, W, P),
            (MC, IGNORABLE, COLON),
            (17, ATTRS),
        ),
        (choice, true, (0, REQUIRES, P), NONE, FINE),
        (choice, true, (0, REQUIRES, Q), NONE, (15, ATTRS)),
        (choice, true, NONE, NONE, (18, START)),
        (
            choice,
            true,
            (0, REQUIRES, P),
            (XML, BASE, P),
            (18, ATTRS + 1),
        ),
        (choice, false, (0, REQUIRES, P), NONE, (19, START)),
        (plain, true, (MC, IGNORABLE, P), NONE, (19, START)),
    ];
    for (start, inside, first, second, expected) in table {
        let mut scope = InScope::new();
        let decls = [(P, URN_A, 0)];
        let attrs = [first, second];
        let found = tried(
            rt.alloc(),
            file.texts(),
            &mut scope,
            start,
            &decls,
            &attrs,
            false,
            inside,
        )?;
        assert_eq!(rt; found, expected);
    }
    Ok(())
}

// `p` bound by an element and again by one inside it; then by the first alone, for a sibling of the second.
#[test]
fn nearest_declaration(rt: HostRuntime) -> Result<(), Fail> {
    let bytes = texts(rt.alloc())?;
    let file = File::check(bytes.as_slice())?;
    let table = [
        ((MC, 0), URN_A, (P, 0), FINE, (16, ATTRS)),
        ((URN_A, 0), MC, (P, 0), (16, ATTRS), FINE),
        ((URN_A, P), URN_B, (0, P_W), (16, ATTRS + 1), FINE),
    ];
    for (outer, again, inner, expected, then) in table {
        let mut scope = InScope::new();
        let attrs = listed((outer.1, 0));
        let decls = [(P, outer.0, 0)];
        let found = plain(rt.alloc(), file.texts(), &mut scope, &decls, &attrs)?;
        assert_eq!(rt; found, FINE);
        let before = scope.lengths();
        let attrs = listed(inner);
        let decls = [(P, again, 0)];
        let found = plain(rt.alloc(), file.texts(), &mut scope, &decls, &attrs)?;
        assert_eq!(rt; found, expected);
        scope.cut(before);
        let found = plain(rt.alloc(), file.texts(), &mut scope, &[], &attrs)?;
        assert_eq!(rt; found, then);
    }
    Ok(())
}

// An element with xml:base, by its namespace, its name and whether its namespace is understood.
#[test]
fn unwrapped(rt: HostRuntime) -> Result<(), Fail> {
    let bytes = texts(rt.alloc())?;
    let file = File::check(bytes.as_slice())?;
    let attrs = [
        (MC, IGNORABLE, P),
        (MC, PROCESS_CONTENT, P_W),
        (XML, BASE, P),
    ];
    for (start, understood, expected) in [
        ((URN_A, W), false, (20, ATTRS + 2)),
        ((URN_A, W), true, FINE),
        ((URN_A, Q), false, FINE),
        ((URN_B, W), false, FINE),
        ((0, W), false, FINE),
    ] {
        let mut scope = InScope::new();
        let decls = [(P, URN_A, 0)];
        let found = tried(
            rt.alloc(),
            file.texts(),
            &mut scope,
            start,
            &decls,
            &attrs,
            understood,
            false,
        )?;
        assert_eq!(rt; found, expected);
    }
    Ok(())
}
