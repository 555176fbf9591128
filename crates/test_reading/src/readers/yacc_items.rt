//! Files and their items, worked by hand from the grammar file of POSIX yacc.

ghost use Rattle.std.specs.Prelude.{◌≤◌, length};
ghost use Rattle.cs_bytes.specs.Limits.{most_bytes};

use cs_yacc::{Item, ItemsError, MOST_BYTES, Placed, read_items, syntax_fault};
use std::alloc::Global;
use std::test::Fail;

// The offset where the table stops, if it does.
fn fault(alloc: Global, text: &[u8]) -> Result<Option<u32>, ItemsError>
    requires { length text.now ≤ most_bytes }
{
    let items = read_items(alloc, text)?;
    Ok(syntax_fault(&items, text.len()))
}

const RULE: &[u8] = b"%% /* a */ s : 'x' <t> 12 { } | %% ;";

const PLACES: &[u32] = &[0, 11, 13, 15, 19, 23, 26, 30, 32];

fn stand_at(items: &[Placed<'_>], places: &[u32]) -> bool {
    items.len() == places.len() && items.iter().zip(places).all(|(item, at)| item.at == *at)
}

// Whether these are the items of the rule.
fn are_of_the_rule(items: &[Placed<'_>]) -> bool {
    let [mark, left, colon, literal, tag, number, block, bar, last] = items else {
        return false;
    };
    matches!(mark.item, Item::Mark)
        && matches!(left.item, Item::Name(_))
        && matches!(colon.item, Item::Colon)
        && matches!(literal.item, Item::Literal(b'x'))
        && matches!(tag.item, Item::Tag)
        && matches!(number.item, Item::Number)
        && matches!(block.item, Item::Block)
        && matches!(bar.item, Item::Bar)
        && matches!(last.item, Item::Mark)
}

#[test]
fn items_of_a_rule(rt: HostRuntime) -> Result<(), Fail> {
    assert!(rt; RULE.len() <= MOST_BYTES);
    let items = read_items(rt.alloc(), RULE).ok().ok_or("read")?;
    assert!(rt; are_of_the_rule(&items));
    assert!(rt; stand_at(&items, PLACES));
    Ok(())
}

const STOPS: &[(&[u8], ItemsError)] = &[
    (b"%code {x}", ItemsError::UnknownDirective { at: 0 }),
    (b"%tokens A", ItemsError::UnknownDirective { at: 0 }),
    (b"%token\n%- ", ItemsError::UnknownDirective { at: 7 }),
    (b"%%\na : \"x\" ;", ItemsError::BadItem { at: 7 }),
    (b"%%\na : '\0' ;", ItemsError::BadItem { at: 7 }),
    (b"%%\na : ''' ;", ItemsError::BadItem { at: 7 }),
    (b"% %\n", ItemsError::BadItem { at: 0 }),
    (b"%union <x\n>", ItemsError::BadItem { at: 7 }),
    (b"%%\ns : /x", ItemsError::BadItem { at: 7 }),
    (b"; /*/ x", ItemsError::Unended { at: 2 }),
    (b" %{ '%'} ", ItemsError::Unended { at: 1 }),
    (b"%%\ns : { /* } ;", ItemsError::Unended { at: 7 }),
    (b"%%\ns : { { } ;", ItemsError::Unended { at: 7 }),
    (b"%union { '}' \n", ItemsError::Unended { at: 7 }),
];

#[test]
fn where_reading_stops(rt: HostRuntime) {
    for &(text, want) in STOPS {
        assert!(rt; text.len() <= MOST_BYTES);
        assert_eq!(rt; fault(rt.alloc(), text).err(), Some(want), "{text:?}");
    }
}

const TABLE: &[(&[u8], Option<u32>)] = &[
    (b"", Some(0)),
    (b"%%\na : 'x' ; b\n", Some(15)),
    (b"%%\n%%\n", Some(3)),
    (b"%% a : 'x' ; ; | b : ;", None),
    (b"%% a : 'x'", None),
    (b"%union { int a; }\n%%\na : { $$ = '}'; } b { } ;", None),
    (b"%union a", Some(7)),
    (b"%token <t> A 1, B, 'c' 2\r\n%%\r\na : A", None),
    (b"%token <t> <u>", Some(11)),
    (b"%token <> A %% a : A", None),
    (b"%expect A", Some(8)),
    (b"%% a : %prec ;", Some(13)),
    (b"%{ \"%}\n%%\na : ;", None),
];

#[test]
fn where_the_table_stops(rt: HostRuntime) {
    for &(text, want) in TABLE {
        assert!(rt; text.len() <= MOST_BYTES);
        assert_eq!(rt; fault(rt.alloc(), text).ok(), Some(want), "{text:?}");
    }
}
