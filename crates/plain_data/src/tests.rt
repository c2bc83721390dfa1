ghost use Rattle.std.specs.Prelude.{◌≡◌, ◌↔◌, IsTrue, IfOk};

use crate::{List, Text};
use std::alloc::{AllocError, Global};
use std::test::Fail;

// Records of plain data, whose derives compare and copy values.
#[derive(Clone, Debug, Drop, PartialEq, Eq)]
struct Author {
    name: Text,
    born: u64,
}

#[derive(Clone, Debug, Drop)]
struct Book {
    title: Text,
    subtitle: Option<Text>,
    authors: List<Author>,
    notes: List<Text>,
}

fn same_author(author: &Author, other: &Author) -> bool
    ensures { IsTrue result ↔ (author.now ≡ other.now) }
{
    author == other
}

fn same_notes(notes: &List<Text>, other: &List<Text>) -> bool
    ensures { IsTrue result ↔ (notes.now ≡ other.now) }
{
    notes == other
}

fn copy_of(book: &Book) -> Result<Book, AllocError>
    ensures { IfOk result (λ copy. copy ≡ book.now) }
{
    book.clone()
}

fn sums(alloc: Global) -> Result<Book, AllocError> {
    let mut authors = List::new(alloc);
    authors.push(Author {
        name: Text::from_str(alloc, "Ada")?,
        born: 1815,
    })?;
    let mut notes = List::new(alloc);
    notes.push(Text::from_str(alloc, "old")?)?;
    Ok(Book {
        title: Text::from_str(alloc, "Sums")?,
        subtitle: None,
        authors,
        notes,
    })
}

#[test]
fn records_compare_by_value(rt: HostRuntime) -> Result<(), Fail> {
    let first = sums(rt.alloc())?;
    let mut second = copy_of(&first)?;
    assert!(rt; first.title == second.title);
    assert!(rt; same_notes(&first.notes, &second.notes));
    second.notes.truncate(0);
    assert!(rt; !same_notes(&first.notes, &second.notes));
    let ada = second.authors.pop().ok_or("one author")?;
    assert!(rt;
        first
            .authors
            .get(0)
            .is_some_and(|author| same_author(author, &ada))
    );
    Ok(())
}

#[test]
fn lists_grow_and_texts_are_ordered(rt: HostRuntime) -> Result<(), Fail> {
    let mut bytes = List::from_slice(rt.alloc(), b"ac")?;
    bytes.insert(1, b'b')?;
    bytes.extend_from_slice(b"de")?;
    bytes.push(b'f')?;
    bytes.set(0, b'A');
    bytes.truncate(5);
    assert_eq!(rt; bytes.as_slice(), b"Abcde".as_slice());
    let low = Text::from_str(rt.alloc(), "Z")?;
    let high = Text::from_str(rt.alloc(), "a")?;
    assert!(rt; low < high);
    Ok(())
}
