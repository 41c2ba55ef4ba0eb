// A tree of boxes and sequences, and each call that takes memory once.
ghost use Rattle.std.specs.Prelude.{◌≡◌, [], ◌∷◌, IfOk};

use ifdb_value::{
    Box, Column, Columns, Name, NameFault, OutOfMemory, Sequence, Shared, Value, ValueKind, Word,
};
use std::alloc::Global;
use std::cmp::Ordering;
use std::process::Abort;
use std::test::Fail;

/// A type that holds itself, in a box and in a sequence.
#[derive(Debug, Drop)]
enum Tree {
    Leaf(Value),
    Not(Box<Tree>),
    All(Trees),
}

type Trees = Sequence<Tree>;

fn not(alloc: Global, tree: Tree) -> Result<Tree, OutOfMemory>
    ensures { IfOk result (λ t. t ≡ Tree.Not tree) }
{
    Ok(Tree::Not(Box::new(alloc, tree)?))
}

fn both(alloc: Global, left: Tree, right: Tree) -> Result<Tree, OutOfMemory>
    ensures { IfOk result (λ t. t ≡ Tree.All (left ∷ right ∷ [])) }
{
    let mut trees = Trees::new(alloc);
    trees.push(left)?;
    trees.push(right)?;
    Ok(Tree::All(trees))
}

#[test]
fn trees_are_made(rt: HostRuntime) -> Result<(), Fail> {
    let leaf = Tree::Leaf(Value::Int(1));
    let text = Tree::Leaf(Value::Text(Word::of(rt.alloc(), "x")?));
    let tree = both(rt.alloc(), not(rt.alloc(), leaf)?, text)?;
    match tree {
        Tree::All(trees) => {
            assert_eq!(rt; trees.len(), 2);
            assert!(rt; matches!(trees.items(), [Tree::Not(_), Tree::Leaf(Value::Text(_))]));
        }
        _ => assert!(rt; false, "a list of two"),
    }
    Ok(())
}

#[test]
fn names_are_read(rt: HostRuntime) -> Result<(), Fail> {
    let longest = "a23456789012345678901234567890123456789012345678901234567890123";
    for text in ["a", "_", "A_b9", "SELECT", longest] {
        assert!(rt; Name::read(rt.alloc(), text).is_ok(), "{text}");
    }
    let longer = "a234567890123456789012345678901234567890123456789012345678901234";
    for text in ["", "9a", "a-b", "a b", "é", "a\0", longer] {
        assert!(rt;
            matches!(Name::read(rt.alloc(), text), Err(NameFault::BadName)),
            "{text}"
        );
    }
    Ok(())
}

/// Values of which each is before the next.
fn rising(alloc: Global) -> Result<Sequence<Value>, OutOfMemory> {
    let mut rising = Sequence::new(alloc);
    for number in [i64::MIN, -1, 0, 9, 10, i64::MAX] {
        rising.push(Value::Int(number))?;
    }
    for text in ["", "10", "9", "A", "a", "aa", "b", "é"] {
        rising.push(Value::Text(Word::of(alloc, text)?))?;
    }
    Ok(rising)
}

#[test]
fn values_are_ordered(rt: HostRuntime) -> Result<(), Fail> {
    let rising = rising(rt.alloc())?;
    for (i, a) in rising.items().iter().enumerate() {
        for (j, b) in rising.items().iter().enumerate() {
            assert_eq!(rt; a.compare(b), i.cmp(&j), "{a:?} and {b:?}");
        }
        is_its_copy(&rt, rt.alloc(), a)?;
    }
    Ok(())
}

fn is_its_copy(rt: &impl Abort, alloc: Global, value: &Value) -> Result<(), OutOfMemory> {
    let copy = value.share()?;
    assert_eq!(rt; value.compare(&copy), Ordering::Equal);
    Ok(())
}

/// One column of numbers.
fn columns_of(alloc: Global, name: &Name) -> Result<Columns, OutOfMemory> {
    let mut columns = Columns::new(alloc);
    columns.push(Column {
        name: name.share()?,
        kind: ValueKind::Int,
    })?;
    Ok(Columns::from_vec(columns.into_vec()))
}

#[test]
fn columns_are_copied(rt: HostRuntime) -> Result<(), Fail> {
    let name = Name::read(rt.alloc(), "ID").ok().ok_or("a name")?;
    let columns = columns_of(rt.alloc(), &name)?;
    for column in columns.items() {
        assert_eq!(rt; column.name.as_str(), "id");
    }
    assert_eq!(rt; columns.len(), 1);
    Ok(())
}

#[test]
fn a_fault_of_a_name_is_told(rt: HostRuntime) -> Result<(), Fail> {
    let told = format!(in rt.alloc(); "{}", NameFault::BadName)?;
    assert_eq!(rt; told.as_str(), "not a name");
    Ok(())
}

#[test]
fn lists_are_copied(rt: HostRuntime) -> Result<(), Fail> {
    let one = Sequence::single(rt.alloc(), 7)?;
    assert!(rt; matches!(one.items(), [7]));
    let copy = one.copy(rt.alloc())?;
    assert!(rt; matches!(copy.items(), [7]));
    Ok(())
}

#[test]
fn lists_are_copied_by_their_items(rt: HostRuntime) -> Result<(), Fail> {
    let texts = texts(rt.alloc())?;
    let again = texts.copy_by(rt.alloc(), |word| word.share())?;
    assert!(rt; matches!(again.items(), [word] if word.as_str() == "x"));
    Ok(())
}

fn texts(alloc: Global) -> Result<Sequence<Word>, OutOfMemory> {
    let word = Word::of(alloc, "x")?;
    Sequence::single(alloc, word)
}

#[test]
fn a_list_has_room(rt: HostRuntime) -> Result<(), Fail> {
    let roomy = Sequence::<u64>::with_capacity(rt.alloc(), 3)?;
    assert!(rt; roomy.is_empty());
    Ok(())
}

#[test]
fn values_are_shared(rt: HostRuntime) -> Result<(), Fail> {
    let shared = seven(rt.alloc())?;
    let other = shared.share()?;
    assert_eq!(rt; shared.get().len(), 1);
    assert!(rt; matches!(other.get().items(), [7]));
    Ok(())
}

/// A shared list of 7 alone.
fn seven(alloc: Global) -> Result<Shared<Sequence<u64>>, OutOfMemory> {
    let one = Sequence::single(alloc, 7)?;
    Shared::new(alloc, one)
}
