// The words behind `project`, and behind `check` and `closures`.
use super::{GIBI, words_of};
use ifdb_words::{limit_in, project_in};
use std::alloc::AllocGlobal;
use std::test::Fail;

/// The limit and the tags that the words behind `project` ask for, if they are well formed: the limit, and then the tags.
fn projected<T: AllocGlobal>(rt: &T, line: &str) -> Result<Option<Vec<u64>>, Fail> {
    let words = words_of(rt.alloc(), line)?;
    let Some(project) = project_in(rt.alloc(), &words)? else {
        return Ok(None);
    };
    let mut numbers = Vec::from_slice(rt.alloc(), &[project.limit])?;
    for tag in project.level.tags() {
        numbers.push(tag.0)?;
    }
    Ok(Some(numbers))
}

#[test]
fn words_behind_project(rt: HostRuntime) -> Result<(), Fail> {
    static TABLE: [(&str, &[u64]); 8] = [
        ("--tags none", &[GIBI]),
        ("--tags=none --limit 7", &[7]),
        ("--limit=7 --tags 0", &[7, 0]),
        ("--tags 3,1,3", &[GIBI, 3, 1, 3]),
        ("--tags=0,1 --limit=1099511627776", &[1 << 40, 0, 1]),
        ("--tags 000000000000000009", &[GIBI, 9]),
        (
            "--tags 999999999999999999,0",
            &[GIBI, 999_999_999_999_999_999, 0],
        ),
        (
            "--tags 0,1,2,3,4,5,6,7,8,9,0,1,2,3,4,5,6,7,8,9,0,1,2,3,4,5,6,7,8,9,0,1,2,3,4,5,6,7,8,9,0,1,2,3,4,5,6,7,8,9,\
                0,1,2,3,4,5,6,7,8,9,0,1,2,3",
            &[
                GIBI, 0, 1, 2, 3, 4, 5, 6, 7, 8, 9, 0, 1, 2, 3, 4, 5, 6, 7, 8, 9, 0, 1, 2, 3, 4, 5,
                6, 7, 8, 9, 0, 1, 2, 3, 4, 5, 6, 7, 8, 9, 0, 1, 2, 3, 4, 5, 6, 7, 8, 9, 0, 1, 2, 3,
                4, 5, 6, 7, 8, 9, 0, 1, 2, 3,
            ],
        ),
    ];
    for (line, wanted) in &TABLE {
        let found = projected(&rt, line)?;
        assert_eq!(rt; found.as_deref(), Some(*wanted), "{line}");
    }
    Ok(())
}

#[test]
fn words_that_project_refuses(rt: HostRuntime) -> Result<(), Fail> {
    static TABLE: [&str; 21] = [
        "",
        "none",
        "--tags",
        "--tags=",
        "--tags ,",
        "--tags 1,",
        "--tags ,1",
        "--tags 1,,2",
        "--tags 1, 2",
        "--tags None",
        "--tags none,1",
        "--tags 1,none",
        "--tags -1",
        "--tags +1",
        "--tags a",
        "--tags 0000000000000000001",
        "--tags none --tags none",
        "--tags none --limit 0",
        "--tags none --limit 1099511627777",
        "--limit 1",
        "--tags 0,1,2,3,4,5,6,7,8,9,0,1,2,3,4,5,6,7,8,9,0,1,2,3,4,5,6,7,8,9,0,1,2,3,4,5,6,7,8,9,0,1,2,3,4,5,6,7,8,9,\
            0,1,2,3,4,5,6,7,8,9,0,1,2,3,4",
    ];
    for line in &TABLE {
        let found = projected(&rt, line)?;
        assert!(rt; found.is_none(), "{line}");
    }
    Ok(())
}

#[test]
fn words_behind_check(rt: HostRuntime) -> Result<(), Fail> {
    static TABLE: [(&str, Option<u64>); 5] = [
        ("", Some(GIBI)),
        ("--limit 7", Some(7)),
        ("--limit=0", None),
        ("--tags none", None),
        ("now", None),
    ];
    for (line, wanted) in &TABLE {
        let words = words_of(rt.alloc(), line)?;
        assert_eq!(rt; limit_in(rt.alloc(), &words)?, *wanted, "{line}");
    }
    Ok(())
}
