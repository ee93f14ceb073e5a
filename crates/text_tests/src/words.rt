use sdmp_words::{Settings, WordsFault, read_words};
use std::alloc::Global;
use std::test::Fail;

fn set(workers: u32, places: u32, demo: Option<u64>) -> Option<Settings> {
    Some(Settings {
        workers,
        places,
        demo,
    })
}

// None stands for words that aren't accepted
fn read(alloc: Global, line: &str) -> Result<Option<Settings>, Fail> {
    let mut words = Vec::new(alloc);
    for word in line.split_whitespace() {
        words.push(String::from_str(alloc, word)?)?;
    }
    match read_words(alloc, &words) {
        Ok(settings) => Ok(Some(settings)),
        Err(WordsFault::BadWords) => Ok(None),
        Err(WordsFault::NoMemory) => Err("no memory")?,
    }
}

#[test]
fn reads_words(rt: HostRuntime) -> Result<(), Fail> {
    let rows = [
        ("", set(4, 1024, None)),
        ("--workers=3", set(3, 1024, None)),
        ("--places 2 --workers 064", set(64, 2, None)),
        ("--demo 18446744073709551615", set(4, 1024, Some(u64::MAX))),
        ("--demo=00000000000000000007", set(4, 1024, Some(7))),
        ("--demo=000000000000000000007", None),
        ("--demo 18446744073709551616", None),
        ("--workers 4 --workers 4", None),
        ("--workers", None),
        ("--workers=", None),
        ("--workers +4", None),
        ("--workers 65", None),
        ("--workers 0", None),
        ("--workers --places 2", None),
        ("--places 1", None),
        ("--places 65537", None),
        ("--help", None),
        ("--version", None),
        ("-w 4", None),
        ("--", None),
        ("file", None),
    ];
    for (line, wanted) in rows {
        assert_eq!(rt; read(rt.alloc(), line)?, wanted, "{line}");
    }
    Ok(())
}
