//! Words of the command line.
use fin_words::{Asked, Mode, asks_workers, reading};
use std::alloc::{AllocError, Global};
use std::test::Fail;

const RUN: Asked = Asked {
    mode: Mode::Run,
    workers: 1,
    budget: 4_294_967_296,
    stats: false,
    seed: 1,
    size: 10,
};

fn split(alloc: Global, line: &str) -> Result<Vec<String>, AllocError> {
    let mut words = Vec::new(alloc);
    for word in line.split(' ') {
        words.push(String::from_str(alloc, word)?)?;
    }
    Ok(words)
}

#[test]
fn reads_the_words_of_the_command(rt: HostRuntime) -> Result<(), Fail> {
    let cases = [
        ("finch run", Some(RUN)),
        (
            "finch check",
            Some(Asked {
                mode: Mode::Check,
                ..RUN
            }),
        ),
        (
            "finch plain",
            Some(Asked {
                mode: Mode::Plain,
                ..RUN
            }),
        ),
        (
            "finch --seed 9223372036854775807 gen --size 16",
            Some(Asked {
                mode: Mode::Gen,
                seed: (1 << 63) - 1,
                size: 16,
                ..RUN
            }),
        ),
        (
            "finch run --workers=64 --budget 1099511627776 --stats",
            Some(Asked {
                workers: 64,
                budget: 1 << 40,
                stats: true,
                ..RUN
            }),
        ),
        ("finch", None),
        ("finch fly", None),
        ("finch run check", None),
        ("finch run --workers 0", None),
        ("finch run --workers 65", None),
        ("finch run --workers two", None),
        ("finch run --workers", None),
        ("finch run --budget 0", None),
        ("finch run --budget 1099511627777", None),
        ("finch run --seed 9223372036854775808", None),
        ("finch gen --size 2", None),
        ("finch gen --size 17", None),
        ("finch run --stats --stats", None),
        ("finch run --size 3 --size 4", None),
        ("finch run --stats=true", None),
        ("finch run --help", None),
        ("finch run --version", None),
    ];
    for (line, want) in cases {
        let words = split(rt.alloc(), line)?;
        assert_eq!(rt; reading(rt.alloc(), &words)?, want, "at {line}");
        let shared = want.is_some_and(|asked| asked.workers > 1);
        assert_eq!(rt; asks_workers(rt.alloc(), &words)?, shared, "at {line}");
    }
    Ok(())
}
