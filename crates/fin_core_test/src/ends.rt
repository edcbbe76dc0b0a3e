//! Chunks that add to a vector: its words at the end, worked out by hand.
use fin_events::{Addend, merged_word, word_after};
use std::alloc::Global;
use std::process::Abort;
use std::test::Fail;

/// What chunks add, orders of events that use all of it up, and the vector at the end.
#[derive(Clone, Copy)]
struct Row {
    name: &'static str,
    extent: u32,
    chunks: &'static [&'static [Addend]],
    orders: &'static [&'static [u32]],
    wanted: &'static [i64],
}

const ROWS: [Row; 4] = [
    Row {
        name: "the rows of a matrix",
        extent: 3,
        chunks: &[
            &[Addend { at: 0, value: 5 }, Addend { at: 2, value: 7 }],
            &[Addend { at: 1, value: 9 }],
        ],
        orders: &[&[0, 0, 1], &[1, 0, 0], &[0, 0, 0, 1, 1], &[1, 1, 0, 1, 0]],
        wanted: &[5, 9, 7],
    },
    Row {
        name: "the same, where each coordinate is visited",
        extent: 3,
        chunks: &[
            &[
                Addend { at: 0, value: 5 },
                Addend { at: 1, value: 0 },
                Addend { at: 2, value: 7 },
            ],
            &[
                Addend { at: 0, value: 0 },
                Addend { at: 1, value: 9 },
                Addend { at: 2, value: 0 },
            ],
        ],
        orders: &[&[0, 0, 0, 1, 1, 1], &[1, 0, 1, 0, 1, 0]],
        wanted: &[5, 9, 7],
    },
    Row {
        name: "coordinates that both chunks meet, and one whose sum is the fill",
        extent: 3,
        chunks: &[
            &[
                Addend { at: 0, value: 5 },
                Addend { at: 2, value: 7 },
                Addend { at: 1, value: 4 },
            ],
            &[
                Addend { at: 2, value: -3 },
                Addend { at: 1, value: -4 },
                Addend { at: 0, value: 1 },
            ],
        ],
        orders: &[
            &[0, 0, 0, 1, 1, 1],
            &[1, 0, 1, 0, 1, 0],
            &[1, 1, 1, 0, 0, 0],
        ],
        wanted: &[6, 0, 4],
    },
    Row {
        name: "sums that wrap, and a chunk with nothing",
        extent: 1,
        chunks: &[
            &[Addend {
                at: 0,
                value: i64::MAX,
            }],
            &[],
            &[Addend { at: 0, value: 1 }],
        ],
        orders: &[&[0, 1, 2], &[2, 1, 0]],
        wanted: &[i64::MIN],
    },
];

fn row_ends(rt: &impl Abort, alloc: Global, row: &Row) -> Result<(), Fail> {
    for (at, wanted) in row.wanted.iter().enumerate() {
        let at = at as u64;
        for order in row.orders {
            let word = word_after(alloc, row.extent, row.chunks, order, at)?;
            assert_eq!(rt; word, Some(*wanted), "{} at {at}", row.name);
        }
        let word = merged_word(alloc, row.extent, row.chunks, at)?;
        assert_eq!(rt; word, Some(*wanted), "{} at {at}", row.name);
    }
    Ok(())
}

#[test]
fn chunks_end_alike(rt: HostRuntime) -> Result<(), Fail> {
    for row in &ROWS {
        row_ends(&rt, rt.alloc(), row)?;
    }
    Ok(())
}
