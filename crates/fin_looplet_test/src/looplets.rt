//! Fibres, masks and shifts: what is seen at each coordinate from 0 on.
use fin_look::{Comparison, Fibre, Lists, Made, Place, seen};
use fin_tensor::Level;
use std::alloc::Global;
use std::process::Abort;
use std::test::Fail;

const FILL: i64 = 7;

/// The fill outside of a box.
const OUTSIDE: i64 = 8;

const NONE: Lists<'static> = Lists {
    ptr: &[],
    idx: &[],
    stop: &[],
    start: &[],
    val: &[],
};

// The coordinates 0 and 2 are stored.
const LIST: Lists<'static> = Lists {
    ptr: &[0, 2],
    idx: &[0, 2],
    stop: &[],
    start: &[],
    val: &[5, 6],
};

const BLOCK: Lists<'static> = Lists {
    ptr: &[0, 3],
    idx: &[],
    stop: &[],
    start: &[2],
    val: &[4, 0, 5],
};

const EMPTY_BLOCK: Lists<'static> = Lists {
    ptr: &[0, 0],
    idx: &[],
    stop: &[],
    start: &[2],
    val: &[],
};

const RUNS: Lists<'static> = Lists {
    ptr: &[0, 2],
    idx: &[],
    stop: &[1, 4],
    start: &[],
    val: &[3, 9],
};

const OF_LIST: Fibre = Fibre {
    level: Level::List,
    extent: 4,
    fill: FILL,
};

const OF_DICT: Fibre = Fibre {
    level: Level::Dict,
    extent: 4,
    fill: FILL,
};

const OF_BAND: Fibre = Fibre {
    level: Level::Band,
    extent: 6,
    fill: FILL,
};

const OF_EMPTY: Fibre = Fibre {
    level: Level::Band,
    extent: 3,
    fill: FILL,
};

const OF_RUNS: Fibre = Fibre {
    level: Level::Runs,
    extent: 4,
    fill: FILL,
};

const OF_DENSE: Fibre = Fibre {
    level: Level::Dense,
    extent: 2,
    fill: FILL,
};

/// A looplet over lists, and what is seen of it.
#[derive(Clone, Copy)]
struct Row {
    name: &'static str,
    made: Made,
    lists: Lists<'static>,
    wanted: &'static [i64],
}

const ROWS: [Row; 16] = [
    Row {
        name: "a list's fibre",
        made: Made::Fibre(OF_LIST),
        lists: LIST,
        wanted: &[5, FILL, 6, FILL],
    },
    Row {
        name: "a fibre that isn't there",
        made: Made::Absent(OF_DICT),
        lists: LIST,
        wanted: &[FILL, FILL, FILL, FILL],
    },
    Row {
        name: "a band's block",
        made: Made::Fibre(OF_BAND),
        lists: BLOCK,
        wanted: &[FILL, FILL, 4, 0, 5, FILL],
    },
    Row {
        name: "a band's empty block",
        made: Made::Fibre(OF_EMPTY),
        lists: EMPTY_BLOCK,
        wanted: &[FILL, FILL, FILL],
    },
    Row {
        name: "two runs",
        made: Made::Fibre(OF_RUNS),
        lists: RUNS,
        wanted: &[3, 9, 9, 9],
    },
    Row {
        name: "a dense fibre",
        made: Made::Fibre(OF_DENSE),
        lists: LIST,
        wanted: &[5, 6],
    },
    Row {
        name: "less than 1",
        made: Made::Mask(Comparison::Less, 1),
        lists: NONE,
        wanted: &[1, 0, 0, 0],
    },
    Row {
        name: "at most 1",
        made: Made::Mask(Comparison::AtMost, 1),
        lists: NONE,
        wanted: &[1, 1, 0, 0],
    },
    Row {
        name: "equal to 2",
        made: Made::Mask(Comparison::Equal, 2),
        lists: NONE,
        wanted: &[0, 0, 1, 0],
    },
    Row {
        name: "other than 2",
        made: Made::Mask(Comparison::Other, 2),
        lists: NONE,
        wanted: &[1, 1, 0, 1],
    },
    Row {
        name: "at least the greatest word",
        made: Made::Mask(Comparison::AtLeast, i64::MAX),
        lists: NONE,
        wanted: &[0, 0, 0, 0],
    },
    Row {
        name: "more than the least word",
        made: Made::Mask(Comparison::More, i64::MIN),
        lists: NONE,
        wanted: &[1, 1, 1, 1],
    },
    Row {
        name: "a list's fibre one up, in its box",
        made: Made::Boxed(OF_LIST, 1, OUTSIDE),
        lists: LIST,
        wanted: &[OUTSIDE, 5, FILL, 6, FILL, OUTSIDE],
    },
    Row {
        name: "two down, in its box",
        made: Made::Boxed(OF_LIST, -2, OUTSIDE),
        lists: LIST,
        wanted: &[6, FILL, OUTSIDE, OUTSIDE],
    },
    Row {
        name: "out of sight",
        made: Made::Boxed(OF_LIST, i64::MIN, OUTSIDE),
        lists: LIST,
        wanted: &[OUTSIDE, OUTSIDE],
    },
    Row {
        name: "one down, with no box",
        made: Made::Moved(OF_LIST, -1),
        lists: LIST,
        wanted: &[FILL, 6, FILL],
    },
];

fn row_is_seen(rt: &impl Abort, alloc: Global, row: &Row) -> Result<(), Fail> {
    for (at, value) in row.wanted.iter().enumerate() {
        let place = Place {
            at: at as i64,
            end: row.wanted.len() as i64,
        };
        let seen = seen(alloc, row.made, &row.lists, place)?;
        assert_eq!(rt; seen, *value, "{} at {at}", row.name);
    }
    Ok(())
}

#[test]
fn looplets_show_what_is_stored(rt: HostRuntime) -> Result<(), Fail> {
    for row in &ROWS {
        row_is_seen(&rt, rt.alloc(), row)?;
    }
    Ok(())
}
