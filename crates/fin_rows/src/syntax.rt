//! Programs by the grammar, the limits of nesting, and the rules on names, formats and fills.
use crate::verdict::checks_as;
use std::test::Fail;

// What is no breach of syntax is looked at by the rules behind it.
const OF_THE_GRAMMAR: [(&[u8], &[u8]); 8] = [
    (b"", b"ok\n"),
    (b"out s element\ns .= 0\ns[] += 1", b"ok\n"),
    (
        b"in A dense list element\nout y dense element fill -9223372036854775808 shape 3\npar i { for j in 0..3 { y[i] += A[i, gallop(j)] * x[~(i+j-1)] } }",
        b"refused N1 line 3\n",
    ),
    (b"s[] = 1 + -9223372036854775808", b"refused N1 line 1\n"),
    (b"s[] = - - 9223372036854775808", b"refused N1 line 1\n"),
    (
        b"s[] = min(1, max(2, 3)) == x[] * 2",
        b"refused N1 line 1\n",
    ),
    (
        b"x[i-1,2] += y[~(2),walk(~(i+1)),k+0]",
        b"refused N1 line 1\n",
    ),
    (
        b"if x { let y = 2 { freeze s } } thaw s { }",
        b"refused N1 line 1\n",
    ),
];

// The first token with which no text of the grammar goes on.
const NO_TEXT_GOES_ON: [(&[u8], &[u8]); 15] = [
    (b"out s element\ns[ += 1", b"refused S2 line 2\n"),
    (b"in A element\nshape 3", b"refused S2 line 2\n"),
    (b"s[] = 1 -\n9223372036854775808", b"refused S2 line 2\n"),
    (b"s[] = 1 < 2\n< 3", b"refused S2 line 2\n"),
    (
        b"if x { let y = 2 { freeze s } }\n}",
        b"refused S2 line 2\n",
    ),
    (b"for i in 0..3 {\n{", b"refused S2 line 3\n"),
    (b"tmp w runs element fill", b"refused S2 line 2\n"),
    (b"x[i\n+\nj] += 1", b"refused S2 line 3\n"),
    (b"s .= -\n-1", b"refused S2 line 2\n"),
    (b"let x\n== 3 { }", b"refused S2 line 2\n"),
    (b"y[] = (1", b"refused S2 line 2\n"),
    (b"s[] += -x[\n-", b"refused S2 line 2\n"),
    (b"s[] += x[walk(\n2", b"refused S2 line 3\n"),
    (b"s[] += x[i+\ni]", b"refused S2 line 2\n"),
    (b"s[] = 1 s", b"refused S2 line 2\n"),
];

const NAMES_FORMATS_AND_FILLS: [(&[u8], &[u8]); 18] = [
    (
        b"in A dense list element\nout y dense element\ny .= 0\nfor i { for j { y[i] += A[i,walk(j)] * 2 } }",
        b"refused X6 line 1\n",
    ),
    (b"out s element\nout s element", b"refused N2 line 2\n"),
    (
        b"tmp s element\ntmp s element shape 3",
        b"refused N3 line 2\n",
    ),
    (b"tmp s element shape\ns[] += i", b"refused N1 line 2\n"),
    (b"out s element\nfor s {\n}", b"refused N2 line 2\n"),
    (
        b"out s element\nfor i { let\ni = 1 { } }",
        b"refused N2 line 3\n",
    ),
    (
        b"out s element\nlet x = x { s[] += x }",
        b"refused N1 line 2\n",
    ),
    (
        b"out s element\nlet x = 1 { s[] += x }\ns[] += x",
        b"refused N1 line 3\n",
    ),
    (
        b"in a dense element\nout s element\nlet x = 1 { s[] += a[x] }",
        b"refused N1 line 3\n",
    ),
    (
        b"in a dense element\nout s element\nfor i { s[] += a[~(i+\ni)] }",
        b"refused N1 line 4\n",
    ),
    (
        b"in a dense element\nout s element\ns[] +=\na[]",
        b"refused N3 line 4\n",
    ),
    (b"out s runs dense element", b"refused F1 line 1\n"),
    (b"in a dense atomic element", b"refused F1 line 1\n"),
    (b"out s shard list element", b"refused F1 line 1\n"),
    (
        b"out s dense mutex dense element fill 3\ns .= 2",
        b"refused F2 line 2\n",
    ),
    (b"out s element fill -0\ns .= 0", b"ok\n"),
    (
        b"out s dense dense dense dense dense dense dense dense dense element",
        b"refused F1 line 1\n",
    ),
    (
        b"in A dense list element\nout y dense mutex dense element fill -9223372036854775808\nshape 3 9223372036854775807\ntmp\nw_2 shard dict dense element fill 7\ntmp s element shape\nout v dense atomic element fill -0",
        b"refused X6 line 1\n",
    ),
];

#[test]
fn programs_by_the_grammar(rt: HostRuntime) -> Result<(), Fail> {
    for (program, line) in OF_THE_GRAMMAR.iter().chain(&NO_TEXT_GOES_ON) {
        checks_as(&rt, rt.alloc(), &[(program, 1)], line)?;
    }
    Ok(())
}

#[test]
fn names_formats_and_fills(rt: HostRuntime) -> Result<(), Fail> {
    for (program, line) in NAMES_FORMATS_AND_FILLS.iter() {
        checks_as(&rt, rt.alloc(), &[(program, 1)], line)?;
    }
    Ok(())
}

// Programs by their pieces, each repeated.
const NESTED: [(&[(&[u8], usize)], &[u8]); 14] = [
    (
        &[(b"s[] = ", 1), (b"(", 64), (b"1", 1), (b")", 64)],
        b"refused N1 line 1\n",
    ),
    (
        &[(b"s[] = ", 1), (b"(", 64), (b"\n(1", 1), (b")", 65)],
        b"refused S3 line 2\n",
    ),
    (
        &[(b"s[] = ", 1), (b"(", 64), (b"-1", 1), (b")", 64)],
        b"refused N1 line 1\n",
    ),
    (
        &[(b"s[] = ", 1), (b"(", 64), (b"\n-x", 1), (b")", 64)],
        b"refused S3 line 2\n",
    ),
    (
        &[(b"s[] = ", 1), (b"(", 64), (b"\n-\n)", 1)],
        b"refused S3 line 2\n",
    ),
    (
        &[
            (b"s[] = ", 1),
            (b"(", 64),
            (b"-\n9223372036854775808", 1),
            (b")", 64),
        ],
        b"refused N1 line 1\n",
    ),
    (
        &[(b"s[] = ", 1), (b"(", 64), (b"x\n[]", 1), (b")", 64)],
        b"refused S3 line 2\n",
    ),
    (&[(b"for i { ", 16), (b"}", 16)], b"refused N2 line 1\n"),
    (
        &[(b"for i { ", 16), (b"\npar i", 1)],
        b"refused S3 line 2\n",
    ),
    (&[(b"{", 64), (b"if x\n{", 1)], b"refused S3 line 2\n"),
    (
        &[(b"out s element\n", 64), (b"s .= 0", 1)],
        b"refused N2 line 2\n",
    ),
    (&[(b"out s element\n", 65)], b"refused S3 line 65\n"),
    (
        &[(b"out s element\n", 64), (b"s .= 0\nout", 1)],
        b"refused S2 line 66\n",
    ),
    (
        &[(b"out s element\n", 63), (b"out element\n", 2)],
        b"refused S2 line 64\n",
    ),
];

#[test]
fn limits_of_nesting(rt: HostRuntime) -> Result<(), Fail> {
    for (pieces, line) in NESTED.iter() {
        checks_as(&rt, rt.alloc(), pieces, line)?;
    }
    Ok(())
}
