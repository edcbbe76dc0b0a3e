//! Texts of numbers and tensors.
use crate::lists::list;
use fin_base::Fail::Refused;
use fin_base::Rule;
use fin_ports::MemSink;
use fin_tensor::{Draft, Format, Level, Part, Wrap};
use fin_text::{read_size, read_sizes, read_tensors, read_value, read_values, write_tensor};
use std::test::Fail;

#[test]
fn reads_one_spelling_of_a_number(rt: HostRuntime) {
    let values: [(&[u8], Option<i64>); 12] = [
        (b"0", Some(0)),
        (b"-1", Some(-1)),
        (b"9223372036854775807", Some(i64::MAX)),
        (b"-9223372036854775808", Some(i64::MIN)),
        (b"9223372036854775808", None),
        (b"-9223372036854775809", None),
        (b"18446744073709551617", None),
        (b"-0", None),
        (b"007", None),
        (b"+7", None),
        (b"-", None),
        (b"", None),
    ];
    for (word, want) in values {
        assert_eq!(rt; read_value(word), want, "at {word:?}");
    }
    assert_eq!(rt; read_size(b"1099511627776"), Some(1 << 40));
    assert_eq!(rt; read_size(b"1099511627777"), None);
}

#[test]
fn writes_a_vector_and_reads_its_values(rt: HostRuntime) -> Result<(), Fail> {
    let alloc = rt.alloc();
    let mut sink = MemSink::new(alloc, 100, 16, Vec::new(alloc))?;
    let format = Format {
        levels: list(alloc, &[Level::List])?,
        wrap: Wrap::Bare,
        fill: 0,
    };
    let draft = Draft::new(alloc, format, list(alloc, &[6])?);
    let (ptr, idx) = ([0, 2], [2, 4]);
    assert!(rt; draft.is_ptr(&ptr));
    assert!(rt; draft.is_idx(&ptr, &idx));
    let ptr = list(alloc, &ptr)?;
    let idx = list(alloc, &idx)?;
    let draft = draft.with(Part::Keys { ptr, idx })?;
    let val = [5, -7];
    assert!(rt; draft.is_val(&val));
    let storage = draft.finish(list(alloc, &val)?);
    assert!(rt; write_tensor(alloc, &mut sink, &list(alloc, b"y")?, &storage).is_ok());
    let text: &[u8] =
        b"tensor y\nformat list element\nfill 0\nshape 6\nptr 0 0 2\nidx 0 2 4\nval 5 -7\nend\n";
    assert_eq!(rt; sink.taken(), text);
    let values = read_values(alloc, b" 5 -7")?;
    assert!(rt; values.is_some_and(|values| values.as_slice() == val.as_slice()));
    assert!(rt; read_values(alloc, b" 5  0")?.is_none());
    assert!(rt; read_sizes(alloc, b" 3 -7")?.is_none());
    Ok(())
}

#[test]
fn reads_and_writes_tensors_unchanged(rt: HostRuntime) -> Result<(), Fail> {
    let alloc = rt.alloc();
    let texts: [&[u8]; 8] = [
        b"tensor A\nformat dense list element\nfill -1\nshape 2 3\nptr 1 0 2 3\nidx 1 0 2 1\nval 5 0 -7\nend\n",
        b"tensor y\nformat dense element\nfill 0\nshape 2\nval 26 18\nend\n",
        b"tensor B\nformat dense list element\nfill 0\nshape 0 3\nptr 1 0\nidx 1\nval\nend\n",
        b"tensor B\nformat dense list element\nfill 0\nshape 1 3\nptr 1 0 1\nidx 1 2\nval 4\nend\n",
        b"tensor h\nformat dense element\nfill 0\nshape 3\nval 5 9 7\nend\n",
        b"tensor h\nformat dict element\nfill 0\nshape 3\nptr 0 0 3\nidx 0 0 1 2\nval 5 9 7\nend\n",
        b"tensor b\nformat band element\nfill 0\nshape 6\nptr 0 0 3\nstart 0 2\nval 4 0 5\nend\n",
        b"tensor r\nformat runs element\nfill 0\nshape 6\nptr 0 0 5\nstop 0 2 3 4 5 6\nval 0 4 0 5 0\nend\n",
    ];
    for text in texts {
        let given = read_tensors(alloc, text, 4)?;
        let mut sink = MemSink::new(alloc, 200, 16, Vec::new(alloc))?;
        for (name, tensor) in &given {
            assert_eq!(rt; tensor.line, 4);
            assert!(rt; write_tensor(alloc, &mut sink, name, &tensor.storage).is_ok());
        }
        assert_eq!(rt; sink.taken(), text);
    }
    Ok(())
}

#[test]
fn refuses_the_first_bad_line(rt: HostRuntime) {
    let alloc = rt.alloc();
    let texts: [(&[u8], Rule, u32); 10] = [
        (b"\n# a\ntensors A\n", Rule::X1, 3),
        (b"tensor A\nformat list list elements\n", Rule::X1, 2),
        (b"tensor A\nformat runs list element\n", Rule::X1, 2),
        (b"tensor A\nformat element\nfill -0\n", Rule::X2, 3),
        (b"tensor A\nformat element\nshape\n", Rule::X3, 3),
        (b"tensor A\nformat element", Rule::X3, 2),
        (
            b"tensor A\nformat list element\nfill 0\nshape 3\nptr 1 0 2\n",
            Rule::X3,
            5,
        ),
        (
            b"tensor A\nformat list element\nfill 0\nshape 3\nptr 0 0 2\nidx 0 1 1\n",
            Rule::X4,
            6,
        ),
        (
            b"tensor A\nformat runs element\nfill 0\nshape 3\nptr 0 0 2\nstop 0 1 2\n",
            Rule::X4,
            6,
        ),
        (
            b"tensor A\nformat element\nfill 0\nshape\nval 1\nend\ntensor A\n",
            Rule::X5,
            7,
        ),
    ];
    for (text, rule, line) in texts {
        let refused =
            matches!(read_tensors(alloc, text, 1), Err(Refused(at)) if at.rule == rule && at.line == line);
        assert!(rt; refused, "at {text:?}");
    }
}
