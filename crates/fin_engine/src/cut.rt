//! Cuts a job at the line `%%`.
ghost use Rattle.std.specs.Prelude.{◌≡◌, ◌≢◌, ◌≤◌, ◌^◌, ◌∷◌, ◌++◌, All, drop, length, IfSome, MatchOption};
ghost use Rattle.fin_engine.specs.Cut.{IsCut, IsEndless, IsReached};

const END: &[u8] = b"%%";

/// The two parts of a job, and the number of the line between them.
#[derive(Clone, Copy)]
pub(crate) struct Parts<'a> {
    pub(crate) program: &'a [u8],
    pub(crate) tensors: &'a [u8],
    pub(crate) last: u32,
}

/// The parts of a job, where some line is `%%`.
pub(crate) fn cut(text: &[u8]) -> Option<Parts<'_>>
    requires { length text.now ≤ 2 ^ 24 }
    ensures parts { MatchOption result (IsEndless text.now) (λ p. IsCut text.now p.program.now p.tensors.now p.last) }
    ensures shorter { let most = length text.now in
        IfSome result (λ p. (length p.program.now ≤ most) × (length p.tensors.now ≤ most)) }
{
    let mut at = 0;
    let mut last = 1;
    'lines: loop {
        let rest = &text[at..];
        let Some((line, behind)) = split_at_byte(rest, b'\n') else {
            return cut_at_end(text, at, last);
        };
        if line == END {
            return Some(Parts {
                program: &text[..at],
                tensors: behind,
                last,
            });
        }
        at += line.len() + 1;
        last += 1;
    }
}

// The parts where the last line, which no newline ends, begins here.
fn cut_at_end(text: &[u8], at: usize, last: u32) -> Option<Parts<'_>>
    requires within { at ≤ length text.now }
    requires reached { IsReached text.now at last }
    requires ended { All (λ b. b ≢ 10) (drop at text.now) }
    ensures parts { MatchOption result (IsEndless text.now) (λ p. IsCut text.now p.program.now p.tensors.now p.last) }
    ensures shorter { let most = length text.now in
        IfSome result (λ p. (length p.program.now ≤ most) × (length p.tensors.now ≤ most)) }
{
    if &text[at..] == END {
        Some(Parts {
            program: &text[..at],
            tensors: &[],
            last,
        })
    } else {
        None
    }
}

// What stands before the first such byte, and behind it.
fn split_at_byte(text: &[u8], byte: u8) -> Option<(&[u8], &[u8])>
    ensures { MatchOption result
        (All (λ b. b ≢ byte) text.now)
        (λ parts. (text.now ≡ parts.0.now ++ byte ∷ parts.1.now) × All (λ b. b ≢ byte) parts.0.now) }
{
    let end = text.iter().position(|b| *b == byte)?;
    Some((&text[..end], &text[end + 1..]))
}
