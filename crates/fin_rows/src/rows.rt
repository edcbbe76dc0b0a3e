//! Jobs that run, with what they write and their work.

/// A job, the text of its outputs, and the line of its work.
#[derive(Clone, Copy)]
pub(crate) struct Row {
    pub(crate) job: &'static [u8],
    pub(crate) out: &'static [u8],
    pub(crate) told: &'static [u8],
}

/// A sparse matrix times a vector, whose work is 23.
pub(crate) const TIMES: &[u8] =
    b"in A dense list element\nin x dense element\nout y dense element\ny .= 0\nfor i { for j { y[i] += A[i,j] * x[j] } }\n%%\ntensor A\nformat dense list element\nfill 0\nshape 2 3\nptr 1 0 2 3\nidx 1 0 2 1\nval 5 7 9\nend\ntensor x\nformat dense element\nfill 0\nshape 3\nval 1 2 3\nend\n";

pub(crate) const TIMES_TEXT: &[u8] =
    b"tensor y\nformat dense element\nfill 0\nshape 2\nval 26 18\nend\n";

/// The sum below a diagonal, whose work is 18.
pub(crate) const MASK: &[u8] =
    b"in A dense dense element\nout s element\ns .= 0\nfor i { for j { if j < i { s[] += A[i,j] } } }\n%%\ntensor A\nformat dense dense element\nfill 0\nshape 2 2\nval 1 2 3 4\nend\n";

pub(crate) const MASK_TEXT: &[u8] = b"tensor s\nformat element\nfill 0\nshape\nval 3\nend\n";

pub(crate) const ROWS: [Row; 25] = [
    Row {
        job: TIMES,
        out: TIMES_TEXT,
        told: b"work 30\n",
    },
    // a sum that wraps
    Row {
        job: b"out s element\ns .= 0\ns[] += 9223372036854775807\ns[] += 1\n%%\n",
        out: b"tensor s\nformat element\nfill 0\nshape\nval -9223372036854775808\nend\n",
        told: b"work 6\n",
    },
    // no rows
    Row {
        job: b"in A dense list element\nout B dense list element\nB .= 0\nfor i { for j { B[i,j] += A[i,j] } }\n%%\ntensor A\nformat dense list element\nfill 0\nshape 0 3\nptr 1 0\nidx 1\nval\nend\n",
        out: b"tensor B\nformat dense list element\nfill 0\nshape 0 3\nptr 1 0\nidx 1\nval\nend\n",
        told: b"work 5\n",
    },
    // a stored fill
    Row {
        job: b"in A dense list element\nout B dense list element\nB .= 0\nfor i { for j { B[i,j] += A[i,j] } }\n%%\ntensor A\nformat dense list element\nfill 0\nshape 1 3\nptr 1 0 2\nidx 1 0 2\nval 0 4\nend\n",
        out: b"tensor B\nformat dense list element\nfill 0\nshape 1 3\nptr 1 0 1\nidx 1 2\nval 4\nend\n",
        told: b"work 17\n",
    },
    // gaps count
    Row {
        job: b"in L list element\nout s element fill 100\ns .= 100\nfor i { s[] min= L[i] }\n%%\ntensor L\nformat list element\nfill 0\nshape 4\nptr 0 0 1\nidx 0 2\nval 5\nend\n",
        out: b"tensor s\nformat element\nfill 100\nshape\nval 0\nend\n",
        told: b"work 14\n",
    },
    // an even run
    Row {
        job: b"in R runs element\nout s element\ns .= 0\nfor i { s[] xor= R[i] }\n%%\ntensor R\nformat runs element\nfill 0\nshape 4\nptr 0 0 1\nstop 0 4\nval 6\nend\n",
        out: b"tensor s\nformat element\nfill 0\nshape\nval 0\nend\n",
        told: b"work 10\n",
    },
    // an odd run
    Row {
        job: b"in R runs element\nout s element\ns .= 0\nfor i { s[] xor= R[i] }\n%%\ntensor R\nformat runs element\nfill 0\nshape 5\nptr 0 0 1\nstop 0 5\nval 6\nend\n",
        out: b"tensor s\nformat element\nfill 0\nshape\nval 6\nend\n",
        told: b"work 10\n",
    },
    // a power
    Row {
        job: b"in R runs element\nout s element fill 1\ns .= 1\nfor i { s[] *= R[i] }\n%%\ntensor R\nformat runs element\nfill 0\nshape 5\nptr 0 0 1\nstop 0 5\nval 3\nend\n",
        out: b"tensor s\nformat element\nfill 1\nshape\nval 243\nend\n",
        told: b"work 10\n",
    },
    // a sparse matrix times another
    Row {
        job: b"in A dense list element\nin B dense list element\nout C dense list element\ntmp w dense element\nC .= 0\nfor i {\n  w .= 0\n  for k { for j { w[j] += A[i,k] * B[k,j] } }\n  for j { C[i,j] += w[j] }\n}\n%%\ntensor A\nformat dense list element\nfill 0\nshape 2 2\nptr 1 0 2 3\nidx 1 0 1 1\nval 1 2 3\nend\ntensor B\nformat dense list element\nfill 0\nshape 2 3\nptr 1 0 1 2\nidx 1 1 0\nval 4 5\nend\n",
        out: b"tensor C\nformat dense list element\nfill 0\nshape 2 3\nptr 1 0 2 3\nidx 1 0 1 0\nval 10 4 15\nend\n",
        told: b"work 80\n",
    },
    // neighbours, and the fill outside
    Row {
        job: b"in x dense element\nout y dense element shape 3\ny .= 0\nfor i { for k in 0..3 { y[i] += x[~(i+k-1)] } }\n%%\ntensor x\nformat dense element\nfill 0\nshape 3\nval 1 2 3\nend\n",
        out: b"tensor y\nformat dense element\nfill 0\nshape 3\nval 3 6 5\nend\n",
        told: b"work 35\n",
    },
    // a shift
    Row {
        job: b"in A dense element\nout y dense element shape 3\ny .= 0\nfor i in 0..2 { y[i] += A[i+1] }\n%%\ntensor A\nformat dense element\nfill 0\nshape 3\nval 1 2 3\nend\n",
        out: b"tensor y\nformat dense element\nfill 0\nshape 3\nval 2 3 0\nend\n",
        told: b"work 15\n",
    },
    // frozen and thawed
    Row {
        job: b"out y dense element shape 2\ny .= 0\nfor i { y[i] += 1 }\nfreeze y\nfor i { y[i] += 2 }\n%%\n",
        out: b"tensor y\nformat dense element\nfill 0\nshape 2\nval 3 3\nend\n",
        told: b"work 22\n",
    },
    Row {
        job: MASK,
        out: MASK_TEXT,
        told: b"work 21\n",
    },
    // a block and runs, two outputs
    Row {
        job: b"in x dense element\nout b band element\nout r runs element\nb .= 0\nr .= 0\nfor i { b[i] += x[i] r[i] += x[i] }\n%%\ntensor x\nformat dense element\nfill 0\nshape 6\nval 0 0 4 0 5 0\nend\n",
        out: b"tensor b\nformat band element\nfill 0\nshape 6\nptr 0 0 3\nstart 0 2\nval 4 0 5\nend\ntensor r\nformat runs element\nfill 0\nshape 6\nptr 0 0 5\nstop 0 2 3 4 5 6\nval 0 4 0 5 0\nend\n",
        told: b"work 37\n",
    },
    // a bound value
    Row {
        job: b"in x dense element\nout s element\ns .= 0\nlet v = x[2] { s[] += v * v }\n%%\ntensor x\nformat dense element\nfill 0\nshape 3\nval 1 2 3\nend\n",
        out: b"tensor s\nformat element\nfill 0\nshape\nval 9\nend\n",
        told: b"work 6\n",
    },
    // a variable as value; a read outside; a variable that is bound for a while; tests of numbers
    Row {
        job: b"out y dense element fill 5 shape 3\ny .= 5\nfor i { y[i] += i }\n%%\n",
        out: b"tensor y\nformat dense element\nfill 5\nshape 3\nval 5 6 7\nend\n",
        told: b"work 15\n",
    },
    Row {
        job: b"in x dense element fill 5\nout y dense element fill 5 shape 3\ny .= 5\nfor i { y[i] = x[~(i+1)] }\n%%\ntensor x\nformat dense element\nfill 5\nshape 3\nval 0 1 2\nend\n",
        out: b"tensor y\nformat dense element\nfill 5\nshape 3\nval 1 2 5\nend\n",
        told: b"work 17\n",
    },
    Row {
        job: b"out y dense element fill 5 shape 3\ntmp t element\ny .= 5\nlet i = 9 - 7 { t .= 0 y[0] = i }\ny[1] = 0\n%%\n",
        out: b"tensor y\nformat dense element\nfill 5\nshape 3\nval 2 0 5\nend\n",
        told: b"work 13\n",
    },
    Row {
        job: b"out y dense element fill 5 shape 3\ny .= 5\nif 0 { y[0] = 1 }\nif -1 { y[2] = 1 }\n%%\n",
        out: b"tensor y\nformat dense element\nfill 5\nshape 3\nval 5 5 1\nend\n",
        told: b"work 11\n",
    },
    // every operator, comparison and call
    Row {
        job: b"out y dense element shape 24\ny .= 0\ny[0] = 7 + -3\ny[1] = 7 - -3\ny[2] = 7 * -3\ny[3] = -(7)\ny[4] = min(7, -3)\ny[5] = max(7, -3)\ny[6] = and(7, -3)\ny[7] = or(5, -8)\ny[8] = xor(7, -3)\ny[9] = 3 < 4\ny[10] = 4 < 4\ny[11] = 4 <= 4\ny[12] = 5 <= 4\ny[13] = 5 > 4\ny[14] = 4 > 4\ny[15] = 4 >= 4\ny[16] = 3 >= 4\ny[17] = 4 == 4\ny[18] = 4 == 5\ny[19] = 4 != 5\ny[20] = 4 != 4\ny[21] = 2 + 3 * 4\ny[22] = (2 + 3) * 4\ny[23] = 9 - 4 - 3\n%%\n",
        out: b"tensor y\nformat dense element\nfill 0\nshape 24\nval 4 10 -21 -7 -3 7 5 -3 -6 1 0 1 0 1 0 1 0 1 0 1 0 14 20 2\nend\n",
        told: b"work 74\n",
    },
    // every reduction
    Row {
        job: b"out y dense element fill 6 shape 8\ny .= 6\ny[0] += 3\ny[1] *= 3\ny[2] min= 3\ny[3] max= 3\ny[4] and= 3\ny[5] or= 3\ny[6] xor= 3\ny[7] = 3\n%%\n",
        out: b"tensor y\nformat dense element\nfill 6\nshape 8\nval 9 18 3 6 2 7 5 3\nend\n",
        told: b"work 26\n",
    },
    // every level, read by every protocol and outside its box
    Row {
        job: b"in D dense element\nin L list element\nin R runs element\nin B band element\nin H dict element\nout v dense element\nout w list element\nout x runs element\nout y band element\nout z dict element\nout s dense element shape 5\nv .= 0\nw .= 0\nx .= 0\ny .= 0\nz .= 0\ns .= 0\nfor i { v[i] = D[i] w[i] = L[i] x[i] = R[i] y[i] = B[i] z[i] = H[i] }\nfor i { s[0] += D[i] s[1] += L[walk(i)] s[2] += R[gallop(i)] s[3] += B[follow(i)] s[4] += H[~(i+1)] }\n%%\ntensor D\nformat dense element\nfill 0\nshape 4\nval 0 4 4 0\nend\ntensor L\nformat list element\nfill 0\nshape 4\nptr 0 0 2\nidx 0 1 2\nval 4 4\nend\ntensor R\nformat runs element\nfill 0\nshape 4\nptr 0 0 3\nstop 0 1 3 4\nval 0 4 0\nend\ntensor B\nformat band element\nfill 0\nshape 4\nptr 0 0 2\nstart 0 1\nval 4 4\nend\ntensor H\nformat dict element\nfill 0\nshape 4\nptr 0 0 2\nidx 0 1 2\nval 4 4\nend\n",
        out: b"tensor v\nformat dense element\nfill 0\nshape 4\nval 0 4 4 0\nend\ntensor w\nformat list element\nfill 0\nshape 4\nptr 0 0 2\nidx 0 1 2\nval 4 4\nend\ntensor x\nformat runs element\nfill 0\nshape 4\nptr 0 0 3\nstop 0 1 3 4\nval 0 4 0\nend\ntensor y\nformat band element\nfill 0\nshape 4\nptr 0 0 2\nstart 0 1\nval 4 4\nend\ntensor z\nformat dict element\nfill 0\nshape 4\nptr 0 0 2\nidx 0 1 2\nval 4 4\nend\ntensor s\nformat dense element\nfill 0\nshape 5\nval 8 8 8 8 8\nend\n",
        told: b"work 121\n",
    },
    // every wrap, and the words of statements
    Row {
        job: b"in x dense element\nout a atomic element\nout m dense mutex dense element shape 2 3\nout h shard dict element\ntmp t element\na .= 0\nm .= 0\nh .= 0\nt .= 0\nt[] += 1\nfreeze t\npar i { a[] += x[i] }\npar j in 0..2 { for k in 0..3 { m[j,k] += x[k] } }\npar l { h[l] += x[l] }\nthaw t\nt[] += 1\nlet v = 5 { if v == 5 { if x[0] { a[] += v } } }\nm[0,0] += t[]\n%%\ntensor x\nformat dense element\nfill 0\nshape 3\nval 1 2 3\nend\n",
        out: b"tensor a\nformat element\nfill 0\nshape\nval 11\nend\ntensor m\nformat dense dense element\nfill 0\nshape 2 3\nval 3 2 3 1 2 3\nend\ntensor h\nformat dict element\nfill 0\nshape 3\nptr 0 0 3\nidx 0 0 1 2\nval 1 2 3\nend\n",
        told: b"work 86\n",
    },
    // eight reads that may leave their box
    Row {
        job: b"in x dense element\nin y dense element\nout s element\ns .= 0\nfor i in 0..3 { s[] += x[~(i+1)] + x[~(i-1)] + x[~(i+2)] + y[~(i+1)] + y[~(i-1)] + y[~(i+2)] + y[~(i-2)] + x[~(i-2)] }\n%%\ntensor x\nformat dense element\nfill 0\nshape 6\nval 1 2 3 4 5 6\nend\ntensor y\nformat dense element\nfill 0\nshape 6\nval 4 5 6 7 8 9\nend\n",
        out: b"tensor s\nformat element\nfill 0\nshape\nval 77\nend\n",
        told: b"work 27\n",
    },
    // nothing
    Row {
        job: b"%%\n",
        out: b"",
        told: b"work 0\n",
    },
];

/// A loop over 2^40 coordinates.
pub(crate) const ENDLESS: &[u8] =
    b"in R runs element\nout s element\ns .= 0\nfor i { s[] += R[i] }\n%%\ntensor R\nformat runs element\nfill 0\nshape 1099511627776\nptr 0 0 1\nstop 0 1099511627776\nval 3\nend\n";

/// An output with 65,537 blocks of 2^24 values, made by as many turns.
pub(crate) const LARGE: &[u8] =
    b"out b band dense element shape 1099511627776 16777216\nb .= 0\nfor i in 0..65537 { b[i,0] += 1 }\n%%\n";

/// The same update at 2^40 coordinates.
pub(crate) const SAME: &[u8] =
    b"out s element\ns .= 0\nfor i in 0..1099511627776 { s[] += 3 }\n%%\n";

pub(crate) const SAME_TEXT: &[u8] =
    b"tensor s\nformat element\nfill 0\nshape\nval 3298534883328\nend\n";

pub(crate) const SAME_WORK: &[u8] = b"work 7\n";
