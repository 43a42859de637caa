//! The kernels of the folder examples/gallery: what each makes of its input, without a configuration and with the one that `tune` writes.
use crate::run::End::Done;
use crate::run::{Rows, all_hold};
use std::test::Fail;

const PRODUCT: &str =
    "/* The matrix product: each cell is a row of A times a column of B, or the upper and the lower half of the product are made by a call
   each, which don't wait for each other. */
transform Product from A[c,h], B[w,c] to P[w,h] {
  to (P.cell(x,y) p) from (A.row(y) a, B.column(x) b) { p = dot(a, b); }
  to (P.region(0,0,w,h/2) p, P.region(0,h/2,w,h) q) from (A.region(0,0,c,h/2) a1, A.region(0,h/2,c,h) a2, B b) where h >= 2 {
    p = Product(a1, b);
    q = Product(a2, b);
  }
}
";

const SUMMED_AREA: &str =
    "/* The summed-area table: S(x,y) is the sum of A over the rectangle from (0,0) to (x,y). The whole rectangle is added up again for each
   cell, or a cell is made from three neighbours; the edges have the first way alone. */
transform SummedArea from A[w,h] to S[w,h] {
  to (S.cell(x,y) s) from (A.region(0,0,x+1,y+1) a) { s = sum(a); }
  to (S.cell(x,y) s) from (A.cell(x,y) a, S.cell(x-1,y) left, S.cell(x,y-1) up, S.cell(x-1,y-1) corner) {
    s = a + left + up - corner;
  }
}
";

const STENCIL3: &str =
    "/* Heat along a rod: row y of H is the rod after y steps. A cell is the mean of the three cells around it a step before, and of two
   at an end, plus what F adds at that step. Row 0 is A with what F adds at first. There is nothing to choose: where the rule for the
   middle can be used it is. */
transform Stencil3 where n >= 2 from A[n], F[t] to H[n,t] {
  to (H.cell(x,y) c) from (H.cell(x-1,y-1) l, H.cell(x,y-1) m, H.cell(x+1,y-1) r, F.cell(y) f) { c = (l + m + r) / 3 + f; }
  secondary to (H.cell(x,y) c) from (H.cell(x,y-1) m, H.cell(x+1,y-1) r, F.cell(y) f) where x < 1 { c = (m + r) / 2 + f; }
  secondary to (H.cell(x,y) c) from (H.cell(x-1,y-1) l, H.cell(x,y-1) m, F.cell(y) f) where x >= n-1 { c = (l + m) / 2 + f; }
  secondary to (H.cell(x,y) c) from (A.cell(x) a, F.cell(y) f) where y < 1 { c = a + f; }
}
";

const STENCIL5: &str =
    "/* Three steps of a five-point stencil over a plate: a cell becomes the mean of itself and its four neighbours, and a cell of the edge
   stays. There is nothing to choose. */
transform Stencil5 where w >= 2, h >= 2 from A[w,h] through B[w,h], C[w,h] to D[w,h] {
  to (B.cell(x,y) b) from (A.cell(x,y) m, A.cell(x-1,y) l, A.cell(x+1,y) r, A.cell(x,y-1) u, A.cell(x,y+1) d) {
    b = (m + l + r + u + d) / 5;
  }
  secondary to (B.cell(x,y) b) from (A.cell(x,y) m) { b = m; }
  to (C.cell(x,y) c) from (B.cell(x,y) m, B.cell(x-1,y) l, B.cell(x+1,y) r, B.cell(x,y-1) u, B.cell(x,y+1) d) {
    c = (m + l + r + u + d) / 5;
  }
  secondary to (C.cell(x,y) c) from (B.cell(x,y) m) { c = m; }
  to (D.cell(x,y) e) from (C.cell(x,y) m, C.cell(x-1,y) l, C.cell(x+1,y) r, C.cell(x,y-1) u, C.cell(x,y+1) d) {
    e = (m + l + r + u + d) / 5;
  }
  secondary to (D.cell(x,y) e) from (C.cell(x,y) m) { e = m; }
}
";

const CONVOLUTION: &str =
    "/* One-dimensional convolution with a kernel of five cells, where what lies outside A counts as 0. In the middle a cell is a dot product
   of five cells of A with the kernel, or it looks through all of A as the cells near the ends must. */
transform Convolve where n >= 4 from A[n], K[5] to C[n] {
  to (C.cell(i) c) from (A a, K k) {
    for (j = 0 .. 5) {
      if (i + j >= 2 && i + j < n + 2) { c = c + a.cell(i + j - 2) * k.cell(j); }
    }
  }
  to (C.cell(i) c) from (A.region(i-2, i+3) a, K k) { c = dot(a, k); }
}
";

const SUBSEQUENCE: &str =
    "/* The longest common subsequence: L(x,y) is the length of the longest one of the first x cells of A and the first y of B, so the last
   cell is that of both. There is nothing to choose; all cells of a diagonal could be made at once. */
transform CommonSubsequence from A[n], B[m] to L[n+1,m+1] {
  to (L.cell(x,y) l) from (A.cell(x-1) a, B.cell(y-1) b, L.cell(x-1,y-1) both, L.cell(x-1,y) left, L.cell(x,y-1) up) {
    if (a == b) { l = both + 1; } else { l = max(left, up); }
  }
  secondary to (L.cell(x,y) l) from () { l = 0; }
}
";

const EDIT_DISTANCE: &str =
    "/* The edit distance: D(x,y) is how many cells must be put in, taken out or changed to make the first y cells of B of the first x of A, so
   the last cell is that of both. There is nothing to choose. */
transform EditDistance from A[n], B[m] to D[n+1,m+1] {
  to (D.cell(x,y) d) from (A.cell(x-1) a, B.cell(y-1) b, D.cell(x-1,y-1) both, D.cell(x-1,y) left, D.cell(x,y-1) up) {
    if (a == b) { d = both; } else { d = 1 + min(both, min(left, up)); }
  }
  secondary to (D.cell(x,y) d) from () { d = x + y; }
}
";

const LEAST: &str =
    "/* The least cell of A: in one pass, or the lesser of the least cells of both halves, which don't wait for each other. */
transform Lesser from A[n], B[n] to C[n] {
  to (C.cell(i) c) from (A.cell(i) a, B.cell(i) b) { c = min(a, b); }
}
transform Least from A[n] to M[1] {
  to (M m) from (A a) {
    let least = a.cell(0);
    for (i = 1 .. n) { least = min(least, a.cell(i)); }
    m.cell(0) = least;
  }
  to (M m) from (A.region(0, n/2) a, A.region(n/2, n) b) where n >= 2 {
    let p[1]; let q[1];
    p = Least(a);
    q = Least(b);
    m = Lesser(p, q);
  }
}
";

const TRANSPOSE: &str =
    "/* The transpose of A: cell by cell, or by quarters, each transposed by a call, until they fit into what is near. */
transform Transpose from A[w,h] to B[h,w] {
  to (B.cell(x,y) b) from (A.cell(y,x) a) { b = a; }
  to (B.region(0,0,h/2,w/2) p, B.region(h/2,0,h,w/2) q, B.region(0,w/2,h/2,w) r, B.region(h/2,w/2,h,w) s)
  from (A.region(0,0,w/2,h/2) a, A.region(0,h/2,w/2,h) b, A.region(w/2,0,w,h/2) c, A.region(w/2,h/2,w,h) d)
  where w >= 2, h >= 2 {
    p = Transpose(a);
    q = Transpose(b);
    r = Transpose(c);
    s = Transpose(d);
  }
}
";

const POLYNOMIAL: &str =
    "/* The product of two polynomials, given by their coefficients from the constant on: each coefficient by a pass over both, or the
   lower and the upper half of A times B, laid over one another. */
transform Overlap from S[s], R[r], B[m], P[s+m-1], Q[r+m-1] to C[s+r+m-1] {
  to (C.cell(i) c) from (P.cell(i) p, Q.cell(i-s) q) { c = p + q; }
  secondary to (C.cell(i) c) from (P.cell(i) p) { c = p; }
  secondary to (C.cell(i) c) from (Q.cell(i-s) q) { c = q; }
}
transform Multiply from A[n], B[m] to C[n+m-1] {
  to (C.cell(i) c) from (A a, B b) {
    for (j = max(0, i - m + 1) .. min(n, i + 1)) { c = c + a.cell(j) * b.cell(i - j); }
  }
  to (C c) from (A.region(0, n/2) a1, A.region(n/2, n) a2, B b) where n >= 2 {
    let p[n/2+m-1]; let q[n-n/2+m-1];
    p = Multiply(a1, b);
    q = Multiply(a2, b);
    c = Overlap(a1, a2, b, p, q);
  }
}
";

const RUNNING: &str =
    "/* The running sum and the running minimum of A: each from all cells up to a place, or by one step from the place before it. */
transform Running from A[n] to S[n], M[n] {
  to (S.cell(i) s) from (A.region(0, i+1) a) { s = sum(a); }
  to (S.cell(i) s) from (A.cell(i) a, S.cell(i-1) before) { s = before + a; }
  to (M.cell(i) m) from (A.region(0, i+1) a) {
    m = a.cell(0);
    for (j = 1 .. i + 1) { m = min(m, a.cell(j)); }
  }
  to (M.cell(i) m) from (A.cell(i) a, M.cell(i-1) before) { m = min(before, a); }
}
";

const ROWS: Rows = &[
    (
        "run --pool serial p - Product a b",
        &[
            ("p", PRODUCT),
            ("a", "matrix 3 4\n1 2 3\n4 5 6\n7 8 9\n1 0 2\n"),
            ("b", "matrix 2 3\n1 2\n3 4\n5 6\n"),
        ],
        Done("matrix 2 4\n22 28\n49 64\n76 100\n11 14\n"),
    ),
    (
        "run --pool serial p - SummedArea a",
        &[
            ("p", SUMMED_AREA),
            ("a", "matrix 4 3\n1 2 3 4\n5 6 7 8\n9 10 11 12\n"),
        ],
        Done("matrix 4 3\n1 3 6 10\n6 14 24 36\n15 33 54 78\n"),
    ),
    (
        "run --pool serial p - Stencil3 a b",
        &[
            ("p", STENCIL3),
            ("a", "matrix 6\n0 0 90 0 0 30\n"),
            ("b", "matrix 4\n0 3 0 6\n"),
        ],
        Done("matrix 6 4\n0 0 90 0 0 30\n3 33 33 33 13 18\n18 23 33 26 21 15\n26 30 33 32 26 24\n"),
    ),
    (
        "run --pool serial p - Stencil5 a",
        &[
            ("p", STENCIL5),
            (
                "a",
                "matrix 5 5\n100 100 100 100 100\n100 0 0 0 100\n100 0 0 0 100\n100 0 0 0 100\n100 100 100 100 100\n",
            ),
        ],
        Done(
            "matrix 5 5\n100 100 100 100 100\n100 67 53 67 100\n100 53 35 53 100\n100 67 53 67 100\n100 100 100 100 100\n",
        ),
    ),
    (
        "run --pool serial p - Convolve a b",
        &[
            ("p", CONVOLUTION),
            ("a", "matrix 8\n1 2 3 4 5 6 7 8\n"),
            ("b", "matrix 5\n1 2 4 2 1\n"),
        ],
        Done("matrix 8\n11 20 30 40 50 60 61 52\n"),
    ),
    (
        "run --pool serial p - CommonSubsequence a b",
        &[
            ("p", SUBSEQUENCE),
            ("a", "matrix 6\n3 1 4 1 5 9\n"),
            ("b", "matrix 5\n1 4 5 3 9\n"),
        ],
        Done(
            "matrix 7 6\n0 0 0 0 0 0 0\n0 0 1 1 1 1 1\n0 0 1 2 2 2 2\n0 0 1 2 2 3 3\n0 1 1 2 2 3 3\n0 1 1 2 2 3 4\n",
        ),
    ),
    (
        "run --pool serial p - EditDistance a b",
        &[
            ("p", EDIT_DISTANCE),
            ("a", "matrix 6\n3 1 4 1 5 9\n"),
            ("b", "matrix 5\n1 4 5 3 9\n"),
        ],
        Done(
            "matrix 7 6\n0 1 2 3 4 5 6\n1 1 1 2 3 4 5\n2 2 2 1 2 3 4\n3 3 3 2 2 2 3\n4 3 4 3 3 3 3\n5 4 4 4 4 4 3\n",
        ),
    ),
    (
        "run --pool serial p - Least a",
        &[("p", LEAST), ("a", "matrix 7\n7 3 9 -2 8 5 4\n")],
        Done("matrix 1\n-2\n"),
    ),
    (
        "run --pool serial p - Transpose a",
        &[
            ("p", TRANSPOSE),
            ("a", "matrix 5 3\n1 2 3 4 5\n6 7 8 9 10\n11 12 13 14 15\n"),
        ],
        Done("matrix 3 5\n1 6 11\n2 7 12\n3 8 13\n4 9 14\n5 10 15\n"),
    ),
    (
        "run --pool serial p - Multiply a b",
        &[
            ("p", POLYNOMIAL),
            ("a", "matrix 5\n1 2 3 4 5\n"),
            ("b", "matrix 3\n1 -1 2\n"),
        ],
        Done("matrix 7\n1 1 3 5 7 3 10\n"),
    ),
    (
        "run --pool serial p - Running a",
        &[("p", RUNNING), ("a", "matrix 5\n4 2 5 1 3\n")],
        Done("matrix 5\n4 6 11 12 15\nmatrix 5\n4 2 2 1 1\n"),
    ),
];

#[test]
fn each_kernel_makes_what_it_says(rt: HostRuntime) -> Result<(), Fail> {
    all_hold(&rt, rt.alloc(), ROWS)
}

const TUNED_ROWS: Rows = &[
    ("tune --up-to 16 p Product", &[("p", PRODUCT)], Done("")),
    (
        "tune --up-to 16 p SummedArea",
        &[("p", SUMMED_AREA)],
        Done("choose SummedArea.S {0,1} = 0 until 4 then 1\n"),
    ),
    ("tune --up-to 16 p Stencil3", &[("p", STENCIL3)], Done("")),
    ("tune --up-to 16 p Stencil5", &[("p", STENCIL5)], Done("")),
    (
        "tune --up-to 16 p Convolve",
        &[("p", CONVOLUTION)],
        Done("choose Convolve.C {0,1} = 0 until 8 then 1\n"),
    ),
    (
        "tune --up-to 16 p CommonSubsequence",
        &[("p", SUBSEQUENCE)],
        Done(""),
    ),
    (
        "tune --up-to 16 p EditDistance",
        &[("p", EDIT_DISTANCE)],
        Done(""),
    ),
    ("tune --up-to 16 p Least", &[("p", LEAST)], Done("")),
    ("tune --up-to 16 p Transpose", &[("p", TRANSPOSE)], Done("")),
    ("tune --up-to 16 p Multiply", &[("p", POLYNOMIAL)], Done("")),
    (
        "tune --up-to 16 p Running",
        &[("p", RUNNING)],
        Done(
            "choose Running.S {0,1} = 0 until 4 then 1\nchoose Running.M {2,3} = 2 until 8 then 3\n",
        ),
    ),
];

const CONFIGURED_ROWS: Rows = &[
    (
        "run --pool serial p c SummedArea a",
        &[
            ("p", SUMMED_AREA),
            ("c", "choose SummedArea.S {0,1} = 0 until 4 then 1\n"),
            ("a", "matrix 4 3\n1 2 3 4\n5 6 7 8\n9 10 11 12\n"),
        ],
        Done("matrix 4 3\n1 3 6 10\n6 14 24 36\n15 33 54 78\n"),
    ),
    (
        "run --pool serial p c Convolve a b",
        &[
            ("p", CONVOLUTION),
            ("c", "choose Convolve.C {0,1} = 0 until 8 then 1\n"),
            ("a", "matrix 8\n1 2 3 4 5 6 7 8\n"),
            ("b", "matrix 5\n1 2 4 2 1\n"),
        ],
        Done("matrix 8\n11 20 30 40 50 60 61 52\n"),
    ),
    (
        "run --pool serial p c Running a",
        &[
            ("p", RUNNING),
            (
                "c",
                "choose Running.S {0,1} = 0 until 4 then 1\nchoose Running.M {2,3} = 2 until 8 then 3\n",
            ),
            ("a", "matrix 5\n4 2 5 1 3\n"),
        ],
        Done("matrix 5\n4 6 11 12 15\nmatrix 5\n4 2 2 1 1\n"),
    ),
];

#[test]
fn each_kernel_with_a_choice_is_tuned(rt: HostRuntime) -> Result<(), Fail> {
    all_hold(&rt, rt.alloc(), TUNED_ROWS)?;
    all_hold(&rt, rt.alloc(), CONFIGURED_ROWS)
}
