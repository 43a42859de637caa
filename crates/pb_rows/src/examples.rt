//! The programs of the folder examples.

/// Those that are accepted.
pub const EXAMPLES: [&str; 10] = [ROLL, DOUBLE, MUL, BLUR2, DIV, BIG, GUARD2, PREFIX, REV, BAD];

/// Those that are refused, with the lines that say why.
pub const REFUSED: [(&str, &str); 4] = [
    (
        BLUR1,
        "P13 Crossing: Blur3.B x: 1 over n-1 at n=1; n-1 over 1 at n=1048576\n",
    ),
    (GUARD1, "P14 Uncovered: Guard.B [0,n)\n"),
    (PAIR, "P16 NoOrder: Pair U[0,n) V[0,n)\n"),
    (TWOWAY, "P16 NoOrder: TwoWay B[1,n-1)\n"),
];

pub const ROLL: &str = "transform RollingSum from A[n] to B[n] {
  to (B.cell(i) b) from (A.region(0, i + 1) a) {
    b = sum(a);
  }
  to (B.cell(i) b) from (A.cell(i) a, B.cell(i - 1) l) {
    b = a + l;
  }
}
";

pub const DOUBLE: &str =
    "transform Double from A[n] to B[n] { to (B.cell(i) b) from (A.cell(i) a) { b = a + a; } }
";

pub const MUL: &str = "transform MatrixAdd from A[w,h], B[w,h] to C[w,h] {
  to (C.cell(x,y) c) from (A.cell(x,y) a, B.cell(x,y) b) { c = a + b; }
}
transform MatrixMultiply from A[c,h], B[w,c] to AB[w,h] {
  to (AB.cell(x,y) o) from (A.row(y) a, B.column(x) b) { o = dot(a, b); }
  to (AB ab) from (A.region(0,0,c/2,h) a1, A.region(c/2,0,c,h) a2,
                   B.region(0,0,w,c/2) b1, B.region(0,c/2,w,c) b2) where c >= 2 {
    let t1[w,h]; let t2[w,h];
    t1 = MatrixMultiply(a1, b1);
    t2 = MatrixMultiply(a2, b2);
    ab = MatrixAdd(t1, t2);
  }
  to (AB.region(0,0,w/2,h) p, AB.region(w/2,0,w,h) q)
  from (A a, B.region(0,0,w/2,c) b1, B.region(w/2,0,w,c) b2) where w >= 2 {
    p = MatrixMultiply(a, b1);
    q = MatrixMultiply(a, b2);
  }
  to (AB.region(0,0,w,h/2) p, AB.region(0,h/2,w,h) q)
  from (A.region(0,0,c,h/2) a1, A.region(0,h/2,c,h) a2, B b) where h >= 2 {
    p = MatrixMultiply(a1, b);
    q = MatrixMultiply(a2, b);
  }
}
";

pub(crate) const BLUR1: &str = "transform Blur3 from A[n] to B[n] {
  to (B.cell(i) b) from (A.region(i-1, i+2) a) { b = sum(a) / 3; }
  secondary to (B.cell(i) b) from (A.cell(i) a) { b = a; }
}
";

pub const BLUR2: &str = "transform Blur3 where n >= 2 from A[n] to B[n] {
  to (B.cell(i) b) from (A.region(i-1, i+2) a) { b = sum(a) / 3; }
  secondary to (B.cell(i) b) from (A.cell(i) a) { b = a; }
}
";

pub const PAIR: &str = "transform Pair from A[n] to U[n], V[n] {
  to (U.cell(i) u) from (V.cell(i) v) { u = v; }
  to (V.cell(i) v) from (U.cell(i) u) { v = u; }
}
";

pub const TWOWAY: &str = "transform TwoWay where n >= 2 from A[n] to B[n] {
  to (B.cell(i) b) from (B.cell(i-1) p) where i < n-1 { b = p; }
  to (B.cell(i) b) from (B.cell(i+1) q) where i >= 1 { b = q; }
  secondary to (B.cell(i) b) from (A.cell(i) a) { b = a; }
}
";

pub const DIV: &str = "transform Div from A[n], D[n] to Q[n] {
  to (Q.cell(i) q) from (A.cell(i) a, D.cell(i) d) { q = a / d; }
}
";

pub const BIG: &str = "transform Big from A[n] through T[2*n] to B[n] {
  to (T.cell(i) t) from () { t = 1; }
  to (B.cell(i) b) from (A.cell(i) a, T.cell(i) t) { b = a + t; }
}
transform Bigger from A[n] through T[2*n+1] to B[n] {
  to (T.cell(i) t) from () { t = 1; }
  to (B.cell(i) b) from (A.cell(i) a, T.cell(i) t) { b = a + t; }
}
";

const GUARD1: &str = "transform Guard from A[n] to B[n] {
  to (B.cell(i) b) from (A.cell(i) a) where n >= 2 { b = a; }
}
";

pub const GUARD2: &str = "transform Guard from A[n] to B[n] {
  to (B.cell(i) b) from (A.cell(i) a) where n >= 2 { b = a; }
  secondary to (B.cell(i) b) from () { b = 0; }
}
";

pub const PREFIX: &str = "transform Prefix2 from A[w,h] to S[w,h] {
  to (S.cell(x,y) s) from (A.cell(x,y) a, S.cell(x-1,y) l, S.cell(x,y-1) u,
                           S.cell(x-1,y-1) d) { s = a + l + u - d; }
  secondary to (S.cell(x,y) s) from (A.region(0,0,x+1,y+1) r) { s = sum(r); }
}
";

pub const REV: &str = "transform Rev from A[n] to B[n] {
  to (B b) from (A a) { for (k = 0 .. n) { b.cell(k) = a.cell(n - 1 - k); } }
}
";

pub const BAD: &str =
    "transform Copy from A[m] to C[m] { to (C.cell(i) c) from (A.cell(i) a) { c = a; } }
transform Bad from A[n] to B[n] { to (B b) from (A.region(0, n/2) a) { b = Copy(a); } }
";
