ghost use Rattle.std.specs.Prelude.{◌<◌, ◌≡◌};
ghost use Rattle.pb_gen.specs.Texts.{text_of};

// The file examples/mul.pb. The script examples/compare tells whether it and the next are the files byte for byte.
const MATRIX_MULTIPLY: &[u8] = b"transform MatrixAdd from A[w,h], B[w,h] to C[w,h] {
  to (C.cell(x,y) c) from (A.cell(x,y) a, B.cell(x,y) b) { c = a + b; }
}
transform MatrixMultiply from A[c,h], B[w,c] to AB[w,h] {
  to (AB.cell(x,y) o) from (A.row(y) a, B.column(x) b) { o = dot(a, b); }
  to (AB ab) from (A.region(0,0,c/2,h) a1, A.region(c/2,0,c,h) a2,
                   B.region(0,0,w,c/2) b1, B.region(0,c/2,w,c) b2) where c >= 2 {
    let t1[w,h]; let t2[w,h];
    t1 = MatrixMultiply(a1, b1);
    t2 = MatrixMultiply(a2, b2);
    ab = MatrixAdd(t1, t2);
  }
  to (AB.region(0,0,w/2,h) p, AB.region(w/2,0,w,h) q)
  from (A a, B.region(0,0,w/2,c) b1, B.region(w/2,0,w,c) b2) where w >= 2 {
    p = MatrixMultiply(a, b1);
    q = MatrixMultiply(a, b2);
  }
  to (AB.region(0,0,w,h/2) p, AB.region(0,h/2,w,h) q)
  from (A.region(0,0,c,h/2) a1, A.region(0,h/2,c,h) a2, B b) where h >= 2 {
    p = MatrixMultiply(a1, b);
    q = MatrixMultiply(a2, b);
  }
}
";

// The file examples/roll.pb.
const ROLLING_SUM: &[u8] = b"transform RollingSum from A[n] to B[n] {
  to (B.cell(i) b) from (A.region(0, i + 1) a) {
    b = sum(a);
  }
  to (B.cell(i) b) from (A.cell(i) a, B.cell(i - 1) l) {
    b = a + l;
  }
}
";

/// The text of a program of the demonstration, with the bytes of a file of the folder examples: 0 is mul.pb, which
/// multiplies matrices, and 1 is roll.pb, the rolling sum. The definition `text_of` spells both once more.
pub fn text(which: u32) -> &'static [u8]
    requires { which < 2 }
    ensures { result.now ≡ text_of which }
{
    if which == 0 {
        MATRIX_MULTIPLY
    } else {
        ROLLING_SUM
    }
}
