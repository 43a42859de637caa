//! Layouts of one program.

/// With CR LF and tabs, with comments of both kinds, and without blanks.
pub(crate) const LAID_OUT: [&str; 4] = [
    "transform\tDouble\r\nfrom A[n]\tto B[n] {\r\n\tto (B.cell(i) b)\r\n\tfrom (A.cell(i) a)\r\n\t{ b = a + a; }\r\n}\r\n",
    "// one rule }\r\ntransform Double /* from C[n] */ from A[n] to B[n] { // ends here: */\n\
     /**/ to (B.cell(i) b) /* ** / // */ from (A.cell(i) a) {/*;*/ b = a +// a\n a; } }//",
    "transform/**/Double/**/from/**/A[n]to/**/B[n]{to(B.cell(i)b)from(A.cell(i)a){b=a+a;}}",
    "transform Double from A[n]to B[n]{to(B.cell(i)b)from(A.cell(i)a){b=a+a;}}",
];
