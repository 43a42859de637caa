//! A program with nearly all that the grammar has, and its canonical text.

pub const WRITTEN: &str =
    "transform T where n>=2 from A[1*n,m/2],C[-n+5]through K[n]to B[n]{primary to(B b)from(A.row(0)a,A.column(n-1)c,C d)\
where n<=m,1*n>0{let x=-1;let t[n,2];if(!(x<1)&&x!=2||1==x){x=x%2*3-x/4;}else{b.cell(x)=a.width()+f();}\
for(k=0..n){p,q=g(a,(b),c.cell(1,2));}}priority(007)to(B.region(0,n)e)from(){}secondary to(B.cell(i)b)from(){b=07;}}";

pub const PRINTED: &str =
    "transform T where n >= 2 from A[n, m / 2], C[- n + 5] through K[n] to B[n] {
  primary to (B b) from (A.row(0) a, A.column(n - 1) c, C d) where n <= m, n > 0 {
    let x = - 1;
    let t[n, 2];
    if (! (x < 1) && x != 2 || 1 == x) {
      x = x % 2 * 3 - x / 4;
    }
    else {
      b.cell(x) = a.width() + f();
    }
    for (k = 0 .. n) {
      p, q = g(a, (b), c.cell(1, 2));
    }
  }
  priority(7) to (B.region(0, n) e) from () {
  }
  secondary to (B.cell(i) b) from () {
    b = 7;
  }
}
";
