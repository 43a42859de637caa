//! Rows: what is said of a text, and the text, with `@` before the place of its fault.

pub(crate) const ROWS: &str =
    "accepted|transform T from A[n] to B[n] { to (B.cell(i) b) from (A.cell(i) a) { b = a; } }
unknown z|transform T from A[n] to B[n] { to (B.cell(i) b) from () { b = @z; } }
bad type|transform T from A[n] to B[n] { to (B.cell(i) b) from () { b = @1 < 2; } }
bad output|transform T from A[n] to B[n] { to (@A.cell(i) b) from () { b = 1; } }
duplicate A|transform T from A[n], @A[n] to B[n] { to (B.cell(i) b) from () { b = 1; } }
not bound n|transform T from A[2*@n] to B[n] { to (B.cell(i) b) from () { b = 1; } }
duplicate T|transform T from A[n] to B[n] { to (B b) from () { } } transform @T from A[n] to B[n] { to (B b) \
from () { } }
duplicate sum|transform @sum from A[n] to B[n] { to (B b) from () { } }
duplicate n|transform T from @n[n] to B[n] { to (B b) from () { } }
duplicate n|transform T where n >= 1, @n >= 2 from A[n] to B[n] { to (B b) from () { } }
duplicate A|transform T from A[n] to B[n] { to (B.cell(@A) b) from () { b = 1; } }
duplicate A|transform T from A[n] to B[n] { to (B @A) from () { } }
duplicate n|transform T from A[n] to B[n] { to (B @n) from () { } }
duplicate i|transform T from A[n] to B[n] { to (B.cell(i) @i) from () { } }
duplicate b|transform T from A[n] to B[n] { to (B b) from (A @b) { } }
duplicate b|transform T from A[n] to B[n] { to (B.cell(i) b) from () { let @b = 1; } }
duplicate k|transform T from A[n] to B[n] { to (B b) from () { for (k = 0 .. n) { for (@k = 0 .. n) { } } } }
duplicate x|transform T from A[n] to B[n] { to (B b) from () { let x = 1; let @x = 2; } }
accepted|transform T from A[n] to B[n] { to (B b) from () { if (1 < 2) { let x = 1; } let x = 2; let A = 3; \
let T = 4; let sum = 5; } }
unknown C|transform T from A[n] to B[n] { to (@C c) from () { } }
unknown C|transform T from A[n] to B[n] { to (B b) from (@C c) { } }
unknown i|transform T from A[n] to B[n] { to (B.region(0, @i) b) from () { } }
unknown j|transform T from A[n] to B[n] { to (B.cell(i) b) from (A.cell(@j) a) { } }
unknown j|transform T from A[n] to B[n] { to (B.cell(i) b) from (A.cell(i) a) where @j < n { } }
unknown a|transform T from A[n] to B[n] { to (B.cell(i) b) from (A.cell(i) a) where i < @a { } }
unknown i|transform T from A[n] to B[n] { to (B.cell(@i + 1) b) from () { } }
unknown f|transform T from A[n] to B[n] { to (B b) from () { b = @f(1); } }
unknown x|transform T from A[n] to B[n] { to (B b) from () { let x = @x; } }
unknown x|transform T from A[n] to B[n] { to (B b) from () { if (1 < 2) { let x = 1; } @x = 2; } }
unknown k|transform T from A[n] to B[n] { to (B b) from () { for (k = @k .. n) { } } }
unknown t|transform T from A[n] to B[n] { to (B b) from (A a) { b = T(@t); let t[n]; } }
unknown m|transform T from A[n] to B[n] { to (B b) from (A a) { let t[@m]; } }
not bound m|transform T where @m >= 1 from A[n] to B[n] { to (B b) from () { } }
not bound m|transform T from A[n] to B[@m] { to (B b) from () { } }
not bound m|transform T from A[n] through C[n, n + @m] to B[n] { to (B b) from () { } }
bad output|transform T from A[n,m] to B[n,m] { to (@B.row(0) b) from () { } }
bad output|transform T from A[n,m] to B[n,m] { to (@B.column(0) b) from () { } }
bad output|transform T from A[n] to B[n], C[n] { to (@B.cell(i) b, C c) from () { } }
bad output|transform T from A[n,m] to B[n,m] { to (@B.cell(i, i) b) from () { } }
accepted|transform T from A[n,m] to B[n,m] { to (B.cell(n - 1, 0) b, B.cell(0, 0) c) from () { b = 1; c = 2; } \
}
unknown y|transform T from A[n] to B[n] { to (B b) from () { b.cell(@y) = z; } }
duplicate b|transform T from A[n] to B[n] { to (B b) from (A.cell(0) @b) { } }
unknown C|transform T from A[n] to B[n] { to (B b) from (@C b) { } }
bad type|transform T from A[n] to B[n] { to (@B.cell(0, 0) b) from () { } }
bad type|transform T from A[n] to B[n] { to (B b) from (@A.row(0) a) { } }
bad type|transform T from A[n,m] to B[n,m] { to (B b) from (@A.region(0, n) a) { } }
bad type|transform T from A[n] to B[n] { to (B.cell(i) b) from () { b = 1 + @(2 < 3); } }
bad type|transform T from A[n] to B[n] { to (B.cell(i) b) from () { b = - @(2 < 3); } }
bad type|transform T from A[n] to B[n] { to (B.cell(i) b) from () { if (@1) { b = 1; } } }
bad type|transform T from A[n] to B[n] { to (B.cell(i) b) from () { if (1 < 2 && @i) { b = 1; } } }
bad type|transform T from A[n] to B[n] { to (B.cell(i) b) from () { if (! @i) { b = 1; } } }
bad type|transform T from A[n] to B[n] { to (B.cell(i) b) from () { let x = @i == 1; } }
bad type|transform T from A[n] to B[n] { to (B b) from () { for (k = 0 .. @1 < 2) { } } }
bad type|transform T from A[n] to B[n] { to (B b) from () { b.cell(@(1 < 2)) = 1; } }
bad type|transform T from A[n] to B[n] { to (B.cell(i) b) from (A.cell(i) a) { b = @a.cell(0); } }
bad type|transform T from A[n] to B[n] { to (B.cell(i) b) from (A a) { b = @a.cell(0, 0); } }
bad type|transform T from A[n] to B[n] { to (B.cell(i) b) from (A a) { b = @i.width(); } }
accepted|transform T from A[n] to B[n] { to (B.cell(i) b) from (A a) { b = a.width() + a.height() + a.cell(i); \
} }
bad type|transform T from A[n] to B[n] { to (B.cell(i) b) from (A a) { b = @sum(a, a); } }
bad type|transform T from A[n] to B[n] { to (B.cell(i) b) from (A a) { b = sum(@i); } }
bad type|transform T from A[n] to B[n] { to (B.cell(i) b) from (A a) { b = sum(@(a)); } }
bad type|transform T from A[n] to B[n] { to (B.cell(i) b) from (A a) { b = @dot(a); } }
bad type|transform T from A[n] to B[n] { to (B.cell(i) b) from (A a) { b = min(1, @2 < 3); } }
bad type|transform T from A[n] to B[n] { to (B.cell(i) b) from (A a) { b = @abs(); } }
accepted|transform T from A[n] to B[n] { to (B.cell(i) b) from (A a) { b = dot(a, a) + max(1, abs(- i)); } }
bad type|transform T from A[n] to B[n] { to (B.cell(i) b) from (A a) { b = @a; } }
bad type|transform T from A[n] to B[n] { to (B b) from (A a) { b.cell(0) = @b; } }
bad type|transform T from A[n] to B[n] { to (B b) from (A a) { @b = 1; } }
bad type|transform T from A[n] to B[n] { to (B.cell(i) b) from (A.cell(i) a) { @a = 1; } }
bad type|transform T from A[n] to B[n] { to (B.cell(i) b) from () { @i = 1; } }
bad type|transform T from A[n] to B[n] { to (B.cell(i) b) from () { for (k = 0 .. n) { @k = 1; } } }
bad type|transform T from A[n] to B[n] { to (B b) from (A a) { @a.cell(0) = 1; } }
accepted|transform T from A[n] to B[n] { to (B b) from (A a) { let t[n]; t = T(a); b = T(t); } }
bad type|transform T from A[n] to B[n] { to (B b) from (A a) { let t[n]; t = T(a); @let k = 1; b = T(t); } }
bad type|transform T from A[n] to B[n] { to (@B b) from (A a) { b = (T(a)); } }
bad type|transform T from A[n] to B[n] { to (B b) from (@A.cell(0) a) { b = T(a); } }
bad type|transform T from A[n] to B[n] { to (@B.cell(i) b) from (A a) { b = T(a); } }
bad type|transform T from A[n] to B[n] { to (B b) from (A a) { b = T(@(a)); } }
bad type|transform T from A[n] to B[n] { to (B b) from (A a) { let t[n]; b = T(@t); t = T(a); } }
bad type|transform T from A[n] to B[n] { to (B b) from (A a) { b = T(a); @b = T(a); } }
bad type|transform T from A[n] to B[n] { to (@B b) from (A a) { let t[n]; t = T(a); } }
bad type|transform T from A[n] to B[n] { to (B b) from (A a) { let @t[n]; b = T(a); } }
bad type|transform T from A[n] to B[n] { to (B b) from (A a) { b = @T(a, a); } }
bad type|transform T from A[n] to B[n] { to (B b) from (A a) { let t[n,n]; @t = T(a); b = T(a); } }
bad type|transform T from A[n] to B[n] { to (B b) from (A a) { let t[n]; t, b = @sum(a); t = T(a); b = T(t); } }
bad type|transform T from A[n] to B[n] { to (B b) from (A a) { n, b = @sum(a); b = T(a); } }
bad type|transform T from A[n] to B[n] { to (B b) from (A a) { @b = sum(a); b = T(a); } }
bad type|transform T from A[n] to B[n] { to (B b) from (A a) { b = T(a); @if (1 < 2) { b = T(a); } } }
bad type|transform T from A[n] to B[n] { to (B b) from (A a) { b = T(a); @for (k = 0 .. 2) { let m = 1; } } }
bad type|transform T from A[n] to B[n] { to (B b) from (A a) { b = T(a); @b.cell(0) = 1; } }
bad type|transform T from A[n] to B[n] { to (B b) from (A a) { @a = T(a); b = T(a); } }
bad type|transform T from A[n] to B[n] { to (B b) from (A a) { @n = T(a); b = T(a); } }
bad type|transform T from A[n] to B[n], C[n] { to (B b, C c) from (A a) { let t[n]; t, b = T(a); c, @c = T(a); } }
bad type|transform T from A[n] to B[n], C[n] { to (B b, C c) from (A a) { b = @T(a); c = T(a); } }
bad type|transform S from A[n,m] to B[n,m] { to (B b) from (A a) { b = S(a); } } transform T from A[n] to B[n] { \
to (B b) from (A a) { let t[n,n]; t = S(@a); b = T(a); } }
bad type|transform T from A[n] to B[n] { to (B b) from (A a) { let t[@a]; t = T(a); b = T(t); } }
bad type|transform T from A[n] to B[n] { to (B.cell(i) b) from (A a, A.cell(i) c) { b = dot(a, @c); } }
bad type|transform T from A[n] to B[n] { to (B.cell(i) b) from (A a) { let x = 1; b, x = @sum(a); } }";
