//! Texts that are no programs.

/// Texts with a mark before the first token with which the tokens begin no program; those before it begin one, and
/// are none. Each begins with the frame.
pub(crate) const BROKEN: [(&str, &str); 6] = [
    ("", HEADERS),
    ("transform T from A[", FORMS),
    ("transform T from A[n] to B[n] {", RULES),
    ("transform T from A[n] to B[n] { to (", VIEWS),
    (
        "transform T from A[n] to B[n] { to (B b) from () {",
        STATEMENTS,
    ),
    (
        "transform T from A[n] to B[n] { to (B b) from () { b = ",
        EXPRESSIONS,
    ),
];

const HEADERS: &str = "^
^T from A[n] to B[n] { to (B b) from () { } }
^from A[n] to B[n] { to (B b) from () { } }
^; transform T from A[n] to B[n] { to (B b) from () { } }
transform ^from A[n] to B[n] { to (B b) from () { } }
transform ^1
transform ^transform
transform ^through
transform ^to
transform ^where
transform ^primary
transform ^secondary
transform ^priority
transform ^let
transform ^if
transform ^else
transform ^for
transform T ^A[n] to B[n] { to (B b) from () { } }
transform T ^to B[n] { to (B b) from () { } }
transform T ^U from A[n]
transform T ^through
transform T ^{
transform T ^(
transform T where ^from A[n] to B[n] { to (B b) from () { } }
transform T where ^>= 1 from
transform T where ^1 >= n
transform T where n ^from
transform T where n ^1 from
transform T where n ^> 1
transform T where n ^== 1
transform T where n >= ^from
transform T where n >= ^m
transform T where n >= ^- 1
transform T where n >= 1 ^A[n]
transform T where n >= 1 ^m >= 1
transform T where n >= 1 ^+ 1
transform T where n >= 1 ^where
transform T where n >= 1, ^from
transform T from ^to B[n]
transform T from ^[n]
transform T from ^from
transform T from A ^to B[n]
transform T from A ^n]
transform T from A ^(n)
transform T from A[n ^to B[n]
transform T from A[n, ^]
transform T from A[n, m ^, k]
transform T from A[n, m ^)
transform T from A[n], ^to
transform T from A[n] ^B[n]
transform T from A[n] ^{
transform T from A[n] ^from
transform T from A[n] ^[m]
transform T from A[n] through ^to B[n]
transform T from A[n] through C[n] ^B[n]
transform T from A[n] through C[n] ^through
transform T from A[n] through C[n] ^{
transform T from A[n] through C ^to
transform T from A[n] to ^{
transform T from A[n] to ^to
transform T from A[n] to B[n] ^through C[n]
transform T from A[n] to B[n] ^to (B b)
transform T from A[n] to B[n] ^where
transform T from A[n] to B[n] ^}
transform T from A[n] to B[n] {^}
transform T from A[n] to B[n] { to (B b) from () {} ^transform";

const FORMS: &str = "^]
^, n]
^+ n]
^* n]
^/ 2]
^(n)]
^[n]]
-^]
- ^- n]
- ^+ n]
n ^n]
n ^2]
n ^* 2]
n ^% 2]
n ^.. m]
n ^== m]
n ^. cell(1)]
n ^(1)]
n ^;
n +^]
n + ^- 1]
n - ^+ 1]
n - ^- 1]
n + ^, m]
2 ^n]
2 ^/ 2]
2 ^2]
2 *^]
2 * ^2]
2 * ^- n]
2 * ^(n)]
2 * n ^* m]
2 * n ^/ 2]
n /^]
n / ^n]
n / ^0]
n / ^1]
n / ^5]
n / ^22]
n / ^- 2]
n / 2 ^/ 2]
n / 2 ^* 2]
n / 2 ^n]
^to]
n + ^from]
2 * ^let]
n, ^]
n, m ^;";

const RULES: &str = "^B b) from () { } }
^(B b) from () { } }
^from () { } }
^where
^{ } }
^;
^transform
primary ^(B b)
primary ^from
primary ^primary to (B b)
primary ^secondary to (B b)
primary ^(1)
secondary ^}
secondary ^priority(1)
priority ^to (B b)
priority ^1)
priority(^)
priority(^to
priority(^- 1)
priority(^n)
priority(1 ^to
priority(1 ^+ 1)
priority(1 ^, 2)
priority(1) ^(B b)
priority(1) ^primary
to ^B b) from ()
to ^{
to ^[
to (B b) ^() { }
to (B b) ^{ }
to (B b) ^where
to (B b) ^to (B b)
to (B b) ^through
to (B b) from ^A a) { }
to (B b) from ^{ }
to (B b) from ^where
to (B b) from (^, A a)
to (B b) from (^{
to (B b) from (A^)
to (B b) from (A a, ^)
to (B b) from (A a ^A b)
to (B b) from (A a ^{ }
to (B b) from (A a ^to
to (B b) from () ^}
to (B b) from () ^;
to (B b) from () ^from
to (B b) from () ^to
to (B b) from () where ^{ }
to (B b) from () where ^< 1 { }
to (B b) from () where ^(i < 1) { }
to (B b) from () where i ^{ }
to (B b) from () where i ^1
to (B b) from () where i ^!= 1 { }
to (B b) from () where i ^= 1 { }
to (B b) from () where i ^&& j
to (B b) from () where i ^, j
to (B b) from () where i < ^{ }
to (B b) from () where i < ^< 1
to (B b) from () where i < ^!j
to (B b) from () where i < 1 ^< 2 { }
to (B b) from () where i < 1 ^&& j < 1
to (B b) from () where i < 1, ^{ }
to (B b) from () where i < 1 ^where
to (B b) from () where i < 1 ^}
to (B b) from () where i < 1 ^to
to (B b) from () {} ^;
to (B b) from () {} ^{
to (B b) from () {} ^from
to (B b) from () {} ^transform
to (B b) from () {} primary ^}";

const VIEWS: &str = "^) from () { } }
^. cell(i) b
^1
^to
B ^) from ()
B ^, B b
B ^(i) b
B ^[i] b
B b ^c)
B b ^B c)
B b ^. cell(i)
B b ^from
B b, ^) from ()
B . ^b)
B . ^(i) b
B . ^size(i) b
B . ^width() b
B . ^Cell(i) b
B . ^to
B . cell ^b)
B . cell ^[i]
B . cell(^) b
B . cell(i ^b
B . cell(i ^] b
B . cell(i ^j)
B . cell(i, ^) b
B . cell(i, j ^, k) b
B . cell(i, j ^b
B . cell(i) ^)
B . cell(i) ^, B c
B . cell(i) ^. cell(j)
B . cell(i) ^(j)
B . row ^b)
B . row(^) b
B . row(i ^, j) b
B . row(i) ^)
B . column ^b)
B . column(^) b
B . column(i ^, j) b
B . column(i) ^)
B . region ^b)
B . region(^) b
B . region(i ^) b
B . region(i ^j
B . region(i, ^) b
B . region(i, j ^k
B . region(i, j, ^) b
B . region(i, j, k ^) b
B . region(i, j, k, ^) b
B . region(i, j, k, l ^, m) b
B . region(i, j, k, l ^b
B . region(i, j, k, l) ^)";

const STATEMENTS: &str = "^;
^, x
^= 1
^1 = x
^(x) = 1
^else { }
^from
^transform
^{ }
let ^= 1;
let ^1
let ^(x)
let ^if
let x ^;
let x ^== 1
let x ^, y = 1
let x ^(1)
let x ^. cell(1) = 1
let x = ^;
let x = 1 ^}
let x = 1 ^let
let x = 1 ^= 2
let x[^];
let x[n ^;
let x[n ^) ;
let x[^(n)];
let x[n, ^];
let x[n, m ^, k];
let x[n] ^= 1;
let x[n] ^}
let x[n] ^[m]
x ^;
x ^}
x ^x
x ^(1);
x ^[1] = 1
x ^== 1
x ^+ = 1
x = ^;
x = ^= 1
x = ^let
x = 1 ^}
x = 1 ^x
x = 1 ^= 2
x = 1; ^;
x, ^= f(1);
x, ^1
x, y ^;
x, y ^. cell(1)
x, y ^(1)
x, y, ^= f(1);
x, y = ^;
x, y = ^1
x, y = ^- f(1)
x, y = ^(f(1))
x, y = f ^;
x, y = f ^. cell(1)
x, y = f ^[1]
x, y = f(^);
x, y = f(1 ^;
x, y = f(1, ^);
x, y = f(1) ^}
x, y = f(1) ^+ 1;
x . ^= 1
x . ^width() = 1
x . ^row(1) = 1
x . ^let
x . cell ^= 1
x . cell(^) = 1
x . cell(1 ^= 1
x . cell(1, ^) = 1
x . cell(1, 2 ^, 3) = 1
x . cell(1) ^;
x . cell(1) ^== 1
x . cell(1) ^, y = f(1)
x . cell(1) ^. cell(1)
x . cell(1) = ^;
x . cell(1) = 1 ^}
if ^x { }
if ^{ }
if (^) { }
if (x ^{ }
if (x ^, y)
if (x ^= y)
if (x) ^x = 1;
if (x) ^;
if (x) ^else
if (x) { ^; }
if (x) { } ^;
if (x) { } else ^if (x) { }
if (x) { } else ^;
if (x) { } else { } ^else { }
for ^k = 0 .. 1
for ^{
for (^)
for (^= 0 .. 1)
for (^1 = 0
for (^let k = 0
for (k ^.. 1)
for (k ^) { }
for (k ^, l
for (k = ^.. 1)
for (k = 0 ^) { }
for (k = 0 ^, 1) { }
for (k = 0 ^. 1) { }
for (k = 0 ^; k < 1
for (k = 0 .. ^) { }
for (k = 0 .. 1 ^{ }
for (k = 0 .. 1 ^.. 2) { }
for (k = 0 .. 1) ^b = 1;
for (k = 0 .. 1) ^;
for (k = 0 .. 1) { ^) }
return ^x;";

const EXPRESSIONS: &str = "^;
^)
^}
^let
^{ }
^|| 1
^&& 1
^< 1
^+ 1
^* 1
^= 1
^[1]
^.. 1
1 ^= 2
1 ^1
1 ^x
1 ^{
1 ^(2)
1 ^[2]
1 ^. width()
1 ^.. 2
1 ^, 2
1 ^)
1 ^! 2
1 ^if
1 || ^;
1 || ^|| 2
1 && ^;
1 && ^&& 2
1 && ^|| 2
1 < ^;
1 < ^< 2
1 < ^= 2
a < b ^< c;
a == b ^!= c;
a < b + 1 ^>= c;
a < b && c < d ^<= e;
1 + ^;
1 + ^+ 2
1 - ^* 2
1 * ^;
1 * ^* 2
1 / ^/ 2
1 % ^% 2
1 % ^)
- ^;
- ^- 1
- ^! 1
- ^+ 1
! ^;
! ^! 1
! ^- 1
( ^) ;
( ^;
( 1 ^;
( 1 ^, 2)
( 1 ^]
( 1 ) ^(2)
( 1 ) ^. cell(1)
( 1 ) ^x
f( ^;
f( ^, 1)
f( 1 ^;
f( 1 ^2)
f( 1, ^)
f( 1, ^, 2)
f( 1 ^= 2)
f( ) ^(1)
f( ) ^x
f( ) ^. cell(1)
x ^[1]
x ^x
x . ^;
x . ^1
x . ^(1)
x . ^size()
x . ^row(1)
x . ^to
x . cell ^;
x . cell ^+ 1
x . cell( ^) ;
x . cell( 1 ^;
x . cell( 1, ^) ;
x . cell( 1, 2 ^, 3)
x . cell( 1 ) ^. cell(1)
x . cell( 1 ) ^(1)
x . width ^;
x . width( ^1)
x . width( ^;
x . width( ) ^. height()
x . height ^;
x . height( ^x)
x . height( ) ^(1)";
