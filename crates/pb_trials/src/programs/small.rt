//! Small texts.

/// Accepted texts of one transform, a blank between each two tokens, with all lines of the grammar in them.
pub(crate) const WHOLE: &str = "transform T from A [ n ] to B [ n ] { to ( B b ) from ( ) { } }
transform T where n >= 1 , m >= 2 , k >= 0 from A [ - n + 2 * m - n / 2 , 3 ] , B [ n / 3 ] , C [ 7 - n / 4 ] \
through D [ n , m ] , E [ 1 ] to F [ n ] , G [ n , n ] { to ( F f ) from ( ) { } }
transform T from A [ n ] to B [ n ] { primary to ( B b , C . cell ( i , j ) c ) from ( A . row ( 1 ) d , \
A . column ( n - 1 ) e , A . region ( 0 , n ) f , A . region ( 0 , 1 , n , m ) g , A . cell ( - 1 ) h , A k ) { } \
secondary to ( B . region ( 0 , 1 ) b ) from ( A a ) { } priority ( 3 ) to ( B b ) from ( ) { } \
to ( B . cell ( i ) b ) from ( A a , A c ) { } }
transform T from A [ n ] to B [ n ] { to ( B b ) from ( ) where i < n { } to ( B b ) from ( A a ) where i <= 1 , \
- i > - 1 , i - 1 >= 0 , i + 2 * j == n / 3 - 2 { } }
transform T from A [ n ] to B [ n ] { to ( B b ) from ( ) { let x = 1 ; let t [ n ] ; let t [ n , n - 1 ] ; b = x ; \
t , u = f ( 1 ) ; t , u , v = f ( 1 , x , y ) ; b . cell ( 1 ) = 2 ; b . cell ( i , j ) = x ; } }
transform T from A [ n ] to B [ n ] { to ( B b ) from ( ) { if ( x ) { } if ( x ) { b = 1 ; } else { } \
if ( x ) { if ( y ) { } else { b = 2 ; } } else { b = 3 ; c = 4 ; } for ( k = 0 .. n ) { } \
for ( k = 0 .. n ) { b . cell ( k ) = k ; for ( l = k .. n ) { } } } }
transform T from A [ n ] to B [ n ] { to ( B b ) from ( ) { b = a || b || c ; b = a && b && c || d ; b = a < b ; \
b = a <= b && c > d || e >= f && g == h ; b = a != b ; b = a + b - c + d ; b = a * b / c % d * e ; b = - a ; \
b = ! a && - b < ! c ; b = 1 - - a * ! b ; b = ( a ) ; b = ( ( a ) < b ) == c ; b = 9223372036854775807 ; } }
transform T from A [ n ] to B [ n ] { to ( B b ) from ( ) { b = f ( ) ; b = f ( 1 ) + 1 ; b = f ( 1 , x || y , - z ) ; \
b = a . cell ( 1 ) ; b = a . cell ( x + 1 , y ) * 2 ; b = a . width ( ) ; b = - a . height ( ) + 1 ; \
b = f ( g ( ( a . cell ( h ( ) ) ) ) ) ; } }
transform cell from row [ width ] to column [ height ] { to ( column . cell ( cell ) region ) from ( row . row ( row ) sum ) \
{ width = width . width ( ) ; width . cell ( cell ) = cell . cell ( sum ( min , max ) ) ; } }";

/// Texts and what is said of them.
pub(crate) const SAID: &str = "transform @ | bad token at 10
} @ | bad token at 2
transform T from A[1048577] @ | bad token at 28
transform T from A[n] /* | bad token at 22
transform T from A[n] & | bad token at 22
transform T from A[9223372036854775808] | bad token at 19
transform T from A[9223372036854775807] | over limit: number at 19
transform T from A[1048577] | over limit: number at 19
transform T from A[1048577 1] | over limit: number at 19
transform T from A[1048577 | over limit: number at 19
transform T from A[n n + 1048577] | bad syntax at 21
transform T from A[n/5] | bad syntax at 21
transform T from A[n/1048577] | bad syntax at 21
transform T from A[n/9223372036854775807] | bad syntax at 21
transform T from A[n/004] to B[n/02] {to(B b)from(){}} | accepted
transform T from A[1*n] to B[01*n] {to(B b)from(){}} | accepted
transform T from A[n] to B[n] {} | bad syntax at 31
transform T from A[n] to B[n] {to(B b)from(){b=a<b<c;}} | bad syntax at 50
transform T from A[n] to B[n] {to(B b)from(){b=(a<b)<c;}} | accepted
transform T from A[n] to B[n] {to(B b)from()where a!=b{}} | bad syntax at 51
transform T from A[n] to B[n] {to(B b)from(){}} transform U from A[n] to B[n] {to(B b)from(){}} | accepted
transform T from A[n] to B[n] {to(B b)from(){}} x | bad syntax at 48
transform T from A[n] to B[n] {to(B b)from(){}} } | bad syntax at 48
transform T from A[n] to B[n] {to(B b)from(){}} ; | bad syntax at 48
transform T from A[n] to B[n] {to(B b)from(){}} to (B b) from () { } | bad syntax at 48
transform T from A[n] to B[n] {to(B b)from(){}} transform | bad syntax at 57
transform T from A[n] to B[n] {to(B b)from(){}} // } | accepted
transform from | bad syntax at 10
transformT | bad syntax at 0
transform T from A[n] to B[n] {to(B b)from(){b=a&&!b||c%d!=e;}} | accepted
transform T from A[n] to B[n] {to(B b)from(){b=a---b;}} | bad syntax at 50
transform T from A[n] to B[n] {to(B b)from(){b=1..2;}} | bad syntax at 48
transform T from A[n] to B[n] {to(B b)from(){for(k=0..1){}}} | accepted
transform T from A[n] to B[n] {to(B b)from(){t,t=T(b,b);}} | accepted
/**/ | bad syntax at 4
// x | bad syntax at 4";
