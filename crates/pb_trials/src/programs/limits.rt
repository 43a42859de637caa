//! Limits.

/// What is said at the mark, how often the middle part is repeated, and the texts: each a part, the one that is
/// repeated, and a last part. A text without a mark is accepted.
pub(crate) const LIMITS: [(&str, usize, &str); 27] = [
    ("over limit: transforms", 64, TRANSFORMS_64),
    ("over limit: rules", 32, RULES_32),
    ("over limit: matrices", 13, MATRICES_13),
    ("over limit: sizes", 2, SIZES_2),
    ("over limit: outputs", 15, OUTPUTS_15),
    ("over limit: reads", 15, READS_15),
    ("over limit: conditions", 15, CONDITIONS_15),
    ("over limit: minimums", 7, MINIMUMS_7),
    ("over limit: targets", 15, TARGETS_15),
    ("over limit: arguments", 15, ARGUMENTS_15),
    ("over limit: terms", 7, TERMS_7),
    ("over limit: number", 2, NUMBER_2),
    ("over limit: number", 16, NUMBER_16),
    ("over limit: statements", 256, STATEMENTS_256),
    ("over limit: statements", 255, STATEMENTS_255),
    ("over limit: statements", 128, STATEMENTS_128),
    ("over limit: statements", 85, STATEMENTS_85),
    ("over limit: nesting", 31, NESTING_31),
    ("over limit: nesting", 30, NESTING_30),
    ("bad syntax", 64, BAD_SYNTAX_64),
    ("bad syntax", 32, BAD_SYNTAX_32),
    ("bad syntax", 13, BAD_SYNTAX_13),
    ("bad syntax", 2, BAD_SYNTAX_2),
    ("bad syntax", 15, BAD_SYNTAX_15),
    ("bad syntax", 7, BAD_SYNTAX_7),
    ("bad syntax", 256, BAD_SYNTAX_256),
    ("bad syntax", 31, BAD_SYNTAX_31),
];

const TRANSFORMS_64: &str = " | transform T from A[n]to B[n]{to(B b)from(){}} | /**/
 | transform T from A[n]to B[n]{to(B b)from(){}} | ^transform
 | transform T from A[n]to B[n]{to(B b)from(){}} | ^transform T from A[1048577]";

const RULES_32: &str = "transform T from A[n]to B[n]{ | to(B b)from(){} | }
transform S from A[n]to B[n]{to(B b)from(){}to(B b)from(){}}transform T from A[n]to B[n]{ | to(B b)from(){} | }
transform T from A[n]to B[n]{ | to(B b)from(){} | ^to
transform T from A[n]to B[n]{ | to(B b)from(){} | ^primary
transform T from A[n]to B[n]{ | to(B b)from(){} | ^secondary to
transform T from A[n]to B[n]{ | to(B b)from(){} | ^priority(1048577)";

const MATRICES_13: &str = "transform T from A[n],A[n] | ,A[n] | to B[n]{to(B b)from(){}}
transform T from A[n]through C[n]to B[n] | ,B[n] | {to(B b)from(){}}
transform T from A[n],A[n],A[n] | ,A[n] | to ^B[n]
transform T from A[n],A[n],A[n] | ,A[n] | ,^A
transform T from A[n],A[n],A[n] | ,A[n] | through ^C
transform T from A[n],A[n]through C[n] | ,C[n] | to ^B
transform T from A[n],A[n]through C[n] | ,C[n] | ,^C[1048577]
transform T from A[n]through C[n]to B[n] | ,B[n] | ,^B";

const SIZES_2: &str =
    "transform T from A[a,b],A[c,d],A[e,f],A[g,h] | ,A[a,h] | to B[n]{to(B b)from(){}}
transform T from A[a,b],A[c,d],A[e,f],A[g,h] | ,A[a,h] | through C[i,j]to B[k,l]{to(B b)from(){}}
transform T from A[a,b],A[c,d],A[e,f],A[g,h] | ,A[a,h] | ,A[i+1,i/2],A[2*i,-i],A[i-i,0*i]to B[n]{to(B b)from(){}}
transform T from A[a,b],A[c,d],A[e,f],A[g,h] | ,A[a,h] | ,A[^i]
transform T from A[a,b],A[c,d],A[e,f],A[g,h] | ,A[a,h] | ,A[^i,
transform T from A[a,b],A[c,d],A[e,f],A[g,h] | ,A[a,h] | ,A[^i,j],A[k]
transform T from A[a,b],A[c,d],A[e,f],A[g,h] | ,A[a,h] | ,A[h,^i]
transform T from A[a,b],A[c,d],A[e,f],A[g,h] | ,A[a,h] | ,A[2,^i] from
transform T from A[a,b],A[c,d],A[e,f],A[g,h] | ,A[a,h] | ,A[i+1,^i]
transform T from A[a,b],A[c,d],A[e,f],A[g,h] | ,A[a,h] | ,A[1*^i]
transform T from A[a,b],A[c,d],A[e,f],A[g,h] | ,A[a,h] | ,A[01*^i,1048577]
transform T where i>=1 from A[i,a],A[b,c],A[d,e] | ,A[f,g] | ,A[^h]";

const OUTPUTS_15: &str = "transform T from A[n]to B[n]{to(B b | ,B b | )from(){}}
transform T from A[n]to B[n]{to(B b | ,B b | )from(A a,A a){}to(B b)from(){}}
transform T from A[n]to B[n]{to(B b | ,B b | ,^B
transform T from A[n]to B[n]{to(B.cell(i,j) b | ,B b | ,^B.cell(1048577) b)";

const READS_15: &str = "transform T from A[n]to B[n]{to(B b,B b)from(A a | ,A a | ){}}
transform T from A[n]to B[n]{to(B b)from(A a | ,A a | ,^A
transform T from A[n]to B[n]{to(B b)from(A.region(0,n) a | ,A a | ,^B b)";

const CONDITIONS_15: &str = "transform T from A[n]to B[n]{to(B b)from()where i<1 | ,i<1 | {}}
transform T from A[n]to B[n]{to(B b)from()where i<1 | ,i<1 | ,^i
transform T from A[n]to B[n]{to(B b)from()where i==1 | ,i<1 | ,^2
transform T from A[n]to B[n]{to(B b)from()where i<1 | ,i<1 | ,^-
transform T from A[n]to B[n]{to(B b)from()where i<1 | ,i<1 | ,^1048577";

const MINIMUMS_7: &str = "transform T where n>=1 | ,n>=1 | from A[n]to B[n]{to(B b)from(){}}
transform T where n>=1 | ,n>=1 | ,^n
transform T where n>=1 | ,m>=2 | ,^n>=1048577";

const TARGETS_15: &str = "transform T from A[n]to B[n]{to(B b)from(){t | ,t | =f(1);}}
transform T from A[n]to B[n]{to(B b)from(){t,t=f(1);t | ,t | =f(1);}}
transform T from A[n]to B[n]{to(B b)from(){t | ,t | ,^t";

const ARGUMENTS_15: &str = "transform T from A[n]to B[n]{to(B b)from(){b=f(1 | ,1 | );}}
transform T from A[n]to B[n]{to(B b)from(){t,t=f(1 | ,1 | );}}
transform T from A[n]to B[n]{to(B b)from(){b=f(g(1 | ,1 | ),g(1,2),3);}}
transform T from A[n]to B[n]{to(B b)from(){b=f(1 | ,g(1,2) | )+f(1,2);}}
transform T from A[n]to B[n]{to(B b)from(){b=f(1 | ,1 | ,^1
transform T from A[n]to B[n]{to(B b)from(){b=f(1 | ,1 | ,^x.width
transform T from A[n]to B[n]{to(B b)from(){b=f(1 | ,1 | ,^-
transform T from A[n]to B[n]{to(B b)from(){b=f(1 | ,1 | ,^!x
transform T from A[n]to B[n]{to(B b)from(){b=f(1 | ,1 | ,^(1)
transform T from A[n]to B[n]{to(B b)from(){b=f(1 | ,1 | ,^x[
transform T from A[n]to B[n]{to(B b)from(){t,t=f(1 | ,1 | ,^1
transform T from A[n]to B[n]{to(B b)from(){t,t=f(g(1 | ,1 | ,^(1
transform T from A[n]to B[n]{to(B b)from(){let x=f(1 | ,1 | ,^1
transform T from A[n]to B[n]{to(B b)from(){x.cell(f(1 | ,1 | ,^1
transform T from A[n]to B[n]{to(B b)from(){b=x.cell(1,f(1 | ,1 | ,^1
transform T from A[n]to B[n]{to(B b)from(){if(f(1 | ,1 | ,^1
transform T from A[n]to B[n]{to(B b)from(){for(k=0..f(1 | ,1 | ,^1
transform T from A[n]to B[n]{to(B b)from(){for(k=f(1 | ,1 | ,^1
transform T from A[n]to B[n]{to(B b)from(){b=((((((((((((((((((((((((((((((f(1 | ,1 | ,^(1
transform T from A[n]to B[n]{to(B b)from(){b=((((((((((((((((((((((((((((((f(1 | ,1 | ,^g(1";

const TERMS_7: &str = "transform T from A[n | +n | ]to B[n]{to(B b)from(){}}
transform T from A[-n | -2*n | ,n/2+n-1]to B[n]{to(B b)from(){}}
transform T from A[n | +n | +^n
transform T from A[-n | -1 | -^2*n
transform T from A[1,n/3 | +n/2 | -^n/2]
transform T from A[n | +n | +^1048577]
transform T from A[n]through C[n | +n | +^n
transform T from A[n]to B[n | +n | +^n
transform T from A[n]to B[n]{to(B.cell(i | +n | +^n
transform T from A[n]to B[n]{to(B.cell(i,j | +n | +^n
transform T from A[n]to B[n]{to(B.row(i | +n | +^n
transform T from A[n]to B[n]{to(B.column(i | +n | +^n
transform T from A[n]to B[n]{to(B b)from(A.region(0,1 | +n | +^n
transform T from A[n]to B[n]{to(B b)from(A.region(0,1,2,3 | +n | +^n
transform T from A[n]to B[n]{to(B b)from()where i | -1 | <2+n+1{}}
transform T from A[n]to B[n]{to(B b)from()where i | -1 | -^1<2
transform T from A[n]to B[n]{to(B b)from()where 0<i | -1 | -^1
transform T from A[n]to B[n]{to(B b)from(){let t[n | +n | +^n
transform T from A[n]to B[n]{to(B b)from(){b=n | +n | +n+n+n;}}";

const NUMBER_2: &str =
    "transform T where n>=1048576 | ,n>=01048576 | from A[n]to B[n]{to(B b)from(){}}
transform T where n>=1 | ,n>=1 | ,n>=^1048577
transform T from A[n | +1048576 | ,0001048576*n]to B[n]{to(B b)from(){}}
transform T from A[n | +1048576 | +^1048577
transform T from A[n | +1 | -^9223372036854775807
transform T from A[n | +1048576*n | +^1048577*n
transform T from A[n | +1 | +^1048577/2]
transform T from A[n | +1 | ,-^1048577]
transform T from A[n | +1 | ]through C[^1048577]
transform T from A[n | +1 | ]to B[^1048577]
transform T from A[n]to B[n]{ | priority(1048576)to(B b)from(){} | priority(0)to(B b)from(){}}
transform T from A[n]to B[n]{ | priority(1)to(B b)from(){} | priority(^1048577)to(
transform T from A[n]to B[n]{to(B.cell(i | +1048576 | ) b)from(A.row(1048576) a,A.region(0,1048576) c)where 1048576<1048576{}}
transform T from A[n]to B[n]{to(B.cell(i | +1048576 | ,^1048577
transform T from A[n]to B[n]{to(B b)from(A.region(0,n | +1 | ,2,^1048577
transform T from A[n]to B[n]{to(B b)from()where i<1 | ,i<1048576 | ,^1048577<i
transform T from A[n]to B[n]{to(B b)from()where i<1 | ,i<1048576 | ,i<^1048577
transform T from A[n]to B[n]{to(B b)from(){let t[n | +1048576 | ];}}
transform T from A[n]to B[n]{to(B b)from(){let t[n | +1048576 | ,^1048577]
transform T from A[n]to B[n]{to(B b)from(){b=1 | +9223372036854775807 | *1048577;}}
transform T from A[n]to B[n]{to(B b)from(){b=f(1048577 | ,1048577 | );t,t=f(1048577);b.cell(1048577)=1;for(k=0..1048577){}}}";

const NUMBER_16: &str = "transform T from A[n]to B[n]{to(B.cell(^1048577) b | ,B b | ,B b)";

const STATEMENTS_256: &str = "transform T from A[n]to B[n]{to(B b)from(){ | b=1; | }}
transform T from A[n]to B[n]{to(B b)from(){b=1;b=1;}to(B b)from(){ | b=1; | }}
transform T from A[n]to B[n]{to(B b)from(){ | let t[n]; | }}
transform T from A[n]to B[n]{to(B b)from(){ | b=1; | ^b
transform T from A[n]to B[n]{to(B b)from(){ | b=1; | ^let
transform T from A[n]to B[n]{to(B b)from(){ | b=1; | ^if
transform T from A[n]to B[n]{to(B b)from(){ | let x=1; | ^for(
transform T from A[n]to B[n]{to(B b)from(){ | t,t=f(1); | ^t,t=f(1);
transform T from A[n]to B[n]{to(B b)from(){ | x.cell(1)=2; | ^x.cell(2)=1;";

const STATEMENTS_255: &str = "transform T from A[n]to B[n]{to(B b)from(){if(1){ | b=1; | }}}
transform T from A[n]to B[n]{to(B b)from(){if(1){}else{ | b=1; | }}}
transform T from A[n]to B[n]{to(B b)from(){for(k=0..1){ | if(1){}else{} | }}}
transform T from A[n]to B[n]{to(B b)from(){if(1){ | b=1; | ^b=1;
transform T from A[n]to B[n]{to(B b)from(){if(1){ | b=1; | }^b=1;
transform T from A[n]to B[n]{to(B b)from(){if(1){ | b=1; | }else{^b=1;
transform T from A[n]to B[n]{to(B b)from(){if(1){}else{ | b=1; | ^b=1;
transform T from A[n]to B[n]{to(B b)from(){for(k=0..1){ | b=1; | }^for";

const STATEMENTS_128: &str = "transform T from A[n]to B[n]{to(B b)from(){ | if(1){b=1;} | }}
transform T from A[n]to B[n]{to(B b)from(){ | for(k=0..1){b=1;} | ^b";

const STATEMENTS_85: &str =
    "transform T from A[n]to B[n]{to(B b)from(){ | if(1){b=1;}else{b=1;} | b=1;}}
transform T from A[n]to B[n]{to(B b)from(){ | if(1){b=1;}else{b=1;} | b=1;^if";

const NESTING_31: &str =
    "transform T from A[n]to B[n]{to(B b)from(){b= | ( | 1)))))))))))))))))))))))))))))));}}
transform T from A[n]to B[n]{to(B b)from(){b= | f( | 1)))))))))))))))))))))))))))))));}}
transform T from A[n]to B[n]{to(B b)from(){ | if(1){ | b=1;}}}}}}}}}}}}}}}}}}}}}}}}}}}}}}}}}
transform T from A[n]to B[n]{to(B b)from(){ | for(k=0..1){ | }}}}}}}}}}}}}}}}}}}}}}}}}}}}}}}}}
transform T from A[n]to B[n]{to(B b)from(){b= | ( | ^(
transform T from A[n]to B[n]{to(B b)from(){b= | ( | ^(((1
transform T from A[n]to B[n]{to(B b)from(){b= | -( | !^(
transform T from A[n]to B[n]{to(B b)from(){b= | (1+ | 2*^(
transform T from A[n]to B[n]{to(B b)from(){b= | f( | ^(
transform T from A[n]to B[n]{to(B b)from(){b= | f(1, | f^(
transform T from A[n]to B[n]{to(B b)from(){b= | x.cell( | x.cell^(
transform T from A[n]to B[n]{to(B b)from(){b= | x.cell(1, | x.width^()
transform T from A[n]to B[n]{to(B b)from(){b= | ( | x.height^(
transform T from A[n]to B[n]{to(B b)from(){ | if(1){ | if^(
transform T from A[n]to B[n]{to(B b)from(){ | if(1){ | for^(
transform T from A[n]to B[n]{to(B b)from(){ | if(1){}else{ | t,t=f^(1
transform T from A[n]to B[n]{to(B b)from(){ | for(k=0..1){ | x.cell^(1
transform T from A[n]to B[n]{to(B b)from(){ | for(k=0..1){ | b=f^(1
transform T from A[n]to B[n]{to(B b)from(){ | for(k=0..1){ | let t[n];let x=^(";

const NESTING_30: &str =
    "transform T from A[n]to B[n]{to(B b)from(){if(x){} | if(x){ | if(x){b=1;}else{c=2;}}}}}}}}}}}}}}}}}}}}}}}}}}}}}}}}}
transform T from A[n]to B[n]{to(B b)from(){b= | ( | f()+(1)+x.cell(1,2)+x.width()))))))))))))))))))))))))))))));}}
transform T from A[n]to B[n]{to(B b)from(){let x= | ( | f(^(1
transform T from A[n]to B[n]{to(B b)from(){t,t=f( | ( | ^(
transform T from A[n]to B[n]{to(B b)from(){if( | ( | ^(
transform T from A[n]to B[n]{to(B b)from(){for(k= | ( | ^(
transform T from A[n]to B[n]{to(B b)from(){for(k=0.. | ( | ^(
transform T from A[n]to B[n]{to(B b)from(){x.cell( | ( | ^(
transform T from A[n]to B[n]{to(B b)from(){x.cell(1)= | ( | (^(";

const BAD_SYNTAX_64: &str = " | transform T from A[n]to B[n]{to(B b)from(){}} | ^to
 | transform T from A[n]to B[n]{to(B b)from(){}} | ^}
 | transform T from A[n]to B[n]{to(B b)from(){}} | ^T";

const BAD_SYNTAX_32: &str = "transform T from A[n]to B[n]{ | to(B b)from(){} | ^from
transform T from A[n]to B[n]{ | to(B b)from(){} | ^
transform ^( | ( | (";

const BAD_SYNTAX_13: &str = "transform T from A[n],A[n],A[n] | ,A[n] | ,^[n]
transform T from A[n],A[n],A[n] | ,A[n] | to ^{";

const BAD_SYNTAX_2: &str = "transform T from A[a,b],A[c,d],A[e,f],A[g,h] | ,A[a,h] | ,A[i ^;
transform T from A[a,b],A[c,d],A[e,f],A[g,h] | ,A[a,h] | ,A[i^
transform T from A[a,b],A[c,d],A[e,f],A[g,h] | ,A[a,h] | ,A[1*i ^)
transform T from A[a,b],A[c,d],A[e,f],A[g,h] | ,A[a,h] | ,A[2,i ^,";

const BAD_SYNTAX_15: &str = "transform T from A[n]to B[n]{to(B b | ,B b | ,^)
transform T from A[n]to B[n]{to(B b)from(A a | ,A a | ,^1
transform T from A[n]to B[n]{to(B b)from()where i<1 | ,i<1 | ,^<
transform T from A[n]to B[n]{to(B b)from(){t | ,t | ,^=
transform T from A[n]to B[n]{to(B b)from(){b=f(1 | ,1 | ,^)
transform T from A[n]to B[n]{to(B b)from(){b=f(1 | ,1 | ,^*
transform T from A[n]to B[n]{to(B b)from(){b=f(1 | ,1 | ,^,1
transform T from A[n]to B[n]{to(B b)from(){b=f(1 | ,1 | ,^if
transform T from A[n]to B[n]{to(B b)from(){b=f(1 | ,1 | ^x
transform T from A[n]to B[n]{to(B b)from(){t,t=f(1 | ,1 | ,^)
transform T from A[n]to B[n]{to(B b)from(){b=((((((((((((((((((((((((((((((f(1 | ,1 | ,^)";

const BAD_SYNTAX_7: &str = "transform T where n>=1 | ,n>=1 | ,^1
transform T from A[n | +n | +^]
transform T from A[n | +n | -^-n
transform T from A[n | +n | +^(n)";

const BAD_SYNTAX_256: &str = "transform T from A[n]to B[n]{to(B b)from(){ | b=1; | ^;
transform T from A[n]to B[n]{to(B b)from(){ | b=1; | ^1
transform T from A[n]to B[n]{to(B b)from(){ | b=1; | ^else
transform T from A[n]to B[n]{to(B b)from(){ | b=1; | }^";

const BAD_SYNTAX_31: &str = "transform T from A[n]to B[n]{to(B b)from(){b= | ( | ^)
transform T from A[n]to B[n]{to(B b)from(){b= | ( | 1 ^(
transform T from A[n]to B[n]{to(B b)from(){ | if(1){ | ^(";
