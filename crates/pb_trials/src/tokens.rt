//! Texts: their tokens with their places, or why they have none.
use pb_lexer::{MOST_BYTES, tokens};
use pb_prog::{Refusal, Token, TokenWhat};
use std::alloc::{AllocError, Global};
use std::test::Fail;

// A token and its place: a word as it stands, a number after `#`, a sign's place after `s`.
fn told(alloc: Global, token: &Token) -> Result<String, AllocError> {
    let at = token.at;
    match &token.what {
        TokenWhat::Word(name) => {
            let word = String::from_utf8_lossy(alloc, name.bytes())?;
            format!(in alloc; "{word}@{at} ")
        }
        TokenWhat::Number(value) => format!(in alloc; "#{value}@{at} "),
        TokenWhat::Sign(place) => format!(in alloc; "s{place}@{at} "),
    }
}

fn said(alloc: Global, text: &[u8]) -> Result<String, AllocError> {
    match tokens(alloc, text) {
        Ok(found) => {
            let mut line = String::new(alloc);
            for token in found.iter() {
                let one = told(alloc, token)?;
                line.push_str(one.as_str())?;
            }
            Ok(line)
        }
        Err(Refusal::TooLong) => format!(in alloc; "too long"),
        Err(Refusal::BadToken { at }) => format!(in alloc; "bad token at {at}"),
        Err(_) => format!(in alloc; "another refusal"),
    }
}

const ROWS: [(&[u8], &str); 24] = [
    (b"", ""),
    (b" \t\r\n", ""),
    (b"transform T", "transform@0 T@10 "),
    (b"transform @", "bad token at 10"),
    (b"/* a", "bad token at 0"),
    (b"/*/", "bad token at 0"),
    (b"a/**/b", "a@0 b@5 "),
    (b"/***/ a */ b", "a@6 s19@8 s20@9 b@11 "),
    (b"a // @\r@\nb", "a@0 b@9 "),
    (b"a // @", "a@0 "),
    (b"a//", "a@0 "),
    (b"x1_Y 1x", "x1_Y@0 #1@5 x@6 "),
    (b"0..07", "#0@0 s9@1 #7@3 "),
    (b"...", "s9@0 s8@2 "),
    (
        b"a<=b<c==d=e",
        "a@0 s14@1 b@3 s13@4 c@5 s11@6 d@8 s10@9 e@10 ",
    ),
    (b"!= ! >= > && ||", "s12@0 s24@3 s16@5 s15@8 s22@10 s23@13 "),
    (b"(){}[],;", "s0@0 s1@1 s2@2 s3@3 s4@4 s5@5 s6@6 s7@7 "),
    (b"+-*/%", "s17@0 s18@1 s19@2 s20@3 s21@4 "),
    (b"a & b", "bad token at 2"),
    (b"a|", "bad token at 1"),
    (b"9223372036854775807", "#9223372036854775807@0 "),
    (b"9223372036854775808", "bad token at 0"),
    (b"a 18446744073709551616", "bad token at 2"),
    (b"00000000000000000000000000000000007", "#7@0 "),
];

#[test]
fn texts_have_their_tokens(rt: HostRuntime) -> Result<(), Fail> {
    for (text, expected) in &ROWS {
        let found = said(rt.alloc(), text)?;
        assert_eq!(rt; found.as_str(), *expected);
    }
    Ok(())
}

#[test]
fn a_text_is_at_most_so_long(rt: HostRuntime) -> Result<(), Fail> {
    let most = vec![in rt.alloc(); b' '; MOST_BYTES]?;
    let found = said(rt.alloc(), most.as_slice())?;
    assert_eq!(rt; found.as_str(), "");
    let longer = vec![in rt.alloc(); b' '; MOST_BYTES + 1]?;
    let refused = said(rt.alloc(), longer.as_slice())?;
    assert_eq!(rt; refused.as_str(), "too long");
    Ok(())
}
