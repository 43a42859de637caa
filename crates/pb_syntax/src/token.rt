use pb_values::Name;

/// A token of a text and the place of its first byte, from 0.
#[derive(Drop)]
pub struct Token {
    pub at: u32,
    pub what: TokenWhat,
}

/// A name or keyword, a number of at most 9223372036854775807, or a sign by its place, from 0, among
/// `( ) { } [ ] , ; . .. = == != < <= > >= + - * / % && || !`.
#[derive(Drop)]
pub enum TokenWhat {
    Word(Name),
    Number(u64),
    Sign(u8),
}
