use pb_values::Kind;
use std::marker::Model;

/// A kind of trap as one word. The result of a function that gives a number or such a word is passed in registers, which that of
/// a number or a `Kind` is not.
#[derive(Drop)]
pub struct KindWord {
    word: u64,
}

impl Model for KindWord {
    ghost use Rattle.pb_values.specs.declared.outcome.Kind.{Kind};
    ghost use Rattle.pb_numbers.specs.KindWords.{kind_in};

    ghost Value = { Kind };

    ghost view = { λ k. kind_in k.word };
}

impl KindWord {
    ghost use Rattle.std.specs.Prelude.{◌≡◌};

    /// The word of a kind.
    #[inline(always)]
    pub fn of(kind: Kind) -> KindWord
        ensures { result ≡ kind }
    {
        let word = match kind {
            Kind::Overflow => 0,
            Kind::DivideByZero => 1,
            Kind::OutOfView => 2,
            Kind::LoopLimit => 3,
            Kind::BadShape => 4,
            Kind::DepthEnded => 5,
        };
        KindWord { word }
    }

    /// The kind that the word stands for.
    pub fn kind(self) -> Kind
        ensures { result ≡ self }
    {
        match self.word {
            0 => Kind::Overflow,
            1 => Kind::DivideByZero,
            2 => Kind::OutOfView,
            3 => Kind::LoopLimit,
            4 => Kind::BadShape,
            _ => Kind::DepthEnded,
        }
    }
}

impl From<KindWord> for Kind {
    ghost use Rattle.std.specs.Prelude.{◌≡◌};

    ghost from_gives = { λ word kind. kind ≡ word };

    fn from(word: KindWord) -> Kind {
        word.kind()
    }
}

ghost use Rattle.std.specs.Prelude.{◌≡◌};

/// The same number or the same kind.
#[inline(always)]
pub fn in_words(found: Result<i64, Kind>) -> Result<i64, KindWord>
    ensures { result ≡ found }
{
    match found {
        Ok(number) => Ok(number),
        Err(kind) => Err(KindWord::of(kind)),
    }
}
