// What all layers share: the answers of readers and writers, whose numbers specs/Answers.antt has too. Definitions and laws; byte_codec has
// functions on bytes.

#![tactic(auto)]

// A value that was read, and how many bytes it took.
#[derive(Clone, Copy)]
pub struct Decoded<T> {
    pub value: T,
    pub consumed: usize,
}

// Why a reader gives no value; the number is that of docs/FORMAT.md, "Refusals".
#[derive(Clone, Copy, Debug, PartialEq, Eq)]
pub enum DecodeError {
    EndOfInput = 1,
    TheirFault = 2,
    Malformed = 5,
}

impl From<DecodeError> for u8 {
    ghost use Rattle.std.specs.Prelude.{◌≡◌};
    ghost use Rattle.codec.specs.Answers.{decode_number};

    ghost from_gives = { λ e n. n ≡ decode_number e };

    fn from(error: DecodeError) -> u8 {
        error as u8
    }
}

// Why a writer changes no byte, by its number there.
#[derive(Clone, Copy, Debug, PartialEq, Eq)]
pub enum EncodeError {
    Outside = 3,
    NoRoom = 4,
    Malformed = 5,
}

impl From<EncodeError> for u8 {
    ghost use Rattle.std.specs.Prelude.{◌≡◌};
    ghost use Rattle.codec.specs.Answers.{encode_number};

    ghost from_gives = { λ e n. n ≡ encode_number e };

    fn from(error: EncodeError) -> u8 {
        error as u8
    }
}

// A record that was handed in is not well formed.
#[derive(Clone, Copy, Debug, PartialEq, Eq)]
pub struct Malformed;

impl From<Malformed> for DecodeError {
    ghost use Rattle.std.specs.Prelude.{◌≡◌};
    ghost use Rattle.codec.specs.declared.DecodeError.TheVariants as decoding;

    ghost from_gives = { λ _ e. e ≡ decoding.Malformed };

    fn from(_: Malformed) -> DecodeError {
        DecodeError::Malformed
    }
}

impl From<Malformed> for EncodeError {
    ghost use Rattle.std.specs.Prelude.{◌≡◌};
    ghost use Rattle.codec.specs.declared.EncodeError.TheVariants as encoding;

    ghost from_gives = { λ _ e. e ≡ encoding.Malformed };

    fn from(_: Malformed) -> EncodeError {
        EncodeError::Malformed
    }
}
