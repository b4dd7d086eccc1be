//! What an augmentation says, letter by letter. LSB, section on `.eh_frame`.

ghost use Rattle.std.specs.Prelude.{◌≡◌, ℕ, List, [], ◌∷◌, ◌++◌, IfOk};
ghost use Rattle.std.specs.List.{list_all};
ghost use Rattle.unwind_definitions.specs.Augmentation.{is_augmentation, is_letter, letters_in};
ghost use Rattle.unwind_definitions.specs.Entries.{augmentation_data, letter, letters_from};
ghost use Rattle.unwind_definitions.specs.Entries.{no_letters};
ghost use Rattle.encoded_pointers.specs.Readers.{Answers, GivesOr};
ghost use Rattle.encoded_pointers.specs.PointerViews.{bases_of};
ghost use Rattle.encoded_pointers.specs.CursorViews.{at};
ghost use Rattle.eh_frame.specs.Letters.{Tells, letters_of};

use encoded_pointers::{
    Bases, Cursor, DwEhPe, Pointer, parse_encoded_pointer, parse_pointer_encoding,
};
use unwind_definitions::Error;

/// What the letters of an augmentation say.
#[derive(Clone, Copy)]
pub(crate) struct Letters {
    /// L: how the pointers to language tables are encoded.
    pub(crate) language: Option<DwEhPe>,
    /// P: the personality, and how it is encoded.
    pub(crate) personality: Option<Personality>,
    /// R: how addresses are encoded.
    pub(crate) address: Option<DwEhPe>,
    /// S: that the frame is a signal's.
    pub(crate) is_signal: bool,
}

/// A personality with its encoding.
#[derive(Clone, Copy)]
pub(crate) struct Personality {
    pub(crate) encoding: DwEhPe,
    pub(crate) pointer: Pointer,
}

const NO_LETTERS: Letters = Letters {
    language: None,
    personality: None,
    address: None,
    is_signal: false,
};

/// Whether an augmentation, without its zero byte, is one that is known: empty, or a `z` and letters
/// in any order.
pub(crate) fn is_known(augmentation: &[u8]) -> bool
    ensures { result ≡ is_augmentation augmentation.now }
{
    match augmentation.split_first() {
        None => true,
        Some((first, letters)) => *first == b'z' && are_letters(letters),
    }
}

fn are_letters(bytes: &[u8]) -> bool
    ensures { result ≡ list_all (λ l. is_letter l) bytes.now }
{
    bytes.iter().all(|byte| is_letter(*byte))
}

fn is_letter(byte: u8) -> bool
    ensures { result ≡ is_letter byte }
{
    matches!(byte, b'L' | b'P' | b'R' | b'S')
}

/// What stands after the return column: with a z a length, and so many bytes for the other
/// letters. After a fault the cursor is unspecified.
pub(crate) fn read_augmentation_data(
    augmentation: &[u8],
    bases: &Bases,
    input: &mut Cursor,
) -> Result<Letters, Error>
    ensures reads { GivesOr letters_of result
        (augmentation_data (bases_of bases.now) augmentation.now (at input.old)) (at input.new) }
    ensures told { IfOk result (λ found. Tells (letters_in augmentation.now) (letters_of found)) }
{
    if augmentation.is_empty() {
        return Ok(NO_LETTERS);
    }
    let count = input.read_uleb128()?;
    let block = input.split(count)?;
    read_letters(&augmentation[1..], bases, block)
}

// What letters say, by the bytes of their block.
fn read_letters(letters: &[u8], bases: &Bases, block: Cursor) -> Result<Letters, Error>
    ensures reads { Answers letters_of result
        (letters_from (bases_of bases.now) letters.now no_letters (at block.entry)) }
    ensures told { IfOk result (λ found. Tells letters.now (letters_of found)) }
{
    let mut input = block;
    let mut found = NO_LETTERS;
    for byte in letters {
        found = read_letter(*byte, bases, found, &mut input)?;
    }
    Ok(found)
}

// One letter, with what it takes of the block.
fn read_letter(
    byte: u8,
    bases: &Bases,
    before: Letters,
    input: &mut Cursor,
) -> Result<Letters, Error>
    ensures reads { GivesOr letters_of result
        (letter (bases_of bases.now) byte (letters_of before) (at input.old)) (at input.new) }
    ensures told { (letters : List ℕ) → Tells letters (letters_of before) →
        IfOk result (λ found. Tells (letters ++ byte ∷ []) (letters_of found)) }
{
    match byte {
        b'L' => Ok(Letters {
            language: Some(parse_pointer_encoding(input)?),
            ..before
        }),
        b'P' => {
            let encoding = parse_pointer_encoding(input)?;
            let pointer = parse_encoded_pointer(encoding, bases, input)?;
            Ok(Letters {
                personality: Some(Personality { encoding, pointer }),
                ..before
            })
        }
        b'R' => Ok(Letters {
            address: Some(parse_pointer_encoding(input)?),
            ..before
        }),
        b'S' => Ok(Letters {
            is_signal: true,
            ..before
        }),
        _ => Err(Error::UnknownAugmentation),
    }
}
