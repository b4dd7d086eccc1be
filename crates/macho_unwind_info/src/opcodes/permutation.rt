// Lists of registers that are packed into ten bits.
ghost use Rattle.std.specs.Prelude.{◌≡◌, ◌-◌, ◌≤◌, ◌<◌, ◌↔◌, ◌++◌, ℕ, List, true, length, Some};
ghost use Rattle.std.specs.Prelude.{None, Ok, IfOk, IsOkAnd, IsErr, slice_index, replicate};
ghost use Rattle.macho_unwind_info.specs.Permutation.{permutation, arrangements, permutation_number, distinct};
ghost use Rattle.macho_unwind_info.specs.Permutation.{IsArrangement};
ghost use Rattle.macho_unwind_info.specs.FirstOnes.{kept_at, first_ones};

/// By what the number of a list of so many registers is multiplied to be that of the list of all six
/// which begins with them and goes on in order: by that list's digits after theirs, which are 0.
static SCALES: [u64; 7] = [0, 120, 24, 6, 2, 1, 1];

/// How many lists of all six registers there are.
const LISTS: u64 = 720;

/// By the first two digits, taken together, the two registers that they name, and then the other four
/// in order.
static PAIRS: [[u8; 6]; 30] = [
    [1, 2, 3, 4, 5, 6],
    [1, 3, 2, 4, 5, 6],
    [1, 4, 2, 3, 5, 6],
    [1, 5, 2, 3, 4, 6],
    [1, 6, 2, 3, 4, 5],
    [2, 1, 3, 4, 5, 6],
    [2, 3, 1, 4, 5, 6],
    [2, 4, 1, 3, 5, 6],
    [2, 5, 1, 3, 4, 6],
    [2, 6, 1, 3, 4, 5],
    [3, 1, 2, 4, 5, 6],
    [3, 2, 1, 4, 5, 6],
    [3, 4, 1, 2, 5, 6],
    [3, 5, 1, 2, 4, 6],
    [3, 6, 1, 2, 4, 5],
    [4, 1, 2, 3, 5, 6],
    [4, 2, 1, 3, 5, 6],
    [4, 3, 1, 2, 5, 6],
    [4, 5, 1, 2, 3, 6],
    [4, 6, 1, 2, 3, 5],
    [5, 1, 2, 3, 4, 6],
    [5, 2, 1, 3, 4, 6],
    [5, 3, 1, 2, 4, 6],
    [5, 4, 1, 2, 3, 6],
    [5, 6, 1, 2, 3, 4],
    [6, 1, 2, 3, 4, 5],
    [6, 2, 1, 3, 4, 5],
    [6, 3, 1, 2, 4, 5],
    [6, 4, 1, 2, 3, 5],
    [6, 5, 1, 2, 3, 4],
];

/// By the digits after the first two, taken together, where in a row of `PAIRS` the last four
/// registers stand.
static ORDERS: [[u8; 4]; 24] = [
    [2, 3, 4, 5],
    [2, 3, 5, 4],
    [2, 4, 3, 5],
    [2, 4, 5, 3],
    [2, 5, 3, 4],
    [2, 5, 4, 3],
    [3, 2, 4, 5],
    [3, 2, 5, 4],
    [3, 4, 2, 5],
    [3, 4, 5, 2],
    [3, 5, 2, 4],
    [3, 5, 4, 2],
    [4, 2, 3, 5],
    [4, 2, 5, 3],
    [4, 3, 2, 5],
    [4, 3, 5, 2],
    [4, 5, 2, 3],
    [4, 5, 3, 2],
    [5, 2, 3, 4],
    [5, 2, 4, 3],
    [5, 3, 2, 4],
    [5, 3, 4, 2],
    [5, 4, 2, 3],
    [5, 4, 3, 2],
];

/// The register at a place of a row.
fn register_at(row: &[u8; 6], place: u8) -> u8
    requires { place < 6 }
    ensures { result ≡ slice_index row.now place }
{
    row[usize::from(place)]
}

/// The list of all six registers that a number spells.
fn all_six(number: u64) -> [u8; 6]
    requires { number < 720 }
    ensures { permutation 6 number ≡ Some result }
{
    let row = &PAIRS[(number / 24) as usize];
    let order = &ORDERS[(number % 24) as usize];
    [
        row[0],
        row[1],
        register_at(row, order[0]),
        register_at(row, order[1]),
        register_at(row, order[2]),
        register_at(row, order[3]),
    ]
}

/// A register at a place of a list, which is kept where the list is longer, or else 0.
fn kept_at(place: u32, count: u32, register: u8) -> u8
    ensures { result ≡ kept_at count place register }
{
    if place < count { register } else { 0 }
}

/// The first registers of a list, so many, and then zeros.
fn first_ones(count: u32, registers: [u8; 6]) -> [u8; 6]
    ensures { result ≡ first_ones count registers }
{
    let [first, second, third, fourth, fifth, sixth] = registers;
    [
        kept_at(0, count, first),
        kept_at(1, count, second),
        kept_at(2, count, third),
        kept_at(3, count, fourth),
        kept_at(4, count, fifth),
        kept_at(5, count, sixth),
    ]
}

/// The list of `count` distinct registers from 1 to 6 that a number spells, followed by zeros.
///
/// The number is written in digits, the last one lowest: digit i, from 0, has radix 6 - i and names
/// that many-th register of those that no digit before it names, counted from 0. The sixth digit is
/// always 0 and isn't written. So for a count of 1 to 6 the numbers below 6! / (6 - count)! are one
/// to one with the lists of so many distinct registers.
///
/// Errors: a count above 6, and a number whose first digit names no register, being 6 or more.
pub fn decode_permutation_6(count: u32, encoding: u32) -> Result<[u8; 6], ()>
    ensures ok { IfOk result (λ registers. permutation count encoding ≡ Some registers) }
    ensures refused { IsErr result ↔ (permutation count encoding ≡ None) }

    // one to one
    ensures below { 1 ≤ count → count ≤ 6 → encoding < arrangements count → IsOkAnd result
        (IsArrangement count encoding) }
    ensures onto { (registers : List ℕ) → 1 ≤ count → count ≤ 6 → length registers ≡ count →
        distinct registers ≡ true → encoding ≡ permutation_number registers →
        result ≡ Ok (registers ++ replicate (6 - count) 0) }

    // and no other number
    ensures past { 1 ≤ count → count ≤ 6 → arrangements count ≤ encoding → IsErr result }
    ensures none { count ≡ 0 → result ≡ Ok (replicate 6 0) }
    ensures above { 6 < count → IsErr result }
{
    decoded_registers(count, encoding)
}

/// The list of registers: the first ones of the list of all six that begins with them.
fn decoded_registers(count: u32, encoding: u32) -> Result<[u8; 6], ()>
    ensures ok { IfOk result (λ registers. permutation count encoding ≡ Some registers) }
    ensures refused { IsErr result ↔ (permutation count encoding ≡ None) }
{
    if count > 6 {
        return Err(());
    }
    let number = u64::from(encoding) * SCALES[count as usize];
    if number >= LISTS {
        return Err(());
    }
    Ok(first_ones(count, all_six(number)))
}
