// For each item, which of listed states have it, as digits of words.
ghost use Rattle.std.specs.Prelude.{◌≡◌, ◌+◌, ◌*◌, ◌/◌, ◌%◌, ◌<◌, ◌≤◌, ◌==◌, ℕ, length};
ghost use Rattle.std.specs.Prelude.{false, if◌then◌else◌, not, slice_index, true, IfOk};
ghost use Rattle.std.specs.Int.{bit_at};
ghost use Rattle.ls_set.specs.{most_items};
ghost use Rattle.ls_theory.specs.{most_states};
ghost use Rattle.ls_weight.specs.Rows.{agrees_at, width_of, words_of, AreColumns};
ghost use Rattle.ls_weight.specs.Rows.{IsFirstFrom, IsRest};

use std::alloc::{AllocError, Global};

/// A word has a digit for each of so many states.
pub(crate) const WORD_STATES: usize = 64;

// Whether the digit of the byte at a place is 1; past the end of the bytes it is not.
fn has_digit(bytes: &[u8], place: usize, digit: u32) -> bool
    requires { digit < 8 }
    ensures { result ≡ (bit_at (slice_index bytes.now place) digit == 1) }
{
    place < bytes.len() && bytes[place] >> digit & 1 == 1
}

// The word for the item and the 64 states from `first` on, of which the rows are given.
fn word_of(bytes: &[u8], width: usize, first: usize, q: u32) -> u64
    requires few_items { q < most_items }
    requires few_groups { width ≤ most_items }
    requires few_states { first ≤ most_states }
    ensures { (j : ℕ) → j < 64 → (bit_at result j == 1)
        ≡ (bit_at (slice_index bytes.now (width * (first + j) + q / 8)) (q % 8) == 1) }
{
    let mut word = 0;
    for j in 0..WORD_STATES {
        if has_digit(bytes, width * (first + j) + (q / 8) as usize, q % 8) {
            word |= 1 << j;
        }
    }
    word
}

// The words of each item, one item's behind another's, for `count` states whose rows are given.
pub(crate) fn columns_of(
    alloc: Global,
    bytes: &[u8],
    n: u32,
    count: usize,
) -> Result<Vec<u64>, AllocError>
    requires few_items { n ≤ most_items }
    requires few_states { count ≤ most_states }
    ensures { IfOk result (λ v. AreColumns n count bytes.now v.items) }
{
    let width = (n as usize + 7) / 8;
    let words = (count + 63) / WORD_STATES;
    let mut columns = Vec::with_capacity(alloc, words * n as usize)?;
    for at in 0..words * n as usize {
        columns.push(word_of(
            bytes,
            width,
            WORD_STATES * (at % words),
            (at / words) as u32,
        ))?;
    }
    Ok(columns)
}

// The digits of the word for a right reply, and the others for a wrong one.
fn agreeing(word: u64, right: bool) -> u64
    ensures { (j : ℕ) → j < 64 → (bit_at result j == 1)
        ≡ (if right then bit_at word j == 1 else not (bit_at word j == 1)) }
{
    if right { word } else { !word }
}

// The first place from `from` on that agrees, by the column of the reply's item; the end of the
// column where there is none.
fn next_agreeing(column: &[u64], right: bool, from: usize) -> usize
    requires few { length column.now ≤ most_states }
    requires within { from ≤ 64 * length column.now }
    ensures later { from ≤ result }
    ensures none { (k : ℕ) → from ≤ k → k < result → agrees_at column.now right k ≡ false }
    ensures first { result < 64 * length column.now → agrees_at column.now right result ≡ true }
{
    if from / WORD_STATES >= column.len() {
        return from;
    }
    let rest = agreeing(column[from / WORD_STATES], right) >> (from % WORD_STATES);
    if rest != 0 {
        return from + rest.trailing_zeros() as usize;
    }
    for w in from / WORD_STATES + 1..column.len() {
        let word = agreeing(column[w], right);
        if word != 0 {
            return WORD_STATES * w + word.trailing_zeros() as usize;
        }
    }
    WORD_STATES * column.len()
}

// The digits of a place's word from the place on, of what agrees.
fn rest_at(column: &[u64], right: bool, place: usize) -> u64
    requires { place < 64 * length column.now }
    ensures { IsRest column.now right place result }
{
    agreeing(column[place / WORD_STATES], right) >> (place % WORD_STATES)
}

// The first place from `from` on that agrees, and the digits of its word from there on. A pass
// calls it once a word, and keeps its registers for the states.
#[cold]
#[inline(never)]
pub(crate) fn first_from(column: &[u64], right: bool, from: usize) -> (usize, u64)
    requires few { length column.now ≤ most_states }
    requires within { from ≤ 64 * length column.now }
    ensures { IsFirstFrom column.now right from result.0 result.1 }
{
    let place = next_agreeing(column, right, from);
    if place < WORD_STATES * column.len() {
        (place, rest_at(column, right, place))
    } else {
        (place, 0)
    }
}

// The next place behind one that agrees, of which the digits from it on are given.
#[inline(always)]
pub(crate) fn step(column: &[u64], right: bool, place: usize, rest: u64) -> (usize, u64)
    requires few { length column.now ≤ most_states }
    requires within { place < 64 * length column.now }
    requires rest { IsRest column.now right place rest }
    ensures { IsFirstFrom column.now right (place + 1) result.0 result.1 }
{
    let behind = rest >> 1;
    if behind == 0 {
        return first_from(column, right, place + 1);
    }
    let skip = behind.trailing_zeros();
    (place + 1 + skip as usize, behind >> skip)
}
