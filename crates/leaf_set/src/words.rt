// Bits in words, 64 to a word.
ghost use Rattle.std.specs.Prelude.{◌≡◌, ℕ, ◌+◌, ◌*◌, ◌/◌, ◌%◌, ◌<◌, ◌≤◌, ◌++◌, true, false, length, vec_len};
ghost use Rattle.std.specs.Vec.{vec_capacity};
ghost use Rattle.leaf_set.specs.Words.{has, has_bit, those_from, ones_of, SetsBit, Clears, TakesLowest};
ghost use Rattle.leaf_set.specs.Words.{Grows, Unites};

/// Whether the bit `at` is 1.
pub fn is_set(words: &[u64], at: u32) -> bool
    requires { at / 64 < length words.now }
    ensures { result ≡ has words.now at }
{
    (words[(at / 64) as usize] >> (at % 64)) & 1 == 1
}

/// Makes the bit `at` 1.
pub fn set(words: &mut [u64], at: u32)
    requires { at / 64 < length words.old }
    ensures { SetsBit words.old words.new at true }
{
    words[(at / 64) as usize] |= 1u64 << (at % 64);
}

/// Makes the bit `at` 0.
pub fn clear(words: &mut [u64], at: u32)
    requires { at / 64 < length words.old }
    ensures { SetsBit words.old words.new at false }
{
    words[(at / 64) as usize] &= !(1u64 << (at % 64));
}

/// Takes all members of the set, which are the bits of its words that are 1. A word that has a
/// member has its mark, a bit of `marks` that is 1; only words with a mark are read, and no mark is
/// left.
pub fn take_marked(words: &mut [u64], marks: &mut [u64], into: &mut Vec<u32>)
    requires whole { length words.old ≡ 64 * length marks.old }
    requires few { 64 * length words.old ≤ 4294967296 }
    requires marked { (i : ℕ) → has words.old i ≡ true → has marks.old (i / 64) ≡ true }
    requires room { vec_len into.old + length (those_from (has words.old) 0 (64 * length words.old))
        ≤ vec_capacity into.old }
    ensures taken { into.new.items
        ≡ into.old.items ++ those_from (has words.old) 0 (64 * length words.old) }
    ensures left { (i : ℕ) → has words.new i ≡ false }
    ensures unmarked { (i : ℕ) → has marks.new i ≡ false }
    ensures capacity { vec_capacity into.new ≡ vec_capacity into.old }
{
    let blocks = marks.len() as u32;
    for block in 0..blocks {
        let left = marks[block as usize];
        marks[block as usize] = 0;
        take_block(words, block, left, into);
    }
}

// Takes the members of 64 words, of which only those with a mark are read.
fn take_block(words: &mut [u64], block: u32, marks: u64, into: &mut Vec<u32>)
    requires within { 64 * block + 64 ≤ length words.old }
    requires few { 64 * length words.old ≤ 4294967296 }
    requires marked { (i : ℕ) → 4096 * block ≤ i → i < 4096 * block + 4096
        → has words.old i ≡ true → has_bit marks (i / 64 % 64) ≡ true }
    requires room { vec_len into.old + length (those_from (has words.old) (4096 * block) 4096)
        ≤ vec_capacity into.old }
    ensures taken { into.new.items
        ≡ into.old.items ++ those_from (has words.old) (4096 * block) 4096 }
    ensures left { Clears words.old words.new (4096 * block) 4096 }
    ensures capacity { vec_capacity into.new ≡ vec_capacity into.old }
{
    let mut left = marks;
    'marks: while left != 0 {
        let bit = take_lowest(&mut left);
        take_word(words, 64 * block + bit, into);
    }
}

/// The bits that are 1 in either words are 1, and the marks that are 1 in either marks. A word that
/// has a bit has its mark, as above; only words with a mark among `more_marks` are read.
pub fn join_marked(words: &mut [u64], marks: &mut [u64], more: &[u64], more_marks: &[u64])
    requires whole { length words.old ≡ 64 * length marks.old }
    requires few { 64 * length words.old ≤ 4294967296 }
    requires as_many { length more.now ≡ length words.old }
    requires as_many_marks { length more_marks.now ≡ length marks.old }
    requires marked { (i : ℕ) → has more.now i ≡ true → has more_marks.now (i / 64) ≡ true }
    ensures words { Unites words.old more.now words.new }
    ensures marks { Unites marks.old more_marks.now marks.new }
{
    let all = marks.len() as u32;
    for block in 0..all {
        join_word(marks, more_marks, block);
        join_block(words, more, block, more_marks[block as usize]);
    }
}

// Joins 64 words, of which only those with a mark are read.
fn join_block(words: &mut [u64], more: &[u64], block: u32, marks: u64)
    requires within { 64 * block + 64 ≤ length words.old }
    requires few { 64 * length words.old ≤ 4294967296 }
    requires as_many { length more.now ≡ length words.old }
    requires marked { (i : ℕ) → 4096 * block ≤ i → i < 4096 * block + 4096
        → has more.now i ≡ true → has_bit marks (i / 64 % 64) ≡ true }
    ensures grows { Grows words.old more.now words.new }
    ensures joined { (i : ℕ) → 4096 * block ≤ i → i < 4096 * block + 4096
        → has more.now i ≡ true → has words.new i ≡ true }
{
    let mut left = marks;
    'marks: while left != 0 {
        let bit = take_lowest(&mut left);
        join_word(words, more, 64 * block + bit);
    }
}

// Joins one word.
fn join_word(words: &mut [u64], more: &[u64], at: u32)
    requires within { at < length words.old }
    requires as_many { length more.now ≡ length words.old }
    ensures grows { Grows words.old more.now words.new }
    ensures joined { (i : ℕ) → i / 64 ≡ at → has more.now i ≡ true → has words.new i ≡ true }
{
    words[at as usize] |= more[at as usize];
}

/// Makes all bits of these words 0. A word that has a bit has its mark, as above; only words with a
/// mark are written, and no mark is left.
pub fn clear_marked(words: &mut [u64], marks: &mut [u64])
    requires whole { length words.old ≡ 64 * length marks.old }
    requires few { 64 * length words.old ≤ 4294967296 }
    requires marked { (i : ℕ) → has words.old i ≡ true → has marks.old (i / 64) ≡ true }
    ensures left { (i : ℕ) → has words.new i ≡ false }
    ensures unmarked { (i : ℕ) → has marks.new i ≡ false }
{
    let count = marks.len() as u32;
    for block in 0..count {
        let left = marks[block as usize];
        marks[block as usize] = 0;
        clear_block(words, block, left);
    }
}

// Makes the bits of 64 words 0, of which only those with a mark are written.
fn clear_block(words: &mut [u64], block: u32, marks: u64)
    requires within { 64 * block + 64 ≤ length words.old }
    requires few { 64 * length words.old ≤ 4294967296 }
    requires marked { (i : ℕ) → 4096 * block ≤ i → i < 4096 * block + 4096
        → has words.old i ≡ true → has_bit marks (i / 64 % 64) ≡ true }
    ensures { Clears words.old words.new (4096 * block) 4096 }
{
    let mut left = marks;
    'marks: while left != 0 {
        let bit = take_lowest(&mut left);
        clear_word(words, 64 * block + bit);
    }
}

// Makes the bits of one word 0.
fn clear_word(words: &mut [u64], at: u32)
    requires { at < length words.old }
    ensures { Clears words.old words.new (64 * at) 64 }
{
    words[at as usize] = 0;
}

// Takes the members of one word.
fn take_word(words: &mut [u64], at: u32, into: &mut Vec<u32>)
    requires within { at < length words.old }
    requires few { 64 * at + 64 ≤ 4294967296 }
    requires room { vec_len into.old + length (those_from (has words.old) (64 * at) 64)
        ≤ vec_capacity into.old }
    ensures taken { into.new.items ≡ into.old.items ++ those_from (has words.old) (64 * at) 64 }
    ensures left { Clears words.old words.new (64 * at) 64 }
    ensures capacity { vec_capacity into.new ≡ vec_capacity into.old }
{
    let word = words[at as usize];
    words[at as usize] = 0;
    push_ones(word, at, into);
}

// Puts in the members that a word stands for, where it is the word `at` of a row.
fn push_ones(word: u64, at: u32, into: &mut Vec<u32>)
    requires few { 64 * at + 64 ≤ 4294967296 }
    requires room { vec_len into.old + length (ones_of word at) ≤ vec_capacity into.old }
    ensures taken { into.new.items ≡ into.old.items ++ ones_of word at }
    ensures capacity { vec_capacity into.new ≡ vec_capacity into.old }
{
    let mut left = word;
    'ones: while left != 0 {
        let bit = take_lowest(&mut left);
        into.push_reserved(64 * at + bit);
    }
}

// Makes the lowest bit that is 1 a 0, and says which it is.
fn take_lowest(word: &mut u64) -> u32
    requires { 0 < word.old }
    ensures { TakesLowest word.old word.new result }
{
    let bit = word.trailing_zeros();
    *word &= !(1u64 << bit);
    bit
}
