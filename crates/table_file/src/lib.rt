// A table's file as words.
#![tactic(auto)]

ghost use Rattle.std.specs.Prelude.{◌≡◌, ◌+◌, ◌*◌, ◌/◌, ◌%◌, ◌≤◌, length};
ghost use Rattle.table_file.specs.Words.{words_of, words_read, words_after, bytes_of};

// the most bytes and words of a table's file
pub const MOST_BYTES: usize = 13322;

pub const MOST_WORDS: usize = 6661;

// a word of a table's file
fn word(low: u8, high: u8) -> u16
    ensures { result ≡ low + high * 256 }
{
    u16::from(low) + u16::from(high) * 256
}

// 16-bit words, low byte first
fn fill_words(file: &[u8], words: &mut [u16])
    requires { length file.now ≡ 2 * length words.old }
    ensures { words.new ≡ words_of file.now }
{
    for i in 0..words.len() {
        words[i] = word(file[2 * i], file[2 * i + 1]);
    }
}

// How many words a table's file has, and these; none if it has an odd number of bytes, or too many.
pub fn words_in(file: &[u8], words: &mut [u16]) -> Option<usize>
    requires { 6661 ≤ length words.old }
    ensures answer { result ≡ words_read file.now }
    ensures words { words.new ≡ words_after file.now words.old }
{
    if file.len() % 2 != 0 {
        return None;
    }
    if MOST_BYTES < file.len() {
        return None;
    }
    let count = file.len() / 2;
    fill_words(file, &mut words[..count]);
    Some(count)
}

// the low byte of a word
fn low(word: u16) -> u8
    ensures { result ≡ word % 256 }
{
    (word % 256) as u8
}

// its high byte
fn high(word: u16) -> u8
    ensures { result ≡ word / 256 }
{
    (word / 256) as u8
}

// The bytes of a table's file, from its words.
pub fn bytes_of(words: &[u16], file: &mut [u8])
    requires { length file.old ≡ 2 * length words.now }
    ensures { file.new ≡ bytes_of words.now }
{
    for i in 0..words.len() {
        file[2 * i] = low(words[i]);
        file[2 * i + 1] = high(words[i]);
    }
}
