// The tables' library for C: both ends make the same table from the same parameters, or from alist text, and write it as text again.
#![tactic(auto)]

ghost use Rattle.std.specs.Prelude.{◌≡◌};
ghost use Rattle.staircase.specs.Staircase.{staircase_answer, staircase_table_after};
ghost use Rattle.alist.specs.Alist.{alist_read_answer, alist_read_table_after};
ghost use Rattle.alist.specs.AlistText.{alist_write_answer, alist_write_text_after};
ghost use Rattle.making.specs.Making.{make_answer_of};
ghost use Rattle.tables.specs.Answers.{answered};

use refusals::Refusal;

// Refusals and kinds are numbers here, and answers plain structs: that is the C interface.

// What a maker answers: the refusal, 0 for none, and how many numbers the table has, or bytes the text.
#[repr(C)]
#[derive(Drop)]
pub struct Making {
    pub refusal: u32,
    pub length: u32,
}

// the same for C
fn for_c(made: Result<u32, Refusal>) -> Making
    ensures { answered result ≡ make_answer_of made }
{
    match made {
        Ok(length) => Making { refusal: 0, length },
        Err(refusal) => Making {
            refusal: refusal.number(),
            length: 0,
        },
    }
}

#[unsafe(no_mangle)]
pub extern "C" fn bs_staircase(
    sources: usize,
    packets: usize,
    ones: usize,
    seed: usize,
    size: usize,
    table: &mut [u16],
) -> Making
    ensures answer { answered result ≡ staircase_answer sources packets ones seed size table.old }
    ensures table { table.new ≡ staircase_table_after sources packets ones seed size table.old }
{
    let made = staircase::make(sources, packets, ones, seed, size, table);
    for_c(made)
}

#[unsafe(no_mangle)]
pub extern "C" fn bs_alist_read(text: &[u8], size: usize, table: &mut [u16]) -> Making
    ensures answer { answered result ≡ alist_read_answer text.now size table.old }
    ensures table { table.new ≡ alist_read_table_after text.now size table.old }
{
    let read = alist_read::read_alist(text, size, table);
    for_c(read)
}

#[unsafe(no_mangle)]
pub extern "C" fn bs_alist_write(table: &[u16], text: &mut [u8]) -> Making
    ensures answer { answered result ≡ alist_write_answer table.now text.old }
    ensures text { text.new ≡ alist_write_text_after table.now text.old }
{
    let written = alist_write::write_alist(table, text);
    for_c(written)
}
