// Prints the plan of the table that it reads from standard input.
#![tactic(auto)]

use std::io::Print;

fn main(rt: HostRuntime) -> std::io::Result<()> {
    // a byte more than a table's file may have shows that there are too many
    let mut file = [0u8; table_file::MOST_BYTES + 1];
    let Some(n) = text::read_into(&mut rt.stdin(), &rt, &rt.stderr(), &mut file)? else {
        return Ok(());
    };
    let mut out = [0u8; listing::MOST_TEXT];
    let length = listing::list(&file[..n], &mut out);
    Print::write_all(&rt, &out[..length])
}
