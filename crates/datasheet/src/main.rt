// The datasheet program: reads a plan file on standard input, and prints its sheet, or "refused N". What is printed is the work of
// `print_sheet` and `print_lines`; here bytes are only read and written.
#![tactic(auto)]

use std::io;
use std::io::Write;

fn main(rt: HostRuntime) -> io::Result<()> {
    let mut input = rt.stdin();
    let mut output = rt.stdout();
    let mut buf = [0u8; streams::BUFFER];
    let end = streams::read_plan(&mut input, &mut buf)?;
    let mut out = [0u8; print_sheet::SHEET];
    let sheet = print_sheet::sheet(&buf[..end], &mut out);
    let Ok(length) = sheet else {
        return streams::print_refused(&mut output, refusals::code(&sheet));
    };
    output.write_all(&out[..length])
}
