// Lists one payload, read from standard input: at most 4,097 bytes of it.
#![tactic(auto)]

use std::io;

fn main(rt: HostRuntime) -> io::Result<()> {
    let mut payload = [0; printing::ROOM];
    let n = printing::read_full(&mut rt.reader(), &mut payload)?;
    printing::list(&rt, &payload[..n])
}
