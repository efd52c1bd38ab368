// Prints the packets of one datagram, read on standard input (document 01, "The dump program").
#![tactic(auto)]

ghost use Rattle.std.specs.Prelude.{◌≤◌, length, IfOk};

use std::io;
use std::io::{Print, Read, Stdin};

// One byte more than the longest datagram, which is enough to know that there is more.
const DATAGRAM: usize = 65528;

// Room for the text of every datagram of that length: four times as many bytes, and 64.
const TEXT: usize = 262176;

// Reads until buf is full or the input ends, and answers what was read.
fn read_full(mut from: Stdin, buf: &mut [u8]) -> io::Result<&[u8]>
    ensures { IfOk result (λ s. length s.now ≤ length buf.old) }
{
    let mut n = 0;
    // read_exact would refuse a shorter input
    while n < buf.len() {
        let more = from.read(&mut buf[n..])?;
        if more == 0 {
            break;
        }
        n += more;
    }
    Ok(&buf[..n])
}

fn main(rt: HostRuntime) -> io::Result<()> {
    let mut room = [0u8; DATAGRAM];
    let datagram = read_full(rt.stdin(), &mut room)?;
    let mut text = [0u8; TEXT];
    let Ok(len) = dump_text::dump(datagram, &mut text) else {
        return Ok(());
    };
    rt.stdout().write_all(&text[..len])
}
