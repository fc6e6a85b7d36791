// The program: a schedule on standard input, its printed run on standard output.
#![tactic(auto)]

ghost use Rattle.std.specs.Prelude.{◌≤◌, length};

use std::io::Read;

// Says on standard error what cannot be done.
fn say(rt: &HostRuntime, what: &str) {
    let _ = eprintln!(rt; "bench: {what}");
}

// Whether standard input can be read at all: a read of no bytes takes nothing from it, and fails where it is
// closed or a directory.
fn is_readable(rt: &HostRuntime) -> bool {
    rt.stdin().read(&mut []).is_ok()
}

// Reads until the buffer is full, the input ends or a read fails, and gives how many bytes came. No `for`: the index moves by what was read.
fn read_full(input: &mut impl Read, buf: &mut [u8]) -> usize
    ensures { result ≤ length buf.new }
{
    let mut done = 0;
    while done < buf.len() {
        let n = input.read(&mut buf[done..]).unwrap_or(0);
        if n == 0 {
            break;
        }
        done += n;
    }
    done
}

fn main(rt: HostRuntime) {
    if !is_readable(&rt) {
        say(&rt, "standard input cannot be read");
        return;
    }
    // one byte more than the longest schedule; fixed memory here and below, for there is no heap
    let mut file = [0u8; 16388];
    let n = read_full(&mut rt.stdin(), &mut file);
    let mut out = [0u8; 65536];
    let length = printed::print_run(&file[..n], &mut out);
    if rt.write_all(&out[..length]).is_err() {
        say(&rt, "standard output cannot be written");
    }
}
