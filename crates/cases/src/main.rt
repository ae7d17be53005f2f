// The worked cases: proved from the definitions as one list, and the same cases run.
#![tactic(auto)]

ghost use Rattle.std.specs.Prelude.{◌≡◌};
ghost use Rattle.cases.specs.Worked.{worked_words, WorkedCases};

use isa::codec::unpack;
use std::io;

// The worked words. Every worked case follows from the definitions.
fn words() -> [u64; 3]
    ensures list { result ≡ worked_words }
    ensures hold { WorkedCases }
{
    [
        0x0808_0000_0000_0005,
        0x0800_0000_0000_0005,
        0xa800_0000_0000_0000,
    ]
}

fn main(rt: HostRuntime) -> io::Result<()> {
    for word in words() {
        // two arms, since what they show is of two types
        match unpack(word) {
            Ok(i) => println!(rt; "0x{word:016x} is {i}")?,
            Err(refusal) => println!(rt; "0x{word:016x} is {refusal}")?,
        }
    }
    Ok(())
}
