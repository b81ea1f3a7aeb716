// Standard input.
ghost use Rattle.show.specs.Fronts.{IsPrefixLen};

use std::io::{Read, Stdin};

// One read to the front of the buffer: how many bytes came, 0 at the end of the input and where it cannot be read.
pub fn read_some(mut input: Stdin, buffer: &mut [u8]) -> usize
    ensures { IsPrefixLen result buffer.new }
{
    input.read(buffer).unwrap_or(0)
}

// Reads until the buffer is full or nothing comes.
pub fn read_full(input: Stdin, buffer: &mut [u8]) -> usize
    ensures { IsPrefixLen result buffer.new }
{
    let mut done = 0;
    // A while: each turn goes on by as many bytes as came, so no range gives it.
    while done < buffer.len() {
        let n = read_some(input, &mut buffer[done..]);
        if n == 0 {
            break;
        }
        done += n;
    }
    done
}
