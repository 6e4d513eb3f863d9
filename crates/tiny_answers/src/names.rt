// The name, into buffers of several sizes.
ghost use Rattle.std.specs.Prelude.{◌≤◌, length};

use super::answers::Answers;
use console::show::Hex;
use console::words::InNumbers;
use std::io;
use tiny::name;

impl<P: Print> Answers<'_, P> {
    // The name with the first `size` bytes of a block lent, and what the block then holds.
    fn put_name(&self, size: usize, block: &mut [u8]) -> io::Result<()>
        requires { size ≤ length block.old }
    {
        print!(self.out; "name {size} ")?;
        match name(self.image, self.kinds, &mut block[..size]) {
            Ok(n) => print!(self.out; "length {n}")?,
            Err(refusal) => print!(self.out; "refused {}", InNumbers(refusal))?,
        }
        println!(self.out; " {}", Hex(block))
    }

    // Each time with a block of AAh.
    pub fn put_names(&self) -> io::Result<()> {
        for size in [0, 3, 4] {
            self.put_name(size, &mut [0xAAu8; 8])?;
        }
        self.put_name(255, &mut [0xAAu8; 255])
    }
}
