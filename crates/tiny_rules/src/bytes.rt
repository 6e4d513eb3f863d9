// The rules that ask something of one byte: 9 of a byte of the pool, and 10 of an index.
ghost use Rattle.std.specs.Prelude.{◌≡◌, ◌<◌};
ghost use Rattle.tiny_rules.specs.Rules.{unfit, beyond};

use octets::byte_at;
use octets::label::is_text;

// Rule 9 at a byte of a pool that ends at `to`.
pub fn unfit_at(image: &[u8], to: usize, at: usize) -> Option<usize>
    requires { at < to }
    ensures { result ≡ unfit image.now to at }
{
    let b = byte_at(image, at);
    (!is_text(b % 128) || at + 1 == to && b < 128).then_some(at)
}

// Rule 10 at an index, where there are so many strings.
pub fn beyond_at(image: &[u8], count: usize, at: usize) -> Option<usize>
    ensures { result ≡ beyond image.now count at }
{
    (count <= byte_at(image, at) as usize).then_some(at)
}
