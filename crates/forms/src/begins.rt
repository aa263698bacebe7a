// How every stored form begins: a version byte, then the length of the whole form.
ghost use Rattle.std.specs.Prelude.{◌≡◌, ◌≤◌, length};
ghost use Rattle.forms.specs.Begins.{begins_with};

use crate::words;

pub const VERSION: u8 = 1;

// The bytes begin with the version and this length.
#[tactic(auto, unfolding(crate::specs::Begins::begins_with))]
pub fn begins(bytes: &[u8], long: usize) -> bool
    requires { 5 ≤ length bytes.now }
    ensures { result ≡ begins_with bytes.now long }
{
    bytes[0] == VERSION && words::read32(bytes, 1) == long
}
