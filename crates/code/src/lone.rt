// The least code: one user and one position.
ghost use Rattle.std.specs.Prelude.{◌≡◌};
ghost use Rattle.code.specs.Meaning.{symbol_at, lone};
ghost use Rattle.code.specs.Symbols.{lone_laws};

use crate::Code;

// The user's key number at a position, which is 0 where both are.
pub fn lone_symbol(user: u64, position: usize) -> Option<u8>
    ensures { result ≡ symbol_at lone user position }
{
    (user == 0 && position == 0).then_some(0)
}

// The least code as a value.
#[derive(Clone, Copy)]
pub struct Lone;

impl Code for Lone {
    ghost meaning = { λ _. lone };

    ghost lawful = { λ c. lone_laws };

    fn users(&self) -> u64 {
        1 // user 0
    }

    fn length(&self) -> usize {
        1 // position 0
    }

    fn alphabet(&self) -> u16 {
        2
    }

    fn overlap(&self) -> usize {
        0
    }

    fn symbol(&self, user: u64, position: usize) -> Option<u8> {
        lone_symbol(user, position)
    }
}
