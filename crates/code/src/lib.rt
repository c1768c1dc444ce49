// Codes, which give each user a table of key numbers: an interface with a meaning and laws, and the concatenation of any two codes.
#![tactic(auto)]

ghost use Rattle.std.specs.Prelude.{◌≡◌, ◌<◌, ◌≤◌, IfSome, ◌==◌, ◌≢◌};
ghost use Rattle.code.specs.Meaning.{CodeMeaning, CodeLaws, symbol_at, shared_positions};

mod concatenation;
mod lone;

pub use concatenation::Concatenation;
pub use lone::{Lone, lone_symbol};

// A code. What an implementation means is four numbers and a table for each user, and it owes the laws of codes.
pub trait Code {
    ghost meaning: { Self → CodeMeaning };

    // How many users there are: 1 to 2^32, numbered from 0.
    fn users(&self) -> u64
        ensures { result ≡ (meaning self.now).users };

    // How many positions a table has: 1 to 8,192.
    fn length(&self) -> usize
        ensures { result ≡ (meaning self.now).length };

    // How many key numbers there are: 2 to 256.
    fn alphabet(&self) -> u16
        ensures { result ≡ (meaning self.now).alphabet };

    // In how many positions two users' tables agree at most.
    fn overlap(&self) -> usize
        ensures { result ≡ (meaning self.now).overlap };

    // The user's key number at a position; None exactly if the user or the position is out of range.
    fn symbol(&self, user: u64, position: usize) -> Option<u8>
        ensures { result ≡ symbol_at (meaning self.now) user position };

    ghost lawful: { (c : Self) → CodeLaws (meaning c) };
}

// In how many positions the tables of two users agree, which is at most the overlap unless they are one user;
// None exactly if one of the users is out of range.
pub fn shared_positions<C: Code>(code: &C, u: u64, v: u64) -> Option<usize>
    ensures counted { result ≡ shared_positions (C.Code.meaning code.now) u v }
    ensures few { IfSome result (λ n. (u ≢ v) → n ≤ (C.Code.meaning code.now).overlap) }
{
    if u >= code.users() || v >= code.users() {
        return None;
    }
    let count = (0..code.length())
        .filter(|&position| code.symbol(u, position) == code.symbol(v, position))
        .count();
    Some(count)
}
