ghost use Rattle.std.specs.Prelude.{◌≡◌, ◌≤◌, ◌↔◌, ◌++◌, length, drop, IsSome, IfSome, nat_eq};
ghost use Rattle.std.specs.Hash as fed;
ghost use Rattle.std.proofs.Common.{rules};
ghost use Rattle.std.specs.Cmp.Rules.{comparing, hashing};
ghost use Rattle.std.specs.Cmp.Lexicographic.{pointwise};
ghost use Rattle.model_numbers.specs.Numbers.{name_limit};

use model_numbers::NAME_LIMIT;
use std::hash::{Hash, Hasher};
use std::marker::Model;

/// A name of at most 128 bytes, kept in place. A contract sees it as the list of its bytes.
#[derive(Clone, Copy, Debug)]
pub struct Name {
    // zero from `len` on, so that equal names are equal in memory
    bytes: [u8; NAME_LIMIT],
    len: u8,
}

impl Model for Name {
    ghost use Rattle.std.specs.Prelude.{◌≡◌, ℕ, ◌-◌, ◌≤◌, List, ◌++◌, length, take, drop, replicate};
    ghost use Rattle.model_numbers.specs.Numbers.{name_limit};
    ghost use Rattle.class_layout.specs.Padding.{padded_again};

    ghost Value = { List ℕ };

    ghost view = { λ n. take n.len n.bytes };

    ghost invariant = { λ n. (n.len ≤ name_limit) × (length n.bytes ≡ name_limit) × (drop n.len n.bytes ≡ replicate (name_limit - n.len) 0) };

    ghost inverse = { λ xs. record { bytes = xs ++ replicate (name_limit - length xs) 0; len = length xs } };

    ghost inverse_ok = { λ n h i. record { bytes = (padded_again n.bytes n.len h.0 h.1 h.2).0 i; len = (padded_again n.bytes n.len h.0 h.1 h.2).1 i } };
}

impl Name {
    /// The name of these bytes, or `None` for more than 128 bytes.
    pub fn of(bytes: &[u8]) -> Option<Name>
        ensures fits { IsSome result ↔ (length bytes.now ≤ name_limit) }
        ensures value { IfSome result (λ name. name ≡ bytes.now) }
    {
        if bytes.len() > NAME_LIMIT {
            return None;
        }
        let mut kept = [0; NAME_LIMIT];
        write_front(&mut kept, bytes);
        Some(Name {
            bytes: kept,
            len: bytes.len() as u8,
        })
    }

    /// The bytes of the name.
    pub fn as_bytes(&self) -> &[u8]
        ensures value { result.now ≡ self.now }
        ensures short { length self.now ≤ name_limit }
    {
        &self.bytes[..self.len as usize]
    }
}

fn write_front(to: &mut [u8], bytes: &[u8])
    requires { length bytes.now ≤ length to.old }
    ensures { to.new ≡ bytes.now ++ drop (length bytes.now) to.old }
{
    to[..bytes.len()].copy_from_slice(bytes);
}

impl PartialEq for Name {
    ghost eq = { pointwise nat_eq };

    ghost laws = { Prim.search (comparing, rules) };

    fn eq(&self, other: &Name) -> bool {
        self.as_bytes() == other.as_bytes()
    }
}

impl Eq for Name {
    ghost laws = { Prim.search (comparing, rules) };
}

impl Hash for Name {
    ghost hash_input = { fed.slice fed.u8 };

    ghost respects_eq = { Prim.search (hashing, rules) };

    fn hash<H: Hasher>(&self, state: &mut H) {
        self.as_bytes().hash(state);
    }
}
